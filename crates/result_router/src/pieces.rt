//! The pieces of text that fragments make.

ghost use Rattle.std.specs.Prelude.{◌≡◌, ◌++◌, IfOk, OnOk};
ghost use Rattle.as_base.specs.Pieces.{ArePieces};
ghost use Rattle.result_router.specs.Held.{fragments_of};
ghost use Rattle.result_router.specs.Lent.{lent, AreBy};
ghost use Rattle.result_router.specs.Merge.{text_for, piece_with, piece_for, pieces_of};
ghost use Rattle.result_router.specs.Rising.{number_of, start_of};
ghost use Rattle.result_router.specs.Sound.{AreSound, AreSoundOfQuery};

use crate::lent::{all_fragments, end_of_query, end_of_window, sort_by_number, sorted_by_start};
use crate::rows::append_window;
use as_base::{Bytes, Fragment, NoMemory, Piece, Pieces, Reply};
use std::alloc::Global;

// The text of the windows of fragments of one query that stand by start.
fn text_of_sorted(alloc: Global, fragments: &[&Fragment]) -> Result<Vec<u8>, NoMemory>
    requires order { AreBy start_of fragments.now }
    requires sound { AreSoundOfQuery (lent fragments.now) }
    ensures { IfOk result (λ text. text.items ≡ text_for (lent fragments.now)) }
{
    let mut text = Vec::new(alloc);
    let mut done = 0;
    while done < fragments.len() {
        let until = end_of_window(fragments, done);
        append_window(alloc, &fragments[done..until], &mut text)?;
        done = until;
    }
    Ok(text)
}

// The text of the fragments of one query.
fn text_for(alloc: Global, fragments: &[&Fragment]) -> Result<Vec<u8>, NoMemory>
    requires { AreSoundOfQuery (lent fragments.now) }
    ensures { IfOk result (λ text. text.items ≡ text_for (lent fragments.now)) }
{
    text_of_sorted(alloc, &sorted_by_start(alloc, fragments)?)
}

// Appends the piece of these bytes for query n, if there are any.
fn push_piece(n: u64, bytes: Vec<u8>, pieces: &mut Vec<Piece>) -> Result<(), NoMemory>
    ensures { OnOk result (pieces.new.items ≡ pieces.old.items ++ piece_with n bytes.items) }
{
    if bytes.is_empty() {
        return Ok(());
    }
    pieces.push(Piece {
        n,
        bytes: Bytes::from_vec(bytes),
    })?;
    Ok(())
}

// Appends the piece of the fragments of one query.
fn push_query(
    alloc: Global,
    fragments: &[&Fragment],
    pieces: &mut Vec<Piece>,
) -> Result<(), NoMemory>
    requires { AreSoundOfQuery (lent fragments.now) }
    ensures { OnOk result (pieces.new.items ≡ pieces.old.items ++ piece_for (lent fragments.now)) }
{
    match fragments.first() {
        Some(first) => push_piece(first.n, text_for(alloc, fragments)?, pieces),
        None => Ok(()),
    }
}

// The pieces of fragments that stand by the number of their query.
fn pieces_of_sorted(alloc: Global, fragments: &[&Fragment]) -> Result<Vec<Piece>, NoMemory>
    requires order { AreBy number_of fragments.now }
    requires sound { AreSound (lent fragments.now) }
    ensures { IfOk result (λ pieces. pieces.items ≡ pieces_of (lent fragments.now)) }
{
    let mut pieces = Vec::new(alloc);
    let mut done = 0;
    while done < fragments.len() {
        let until = end_of_query(fragments, done);
        push_query(alloc, &fragments[done..until], &mut pieces)?;
        done = until;
    }
    Ok(pieces)
}

/// The pieces of the fragments of all replies, by rising query number and none empty. The one refusal is `NoMemory`.
pub fn pieces_of(alloc: Global, held: &[Option<Reply>]) -> Result<Pieces, NoMemory>
    requires { AreSound (fragments_of held.now) }
    ensures value { IfOk result (λ pieces. pieces ≡ pieces_of (fragments_of held.now)) }
    ensures order { IfOk result ArePieces }
{
    let mut fragments = all_fragments(alloc, held)?;
    sort_by_number(&mut fragments)?;
    let pieces = pieces_of_sorted(alloc, &fragments)?;
    Ok(Pieces::from_vec(pieces))
}
