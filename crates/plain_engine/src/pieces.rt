ghost use Rattle.std.specs.Prelude.{◌≡◌, ◌++◌, map, IfOk, OnOk};
ghost use Rattle.std.specs.List.{flat_map};
ghost use Rattle.std.specs.List.Sorted.{IsStrictlyIncreasing};
ghost use Rattle.as_base.specs.Pieces.{ArePieces};
ghost use Rattle.plain_engine.specs.Held.{Held};
ghost use Rattle.plain_engine.specs.Holding.{mark_by, due_text, piece_of, piece_due};

use crate::holding::Holding;
use crate::marks::mark_by;
use as_base::{Bytes, NoMemory, Piece, Pieces};
use std::alloc::Global;

// The rows that become due to the query where these watermarks become those.
fn rows_due(
    alloc: Global,
    holding: &Holding,
    marks: &[u64; 4],
    later: &[u64; 4],
) -> Result<Vec<u8>, NoMemory>
    ensures { IfOk result (λ rows. rows.items
        ≡ due_text (mark_by marks.now holding.now.plan) (mark_by later.now holding.now.plan) holding.now) }
{
    let mut rows = Vec::new(alloc);
    let plan = holding.plan();
    holding.append_due(alloc, mark_by(marks, plan), mark_by(later, plan), &mut rows)?;
    Ok(rows)
}

// Appends the piece of these rows for query n, if there are any.
fn push_piece(n: u64, rows: Vec<u8>, pieces: &mut Vec<Piece>) -> Result<(), NoMemory>
    ensures { OnOk result (pieces.new.items ≡ pieces.old.items ++ piece_of n rows.items) }
{
    if rows.is_empty() {
        return Ok(());
    }
    pieces.push(Piece {
        n,
        bytes: Bytes::from_vec(rows),
    })?;
    Ok(())
}

/// For each query the piece of the rows that become due to it where these watermarks become those, if there are any, by
/// rising number. The one refusal is `NoMemory`.
pub fn pieces_of(
    alloc: Global,
    held: &[Holding],
    marks: &[u64; 4],
    later: &[u64; 4],
) -> Result<Pieces, NoMemory>
    requires { IsStrictlyIncreasing (map (λ (h : Held). h.n) held.now) }
    ensures rows { IfOk result (λ pieces. pieces ≡ flat_map (piece_due marks.now later.now) held.now) }
    ensures order { IfOk result ArePieces }
{
    let mut pieces = Vec::new(alloc);
    for holding in held {
        let rows = rows_due(alloc, holding, marks, later)?;
        push_piece(holding.number(), rows, &mut pieces)?;
    }
    Ok(Pieces::from_vec(pieces))
}
