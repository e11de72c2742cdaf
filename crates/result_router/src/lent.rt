//! Fragments that are lent, by the number of their query and by where their window begins.

ghost use Rattle.std.specs.Prelude.{◌≡◌, ◌≤◌, ◌<◌, ◌-◌, ◌++◌, length, take, drop, IfOk, OnOk};
ghost use Rattle.result_router.specs.Held.{fragments_in, fragments_of};
ghost use Rattle.result_router.specs.Lent.{lent, AreBy};
ghost use Rattle.result_router.specs.Merge.{window_text, text_for, piece_for, pieces_of};
ghost use Rattle.result_router.specs.Rising.{number_of, start_of};
ghost use Rattle.result_router.specs.Sound.{AreSound, AreSoundOfQuery, AreSoundOfWindow};

use as_base::{Fragment, NoMemory, Reply};
use std::alloc::Global;

// Appends the fragments of a reply.
fn append_fragments<'a>(
    fragments: &'a [Fragment],
    all: &mut Vec<&'a Fragment>,
) -> Result<(), NoMemory>
    ensures { OnOk result (lent all.new.items ≡ lent all.old.items ++ fragments.now) }
{
    for fragment in fragments {
        all.push(fragment)?;
    }
    Ok(())
}

// Appends the fragments of the reply that is held, if one is.
fn append_held<'a>(held: &'a Option<Reply>, all: &mut Vec<&'a Fragment>) -> Result<(), NoMemory>
    ensures { OnOk result (lent all.new.items ≡ lent all.old.items ++ fragments_in held.now) }
{
    match held {
        Some(reply) => append_fragments(reply.fragments.as_slice(), all),
        None => Ok(()),
    }
}

/// The fragments of all replies, part after part. The one refusal is `NoMemory`.
pub fn all_fragments(alloc: Global, held: &[Option<Reply>]) -> Result<Vec<&Fragment>, NoMemory>
    ensures { IfOk result (λ all. lent all.items ≡ fragments_of held.now) }
{
    let mut all = Vec::new(alloc);
    for reply in held {
        append_held(reply, &mut all)?;
    }
    Ok(all)
}

/// Sorts fragments by the number of their query. Those of one query stay as they are.
pub fn sort_by_number(fragments: &mut Vec<&Fragment>) -> Result<(), NoMemory>
    ensures order { OnOk result (AreBy number_of fragments.new.items) }
    ensures pieces { OnOk result (pieces_of (lent fragments.new.items) ≡ pieces_of (lent fragments.old.items)) }
    ensures sound { OnOk result (AreSound (lent fragments.old.items) → AreSound (lent fragments.new.items)) }
{
    fragments.sort_by_key(|fragment| fragment.n)?;
    Ok(())
}

/// The fragments by where their window begins. Those of one window stay as they are. The one refusal is `NoMemory`.
pub fn sorted_by_start<'a>(
    alloc: Global,
    fragments: &[&'a Fragment],
) -> Result<Vec<&'a Fragment>, NoMemory>
    ensures order { IfOk result (λ sorted. AreBy start_of sorted.items) }
    ensures text { IfOk result (λ sorted. text_for (lent sorted.items) ≡ text_for (lent fragments.now)) }
    ensures sound { IfOk result (λ sorted. AreSoundOfQuery (lent fragments.now) → AreSoundOfQuery (lent sorted.items)) }
{
    let mut sorted = Vec::from_slice(alloc, fragments)?;
    sorted.sort_by_key(|fragment| fragment.start)?;
    Ok(sorted)
}

/// Where the fragments of the query of the one at `from` end, of fragments that stand by the number of their query.
pub fn end_of_query(fragments: &[&Fragment], from: usize) -> usize
    requires within { from < length fragments.now }
    requires order { AreBy number_of fragments.now }
    ensures within { (from < result) × (result ≤ length fragments.now) }
    ensures value { pieces_of (lent (drop from fragments.now))
        ≡ piece_for (lent (take (result - from) (drop from fragments.now))) ++ pieces_of (lent (drop result fragments.now)) }
    ensures sound { AreSound (lent fragments.now) → AreSoundOfQuery (lent (take (result - from) (drop from fragments.now))) }
{
    let n = fragments[from].n;
    fragments.partition_point(|fragment| fragment.n <= n)
}

/// Where the fragments of the window of the one at `from` end, of fragments of one query that stand by start.
pub fn end_of_window(fragments: &[&Fragment], from: usize) -> usize
    requires within { from < length fragments.now }
    requires order { AreBy start_of fragments.now }
    ensures within { (from < result) × (result ≤ length fragments.now) }
    ensures value { text_for (lent (drop from fragments.now))
        ≡ window_text (lent (take (result - from) (drop from fragments.now))) ++ text_for (lent (drop result fragments.now)) }
    ensures sound { AreSoundOfQuery (lent fragments.now) → AreSoundOfWindow (lent (take (result - from) (drop from fragments.now))) }
{
    let start = fragments[from].start;
    fragments.partition_point(|fragment| fragment.start <= start)
}
