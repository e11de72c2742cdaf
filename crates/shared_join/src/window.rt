ghost use Rattle.std.specs.Prelude.{◌≡◌, ◌<◌, ◌++◌, unwrap_or, [], IfOk, OnOk};
ghost use Rattle.std.specs.List.{flat_map};
ghost use Rattle.std.specs.List.Sorted.{IsSortedBy, IsStableBy};
ghost use Rattle.std.specs.Ordering.{is_lt};
ghost use Rattle.views.specs.Pairs.{compare, by_numbers};
ghost use Rattle.shared_join.specs.Lanes.{met_at};
ghost use Rattle.shared_join.specs.Window.{side, shown, starts_between, row_shown, lane_shown};

use crate::lanes::{Lane, pairs_at};
use crate::pair::Pair;
use as_base::{Couple, Couples, NoMemory};
use slice_store::Slices;
use std::alloc::Global;

/// Which pairs a window wants: those of a slot, of slices that begin at `from` or later, and before `to`, in ticks; turned
/// where the record of the second stream is to stand on the left.
#[derive(Clone, Copy)]
pub(crate) struct Window {
    pub slot: u16,
    pub from: u64,
    pub to: u64,
    pub turned: bool,
}

// The numbers of a pair's row, from left to right: the key, the left record's time and values, the right record's.
type Numbers = (i64, u64, [i64; 4], u64, [i64; 4]);

// The pair, turned or not.
fn couple_of(pair: &Pair, turned: bool) -> Couple
    ensures { result ≡ side turned pair.now }
{
    let (left, right) = (pair.left, pair.right);
    if turned {
        Couple {
            left: right,
            right: left,
        }
    } else {
        Couple { left, right }
    }
}

// Adds the pair, if the slot has it.
fn push_shown(pair: &Pair, window: &Window, couples: &mut Vec<Couple>) -> Result<(), NoMemory>
    requires { window.now.slot < 512 }
    ensures { OnOk result (couples.new.items ≡ couples.old.items ++ shown window.now pair.now) }
{
    if !pair.set.test(window.slot) {
        return Ok(());
    }
    couples.push(couple_of(pair, window.turned))?;
    Ok(())
}

// Adds the pairs that the slot has.
fn push_all_shown(
    pairs: &[Pair],
    window: &Window,
    couples: &mut Vec<Couple>,
) -> Result<(), NoMemory>
    requires { window.now.slot < 512 }
    ensures { OnOk result (couples.new.items ≡ couples.old.items ++ flat_map (shown window.now) pairs.now) }
{
    for pair in pairs {
        push_shown(pair, window, couples)?;
    }
    Ok(())
}

// Adds the pairs of the slice that begins at `first` with those slices of the other stream that begin in the range.
fn push_row(
    lane: &Lane,
    first: u64,
    others: &Slices,
    window: &Window,
    couples: &mut Vec<Couple>,
) -> Result<(), NoMemory>
    requires { window.now.slot < 512 }
    ensures { OnOk result (couples.new.items ≡
        couples.old.items ++ flat_map (row_shown window.now lane.now first) (starts_between window.now others.now)) }
{
    let count = others.len();
    let (low, past) = others.within(window.from, window.to);
    let (low, past) = (low.min(count), past.min(count));
    for place in low..past {
        push_all_shown(pairs_at(lane, first, others.start(place)), window, couples)?;
    }
    Ok(())
}

// Adds the pairs of all slices that begin in the range.
fn push_lane(
    lane: &Lane,
    ones: &Slices,
    others: &Slices,
    window: &Window,
    couples: &mut Vec<Couple>,
) -> Result<(), NoMemory>
    requires { window.now.slot < 512 }
    ensures { OnOk result (couples.new.items ≡ couples.old.items ++ lane_shown window.now lane.now ones.now others.now) }
{
    let count = ones.len();
    let (low, past) = ones.within(window.from, window.to);
    let (low, past) = (low.min(count), past.min(count));
    for place in low..past {
        push_row(lane, ones.start(place), others, window, couples)?;
    }
    Ok(())
}

// The numbers of the row of the pair.
fn numbers_of(couple: &Couple) -> Numbers
    ensures { result ≡ (couple.now.left.key, couple.now.left.time, couple.now.left.v, couple.now.right.time, couple.now.right.v) }
{
    let (left, right) = (&couple.left, &couple.right);
    (left.key, left.time, left.v, right.time, right.v)
}

// Sorts the pairs by the numbers of their rows. Equal ones stay as they are.
fn sort_by_numbers(couples: &mut Vec<Couple>) -> Result<(), NoMemory>
    ensures order { OnOk result (IsSortedBy (λ c d. is_lt (compare c d)) couples.new.items) }
    ensures stable { OnOk result (IsStableBy (λ c d. is_lt (compare c d)) couples.old.items couples.new.items) }
{
    couples.sort_by_key(|couple| numbers_of(couple))?;
    Ok(())
}

/// The pairs that a window wants, in the order of the numbers of their rows. The one refusal is `NoMemory`.
pub(crate) fn couples_of(
    alloc: Global,
    lane: &Lane,
    ones: &Slices,
    others: &Slices,
    window: &Window,
) -> Result<Couples, NoMemory>
    requires { window.now.slot < 512 }
    ensures { IfOk result (λ couples. couples ≡ by_numbers (lane_shown window.now lane.now ones.now others.now)) }
{
    let mut couples = Vec::new(alloc);
    push_lane(lane, ones, others, window, &mut couples)?;
    sort_by_numbers(&mut couples)?;
    Ok(Couples::from_vec(couples))
}
