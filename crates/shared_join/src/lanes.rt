ghost use Rattle.std.specs.Prelude.{◌≡◌, ℕ, ◌<◌, ◌==◌, ◌&&◌, if◌then◌else◌, Some, None, [], length, unwrap_or, is_some, IfOk, OnOk, OnErr};
ghost use Rattle.by_start.specs.Order.{look, start_at, with_begun, with_thing};
ghost use Rattle.shared_join.specs.Lanes.{row_in, met_at, cut, cut_rows};

use crate::pair::Pair;
use as_base::{Listed, NoMemory};
use by_start::ByStart;
use std::alloc::Global;

/// The pairs of a slice with slices of another stream, by the starts of these.
pub(crate) type Row = ByStart<Listed<Pair>>;

/// The pairs of the slices of two streams, a row for each slice of the first, by its start.
pub(crate) type Lane = ByStart<Row>;

// The pairs with the slice that begins at `second`; none where there is no entry for it.
fn pairs_in(row: &Row, second: u64) -> &[Pair]
    ensures { result.now ≡ unwrap_or (look second row.now) [] }
{
    match row.find(second) {
        Some(place) => row.thing(place).as_slice(),
        None => &[],
    }
}

/// The pairs of the slices that begin at `first` and `second`; none where these were not joined.
pub(crate) fn pairs_at(lane: &Lane, first: u64, second: u64) -> &[Pair]
    ensures { result.now ≡ unwrap_or (met_at lane.now first second) [] }
{
    match lane.find(first) {
        Some(place) => pairs_in(lane.thing(place), second),
        None => &[],
    }
}

// Whether the row has an entry for the slice that begins at `second`.
fn has_entry(row: &Row, second: u64) -> bool
    ensures { result ≡ is_some (look second row.now) }
{
    match row.find(second) {
        Some(_) => true,
        None => false,
    }
}

/// Whether the slices that begin at `first` and `second` were joined.
pub(crate) fn has_met(lane: &Lane, first: u64, second: u64) -> bool
    ensures { result ≡ is_some (met_at lane.now first second) }
{
    match lane.find(first) {
        Some(place) => has_entry(lane.thing(place), second),
        None => false,
    }
}

// Puts an entry that is not there yet into the row at a place.
fn put_in_row(
    lane: &mut Lane,
    place: usize,
    second: u64,
    pairs: Listed<Pair>,
) -> Result<(), NoMemory>
    requires within { place < length lane.old }
    requires fresh { look second (row_in place lane.old) ≡ None }
    ensures looks { OnOk result ((c : ℕ) → look c lane.new ≡
        (if c == start_at place lane.old then Some (with_begun second pairs (row_in place lane.old)) else look c lane.old)) }
    ensures err { OnErr result (lane.new ≡ lane.old) }
{
    lane.thing_mut(place).insert(second, pairs)
}

// A row of one entry.
fn new_row(alloc: Global, second: u64, pairs: Listed<Pair>) -> Result<Row, NoMemory>
    ensures { IfOk result (λ row. row ≡ with_begun second pairs []) }
{
    let mut row = ByStart::new(alloc);
    row.insert(second, pairs)?;
    Ok(row)
}

/// Keeps the pairs of two slices that were not joined yet. The one refusal is `NoMemory`, after which nothing has changed.
pub(crate) fn put(
    lane: &mut Lane,
    alloc: Global,
    first: u64,
    second: u64,
    pairs: Listed<Pair>,
) -> Result<(), NoMemory>
    requires { met_at lane.old first second ≡ None }
    ensures ok { OnOk result ((c d : ℕ) →
        met_at lane.new c d ≡ (if (c == first) && (d == second) then Some pairs else met_at lane.old c d)) }
    ensures err { OnErr result (lane.new ≡ lane.old) }
{
    match lane.find(first) {
        Some(place) => put_in_row(lane, place, second, pairs),
        None => {
            let row = new_row(alloc, second, pairs)?;
            lane.insert(first, row)
        }
    }
}

/// Lets what begins there go.
pub(crate) fn cut<T: Drop>(list: &mut ByStart<T>, start: u64)
    ensures { list.new ≡ cut start list.old }
{
    let Some(place) = list.find(start) else {
        return;
    };
    let _count = list.len();
    list.remove(place);
}

// Lets an entry of the row at a place go.
fn cut_in_row(lane: &mut Lane, place: usize, second: u64)
    requires { place < length lane.old }
    ensures { lane.new ≡ with_thing place lane.old (cut second (row_in place lane.old)) }
{
    cut(lane.thing_mut(place), second);
}

/// Lets the entries of a second slice go, in each row.
pub(crate) fn cut_entries(lane: &mut Lane, second: u64)
    ensures { lane.new ≡ cut_rows second (length lane.old) lane.old }
{
    for place in 0..lane.len() {
        cut_in_row(lane, place, second);
    }
}
