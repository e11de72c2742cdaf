//! Which slots' queries wait at the beginning of a slice, and for what.

ghost use Rattle.std.specs.Prelude.{◌≡◌, ◌<◌, ◌^◌, true, if◌then◌else◌, slice_set};
ghost use Rattle.as_base.specs.Windows.{fits, last_window, end_of};
ghost use Rattle.part_state.specs.Entries.{holder_of, holders_in, IsSafe, AreSafe};
ghost use Rattle.part_state.specs.Waiting.{has_open, suits, waits, waiting, slots_of};

use crate::entries::{Entries, Entry, mark_for};
use as_base::{FOREVER, Kind, WinSpec};
use queryset_lanes::QuerySet;

/// What a query is, at the beginning of a slice.
#[derive(Clone, Copy)]
pub(crate) enum Wait {
    /// A selection.
    Selecting,
    /// A join that has a window there which is not passed.
    Joining,
    /// A sum or a count whose windows there are passed.
    Passed,
}

// The end of the last window that holds a time.
fn last_end(win: &WinSpec, t: u64) -> u64
    requires fits { fits win.now ≡ true }
    requires time { t < 2 ^ 62 }
    ensures { result ≡ end_of win.now (last_window win.now t) }
{
    t - t % win.slide + win.size
}

// The last window that holds the time is not passed.
fn has_open(e: &Entry, marks: &[u64; 4], start: u64) -> bool
    requires safe { IsSafe e.now }
    requires time { start < 2 ^ 62 }
    ensures { result ≡ has_open marks.now start (holder_of e.now) }
{
    mark_for(e, marks) < last_end(&e.plan.win, start).min(e.to)
}

// The query is such a one there.
fn suits(e: &Entry, wait: Wait, marks: &[u64; 4], start: u64) -> bool
    requires safe { IsSafe e.now }
    requires time { start < 2 ^ 62 }
    ensures { result ≡ suits wait marks.now start (holder_of e.now) }
{
    match (wait, e.plan.kind) {
        (Wait::Selecting, Kind::Select) => true,
        (Wait::Joining, Kind::Join) => has_open(e, marks, start),
        (Wait::Passed, Kind::Sum(_) | Kind::Count) => !has_open(e, marks, start),
        _ => false,
    }
}

// The query lives at the beginning of the slice, and is such a one.
fn waits(e: &Entry, wait: Wait, marks: &[u64; 4], start: u64) -> bool
    requires safe { IsSafe e.now }
    requires time { start < 2 ^ 62 }
    ensures { result ≡ waits wait marks.now start (holder_of e.now) }
{
    e.from <= start && start < e.to && suits(e, wait, marks, start)
}

// The set with the query's slot, if it waits.
fn with_waiting(set: &QuerySet, e: &Entry, wait: Wait, marks: &[u64; 4], start: u64) -> QuerySet
    requires safe { IsSafe e.now }
    requires time { start < 2 ^ 62 }
    ensures { result ≡ (if waits wait marks.now start (holder_of e.now) then slice_set set.now e.now.slot true else set.now) }
{
    if waits(e, wait, marks, start) {
        return set.with(e.slot, true);
    }
    *set
}

// The slots of the queries that wait.
fn slots_in(entries: &[Entry], wait: Wait, marks: &[u64; 4], start: u64) -> QuerySet
    requires safe { AreSafe entries.now }
    requires time { start < 2 ^ 62 }
    ensures { result ≡ slots_of (waits wait marks.now start) (holders_in entries.now) }
{
    let mut set = QuerySet::none();
    for e in entries {
        set = with_waiting(&set, e, wait, marks, start);
    }
    set
}

/// The slots of the queries that wait so at the beginning of a slice, in ticks.
pub(crate) fn slots_waiting(entries: &Entries, wait: Wait, marks: &[u64; 4], start: u64) -> QuerySet
    ensures { result ≡ waiting wait marks.now start entries.now }
{
    if FOREVER <= start {
        return QuerySet::none();
    }
    slots_in(entries.as_slice(), wait, marks, start)
}
