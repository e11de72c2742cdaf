ghost use Rattle.std.specs.Prelude.{◌≡◌, ℤ, ◌≤◌, ◌<◌, ◌-◌, ◌≤ℤ◌, ◌+ℤ◌, pos, if◌then◌else◌};
ghost use Rattle.std.specs.Prelude.{IfNone, IfSome, IsTrue, length, map, slice_index_or};
ghost use Rattle.std.specs.List.{insert};
ghost use Rattle.as_base.specs.Query.{highest};
ghost use Rattle.box_lanes.specs.declared.start.Start.{Start};
ghost use Rattle.box_lanes.specs.Index.{look, last_start, IsTable, IsBefore, IsUntil, IsCut, HasEnds, IsMarked, put_slot, put_within};

use crate::start::Start;
use queryset_lanes::QuerySet;

// How many starts are before the value.
fn count_before(starts: &[Start], value: i64) -> usize
    requires { IsTable starts.now }
    ensures bound { result ≤ length starts.now }
    ensures place { IsBefore value starts.now result }
{
    starts.partition_point(|start| start.low < value)
}

// How many starts are not after the value.
#[inline]
pub(crate) fn count_until(starts: &[Start], value: i64) -> usize
    requires { IsTable starts.now }
    ensures some { 0 < result }
    ensures bound { result ≤ length starts.now }
    ensures place { IsUntil value starts.now result }
    ensures last { (d : Start) → slice_index_or starts.now (result - 1) d ≡ last_start starts.now value }
{
    starts.partition_point(|start| start.low <= value)
}

// Inserts a start, or answers `false` where there is no room for one more.
fn insert_in_room(starts: &mut Vec<Start>, place: usize, start: Start) -> bool
    requires { place ≤ length starts.old.items }
    ensures { starts.new.items ≡ (if result then insert starts.old.items place start else starts.old.items) }
{
    if starts.len() == starts.capacity() {
        return false;
    }
    starts.insert(place, start).is_ok()
}

// Makes the value a start, or answers `false` where there is no room for one more.
fn cut(starts: &mut Vec<Start>, value: i64) -> bool
    requires { IsTable starts.old.items }
    ensures table { IsTable starts.new.items }
    ensures made { IsTrue result → IsCut value starts.old.items starts.new.items }
{
    let after = count_until(starts, value);
    let last = &starts[after - 1];
    if last.low == value {
        return true;
    }
    let set = last.set;
    insert_in_room(starts, after, Start { low: value, set })
}

// The value that follows the greatest of an interval, unless that is the greatest of all.
fn after(high: i64) -> Option<i64>
    ensures none { IfNone result (highest ≤ℤ high) }
    ensures some { IfSome result (λ past. past ≡ high +ℤ pos 1) }
{
    high.checked_add(1)
}

// Makes the ends of the interval starts: its least value, and the one that follows its greatest.
fn cut_ends(starts: &mut Vec<Start>, low: i64, high: i64) -> bool
    requires { IsTable starts.old.items }
    ensures table { IsTable starts.new.items }
    ensures made { IsTrue result → HasEnds low high starts.old.items starts.new.items }
{
    if !cut(starts, low) {
        return false;
    }
    let Some(past) = after(high) else {
        return true;
    };
    cut(starts, past)
}

// Sets the slot, or takes it away, at each of these starts.
fn put_all(starts: &mut [Start], slot: u16, on: bool)
    requires { slot < 512 }
    ensures { starts.new ≡ map (put_slot slot on) starts.old }
{
    for start in starts.iter_mut() {
        start.set = start.set.with(slot, on);
    }
}

// The places of the starts that are in the interval: the first, and the one past the last.
fn range_of(starts: &[Start], low: i64, high: i64) -> (usize, usize)
    requires some { low ≤ℤ high }
    requires table { IsTable starts.now }
    ensures order { result.0 ≤ result.1 }
    ensures bound { result.1 ≤ length starts.now }
    ensures first { IsBefore low starts.now result.0 }
    ensures past { IsUntil high starts.now result.1 }
{
    let from = count_before(starts, low);
    let to = count_until(starts, high);
    (from, to)
}

// Sets the slot, or takes it away, at each start that is in the interval.
fn put(starts: &mut [Start], slot: u16, low: i64, high: i64, on: bool)
    requires slot { slot < 512 }
    requires some { low ≤ℤ high }
    requires table { IsTable starts.old }
    ensures table { IsTable starts.new }
    ensures value { starts.new ≡ map (put_within slot low high on) starts.old }
{
    let (from, to) = range_of(starts, low, high);
    put_all(&mut starts[from..to], slot, on);
}

// Whether the sets have the same slots.
fn is_same(a: &QuerySet, b: &QuerySet) -> bool
    ensures { IsTrue result → a.now ≡ b.now }
{
    let first = a.words();
    let second = b.words();
    first == second
}

// Drops the last start that is not after the value, where its slots are those of the start before it.
fn join(starts: &mut Vec<Start>, value: i64)
    requires { IsTable starts.old.items }
    ensures table { IsTable starts.new.items }
    ensures same { (v : ℤ) → look starts.new.items v ≡ look starts.old.items v }
{
    let after = count_until(starts, value);
    if after >= 2 && is_same(&starts[after - 2].set, &starts[after - 1].set) {
        starts.remove(after - 1);
    }
}

// Drops the ends of the interval where the slots before and after them are the same.
fn join_ends(starts: &mut Vec<Start>, low: i64, high: i64)
    requires { IsTable starts.old.items }
    ensures table { IsTable starts.new.items }
    ensures same { (v : ℤ) → look starts.new.items v ≡ look starts.old.items v }
{
    join(starts, low);
    if let Some(past) = after(high) {
        join(starts, past);
    }
}

// Sets the slot, or takes it away, at each value of the interval, or answers `false` where there is no room for its ends.
pub(crate) fn mark(starts: &mut Vec<Start>, slot: u16, low: i64, high: i64, on: bool) -> bool
    requires slot { slot < 512 }
    requires table { IsTable starts.old.items }
    ensures table { IsTable starts.new.items }
    ensures made { IsTrue result → IsMarked slot low high on starts.old.items starts.new.items }
{
    if low > high {
        return true;
    }
    if !cut_ends(starts, low, high) {
        return false;
    }
    put(starts, slot, low, high, on);
    join_ends(starts, low, high);
    true
}
