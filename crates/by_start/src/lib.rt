//! Things by the time at which each begins: a list by rising start, no two of which begin at the same tick.
#![tactic(auto)]

#[cfg(test)]
mod tests;

ghost use Rattle.std.specs.Prelude.{◌≡◌, ℕ, ◌≤◌, ◌<◌, ◌==◌, ◌↔◌, if◌then◌else◌, Some, None, [], length, IfNone, IfSome, OnErr, OnOk};
ghost use Rattle.std.specs.Borrow.{sem};
ghost use Rattle.by_start.specs.Order.{begun, look, StartsRise, start_at, thing_at, begun_before, range_of, with_begun, without, with_thing};

use as_base::NoMemory;
use std::alloc::Global;
use std::collections::VecDeque;
use std::marker::Model;

/// A thing and when it begins, in ticks.
#[derive(Drop)]
pub struct Begun<T> {
    pub start: u64,
    pub thing: T,
}

/// Things by rising start; no two begin at the same tick. Seen as the list of them.
#[derive(Drop)]
pub struct ByStart<T> {
    // Mostly the first one goes and the last one comes: neither moves the others.
    list: VecDeque<Begun<T>>,
}

impl<T> Model for ByStart<T> {
    ghost use Rattle.std.specs.Prelude.{List};
    ghost use Rattle.by_start.specs.declared.Begun.{Begun};

    ghost Value = { List (Begun T) };

    ghost use Rattle.by_start.specs.Order.{StartsRise};

    ghost view = { λ s. s.list.items };

    ghost invariant = { λ s. StartsRise s.list.items };
}

// How many of the things, whose starts rise, begin before the time.
fn count_before<T>(list: &VecDeque<Begun<T>>, time: u64) -> usize
    requires { StartsRise list.now.items }
    ensures count { result ≡ begun_before time list.now.items }
    ensures bound { result ≤ length list.now.items }
{
    list.partition_point(|b| b.start < time)
}

// The same, asked mostly for the start of the last thing, or of one after it.
fn place_in<T>(list: &VecDeque<Begun<T>>, start: u64) -> usize
    requires { StartsRise list.now.items }
    ensures count { result ≡ begun_before start list.now.items }
    ensures bound { result ≤ length list.now.items }
{
    let count = list.len();
    if count == 0 || list[count - 1].start < start {
        return count;
    }
    if list[count - 1].start == start {
        return count - 1;
    }
    count_before(list, start)
}

// The places of the things, whose starts rise, that begin at `from` or later, and before `to`.
fn places_in<T>(list: &VecDeque<Begun<T>>, from: u64, to: u64) -> (usize, usize)
    requires { StartsRise list.now.items }
    ensures range { result ≡ range_of from to list.now.items }
    ensures order { result.0 ≤ result.1 }
    ensures bound { result.1 ≤ length list.now.items }
{
    let first = count_before(list, from);
    let past = count_before(list, to);
    if first < past { (first, past) } else { (0, 0) }
}

// Adds a thing to those whose starts rise, before all that begin later.
fn insert_in<T: Drop>(list: &mut VecDeque<Begun<T>>, start: u64, thing: T) -> Result<(), NoMemory>
    requires { StartsRise list.old.items }
    ensures ok { OnOk result (list.new.items ≡ with_begun start thing list.old.items) }
    ensures err { OnErr result (list.new.items ≡ list.old.items) }
{
    let place = place_in(list, start);
    list.insert(place, Begun { start, thing })?;
    Ok(())
}

impl<T> ByStart<T> {
    ghost use Rattle.by_start.specs.Lends.{lends_thing};

    /// No thing. Takes no memory.
    pub fn new(alloc: Global) -> ByStart<T>
        ensures { result ≡ [] }
    {
        ByStart {
            list: VecDeque::new(alloc),
        }
    }

    /// How many things there are.
    pub fn len(&self) -> usize
        ensures len { result ≡ length self.now }
        ensures rise { StartsRise self.now }
    {
        self.list.len()
    }

    /// When the thing at a place begins, in ticks.
    pub fn start(&self, place: usize) -> u64
        requires { place < length self.now }
        ensures { result ≡ start_at place self.now }
    {
        self.list[place].start
    }

    /// The thing at a place.
    pub fn thing(&self, place: usize) -> &T
        requires { place < length self.now }
        ensures { thing_at place self.now ≡ Some result.now }
    {
        &self.list[place].thing
    }

    /// The thing at a place, for writing; only the thing there changes.
    pub fn thing_mut(&mut self, place: usize) -> &mut T
        requires { place < length self.old }
        ensures* writes_back { sem 𝓛 (lends_thing T.row self.entry place result) }
        ensures value { thing_at place self.old ≡ Some result.now }
        ensures looks { (thing : T) (c : ℕ) → look c (with_thing place self.old thing) ≡
            (if c == start_at place self.old then Some thing else look c self.old) }
        ensures same { with_thing place self.old result.now ≡ self.old }
    {
        &mut self.list[place].thing
    }

    /// How many things begin before `start`, in ticks: the place of the one that begins there, or would. Takes no search
    /// where that is the last place, or the one after it.
    pub fn place_for(&self, start: u64) -> usize
        ensures count { result ≡ begun_before start self.now }
        ensures bound { result ≤ length self.now }
    {
        place_in(&self.list, start)
    }

    /// The place of the thing that begins at `start`, in ticks; `None` exactly where none does.
    pub fn find(&self, start: u64) -> Option<usize>
        ensures within { IfSome result (λ place. place < length self.now) }
        ensures begins { IfSome result (λ place. start_at place self.now ≡ start) }
        ensures looked { IfSome result (λ place. look start self.now ≡ thing_at place self.now) }
        ensures none { IfNone result (look start self.now ≡ None) }
    {
        let place = self.place_for(start);
        if place < self.list.len() && self.list[place].start == start {
            return Some(place);
        }
        None
    }

    /// The places of the things that begin at `from` or later, and before `to`, in ticks: the first of them, and the one
    /// after the last; (0, 0) where there are none.
    pub fn within(&self, from: u64, to: u64) -> (usize, usize)
        ensures range { result ≡ range_of from to self.now }
        ensures order { result.0 ≤ result.1 }
        ensures bound { result.1 ≤ length self.now }
        ensures places { (i : ℕ) → i < length self.now →
            ((result.0 ≤ i) × (i < result.1)) ↔ ((from ≤ start_at i self.now) × (start_at i self.now < to)) }
    {
        places_in(&self.list, from, to)
    }

    /// Adds a thing that begins at `start`, in ticks, where none begins yet. The one refusal is `NoMemory`, after which
    /// nothing has changed, and the thing is gone.
    pub fn insert(&mut self, start: u64, thing: T) -> Result<(), NoMemory>
    where
        T: Drop,
        requires { look start self.old ≡ None }
        ensures list { OnOk result (self.new ≡ with_begun start thing self.old) }
        ensures looks { OnOk result ((c : ℕ) → look c self.new ≡ (if c == start then Some thing else look c self.old)) }
        ensures err { OnErr result (self.new ≡ self.old) }
    {
        insert_in(&mut self.list, start, thing)?;
        Ok(())
    }

    /// Takes out the thing at a place.
    pub fn remove(&mut self, place: usize) -> T
        requires { place < length self.old }
        ensures thing { thing_at place self.old ≡ Some result }
        ensures list { self.new ≡ without place self.old }
        ensures looks { (c : ℕ) → look c self.new ≡ (if c == start_at place self.old then None else look c self.old) }
    {
        match self.list.remove(place) {
            Some(b) => b.thing,
            None => unreachable!(),
        }
    }
}
