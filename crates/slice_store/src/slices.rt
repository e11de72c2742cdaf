ghost use Rattle.std.specs.Prelude.{◌≡◌, ℕ, ◌≤◌, ◌<◌, ◌==◌, ◌↔◌, ◌&&◌, if◌then◌else◌, Some, None, unwrap_or, [], ◌++◌, ◌∷◌, length, IfOk, OnErr, OnOk};
ghost use Rattle.by_start.specs.Order.{look, start_at, thing_at, range_of, without};
ghost use Rattle.slice_store.specs.Placed.{placed, records_of, sets_of, may_go};
ghost use Rattle.slice_store.specs.Slices.{store, slice_of, placed_at, epoch_at, AreOrderly, AreFilled, held, with_placed};

use crate::placements::{Held, Placements};
use as_base::{NoMemory, Record, StreamId};
use by_start::ByStart;
use queryset_lanes::QuerySet;
use std::alloc::Global;
use std::marker::Model;

/// How many lists of evicted slices are kept for new ones.
const SPARES_MAX: usize = 64;

/// The slices of one stream, by rising start. Each begins at a time in ticks, has an epoch, and holds the records that were
/// placed in it, in order of placing, each with its set of query slots; no slice is empty. Seen as the stream and the list
/// of slices.
#[derive(Drop)]
pub struct Slices {
    alloc: Global,
    stream: StreamId,
    slices: ByStart<Held>,
    // The lists of evicted slices, for new ones.
    spares: Vec<Placements>,
}

impl Model for Slices {
    ghost use Rattle.slice_store.specs.Slices.{Store, store, AreFilled};

    ghost Value = { Store };

    ghost view = { λ s. store s.stream s.slices };

    ghost invariant = { λ s. AreFilled s.slices };
}

// Makes the room in which `keep` keeps lists.
fn make_room(spares: &mut Vec<Placements>) -> Result<(), NoMemory> {
    spares.reserve(SPARES_MAX.saturating_sub(spares.len()))?;
    Ok(())
}

// Empty lists: spare ones where there are some.
fn empty_lists(alloc: Global, spares: &mut Vec<Placements>) -> Placements
    ensures { result ≡ [] }
{
    match spares.pop() {
        Some(mut lists) => {
            lists.clear();
            lists
        }
        None => Placements::new(alloc),
    }
}

// Keeps the lists of an evicted slice, without memory, unless they are large or there are enough. Whoever takes them
// clears them.
fn keep(spares: &mut Vec<Placements>, lists: Placements) {
    if spares.len() < SPARES_MAX && spares.len() < spares.capacity() && lists.is_small() {
        let _ = spares.push(lists);
    }
}

// A new slice of one record.
fn new_slice(
    alloc: Global,
    spares: &mut Vec<Placements>,
    epoch: u64,
    r: Record,
    set: QuerySet,
) -> Result<Held, NoMemory>
    ensures { IfOk result (λ made. made ≡ with_placed epoch (placed r set) None) }
{
    make_room(spares)?;
    let mut lists = empty_lists(alloc, spares);
    lists.push(r, set)?;
    Ok(Held {
        epoch,
        placed: lists,
    })
}

// Places a record in the slice at a place.
fn place_within(
    slices: &mut ByStart<Held>,
    place: usize,
    r: Record,
    set: QuerySet,
) -> Result<(), NoMemory>
    requires { place < length slices.old }
    ensures ok { OnOk result ((epoch c : ℕ) → look c slices.new ≡
        (if c == start_at place slices.old then Some (with_placed epoch (placed r set) (thing_at place slices.old))
        else look c slices.old)) }
    ensures err { OnErr result (slices.new ≡ slices.old) }
{
    slices.thing_mut(place).placed.push(r, set)
}

// Places a record in the slice that begins at `start`, which is made where it is not there yet.
fn put(
    alloc: Global,
    slices: &mut ByStart<Held>,
    spares: &mut Vec<Placements>,
    start: u64,
    epoch: u64,
    r: Record,
    set: QuerySet,
) -> Result<(), NoMemory>
    ensures ok { OnOk result ((c : ℕ) → look c slices.new ≡
        (if c == start then Some (with_placed epoch (placed r set) (look start slices.old)) else look c slices.old)) }
    ensures err { OnErr result (slices.new ≡ slices.old) }
{
    if let Some(place) = slices.find(start) {
        return place_within(slices, place, r, set);
    }
    let slice = new_slice(alloc, spares, epoch, r, set)?;
    slices.insert(start, slice)
}

impl Slices {
    /// No slice of the stream. Takes no memory.
    pub fn new(alloc: Global, s: StreamId) -> Slices
        ensures { result ≡ store s [] }
    {
        Slices {
            alloc,
            stream: s,
            slices: ByStart::new(alloc),
            spares: Vec::new(alloc),
        }
    }

    /// The stream.
    pub fn stream(&self) -> StreamId
        ensures { result ≡ self.now.stream }
    {
        self.stream
    }

    /// Places a record with its set in the slice that begins at `start`. Where there is none, it is made, with the epoch,
    /// before those that begin later; the epoch of one that is there stays. The one refusal is `NoMemory`, after which
    /// nothing has changed.
    pub fn place(
        &mut self,
        start: u64,
        epoch: u64,
        r: Record,
        set: QuerySet,
    ) -> Result<(), NoMemory>
        ensures placed { OnOk result ((c : ℕ) → placed_at c self.new.slices ≡
            (if c == start then placed_at c self.old.slices ++ placed r set ∷ [] else placed_at c self.old.slices)) }
        ensures epochs { OnOk result ((c : ℕ) → epoch_at c self.new.slices ≡
            (if c == start then Some (unwrap_or (epoch_at c self.old.slices) epoch) else epoch_at c self.old.slices)) }
        ensures stream { self.new.stream ≡ self.old.stream }
        ensures err { OnErr result (self.new ≡ self.old) }
    {
        put(
            self.alloc,
            &mut self.slices,
            &mut self.spares,
            start,
            epoch,
            r,
            set,
        )?;
        Ok(())
    }

    /// How many slices there are.
    pub fn len(&self) -> usize
        ensures len { result ≡ length self.now.slices }
        ensures orderly { AreOrderly self.now.slices }
    {
        self.slices.len()
    }

    /// When slice `i` begins, in ticks.
    pub fn start(&self, i: usize) -> u64
        requires { i < length self.now.slices }
        ensures { result ≡ (slice_of self.now.slices i).start }
    {
        self.slices.start(i)
    }

    /// The epoch of slice `i`.
    pub fn epoch(&self, i: usize) -> u64
        requires { i < length self.now.slices }
        ensures { result ≡ (slice_of self.now.slices i).epoch }
    {
        self.slices.thing(i).epoch
    }

    /// The records of slice `i`, in order of placing; never none.
    pub fn recs(&self, i: usize) -> &[Record]
        requires { i < length self.now.slices }
        ensures { result.now ≡ records_of (slice_of self.now.slices i).placed }
    {
        self.slices.thing(i).placed.records()
    }

    /// The sets of the records of slice `i`, each at the place of its record.
    pub fn sets(&self, i: usize) -> &[QuerySet]
        requires { i < length self.now.slices }
        ensures { result.now ≡ sets_of (slice_of self.now.slices i).placed }
    {
        self.slices.thing(i).placed.sets()
    }

    /// The places of the slices that begin at `from` or later, and before `to`: the first of them, and the one after the
    /// last; (0, 0) where there are none.
    pub fn within(&self, from: u64, to: u64) -> (usize, usize)
        ensures range { result ≡ range_of from to self.now.slices }
        ensures places { (i : ℕ) → i < length self.now.slices →
            ((result.0 ≤ i) × (i < result.1)) ↔ ((from ≤ (slice_of self.now.slices i).start) × ((slice_of self.now.slices i).start < to)) }
    {
        self.slices.within(from, to)
    }

    /// Lets slice `i` go, unless somebody waits for one of its records: a window, where a set meets the windows; or a
    /// selection, where the time of the record is the watermark `wm`, in ticks, or later, and its set meets the selections.
    /// True where it went; nothing has changed where it did not. Takes no memory.
    pub fn evict(&mut self, i: usize, windows: &QuerySet, selects: &QuerySet, wm: u64) -> bool
        requires { i < length self.old.slices }
        ensures value { result ≡ may_go windows.now selects.now wm (slice_of self.old.slices i).placed }
        ensures gone { self.new ≡ (if result then store self.old.stream (without i self.old.slices) else self.old) }
        ensures placed { (c : ℕ) → placed_at c self.new.slices ≡
            (if result && (c == (slice_of self.old.slices i).start) then [] else placed_at c self.old.slices) }
        ensures epochs { (c : ℕ) → epoch_at c self.new.slices ≡
            (if result && (c == (slice_of self.old.slices i).start) then None else epoch_at c self.old.slices) }
    {
        if !self.slices.thing(i).placed.may_go(windows, selects, wm) {
            return false;
        }
        let slice = self.slices.remove(i);
        keep(&mut self.spares, slice.placed);
        true
    }
}
