ghost use Rattle.std.specs.Prelude.{◌≡◌, ℕ, ◌+◌, ◌-◌, ◌≤◌, ◌<◌, ◌^◌, ◌==◌, ◌&&◌, false, true, not, min, length, map, Some, None, [], List, IfOk, IfSome, OnErr, OnOk, if◌then◌else◌, slice_index_or, fold, ◌↔◌};
ghost use Rattle.std.specs.List.{AllByRecursion, filter, flat_map};
ghost use Rattle.as_base.specs.declared.message.Change.{Change};
ghost use Rattle.as_base.specs.declared.stream.StreamId.{StreamId};
ghost use Rattle.as_base.specs.Stream.{place_of};
ghost use Rattle.changelog.specs.BySlot.{renewed};
ghost use Rattle.changelog.specs.Changes.{owner};
ghost use Rattle.changelog.specs.EpochsFor.{EpochsFor, IsKept, owned};
ghost use Rattle.group_table.specs.Cells.{add_in, sums};
ghost use Rattle.shared_agg.specs.Duties.{duty_of, all_slots};
ghost use Rattle.shared_agg.specs.Shares.{shares};
ghost use Rattle.shared_agg.specs.Slices.{is_between, ComesBefore, AreRising, AreFed, ArePartlyFed, AreDropped, EpochsStay, OthersStay, total_in};
ghost use Rattle.shared_agg.specs.Fill.{has, due};
ghost use Rattle.shared_agg.specs.Aggs.{lane_at, lane_of, starts_of, cells_in, epoch_in, records_of, cells_of, is_slice, cache_at, IsCacheFor, AggsFor, HaveShares, IsNone};

use crate::duties::{Duties, duty_of};
use crate::slices::Slices;
use as_base::{Cells, Given, NoMemory, Record, StreamId};
use changelog::Epochs;
use queryset_lanes::QuerySet;
use std::alloc::Global;

/// How many slots there are.
const SLOTS: u16 = 512;

/// What the owners of the slots have to be told in an epoch: so a record need not ask for each owner.
#[derive(Drop)]
pub struct Cache {
    epoch: u64,
    duties: Duties,
}

/// What the records of slices add up to, by stream, slice, query slot and group. A slice is there while it has a cell.
#[derive(Drop)]
pub struct Aggs {
    // For each stream, in the order of the streams, the duties in the epoch of its last record, and what is kept of it.
    // Records of two streams may lie on both sides of a change: each turns its own cache, and not that of the other.
    caches: [Cache; 4],
    lanes: [Slices; 4],
}

// The place of a stream.
fn place_of(s: StreamId) -> usize
    ensures place { result ≡ place_of s }
    ensures within { result < 4 }
{
    match s {
        StreamId::A => 0,
        StreamId::B => 1,
        StreamId::C => 2,
        StreamId::D => 3,
    }
}

// Gives each of the slots the duty of its owner in an epoch.
fn renew_those(duties: &mut Duties, slots: &[u16], epochs: &Epochs, epoch: u64)
    requires { AllByRecursion (λ slot. slot < 512) slots.now }
    ensures { duties.new ≡ renewed (λ slot. duty_of (owned epochs.now epoch slot)) duties.old slots.now }
{
    for slot in slots {
        let owner = epochs.owner(epoch, *slot);
        duties.set(*slot, duty_of(&owner));
    }
}

// Gives all slots the duties of their owners in an epoch.
fn renew_all(duties: &mut Duties, epochs: &Epochs, epoch: u64)
    ensures { duties.new ≡ renewed (λ slot. duty_of (owned epochs.now epoch slot)) duties.old all_slots }
{
    for slot in 0..SLOTS {
        let owner = epochs.owner(epoch, slot);
        duties.set(slot, duty_of(&owner));
    }
}

// Nobody owns a slot in epoch 0.
fn first_cache() -> Cache
    ensures { (cs : List Change) → IsCacheFor result cs }
{
    Cache {
        epoch: 0,
        duties: Duties::new(),
    }
}

// Has the duties be those of the owners in another epoch that was not trimmed: it costs the changes between, or all slots
// where its own epoch was trimmed.
fn turn_to(cache: &mut Cache, epoch: u64, epochs: &Epochs)
    ensures { (cs : List Change) → EpochsFor epochs.now cs → IsCacheFor cache.old cs → IsKept epochs.now epoch → epoch ≤ length cs →
        IsCacheFor cache.new cs × (cache.new.epoch ≡ epoch) }
{
    if cache.epoch == epoch {
        return;
    }
    if cache.epoch < epochs.first() {
        renew_all(&mut cache.duties, epochs, epoch);
    } else {
        let slots = epochs.slots_between(cache.epoch.min(epoch), cache.epoch.max(epoch));
        renew_those(&mut cache.duties, slots, epochs, epoch);
    }
    cache.epoch = epoch;
}

// The same of the cache at a place.
fn turn_at(caches: &mut [Cache], place: usize, epoch: u64, epochs: &Epochs)
    requires { place < length caches.old }
    ensures stands { (cs : List Change) → EpochsFor epochs.now cs → IsCacheFor (cache_at caches.old place) cs → IsKept epochs.now epoch →
        epoch ≤ length cs → IsCacheFor (cache_at caches.new place) cs × ((cache_at caches.new place).epoch ≡ epoch) }
    ensures others { (i : ℕ) → (i == place) ≡ false → cache_at caches.new i ≡ cache_at caches.old i }
{
    turn_to(&mut caches[place], epoch, epochs);
}

// The duties of the cache at a place.
fn duties_at(caches: &[Cache], place: usize) -> &Duties
    requires { place < length caches.now }
    ensures { result.now ≡ (cache_at caches.now place).duties }
{
    &caches[place].duties
}

// Adds a record to a slice of the lane at a place.
fn add_at(
    lanes: &mut [Slices],
    place: usize,
    start: u64,
    epoch: u64,
    g: &Given,
    set: &QuerySet,
    duties: &Duties,
) -> Result<(), NoMemory>
    requires within { place < length lanes.old }
    requires few { (lane_at lanes.old place).added < 2 ^ 62 }
    ensures fed { OnOk result
        (AreFed start (due g.now set.now duties.now) (lane_at lanes.old place).slices (lane_at lanes.new place).slices) }
    ensures epochs { EpochsStay start epoch (lane_at lanes.old place).slices (lane_at lanes.new place).slices }
    ensures others { OnErr result (OthersStay start (lane_at lanes.old place).slices (lane_at lanes.new place).slices) }
    ensures own { OnErr result
        (ArePartlyFed start (due g.now set.now duties.now) (lane_at lanes.old place).slices (lane_at lanes.new place).slices) }
    ensures added { (lane_at lanes.new place).added ≡ (lane_at lanes.old place).added + 1 }
    ensures lanes { (i : ℕ) → (i == place) ≡ false → lane_at lanes.new i ≡ lane_at lanes.old i }
{
    lanes[place].add(start, epoch, g, set, duties)
}

// Takes the cells of some slots out of a slice of the lane at a place.
fn take_out_at(lanes: &mut [Slices], place: usize, start: u64, slots: &QuerySet)
    requires { place < length lanes.old }
    ensures dropped { AreDropped start slots.now (lane_at lanes.old place).slices (lane_at lanes.new place).slices }
    ensures added { (lane_at lanes.new place).added ≡ (lane_at lanes.old place).added }
    ensures lanes { (i : ℕ) → (i == place) ≡ false → lane_at lanes.new i ≡ lane_at lanes.old i }
{
    lanes[place].take_out(start, slots);
}

impl Aggs {
    /// No cell. Takes no memory.
    pub fn new(alloc: Global) -> Aggs
        ensures none { IsNone result }
        ensures stands { (cs : List Change) → AggsFor result cs }
    {
        Aggs {
            caches: [first_cache(), first_cache(), first_cache(), first_cache()],
            lanes: [
                Slices::new(alloc),
                Slices::new(alloc),
                Slices::new(alloc),
                Slices::new(alloc),
            ],
        }
    }

    /// Adds a record of the stream to its slice that begins at `start`, in ticks: to the cell of each slot of the set whose
    /// owner in the epoch sums or counts, of the record's group there. Where there is no such slice, it is made, with the
    /// epoch, if there is such a slot; the epoch of one that is there stays. The epoch may not be trimmed, nor be after the
    /// last. The one refusal is `NoMemory`: all other slices are as they were then, and of this one some of the slots have
    /// the record, and the cells of the others are as they were.
    pub fn add(
        &mut self,
        s: StreamId,
        start: u64,
        epoch: u64,
        r: &Record,
        set: &QuerySet,
        epochs: &Epochs,
    ) -> Result<(), NoMemory>
        requires few { records_of self.old s < 2 ^ 62 }
        ensures records { (t : StreamId) → records_of self.new t ≤ records_of self.old t + 1 }
        ensures stands { (cs : List Change) → EpochsFor epochs.now cs → AggsFor self.old cs → IsKept epochs.now epoch → epoch ≤ length cs →
            AggsFor self.new cs }
        ensures cells { OnOk result ((cs : List Change) →
            EpochsFor epochs.now cs → AggsFor self.old cs → IsKept epochs.now epoch → epoch ≤ length cs →
            (t : StreamId) (c slot : ℕ) → slot < 512 → cells_in self.new t c slot ≡ fold add_in (cells_in self.old t c slot)
            (if is_slice s start t c && has set.now slot then shares r.now.given (owner cs epoch slot) else [])) }
        ensures kept { (t : StreamId) (c e : ℕ) → epoch_in self.old t c ≡ Some e → epoch_in self.new t c ≡ Some e }
        ensures made { (t : StreamId) (c e : ℕ) → epoch_in self.old t c ≡ None → epoch_in self.new t c ≡ Some e →
            (is_slice s start t c ≡ true) × (e ≡ epoch) }
        ensures others { OnErr result ((t : StreamId) (c slot : ℕ) → is_slice s start t c ≡ false →
            cells_in self.new t c slot ≡ cells_in self.old t c slot) }
        ensures own { OnErr result ((cs : List Change) →
            EpochsFor epochs.now cs → AggsFor self.old cs → IsKept epochs.now epoch → epoch ≤ length cs →
            HaveShares self.old self.new s start epoch r.now.given set.now cs) }
        ensures epochs_err { OnErr result ((t : StreamId) (c : ℕ) → epoch_in self.new t c ≡ epoch_in self.old t c) }
    {
        let place = place_of(s);
        turn_at(&mut self.caches, place, epoch, epochs);
        let duties = duties_at(&self.caches, place);
        add_at(&mut self.lanes, place, start, epoch, &r.given, set, duties)
    }

    // What is kept of a stream.
    fn lane(&self, s: StreamId) -> &Slices
        ensures { result.now ≡ lane_of self.now s }
    {
        &self.lanes[place_of(s)]
    }

    /// What the cells of a slot add up to, by rising group, in the slices of the stream that begin at `from` or later, and
    /// before `to`, in ticks. The one refusal is `NoMemory`.
    pub fn window(&self, s: StreamId, slot: u16, from: u64, to: u64) -> Result<Cells, NoMemory>
        requires { slot < 512 }
        ensures { IfOk result (λ cells. cells ≡
            sums (flat_map (λ start. cells_in self.now s start slot) (filter (is_between from to) (starts_of self.now s)))) }
    {
        self.lane(s).window(slot, from, to)
    }

    /// Takes the cells of these slots out of the slice of the stream that begins at `start`, in ticks. The slice goes where
    /// nothing is left in it. Takes no memory.
    pub fn drop_slice(&mut self, s: StreamId, start: u64, slots: &QuerySet)
        ensures cells { (t : StreamId) (c slot : ℕ) → slot < 512 → cells_in self.new t c slot ≡
            (if is_slice s start t c && has slots.now slot then [] else cells_in self.old t c slot) }
        ensures epochs { (t : StreamId) (c : ℕ) → is_slice s start t c ≡ false → epoch_in self.new t c ≡ epoch_in self.old t c }
        ensures kept { (t : StreamId) (c e : ℕ) → epoch_in self.new t c ≡ Some e → epoch_in self.old t c ≡ Some e }
        ensures records { (t : StreamId) → records_of self.new t ≡ records_of self.old t }
        ensures stands { (cs : List Change) → AggsFor self.old cs → AggsFor self.new cs }
    {
        take_out_at(&mut self.lanes, place_of(s), start, slots);
    }

    /// How many cells there are, in all slices of all streams; 2^64 - 1 where they would be more.
    pub fn cells(&self) -> u64
        ensures { result ≡ min (cells_of self.now) (2 ^ 64 - 1) }
    {
        let [a, b, c, d] = &self.lanes;
        a.cells()
            .saturating_add(b.cells())
            .saturating_add(c.cells())
            .saturating_add(d.cells())
    }

    /// How many slices of the stream have a cell.
    pub fn slices(&self, s: StreamId) -> usize
        ensures len { result ≡ length (starts_of self.now s) }
        ensures rise { AreRising (starts_of self.now s) }
        ensures filled { (c : ℕ) → (epoch_in self.now s c ≡ None) ↔ ((slot : ℕ) → slot < 512 → cells_in self.now s c slot ≡ []) }
    {
        self.lane(s).len()
    }

    /// When the first slice of the stream begins that begins at `from` or later, in ticks, of those that have a cell; `None`
    /// where there is none.
    pub fn start_from(&self, s: StreamId, from: u64) -> Option<u64>
        ensures from { IfSome result (λ start. from ≤ start) }
        ensures none { (c slot : ℕ) → from ≤ c → ComesBefore c result → cells_in self.now s c slot ≡ [] }
    {
        self.lane(s).start_from(from)
    }

    /// When the slice `i` of the stream begins, in ticks, of those that have a cell, by rising start.
    pub fn start(&self, s: StreamId, i: usize) -> u64
        requires { i < length (starts_of self.now s) }
        ensures { result ≡ slice_index_or (starts_of self.now s) i 0 }
    {
        self.lane(s).start(i)
    }

    /// The epoch of the slice `i` of the stream.
    pub fn epoch(&self, s: StreamId, i: usize) -> u64
        requires { i < length (starts_of self.now s) }
        ensures { Some result ≡ epoch_in self.now s (slice_index_or (starts_of self.now s) i 0) }
    {
        self.lane(s).epoch(i)
    }
}
