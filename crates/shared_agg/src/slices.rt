ghost use Rattle.std.specs.Prelude.{◌≡◌, ℕ, ℤ, ◌+◌, ◌≤◌, ◌<◌, ◌^◌, ◌-◌, false, min, length, IfOk, IfSome, OnErr, OnOk, if◌then◌else◌, ◌==◌, [], slice_index_or};
ghost use Rattle.std.specs.List.{AllByRecursion};
ghost use Rattle.group_table.specs.Cells.{sums, IsSound};
ghost use Rattle.group_table.specs.Steps.{dropped};
ghost use Rattle.group_table.specs.Tables.{cells_at};
ghost use Rattle.shared_agg.specs.Fill.{due};
ghost use Rattle.shared_agg.specs.Slices.{Lane, lane, starts, cells_from, epoch_from, count_in, total_in, begun_before, sums_between, cells_within, ComesBefore, StartsRise, IsLane, IsChangedAt, HasGrown, HasGot, HasLost, IsSlice, IsPutIn, IsLetGo, AreFed, ArePartlyFed, AreDropped, EpochsStay, OthersStay};

use crate::duties::Duties;
use crate::fill::fill;
use as_base::{Cell, Cells, Given, NoMemory};
use group_table::{Table, add_up};
use queryset_lanes::QuerySet;
use std::alloc::Global;
use std::collections::VecDeque;
use std::marker::Model;

/// A slice: when it begins, in ticks, its epoch, and what its records add up to.
#[derive(Drop)]
pub struct Slice {
    pub start: u64,
    pub epoch: u64,
    pub table: Table,
}

/// How many tables of slices that went are kept for new ones.
const SPARES_MAX: usize = 64;

/// The slices of one stream that have a cell, by rising start, and how many records were added to them.
#[derive(Drop)]
pub struct Slices {
    alloc: Global,
    // Mostly the first slice goes and the last one comes: neither moves the others.
    slices: VecDeque<Slice>,
    // The tables of slices that went, for new ones.
    spares: Vec<Table>,
    added: u64,
}

impl Model for Slices {
    ghost use Rattle.shared_agg.specs.Slices.{Lane, lane, IsLane};

    ghost Value = { Lane };

    ghost view = { λ s. lane s.slices.items s.added };

    ghost invariant = { λ s. IsLane (lane s.slices.items s.added) };
}

// How many of the slices, whose starts rise, begin before the time.
fn count_before(slices: &VecDeque<Slice>, time: u64) -> usize
    requires { StartsRise slices.now.items }
    ensures count { result ≡ begun_before time slices.now.items }
    ensures bound { result ≤ length slices.now.items }
{
    slices.partition_point(|slice| slice.start < time)
}

// The same, asked mostly for the start of the last slice, or of one after it.
fn place_for(slices: &VecDeque<Slice>, start: u64) -> usize
    requires { StartsRise slices.now.items }
    ensures count { result ≡ begun_before start slices.now.items }
    ensures bound { result ≤ length slices.now.items }
{
    let count = slices.len();
    if count == 0 || slices[count - 1].start < start {
        return count;
    }
    if slices[count - 1].start == start {
        return count - 1;
    }
    count_before(slices, start)
}

// Adds a record to the slice at a place.
fn fill_at(
    slices: &mut VecDeque<Slice>,
    place: usize,
    g: &Given,
    set: &QuerySet,
    duties: &Duties,
) -> Result<(), NoMemory>
    requires within { place < length slices.old.items }
    requires few { (slot : ℕ) (group : ℤ) → count_in slices.old.items slot group < 2 ^ 62 }
    ensures fed { OnOk result (IsChangedAt place (HasGot (due g.now set.now duties.now)) slices.old.items slices.new.items) }
    ensures partly { IsChangedAt place (HasGrown (due g.now set.now duties.now)) slices.old.items slices.new.items }
{
    fill(&mut slices[place].table, g, set, duties)
}

// Makes the room in which `keep` keeps tables.
fn make_room(spares: &mut Vec<Table>) -> Result<(), NoMemory> {
    spares.reserve(SPARES_MAX.saturating_sub(spares.len()))?;
    Ok(())
}

// An empty table: a spare one where there is one.
fn empty_table(alloc: Global, spares: &mut Vec<Table>) -> Table
    ensures { (slot : ℕ) → cells_at result slot ≡ [] }
{
    match spares.pop() {
        Some(mut table) => {
            table.clear();
            table
        }
        None => Table::new(alloc),
    }
}

// Keeps a table that no slice has any more, without memory, unless it is large or there are enough. Whoever takes it
// clears it.
fn keep(spares: &mut Vec<Table>, table: Table) {
    if spares.len() < SPARES_MAX && spares.len() < spares.capacity() && table.is_small() {
        let _ = spares.push(table);
    }
}

// A new slice of one record.
fn new_slice(
    alloc: Global,
    spares: &mut Vec<Table>,
    start: u64,
    epoch: u64,
    g: &Given,
    set: &QuerySet,
    duties: &Duties,
) -> Result<Slice, NoMemory>
    ensures { IfOk result (IsSlice start epoch (due g.now set.now duties.now)) }
{
    make_room(spares)?;
    let mut table = empty_table(alloc, spares);
    fill(&mut table, g, set, duties)?;
    Ok(Slice {
        start,
        epoch,
        table,
    })
}

// Puts a slice before the one at a place, if it has a cell.
fn insert(
    slices: &mut VecDeque<Slice>,
    spares: &mut Vec<Table>,
    place: usize,
    slice: Slice,
) -> Result<(), NoMemory>
    requires { place ≤ length slices.old.items }
    ensures ok { OnOk result (IsPutIn place slice slices.old.items slices.new.items) }
    ensures err { OnErr result (slices.new.items ≡ slices.old.items) }
{
    if slice.table.len() == 0 {
        keep(spares, slice.table);
        return Ok(());
    }
    slices.insert(place, slice)?;
    Ok(())
}

// Adds a record to the slice that begins at `start`, which is made where it is not there yet, unless no slot of the set
// has a duty.
fn put(
    slices: &mut VecDeque<Slice>,
    spares: &mut Vec<Table>,
    alloc: Global,
    start: u64,
    epoch: u64,
    g: &Given,
    set: &QuerySet,
    duties: &Duties,
) -> Result<(), NoMemory>
    requires rise { StartsRise slices.old.items }
    requires few { (slot : ℕ) (group : ℤ) → count_in slices.old.items slot group < 2 ^ 62 }
    ensures fed { OnOk result (AreFed start (due g.now set.now duties.now) slices.old.items slices.new.items) }
    ensures epochs { EpochsStay start epoch slices.old.items slices.new.items }
    ensures others { OnErr result (OthersStay start slices.old.items slices.new.items) }
    ensures own { OnErr result (ArePartlyFed start (due g.now set.now duties.now) slices.old.items slices.new.items) }
    ensures lane { (n : ℕ) → n < 2 ^ 62 → IsLane (lane slices.old.items n) → IsLane (lane slices.new.items (n + 1)) }
{
    let place = place_for(slices, start);
    if place < slices.len() && slices[place].start == start {
        return fill_at(slices, place, g, set, duties);
    }
    let slice = new_slice(alloc, spares, start, epoch, g, set, duties)?;
    insert(slices, spares, place, slice)
}

// Takes the cells of some slots out of the slice at a place.
fn drop_at(slices: &mut VecDeque<Slice>, place: usize, slots: &QuerySet)
    requires { place < length slices.old.items }
    ensures { IsChangedAt place (HasLost slots.now) slices.old.items slices.new.items }
{
    slices[place].table.drop_slots(slots);
}

// Lets the slice at a place go, if it has no cell, and keeps its table.
fn let_go(slices: &mut VecDeque<Slice>, spares: &mut Vec<Table>, place: usize)
    requires { place < length slices.old.items }
    ensures { IsLetGo place slices.old.items slices.new.items }
{
    if slices[place].table.len() != 0 {
        return;
    }
    if let Some(slice) = slices.remove(place) {
        keep(spares, slice.table);
    }
}

// Takes the cells of some slots out of the slice that begins at `start`, and the slice where it has no cell then.
fn take_out(slices: &mut VecDeque<Slice>, spares: &mut Vec<Table>, start: u64, slots: &QuerySet)
    requires rise { StartsRise slices.old.items }
    ensures dropped { AreDropped start slots.now slices.old.items slices.new.items }
    ensures lane { (n : ℕ) → IsLane (lane slices.old.items n) → IsLane (lane slices.new.items n) }
{
    let place = place_for(slices, start);
    if place < slices.len() && slices[place].start == start {
        drop_at(slices, place, slots);
        let_go(slices, spares, place);
    }
}

// The cells of a slot in the slices from one place on and before another.
fn gather(
    slices: &VecDeque<Slice>,
    first: usize,
    past: usize,
    slot: u16,
    alloc: Global,
) -> Result<Vec<Cell>, NoMemory>
    requires order { first ≤ past }
    requires within { past ≤ length slices.now.items }
    ensures cells { IfOk result (λ cells. sums cells.items ≡ sums (cells_within first past slot slices.now.items)) }
    ensures sound { IfOk result (λ cells. AllByRecursion IsSound cells.items) }
{
    let mut cells = Vec::new(alloc);
    for place in first..past {
        slices[place].table.append_slot(slot, &mut cells)?;
    }
    Ok(cells)
}

// What they add up to, by rising group.
fn sorted_between(
    slices: &VecDeque<Slice>,
    first: usize,
    past: usize,
    slot: u16,
    alloc: Global,
) -> Result<Cells, NoMemory>
    requires within { past ≤ length slices.now.items }
    requires few { (group : ℤ) → count_in slices.now.items slot group ≤ 2 ^ 62 }
    ensures { IfOk result (λ cells. cells ≡ sums (cells_within first past slot slices.now.items)) }
{
    if past <= first {
        return Ok(Cells::from_vec(Vec::new(alloc)));
    }
    let cells = gather(slices, first, past, slot, alloc)?;
    Ok(add_up(cells))
}

// The places of the slices, whose starts rise, that begin at `from` or later, and before `to`: the first of them, and the
// one after the last.
fn places_between(slices: &VecDeque<Slice>, from: u64, to: u64) -> (usize, usize)
    requires { StartsRise slices.now.items }
    ensures first { result.0 ≡ begun_before from slices.now.items }
    ensures past { result.1 ≡ begun_before to slices.now.items }
    ensures within { result.1 ≤ length slices.now.items }
{
    (count_before(slices, from), count_before(slices, to))
}

// When the first of the slices, whose starts rise, begins that begins at `from` or later.
fn start_from(slices: &VecDeque<Slice>, from: u64) -> Option<u64>
    requires { StartsRise slices.now.items }
    ensures from { IfSome result (λ start. from ≤ start) }
    ensures none { (c slot : ℕ) → from ≤ c → ComesBefore c result → cells_from slices.now.items c slot ≡ [] }
{
    let place = count_before(slices, from);
    if place < slices.len() {
        return Some(slices[place].start);
    }
    None
}

// The same of the slices that begin in a range.
fn window(
    slices: &VecDeque<Slice>,
    slot: u16,
    from: u64,
    to: u64,
    alloc: Global,
) -> Result<Cells, NoMemory>
    requires rise { StartsRise slices.now.items }
    requires few { (group : ℤ) → count_in slices.now.items slot group ≤ 2 ^ 62 }
    ensures { IfOk result (λ cells. cells ≡ sums_between from to slot slices.now.items) }
{
    let (first, past) = places_between(slices, from, to);
    sorted_between(slices, first, past, slot, alloc)
}

// How many cells the slices have; 2^64 - 1 where they would be more.
fn count_cells(slices: &VecDeque<Slice>) -> u64
    ensures { result ≡ min (total_in slices.now.items) (2 ^ 64 - 1) }
{
    let mut count = 0u64;
    for place in 0..slices.len() {
        count = count.saturating_add(slices[place].table.len() as u64);
    }
    count
}

impl Slices {
    /// No slice. Takes no memory.
    pub fn new(alloc: Global) -> Slices
        ensures { result ≡ lane [] 0 }
    {
        Slices {
            alloc,
            slices: VecDeque::new(alloc),
            spares: Vec::new(alloc),
            added: 0,
        }
    }

    /// Adds a record, for those slots of the set that have a duty, to the slice that begins at `start`. Where there is
    /// none, it is made, with the epoch; the epoch of one that is there stays. The one refusal is `NoMemory`: all other
    /// slices are as they were then, and of this one some slots have the record.
    pub fn add(
        &mut self,
        start: u64,
        epoch: u64,
        g: &Given,
        set: &QuerySet,
        duties: &Duties,
    ) -> Result<(), NoMemory>
        requires { self.old.added < 2 ^ 62 }
        ensures fed { OnOk result (AreFed start (due g.now set.now duties.now) self.old.slices self.new.slices) }
        ensures epochs { EpochsStay start epoch self.old.slices self.new.slices }
        ensures others { OnErr result (OthersStay start self.old.slices self.new.slices) }
        ensures own { OnErr result (ArePartlyFed start (due g.now set.now duties.now) self.old.slices self.new.slices) }
        ensures added { self.new.added ≡ self.old.added + 1 }
    {
        self.added += 1;
        put(
            &mut self.slices,
            &mut self.spares,
            self.alloc,
            start,
            epoch,
            g,
            set,
            duties,
        )
    }

    /// Takes the cells of some slots out of the slice that begins at `start`. The slice goes where nothing is left in it.
    pub fn take_out(&mut self, start: u64, slots: &QuerySet)
        ensures dropped { AreDropped start slots.now self.old.slices self.new.slices }
        ensures added { self.new.added ≡ self.old.added }
    {
        take_out(&mut self.slices, &mut self.spares, start, slots);
    }

    /// What the cells of a slot add up to, by rising group, in the slices that begin at `from` or later, and before `to`.
    /// The one refusal is `NoMemory`.
    pub fn window(&self, slot: u16, from: u64, to: u64) -> Result<Cells, NoMemory>
        ensures { IfOk result (λ cells. cells ≡ sums_between from to slot self.now.slices) }
    {
        window(&self.slices, slot, from, to, self.alloc)
    }

    /// How many cells there are; 2^64 - 1 where they would be more.
    pub fn cells(&self) -> u64
        ensures { result ≡ min (total_in self.now.slices) (2 ^ 64 - 1) }
    {
        count_cells(&self.slices)
    }

    /// How many slices there are.
    pub fn len(&self) -> usize
        ensures len { result ≡ length self.now.slices }
        ensures lane { IsLane self.now }
    {
        self.slices.len()
    }

    /// When the first slice begins that begins at `from` or later, in ticks; `None` where there is none.
    pub fn start_from(&self, from: u64) -> Option<u64>
        ensures from { IfSome result (λ start. from ≤ start) }
        ensures none { (c slot : ℕ) → from ≤ c → ComesBefore c result → cells_from self.now.slices c slot ≡ [] }
    {
        start_from(&self.slices, from)
    }

    /// When slice `i` begins, in ticks.
    pub fn start(&self, i: usize) -> u64
        requires { i < length self.now.slices }
        ensures { result ≡ slice_index_or (starts self.now.slices) i 0 }
    {
        self.slices[i].start
    }

    /// The epoch of slice `i`.
    pub fn epoch(&self, i: usize) -> u64
        requires { i < length self.now.slices }
        ensures { Some result ≡ epoch_from self.now.slices (slice_index_or (starts self.now.slices) i 0) }
    {
        self.slices[i].epoch
    }
}
