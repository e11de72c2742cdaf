ghost use Rattle.std.specs.Prelude.{◌≡◌, ℕ, ◌≤◌, ◌<◌, ◌+◌, ◌-◌, ◌^◌, ◌++◌, List, [], ◌∷◌, min, max, map, nat_le, take, drop, length, vec_len, slice_index, slice_index_or, slice_set, MatchResult, OnOk, OnErr};
ghost use Rattle.std.specs.List.{AllByRecursion};
ghost use Rattle.as_base.specs.declared.message.Change.{Change};
ghost use Rattle.views.specs.IsHolder.{time_of};
ghost use Rattle.changelog.specs.Changes.{slot_of, opened_by, until, epoch_at, owner, last_or, began, edge_of, greatest_below, slice_start};
ghost use Rattle.changelog.specs.Ends.{edge_after, least_below};
ghost use Rattle.changelog.specs.EpochsFor.{spans_of, EpochsFor, IsKept, owned, last_of, held_of, newest};
ghost use Rattle.changelog.specs.Spans.{holder_at, BeginAfter};

use crate::edges::{edge_after, edge_of};
use crate::slots::ChangedSlots;
use crate::spans::{Span, Spans};
use as_base::{Change, FOREVER, NoMemory, Plan, StreamId};
use std::alloc::Global;

/// How many slots there are.
const SLOTS: usize = 512;

/// The changes of the slots in the order of appending, as far as epochs are still asked for. Epoch e is what stands after
/// the first e changes.
#[derive(Drop)]
pub struct Epochs {
    alloc: Global,
    // How many changes there are.
    last: u64,
    // The time of the last change that was trimmed.
    floor: u64,
    // The times of the others.
    times: Vec<u64>,
    // The slots of the same changes.
    slots: ChangedSlots,
    // The owners of each slot, up to the greatest that was ever changed.
    table: Vec<Spans>,
}

// When the change comes.
fn time_of(c: &Change) -> u64
    ensures { result ≡ time_of c.now }
{
    match c {
        Change::Opened { at, .. } => *at,
        Change::Closed { at, .. } => *at,
    }
}

// The slot that the change opens or closes.
fn slot_of(c: &Change) -> u16
    ensures { result ≡ slot_of c.now }
{
    match c {
        Change::Opened { slot, .. } => *slot,
        Change::Closed { slot, .. } => *slot,
    }
}

// The query that the change gives its slot to.
fn opened_by(c: &Change) -> Option<(u64, Plan)>
    ensures { result ≡ opened_by c.now }
{
    match c {
        Change::Opened { n, plan, .. } => Some((*n, *plan)),
        Change::Closed { .. } => None,
    }
}

// Makes the table longer, where it does not have the slot yet, and no longer than that takes.
fn fill(table: &mut Vec<Spans>, slot: u16, alloc: Global) -> Result<(), NoMemory>
    ensures same { (other : ℕ) → spans_of table.new.items other ≡ spans_of table.old.items other }
    ensures ok { OnOk result (slot < vec_len table.new) }
    ensures most { vec_len table.new ≤ max (vec_len table.old) (slot + 1) }
{
    'slots: while table.len() <= slot as usize {
        table.push(Spans::new(alloc))?;
    }
    Ok(())
}

// Adds an owner of a slot.
fn put(table: &mut [Spans], slot: u16, span: Span) -> Result<(), NoMemory>
    requires { slot < length table.old }
    ensures ok { OnOk result (table.new ≡ slice_set table.old slot (spans_of table.old slot ++ span ∷ [])) }
    ensures err { OnErr result (table.new ≡ table.old) }
{
    table[slot as usize].push(span)
}

// Adds a change's slot, and an owner of it; neither where there is no memory for both.
fn put_both(
    slots: &mut ChangedSlots,
    table: &mut Vec<Spans>,
    slot: u16,
    span: Span,
) -> Result<(), NoMemory>
    requires slot { slot < 512 }
    requires within { slot < vec_len table.old }
    ensures slots { OnOk result (slots.new ≡ slots.old ++ slot ∷ []) }
    ensures table { OnOk result (table.new.items ≡ slice_set table.old.items slot (spans_of table.old.items slot ++ span ∷ [])) }
    ensures slots_err { OnErr result (slots.new ≡ slots.old) }
    ensures table_err { OnErr result (table.new.items ≡ table.old.items) }
{
    slots.push(slot)?;
    if put(table, slot, span).is_err() {
        slots.pop();
        return Err(NoMemory);
    }
    Ok(())
}

// The same, and a time; none of them where there is no memory for all.
fn put_all(
    times: &mut Vec<u64>,
    time: u64,
    slots: &mut ChangedSlots,
    table: &mut Vec<Spans>,
    slot: u16,
    span: Span,
) -> Result<(), NoMemory>
    requires slot { slot < 512 }
    requires within { slot < vec_len table.old }
    ensures times { OnOk result (times.new.items ≡ times.old.items ++ time ∷ []) }
    ensures slots { OnOk result (slots.new ≡ slots.old ++ slot ∷ []) }
    ensures table { OnOk result (table.new.items ≡ slice_set table.old.items slot (spans_of table.old.items slot ++ span ∷ [])) }
    ensures times_err { OnErr result (times.new.items ≡ times.old.items) }
    ensures slots_err { OnErr result (slots.new ≡ slots.old) }
    ensures table_err { OnErr result (table.new.items ≡ table.old.items) }
{
    times.push(time)?;
    if put_both(slots, table, slot, span).is_err() {
        times.pop();
        return Err(NoMemory);
    }
    Ok(())
}

// The change has come by the time.
fn has_come(at: u64, time: u64) -> bool
    ensures { result ≡ nat_le at time }
{
    at <= time
}

// How many of the times, which never fall, are not after the time.
fn count_until(times: &[u64], time: u64) -> usize
    ensures within { result ≤ length times.now }
    ensures later { until time (drop result times.now) ≡ 0 }
    ensures earlier { 0 < result → slice_index times.now (result - 1) ≤ time }
{
    // The latest are asked for most.
    let mut left = times.len();
    while left > 0 {
        let at = times[left - 1];
        if has_come(at, time) {
            return left;
        }
        left -= 1;
    }
    0
}

// The time before so many of the last times.
fn began_before(times: &[u64], floor: u64, later: u64) -> u64
    ensures { result ≡ last_or floor (take (length times.now - later) times.now) }
{
    let count = times.len().saturating_sub(later as usize);
    if count == 0 {
        return floor;
    }
    times[count - 1]
}

// Cuts all off but so many of the last times.
fn cut(times: &mut Vec<u64>, later: u64)
    ensures { times.new.items ≡ drop (vec_len times.old - later) times.old.items }
{
    let count = times.len().saturating_sub(later as usize);
    times.drain(..count);
}

// Lets the owners go that were owners in no epoch from this one on.
fn trim_all(table: &mut [Spans], epoch: u64)
    ensures same { (slot e : ℕ) → epoch ≤ e → holder_at (spans_of table.new slot) e ≡ holder_at (spans_of table.old slot) e }
    ensures freed { (slot : ℕ) → BeginAfter epoch (drop 1 (spans_of table.new slot)) }
{
    for spans in table.iter_mut() {
        spans.trim(epoch);
    }
}

// The same of the slots' table.
fn trim_table(table: &mut Vec<Spans>, epoch: u64)
    ensures same { (slot e : ℕ) → epoch ≤ e → holder_at (spans_of table.new.items slot) e ≡ holder_at (spans_of table.old.items slot) e }
    ensures freed { (slot : ℕ) → BeginAfter epoch (drop 1 (spans_of table.new.items slot)) }
{
    trim_all(table, epoch);
}

// The owner of a slot in an epoch.
fn owner_in(table: &[Spans], slot: usize, epoch: u64) -> Option<(u64, Plan)>
    ensures { result ≡ holder_at (spans_of table.now slot) epoch }
{
    match table.get(slot) {
        Some(spans) => spans.at(epoch),
        None => None,
    }
}

// The latest edge that is not after a time, of all owners in an epoch.
fn last_edges(table: &[Spans], epoch: u64, s: StreamId, t: u64) -> u64
    ensures { result ≡ greatest_below (λ slot. edge_of s t (holder_at (spans_of table.now slot) epoch)) 512 }
{
    let mut latest = 0;
    for slot in 0..table.len().min(SLOTS) {
        let holder = owner_in(table, slot, epoch);
        let edge = edge_of(&holder, s, t);
        latest = edge.max(latest);
    }
    latest
}

// The first edge after a time, of all owners in an epoch.
fn next_edges(table: &[Spans], epoch: u64, s: StreamId, t: u64) -> u64
    requires { t < 2 ^ 62 }
    ensures { result ≡ least_below (λ slot. edge_after s t (holder_at (spans_of table.now slot) epoch)) 512 }
{
    let mut next = FOREVER;
    for slot in 0..table.len().min(SLOTS) {
        let holder = owner_in(table, slot, epoch);
        let edge = edge_after(&holder, s, t);
        next = edge.min(next);
    }
    next
}

// The time at a place, at most `FOREVER`; that where there is none.
fn time_from(times: &[u64], place: usize) -> u64
    ensures { result ≡ min (slice_index_or times.now place (2 ^ 62)) (2 ^ 62) }
{
    match times.get(place) {
        Some(at) => FOREVER.min(*at),
        None => FOREVER,
    }
}

// How many changes come after one epoch and up to another.
fn count_between(from: u64, to: u64) -> usize
    ensures { result ≡ to - from }
{
    to.saturating_sub(from) as usize
}

impl Epochs {
    /// No changes. Takes no memory.
    pub fn new(alloc: Global) -> Epochs
        ensures none { EpochsFor result [] }
        ensures last { last_of result ≡ 0 }
        ensures newest { newest result ≡ 0 }
    {
        Epochs {
            alloc,
            last: 0,
            floor: 0,
            times: Vec::new(alloc),
            slots: ChangedSlots::new(alloc),
            table: Vec::new(alloc),
        }
    }

    /// How many changes there are: the number of the last epoch.
    pub fn last(&self) -> u64
        ensures value { result ≡ last_of self.now }
        ensures changes { (cs : List Change) → EpochsFor self.now cs → result ≡ length cs }
    {
        self.last
    }

    /// The first epoch that may still be asked for.
    pub fn first(&self) -> u64
        ensures { result ≡ last_of self.now - held_of self.now }
    {
        self.last.saturating_sub(self.times.len() as u64)
    }

    /// Adds a change. The one refusal is `NoMemory`, after which the changes are as they were.
    pub fn append(&mut self, c: &Change) -> Result<(), NoMemory>
        requires slot { slot_of c.now < 512 }
        requires few { last_of self.old < 2 ^ 62 }
        requires time { newest self.old ≤ time_of c.now }
        ensures last { OnOk result (last_of self.new ≡ last_of self.old + 1) }
        ensures newest { OnOk result (newest self.new ≡ time_of c.now) }
        ensures last_err { OnErr result (last_of self.new ≡ last_of self.old) }
        ensures newest_err { OnErr result (newest self.new ≡ newest self.old) }
        ensures kept { (e : ℕ) → IsKept self.old e → IsKept self.new e }
        ensures changes { (cs : List Change) → EpochsFor self.old cs →
            MatchResult result (λ _. EpochsFor self.new (cs ++ c.now ∷ [])) (λ _. EpochsFor self.new cs) }
    {
        let slot = slot_of(c);
        fill(&mut self.table, slot, self.alloc)?;
        let span = Span {
            epoch: self.last + 1,
            holder: opened_by(c),
        };
        put_all(
            &mut self.times,
            time_of(c),
            &mut self.slots,
            &mut self.table,
            slot,
            span,
        )?;
        self.last += 1;
        Ok(())
    }

    /// How many changes are not after the time: the epoch that stands then.
    pub fn epoch_at(&self, time: u64) -> u64
        ensures { (cs : List Change) → EpochsFor self.now cs → IsKept self.now (epoch_at cs time) → result ≡ epoch_at cs time }
    {
        let later = self.times.len() - count_until(&self.times, time);
        self.last.saturating_sub(later as u64)
    }

    /// The query that owns a slot in an epoch that was not trimmed.
    pub fn owner(&self, epoch: u64, slot: u16) -> Option<(u64, Plan)>
        ensures held { result ≡ owned self.now epoch slot }
        ensures owner { (cs : List Change) → EpochsFor self.now cs → IsKept self.now epoch → result ≡ owner cs epoch slot }
    {
        owner_in(&self.table, slot as usize, epoch)
    }

    /// The slots that the changes after one epoch and up to another open or close, in their order; a slot stands once for
    /// each of its changes.
    pub fn slots_between(&self, from: u64, to: u64) -> &[u16]
        ensures within { AllByRecursion (λ slot. slot < 512) result.now }
        ensures slots { (cs : List Change) → EpochsFor self.now cs → IsKept self.now from → from ≤ to → to ≤ length cs →
            result.now ≡ map slot_of (take (to - from) (drop from cs)) }
    {
        let trimmed = self.last.saturating_sub(self.slots.len() as u64);
        let first = from.saturating_sub(trimmed);
        self.slots.part(first as usize, count_between(from, to))
    }

    // When an epoch began that was not trimmed.
    fn began(&self, epoch: u64) -> u64
        ensures { (cs : List Change) → EpochsFor self.now cs → IsKept self.now epoch → epoch ≤ length cs → result ≡ began cs epoch }
    {
        began_before(&self.times, self.floor, self.last.saturating_sub(epoch))
    }

    /// Where the slice of a stream begins that holds a time, if the epoch at that time was not trimmed.
    pub fn slice_start(&self, s: StreamId, time: u64) -> u64
        requires { time < 2 ^ 62 }
        ensures { (cs : List Change) → EpochsFor self.now cs → IsKept self.now (epoch_at cs time) → result ≡ slice_start cs s time }
    {
        let epoch = self.epoch_at(time);
        let began = self.began(epoch);
        began.max(last_edges(&self.table, epoch, s, time))
    }

    /// The time after this one up to which `slice_start` stays as it is: that of the next change, or the next edge, where
    /// the next slice begins, or `FOREVER`.
    pub fn slice_end(&self, s: StreamId, time: u64) -> u64
        requires { time < 2 ^ 62 }
        ensures same { (cs : List Change) → EpochsFor self.now cs → IsKept self.now (epoch_at cs time) →
            (u : ℕ) → time ≤ u → u < result → slice_start cs s u ≡ slice_start cs s time }
        ensures next { (cs : List Change) → EpochsFor self.now cs → IsKept self.now (epoch_at cs time) →
            result < 2 ^ 62 → slice_start cs s result ≡ result }
        ensures after { time < result }
        ensures most { result ≤ 2 ^ 62 }
    {
        let epoch = self.epoch_at(time);
        let count = count_until(&self.times, time);
        let change = time_from(&self.times, count);
        change.min(next_edges(&self.table, epoch, s, time))
    }

    /// Lets go what only epochs before this one need. All later ones may still be asked for. Takes no memory.
    pub fn trim(&mut self, epoch: u64)
        ensures same { (cs : List Change) → EpochsFor self.old cs → EpochsFor self.new cs }
        ensures kept { (e : ℕ) → epoch ≤ e → IsKept self.old e → IsKept self.new e }
        ensures last { last_of self.new ≡ last_of self.old }
        ensures newest { newest self.new ≡ newest self.old }
        ensures freed { epoch ≤ last_of self.old → held_of self.new + epoch ≤ last_of self.old }
        ensures owners { (slot : ℕ) → epoch ≤ last_of self.old → BeginAfter epoch (drop 1 (spans_of self.new.table.items slot)) }
    {
        let base = epoch.min(self.last);
        let later = self.last - base;
        self.floor = began_before(&self.times, self.floor, later);
        cut(&mut self.times, later);
        self.slots.cut(later);
        trim_table(&mut self.table, base);
    }
}
