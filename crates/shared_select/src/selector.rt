ghost use Rattle.std.specs.Prelude.{◌≡◌, ℕ, ◌≤◌, ◌<◌, ◌^◌, IfOk, List, length, slice_set};
ghost use Rattle.std.specs.List.{AllByRecursion};
ghost use Rattle.as_base.specs.declared.item.Record.{Record};
ghost use Rattle.as_base.specs.declared.message.Change.{Change};
ghost use Rattle.views.specs.Slots.{holders_of, set_of};
ghost use Rattle.changelog.specs.BySlot.{renewed};
ghost use Rattle.changelog.specs.Changes.{epoch_at};
ghost use Rattle.changelog.specs.EpochsFor.{EpochsFor, IsKept, owned};
ghost use Rattle.changelog.specs.Orderly.{IsOrderly};
ghost use Rattle.shared_select.specs.SelectorFor.{stream_of, epoch_of, SelectorFor, IsNew};
ghost use Rattle.shared_select.specs.Wanting.{wanting, bounds_on};

use as_base::{Bounds, Given, NoMemory, Plan, StreamId};
use box_lanes::Columns;
use changelog::Epochs;
use queryset_lanes::QuerySet;
use std::alloc::Global;

/// The bounds that queries set for one stream, as they stand in one epoch of the changes: it tells of a record which slots
/// want it. No call but `new` takes memory.
#[derive(Drop)]
pub struct Selector {
    stream: StreamId,
    epoch: u64,
    columns: Columns,
}

// The bounds that the owner of a slot sets for a stream that it reads.
fn bounds_on(owner: &Option<(u64, Plan)>, s: StreamId) -> Option<Bounds>
    ensures { result ≡ bounds_on s owner.now }
{
    match owner {
        Some((_, plan)) if plan.left == s => Some(plan.left_bounds),
        Some((_, plan)) if plan.right == s => Some(plan.right_bounds),
        _ => None,
    }
}

// Gives a slot these bounds, or none: what its last owner set goes in either case.
fn renew(columns: &mut Columns, slot: u16, bounds: &Option<Bounds>)
    requires { slot < 512 }
    ensures { columns.new ≡ slice_set columns.old slot bounds.now }
{
    match bounds {
        Some(bounds) => columns.set(slot, bounds),
        None => columns.clear(slot),
    }
}

// Gives each of the slots the bounds that its owner in the epoch sets for the stream.
fn renew_all(columns: &mut Columns, slots: &[u16], epochs: &Epochs, epoch: u64, s: StreamId)
    requires { AllByRecursion (λ slot. slot < 512) slots.now }
    ensures { columns.new ≡ renewed (λ slot. bounds_on s (owned epochs.now epoch slot)) columns.old slots.now }
{
    for slot in slots {
        let owner = epochs.owner(epoch, *slot);
        renew(columns, *slot, &bounds_on(&owner, s));
    }
}

impl Selector {
    /// A selector for the records of a stream, in epoch 0, where no slot has an owner; with all the memory that it will ever
    /// take.
    pub fn new(alloc: Global, s: StreamId) -> Result<Selector, NoMemory>
        ensures { IfOk result (IsNew s) }
    {
        let columns = Columns::new(alloc)?;
        Ok(Selector {
            stream: s,
            epoch: 0,
            columns,
        })
    }

    /// The stream whose records it tags.
    pub fn stream(&self) -> StreamId
        ensures { result ≡ stream_of self.now }
    {
        self.stream
    }

    /// The epoch in which it stands.
    pub fn epoch(&self) -> u64
        ensures { result ≡ epoch_of self.now }
    {
        self.epoch
    }

    /// Moves on to the epoch that stands at a time: it costs the changes that came since, and nothing where none did. The
    /// selector stands for these changes, in an epoch that was not trimmed and is not after that of the time.
    pub fn advance_to(&mut self, time: u64, epochs: &Epochs)
        ensures stream { stream_of self.new ≡ stream_of self.old }
        ensures stands { (cs : List Change) → EpochsFor epochs.now cs → SelectorFor self.old cs → IsKept epochs.now (epoch_of self.old) →
            epoch_of self.old ≤ epoch_at cs time → SelectorFor self.new cs × (epoch_of self.new ≡ epoch_at cs time) }
    {
        let epoch = epochs.epoch_at(time);
        let slots = epochs.slots_between(self.epoch, epoch);
        renew_all(&mut self.columns, slots, epochs, epoch, self.stream);
        self.epoch = epoch;
    }

    /// The slots whose owners want a record of the selector's stream: each reads the stream, and its bounds for it hold the
    /// record. Where the selector was advanced to the record's time, that is the record's set.
    pub fn tag(&self, g: &Given) -> QuerySet
        ensures owners { (cs : List Change) → SelectorFor self.now cs → g.now.stream ≡ stream_of self.now →
            result ≡ wanting cs (epoch_of self.now) g.now }
        ensures set { (cs : List Change) (r : Record) → SelectorFor self.now cs → g.now.stream ≡ stream_of self.now → IsOrderly cs →
            r.given ≡ g.now → r.given.time < 2 ^ 62 → epoch_of self.now ≡ epoch_at cs r.given.time → result ≡ set_of (holders_of cs) r }
    {
        self.columns.select(g, &QuerySet::all())
    }
}
