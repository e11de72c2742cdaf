//! Which queries want a record, and whether one of them keeps it.

ghost use Rattle.std.specs.Prelude.{◌≡◌, ◌≤◌, ◌<◌, ◌^◌, IfOk, List, length, slice_set};
ghost use Rattle.std.specs.List.{AllByRecursion};
ghost use Rattle.as_base.specs.declared.message.Change.{Change};
ghost use Rattle.as_base.specs.declared.stream.StreamId.{StreamId};
ghost use Rattle.changelog.specs.BySlot.{renewed};
ghost use Rattle.changelog.specs.Changes.{epoch_at};
ghost use Rattle.changelog.specs.EpochsFor.{EpochsFor, IsKept, owned};
ghost use Rattle.queryset_lanes.specs.Slots.{meets};
ghost use Rattle.contents.specs.IsPast.{IsPast};
ghost use Rattle.contents.specs.Past.{Past};
ghost use Rattle.part_state.specs.Keeping.{keeps_records, keeping};
ghost use Rattle.part_state.specs.Tagged.{epoch_of_tagger, IsTaggerFor, IsTagOf};

use as_base::{Given, Kind, NoMemory, Plan, Record, StreamId};
use changelog::Epochs;
use queryset_lanes::QuerySet;
use shared_select::Selector;
use std::alloc::Global;

/// Which slots want the records of one stream, and which slots' owners keep records, in the epoch of its last record.
#[derive(Drop)]
pub(crate) struct Tagger {
    selector: Selector,
    keepers: QuerySet,
}

/// A record's set of slots, whether one of their owners keeps it, and the epoch at its time.
#[derive(Drop)]
pub(crate) struct Tag {
    pub(crate) set: QuerySet,
    pub(crate) is_kept: bool,
    pub(crate) epoch: u64,
}

// The owner keeps records: it is a selection or a join.
fn keeps_records(owner: &Option<(u64, Plan)>) -> bool
    ensures { result ≡ keeps_records owner.now }
{
    match owner {
        Some((_, plan)) => matches!(plan.kind, Kind::Select | Kind::Join),
        None => false,
    }
}

// Says of a slot whether its owner keeps records.
fn renew(keepers: &mut QuerySet, slot: u16, keeps: bool)
    requires { slot < 512 }
    ensures { keepers.new ≡ slice_set keepers.old slot keeps }
{
    *keepers = keepers.with(slot, keeps);
}

// Says of each of the slots whether its owner in the epoch keeps records.
fn renew_all(keepers: &mut QuerySet, slots: &[u16], epochs: &Epochs, epoch: u64)
    requires { AllByRecursion (λ slot. slot < 512) slots.now }
    ensures { keepers.new ≡ renewed (λ slot. keeps_records (owned epochs.now epoch slot)) keepers.old slots.now }
{
    for slot in slots {
        let owner = epochs.owner(epoch, *slot);
        renew(keepers, *slot, keeps_records(&owner));
    }
}

// Says it of the owners in another epoch, at the cost of the changes between.
fn turn_to(keepers: &mut QuerySet, epochs: &Epochs, from: u64, to: u64)
    ensures { (cs : List Change) → EpochsFor epochs.now cs → IsKept epochs.now from → from ≤ to → to ≤ length cs →
        keepers.old ≡ keeping cs from → keepers.new ≡ keeping cs to }
{
    let slots = epochs.slots_between(from, to);
    renew_all(keepers, slots, epochs, to);
}

// The sets have a slot in common.
fn meet(a: &QuerySet, b: &QuerySet) -> bool
    ensures { result ≡ meets a.now b.now }
{
    !a.and(b).is_empty()
}

impl Tagger {
    /// Of the owners in epoch 0, where there are none; with all the memory that it will ever take.
    pub(crate) fn new(alloc: Global, s: StreamId) -> Result<Tagger, NoMemory>
        ensures stands { IfOk result (λ tagger. (cs : List Change) → IsTaggerFor tagger s cs) }
        ensures epoch { IfOk result (λ tagger. epoch_of_tagger tagger ≡ 0) }
    {
        Ok(Tagger {
            selector: Selector::new(alloc, s)?,
            keepers: QuerySet::none(),
        })
    }

    // Moves on to the epoch at a time.
    fn advance_to(&mut self, time: u64, epochs: &Epochs)
        ensures { (s : StreamId) (cs : List Change) → EpochsFor epochs.now cs → IsTaggerFor self.old s cs → IsKept epochs.now (epoch_of_tagger self.old) →
            epoch_of_tagger self.old ≤ epoch_at cs time → IsTaggerFor self.new s cs × (epoch_of_tagger self.new ≡ epoch_at cs time) }
    {
        let before = self.selector.epoch();
        self.selector.advance_to(time, epochs);
        turn_to(&mut self.keepers, epochs, before, self.selector.epoch());
    }

    /// Moves on to the epoch at the record's time, and tags the record. The record is of the stream, and no time of the
    /// stream was later.
    pub(crate) fn tag(&mut self, r: &Record, epochs: &Epochs) -> Tag
        ensures { (s : StreamId) (p : Past) → IsPast p → EpochsFor epochs.now p.changes → IsTaggerFor self.old s p.changes →
            IsKept epochs.now (epoch_of_tagger self.old) → epoch_of_tagger self.old ≤ epoch_at p.changes r.now.given.time →
            r.now.given.stream ≡ s → r.now.given.time < 2 ^ 62 →
            IsTaggerFor self.new s p.changes × (epoch_of_tagger self.new ≡ epoch_at p.changes r.now.given.time) × IsTagOf p r.now result }
    {
        self.advance_to(r.given.time, epochs);
        let set = self.selector.tag(&r.given);
        let is_kept = meet(&set, &self.keepers);
        Tag {
            set,
            is_kept,
            epoch: self.selector.epoch(),
        }
    }
}
