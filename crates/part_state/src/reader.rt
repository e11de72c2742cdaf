//! One stream, as a part reads it: which queries want its records, and those that are kept.

ghost use Rattle.std.specs.Prelude.{◌≡◌, ◌≤◌, ◌<◌, ◌==◌, ◌&&◌, ◌++◌, ◌^◌, if◌then◌else◌, Some, unwrap_or, IfOk, OnOk, List, [], ◌∷◌, ℕ, Bool, length, slice_index_or};
ghost use Rattle.std.specs.List.{filter};
ghost use Rattle.as_base.specs.declared.item.Record.{Record};
ghost use Rattle.as_base.specs.declared.message.Change.{Change};
ghost use Rattle.as_base.specs.declared.message.Msg.{Msg};
ghost use Rattle.as_base.specs.declared.stream.StreamId.{StreamId};
ghost use Rattle.changelog.specs.EpochsFor.{EpochsFor, IsKept};
ghost use Rattle.by_start.specs.declared.Begun.{Begun};
ghost use Rattle.by_start.specs.Order.{StartsRise, without};
ghost use Rattle.slice_store.specs.declared.placements.Held.{Held};
ghost use Rattle.slice_store.specs.Placed.{placed};
ghost use Rattle.slice_store.specs.Slices.{store, placed_at, epoch_at};
ghost use Rattle.contents.specs.IsPast.{IsPast};
ghost use Rattle.contents.specs.Kept.{kept_with};
ghost use Rattle.contents.specs.Orderly.{RecordMayFollow};
ghost use Rattle.contents.specs.Past.{Past, no_past, followed, mark_of};
ghost use Rattle.part_state.specs.Reader.{IsReaderFor, IsEvicted};
ghost use Rattle.part_state.specs.Tagged.{epoch_of_tagger, IsPlacingOf};
ghost use Rattle.part_state.specs.Waiting.{stays};

use crate::cut::{Cut, no_cut, start_at};
use crate::entries::{Entries, mark_of};
use crate::tagger::Tagger;
use crate::waiting::{Wait, slots_waiting};
use as_base::{NoMemory, Record, StreamId};
use changelog::Epochs;
use queryset_lanes::QuerySet;
use slice_store::Slices;
use std::alloc::Global;

/// What is kept of one stream: the records that a selection or a join has, by slice.
#[derive(Drop)]
pub(crate) struct Reader {
    tagger: Tagger,
    cut: Cut,
    slices: Slices,
}

/// A record's set of slots, and where its slice begins, in ticks, with the epoch of that.
#[derive(Drop)]
pub(crate) struct Placing {
    pub(crate) set: QuerySet,
    pub(crate) start: u64,
    pub(crate) epoch: u64,
}

// Places a record if it is kept. After `NoMemory`, the one refusal, nothing has changed.
fn place_if(
    slices: &mut Slices,
    is_kept: bool,
    start: u64,
    epoch: u64,
    r: Record,
    set: QuerySet,
) -> Result<(), NoMemory>
    ensures placed { OnOk result ((c : ℕ) → placed_at c slices.new.slices ≡
        (if is_kept && (c == start) then placed_at c slices.old.slices ++ placed r set ∷ [] else placed_at c slices.old.slices)) }
    ensures epochs { OnOk result ((c : ℕ) → epoch_at c slices.new.slices ≡
        (if is_kept && (c == start) then Some (unwrap_or (epoch_at c slices.old.slices) epoch) else epoch_at c slices.old.slices)) }
    ensures stream { slices.new.stream ≡ slices.old.stream }
{
    if !is_kept {
        return Ok(());
    }
    slices.place(start, epoch, r, set)
}

// Lets a slice go, unless a query waits for one of its records.
fn evict_at(slices: &mut Slices, i: usize, entries: &Entries, marks: &[u64; 4])
    requires { i < length slices.old.slices }
    ensures { (d : Begun Held) → slices.new ≡ store slices.old.stream
        (if stays entries.now marks.now (mark_of marks.now slices.old.stream) (slice_index_or slices.old.slices i d) then slices.old.slices
        else without i slices.old.slices) }
{
    let start = slices.start(i);
    let windows = slots_waiting(entries, Wait::Joining, marks, start);
    let selects = slots_waiting(entries, Wait::Selecting, marks, start);
    let mark = mark_of(marks, slices.stream());
    slices.evict(i, &windows, &selects, mark);
}

// Lets all slices go but those that a query waits for.
fn evict_all(slices: &mut Slices, entries: &Entries, marks: &[u64; 4])
    ensures rise { StartsRise slices.old.slices }
    ensures left { slices.new ≡ store slices.old.stream
        (filter (stays entries.now marks.now (mark_of marks.now slices.old.stream)) slices.old.slices) }
{
    let mut left = slices.len();
    while left > 0 {
        left -= 1;
        evict_at(slices, left, entries, marks);
    }
}

impl Reader {
    /// Nothing of the stream yet. The one refusal is `NoMemory`.
    pub(crate) fn new(alloc: Global, s: StreamId) -> Result<Reader, NoMemory>
        ensures { IfOk result (λ reader. IsReaderFor reader s no_past []) }
    {
        Ok(Reader {
            tagger: Tagger::new(alloc, s)?,
            cut: no_cut(),
            slices: Slices::new(alloc, s),
        })
    }

    /// Takes a record of the stream, and keeps it where a selection or a join has it. It comes after those before it; no
    /// epoch from that of the stream's last record on was trimmed. After `NoMemory`, the one refusal, what is kept is what was kept.
    pub(crate) fn take(&mut self, r: &Record, epochs: &Epochs) -> Result<Placing, NoMemory>
        requires { r.now.given.time < 2 ^ 62 }
        ensures { (is_there : StreamId → Bool) (p : Past) (stored : List Record) → EpochsFor epochs.now p.changes → IsKept epochs.now (epoch_of_tagger self.old.tagger) →
            IsPast p → RecordMayFollow is_there p r.now → IsReaderFor self.old r.now.given.stream p stored →
            IfOk result (λ placing. IsPlacingOf p r.now placing ×
            IsReaderFor self.new r.now.given.stream (followed p (Msg.Rec r.now)) (kept_with (followed p (Msg.Rec r.now)) stored (Msg.Rec r.now))) }
    {
        let tag = self.tagger.tag(r, epochs);
        let start = start_at(&mut self.cut, epochs, r.given.stream, r.given.time);
        place_if(&mut self.slices, tag.is_kept, start, tag.epoch, *r, tag.set)?;
        Ok(Placing {
            set: tag.set,
            start,
            epoch: tag.epoch,
        })
    }
    /// Lets the slices go of which no record is needed any more by these watermarks. The entries are the queries that ran
    /// before them.
    pub(crate) fn evict(&mut self, entries: &Entries, marks: &[u64; 4])
        ensures { IsEvicted entries.now marks.now self.old self.new }
    {
        evict_all(&mut self.slices, entries, marks);
    }
}
