ghost use Rattle.std.specs.Prelude.{◌≡◌, ◌≤◌, ◌<◌, ◌+◌, ◌==◌, ◌^◌, ℕ, Bool, true, false, length, slice_index_or, List, [], ◌∷◌, ◌++◌, IfOk, OnOk, refl};
ghost use Rattle.as_base.specs.declared.item.Record.{Record};
ghost use Rattle.as_base.specs.declared.message.Msg.{Msg};
ghost use Rattle.as_base.specs.declared.stream.StreamId.{StreamId};
ghost use Rattle.std.specs.List.{AllByRecursion};
ghost use Rattle.as_base.specs.Stream.{place_of};
ghost use Rattle.changelog.specs.Changes.{slot_of};
ghost use Rattle.changelog.specs.EpochsFor.{EpochsFor, IsKept, last_of, newest};
ghost use Rattle.changelog_set.specs.TouchedFor as entries;
ghost use Rattle.shared_agg.specs.Aggs.{records_of};
ghost use Rattle.views.specs.IsHolder.{time_of};
ghost use Rattle.contents.specs.IsPast.{IsPast};
ghost use Rattle.contents.specs.Kept.{kept_with};
ghost use Rattle.contents.specs.Orderly.{RecordMayFollow, MarksMayFollow, ChangeMayFollow, MayFollow};
ghost use Rattle.contents.specs.Past.{Past, no_past, followed, past_of};
ghost use Rattle.contents.specs.Touched.{touched, touched_by};
ghost use Rattle.part_state.specs.Entries.{window_fits};
ghost use Rattle.part_state.specs.Reader.{IsReaderFor, IsEvicted};
ghost use Rattle.part_state.specs.Standing.{IsBefore, IsStanding};
ghost use Rattle.part_state.specs.Tagged.{IsPlacingOf};
ghost use Rattle.part_state.specs.StateFor.{StateFor, MayTake, streams_of, is_there};

use crate::drop::drop_all;
use crate::entries::Entries;
use crate::reader::{Placing, Reader};
use as_base::{Change, NoMemory, Record, StreamId};
use changelog::Epochs;
use changelog_set::Touched;
use queryset_lanes::QuerySet;
use shared_agg::Aggs;
use std::alloc::Global;

/// What a part keeps of the messages that it took.
#[derive(Drop)]
pub struct State {
    alloc: Global,
    streams: u8,
    epochs: Epochs,
    touched: Touched,
    // One of each stream, in their order.
    readers: [Reader; 4],
    aggs: Aggs,
    marks: [u64; 4],
    entries: Entries,
}

// The place of a stream.
fn place_of(s: StreamId) -> usize
    ensures place { result ≡ place_of s }
    ensures within { result < 4 }
{
    match s {
        StreamId::A => 0,
        StreamId::B => 1,
        StreamId::C => 2,
        StreamId::D => 3,
    }
}

// The slot that the change opens or closes.
fn slot_of(c: &Change) -> u16
    ensures { result ≡ slot_of c.now }
{
    match c {
        Change::Opened { slot, .. } => *slot,
        Change::Closed { slot, .. } => *slot,
    }
}

// The set of the slot that the change touches.
fn touched_by(c: &Change) -> QuerySet
    requires { slot_of c.now < 512 }
    ensures { result ≡ touched_by c.now }
{
    QuerySet::none().with(slot_of(c), true)
}

// Adds a change, and the slot that it touches.
fn append_both(epochs: &mut Epochs, sets: &mut Touched, c: &Change) -> Result<(), NoMemory>
    requires slot { slot_of c.now < 512 }
    requires few { last_of epochs.old < 2 ^ 62 }
    requires fewer { entries.last_of sets.old < 2 ^ 62 }
    requires time { newest epochs.old ≤ time_of c.now }
    ensures epochs { (p : Past) → EpochsFor epochs.old p.changes → OnOk result (EpochsFor epochs.new (p.changes ++ c.now ∷ [])) }
    ensures touched { (p : Past) → entries.TouchedFor sets.old (touched p.changes) →
        OnOk result (entries.TouchedFor sets.new (touched (p.changes ++ c.now ∷ []))) }
    ensures kept { (e : ℕ) → IsKept epochs.old e → IsKept epochs.new e }
{
    epochs.append(c)?;
    sets.append(&touched_by(c))
}

// Takes a record into what is kept of its stream, which has this place.
fn take_at(
    readers: &mut [Reader],
    place: usize,
    r: &Record,
    epochs: &Epochs,
) -> Result<Placing, NoMemory>
    requires within { place < length readers.old }
    requires time { r.now.given.time < 2 ^ 62 }
    ensures within { place < length readers.old }
    ensures own { (is_there : StreamId → Bool) (p : Past) (stored : List Record) (d : Reader) → EpochsFor epochs.now p.changes →
        IsKept epochs.now 0 → IsPast p → RecordMayFollow is_there p r.now →
        IsReaderFor (slice_index_or readers.old place d) r.now.given.stream p stored →
        IfOk result (λ placing. IsPlacingOf p r.now placing × IsReaderFor (slice_index_or readers.new place d) r.now.given.stream
        (followed p (Msg.Rec r.now)) (kept_with (followed p (Msg.Rec r.now)) stored (Msg.Rec r.now))) }
    ensures others { (i : ℕ) (d : Reader) → (i == place) ≡ false → slice_index_or readers.new i d ≡ slice_index_or readers.old i d }
{
    readers[place].take(r, epochs)
}

// Lets of the slices of all streams go what no query needs any more.
fn evict_each(readers: &mut [Reader], entries: &Entries, marks: &[u64; 4])
    requires { length readers.old ≡ 4 }
    ensures four { length readers.old ≡ 4 }
    ensures evicted { (k : ℕ) (d : Reader) → k < length readers.old →
        IsEvicted entries.now marks.now (slice_index_or readers.old k d) (slice_index_or readers.new k d) }
{
    for reader in readers.iter_mut() {
        reader.evict(entries, marks);
    }
}

impl State {
    /// Nothing taken yet, of the first so many streams. The one refusal is `NoMemory`.
    pub fn new(alloc: Global, streams: u8) -> Result<State, NoMemory>
        ensures stands { IfOk result (λ state. StateFor state []) }
        ensures streams { IfOk result (λ state. streams_of state ≡ streams) }
    {
        Ok(State {
            alloc,
            streams,
            epochs: Epochs::new(alloc),
            touched: Touched::new(alloc),
            readers: [
                Reader::new(alloc, StreamId::A)?,
                Reader::new(alloc, StreamId::B)?,
                Reader::new(alloc, StreamId::C)?,
                Reader::new(alloc, StreamId::D)?,
            ],
            aggs: Aggs::new(alloc),
            marks: [0; 4],
            entries: Entries::new(alloc),
        })
    }

    /// Takes a record that may follow the messages before it. After `NoMemory`, the one refusal, the state stands for no
    /// messages any more.
    pub fn take_record(&mut self, r: &Record) -> Result<(), NoMemory>
        requires { MayTake self.old (Msg.Rec r.now) }
        ensures stands { (ms : List Msg) → StateFor self.old ms → MayFollow (is_there (streams_of self.old)) (past_of ms) (Msg.Rec r.now) →
            OnOk result (StateFor self.new (ms ++ Msg.Rec r.now ∷ [])) }
        ensures streams { streams_of self.new ≡ streams_of self.old }
    {
        self.keep_record(r)
    }

    /// Takes a change that may follow the messages before it. After `NoMemory`, the one refusal, the state stands for no
    /// messages any more.
    pub fn take_change(&mut self, c: &Change) -> Result<(), NoMemory>
        requires { MayTake self.old (Msg.Change c.now) }
        ensures stands { (ms : List Msg) → StateFor self.old ms → MayFollow (is_there (streams_of self.old)) (past_of ms) (Msg.Change c.now) →
            OnOk result (StateFor self.new (ms ++ Msg.Change c.now ∷ [])) }
        ensures streams { streams_of self.new ≡ streams_of self.old }
    {
        self.keep_change(c)
    }

    /// Takes the watermarks of an advance that may follow the messages before it, and lets all go that nobody waits for any
    /// more. Takes no memory.
    pub fn take_marks(&mut self, marks: &[u64; 4])
        ensures stands { (ms : List Msg) → StateFor self.old ms → MayFollow (is_there (streams_of self.old)) (past_of ms) (Msg.Advance marks.now) →
            StateFor self.new (ms ++ Msg.Advance marks.now ∷ []) }
        ensures streams { streams_of self.new ≡ streams_of self.old }
    {
        self.evict(marks);
    }

    // Takes a record that may follow. After `NoMemory` the state stands for nothing.
    fn keep_record(&mut self, r: &Record) -> Result<(), NoMemory>
        requires time { r.now.given.time < 2 ^ 62 }
        requires few { records_of self.old.aggs r.now.given.stream < 2 ^ 62 }
        ensures stands { (is_there : StreamId → Bool) (p : Past) (stored : List Record) → IsPast p → RecordMayFollow is_there p r.now →
            IsStanding self.old p stored → OnOk result (IsStanding self.new (followed p (Msg.Rec r.now))
            (kept_with (followed p (Msg.Rec r.now)) stored (Msg.Rec r.now))) }
        ensures streams { streams_of self.new ≡ streams_of self.old }
    {
        let s = r.given.stream;
        let placing = take_at(&mut self.readers, place_of(s), r, &self.epochs)?;
        self.aggs.add(
            s,
            placing.start,
            placing.epoch,
            r,
            &placing.set,
            &self.epochs,
        )
    }

    // Takes a change that may follow. After `NoMemory` the state stands for nothing.
    fn keep_change(&mut self, c: &Change) -> Result<(), NoMemory>
        requires slot { slot_of c.now < 512 }
        requires few { last_of self.old.epochs < 2 ^ 62 }
        requires fewer { entries.last_of self.old.touched < 2 ^ 62 }
        requires fits { window_fits c.now ≡ true }
        requires time { newest self.old.epochs ≤ time_of c.now }
        ensures stands { (is_there : StreamId → Bool) (p : Past) (stored : List Record) → IsPast p → ChangeMayFollow is_there p c.now →
            AllByRecursion (IsBefore (time_of c.now)) stored → IsStanding self.old p stored →
            OnOk result (IsStanding self.new (followed p (Msg.Change c.now)) stored) }
        ensures streams { streams_of self.new ≡ streams_of self.old }
    {
        append_both(&mut self.epochs, &mut self.touched, c)?;
        self.entries.change(c, &self.marks)
    }
    // Takes new watermarks that may follow, and lets all go that nobody waits for any more. Takes no memory.
    fn evict(&mut self, marks: &[u64; 4])
        ensures stands { (p : Past) (stored : List Record) → IsPast p → MarksMayFollow p marks.now →
            AllByRecursion (λ (r : Record). r.given.time < 2 ^ 62) stored → IsStanding self.old p stored →
            IsStanding self.new (followed p (Msg.Advance marks.now)) (kept_with (followed p (Msg.Advance marks.now)) stored (Msg.Advance marks.now)) }
        ensures streams { streams_of self.new ≡ streams_of self.old }
    {
        evict_each(&mut self.readers, &self.entries, marks);
        drop_all(&mut self.aggs, &self.entries, marks);
        self.entries.retain_running(marks);
        self.marks = *marks;
    }
}
