//! Letting the cells go of which all windows are passed.

ghost use Rattle.std.specs.Prelude.{◌≡◌, ℕ, ◌≤◌, ◌<◌, ◌+◌, ◌==◌, ◌&&◌, nat_lt, if◌then◌else◌, Some, List, []};
ghost use Rattle.as_base.specs.declared.message.Change.{Change};
ghost use Rattle.as_base.specs.declared.stream.StreamId.{StreamId};
ghost use Rattle.as_base.specs.Stream.{place_of};
ghost use Rattle.shared_agg.specs.Aggs.{AggsFor, cells_in, epoch_in, records_of, is_slice};
ghost use Rattle.shared_agg.specs.Fill.{has};
ghost use Rattle.contents.specs.Past.{mark_of};
ghost use Rattle.part_state.specs.Dropped.{Thinned, are_dropped};
ghost use Rattle.part_state.specs.Waiting.{waiting};

use crate::entries::{Entries, mark_of};
use crate::waiting::{Wait, slots_waiting};
use as_base::StreamId;
use shared_agg::Aggs;

// Takes the cells of those queries out of a slice whose windows there are passed.
fn drop_at(aggs: &mut Aggs, s: StreamId, start: u64, entries: &Entries, marks: &[u64; 4])
    ensures cells { (t : StreamId) (c slot : ℕ) → slot < 512 → cells_in aggs.new t c slot ≡
        (if is_slice s start t c && has (waiting Wait.Passed marks.now start entries.now) slot then [] else cells_in aggs.old t c slot) }
    ensures thinned { Thinned aggs.old aggs.new }
{
    let slots = slots_waiting(entries, Wait::Passed, marks, start);
    aggs.drop_slice(s, start, &slots);
}

/// Takes the cells of those queries out of the slices of a stream whose windows there are passed: of the slices that begin
/// before the stream's watermark, since in a later one no window is passed. Takes no memory.
pub(crate) fn drop_passed(aggs: &mut Aggs, s: StreamId, entries: &Entries, marks: &[u64; 4])
    ensures cells { (t : StreamId) (c slot : ℕ) → slot < 512 → cells_in aggs.new t c slot ≡
        (if are_dropped s (mark_of marks.now s) marks.now entries.now t c slot then [] else cells_in aggs.old t c slot) }
    ensures thinned { Thinned aggs.old aggs.new }
{
    let mark = mark_of(marks, s);
    let mut next = 0;
    while next < mark {
        let Some(start) = aggs.start_from(s, next) else {
            return;
        };
        if mark <= start {
            return;
        }
        drop_at(aggs, s, start, entries, marks);
        next = start + 1;
    }
}

/// The same of the slices of all streams.
pub(crate) fn drop_all(aggs: &mut Aggs, entries: &Entries, marks: &[u64; 4])
    ensures cells { (t : StreamId) (c slot : ℕ) → slot < 512 → cells_in aggs.new t c slot ≡
        (if nat_lt c (mark_of marks.now t) && has (waiting Wait.Passed marks.now c entries.now) slot then [] else cells_in aggs.old t c slot) }
    ensures thinned { Thinned aggs.old aggs.new }
{
    drop_passed(aggs, StreamId::A, entries, marks);
    drop_passed(aggs, StreamId::B, entries, marks);
    drop_passed(aggs, StreamId::C, entries, marks);
    drop_passed(aggs, StreamId::D, entries, marks);
}
