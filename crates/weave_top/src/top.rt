ghost use Rattle.std.specs.Prelude.{◌≡◌, ◌⊎◌, ◌↔◌, ◌≤◌, None, Some, [], length, map, string_bytes, vec_len, vec_capacity};
ghost use Rattle.as_outside.specs.Makes.{Does};
ghost use Rattle.inbox.specs.declared.passes.Closed.{Closed};
ghost use Rattle.service.specs.Processor.{broken_in};
ghost use Rattle.weave_top.specs.declared.weaving.Weaving.{Weaving};
ghost use Rattle.weave_top.specs.Weaving.{weaving_of, IsWeaving};
ghost use Rattle.weave_top.specs.Sources.{all_sources};
ghost use Rattle.weave_top.specs.Fed.{WentThrough};
ghost use Rattle.weave_top.specs.Ends.{IsWoven};
ghost use Rattle.weave_top.specs.Causes.{IsCaused};
ghost use Rattle.weave_top.specs.Outcome.{ended_by, named_by};

use crate::loom::make_loom;
use crate::outcome::{ended_by, named_by};
use crate::report::WeaveReport;
use crate::sources::{pack, unpack};
use crate::weaving::{Weaving, weaving_of};
use crate::woven::{Woven, weave_on};
use as_base::Numbers;
use as_outside::{Feeds, Gate, Shelf, Source, Status};
use std::alloc::Global;
use std::sync::Wait;
use std::thread::Threads;

// The report of a weave that touched nothing.
fn untouched<F: Drop>(alloc: Global, status: Status, feeds: Vec<F>) -> WeaveReport<F>
    ensures { result ≡ record { status = status; lines = 0; broken = []; feeder = None; feeds = feeds.items; closed = None } }
{
    WeaveReport {
        status,
        lines: 0,
        broken: Numbers::from_vec(Vec::new(alloc)),
        feeder: None,
        feeds: Feeds::from_vec(feeds),
        closed: None,
    }
}

// The report of a weave that left this.
fn report<F: Drop, E: Drop>(woven: Woven<F, E>, mut feeds: Vec<F>) -> WeaveReport<F>
    requires none { vec_len feeds ≡ 0 }
    requires room { 5 ≤ vec_capacity feeds }
    ensures { result ≡ record {
      status = ended_by woven.outcome (broken_in woven.processor);
      lines = woven.processor.lines;
      broken = broken_in woven.processor;
      feeder = named_by woven.outcome;
      feeds = all_sources woven.sources;
      closed = Some woven.closed;
    } }
{
    let Woven {
        sources,
        outcome,
        processor,
        closed,
    } = woven;
    pack(&mut feeds, sources);
    let status = ended_by(outcome, &processor.broken);
    WeaveReport {
        status,
        lines: processor.lines,
        broken: processor.broken.into_numbers(),
        feeder: named_by(outcome),
        feeds: Feeds::from_vec(feeds),
        closed: Some(closed),
    }
}

// A weave as the words ask for, over sources and a shelf.
fn weave_within<R: Threads + Wait + Sync, F: Source + Send + Drop, K: Shelf, G: Gate>(
    rt: &R,
    alloc: Global,
    weaving: Weaving,
    mut feeds: Vec<F>,
    shelf: &mut K,
    gate: &G,
) -> WeaveReport<F>
    requires sound { IsWeaving weaving }
    requires five { length feeds.items ≡ 5 }
    ensures no_usage { result.status ≡ Status.Usage → ⊥ }
    ensures untouched { result.closed ≡ None → (shelf.new ≡ shelf.old)
        × (result ≡ record { status = Status.NoMemory; lines = 0; broken = []; feeder = None; feeds = feeds.items; closed = None }) }
    ensures through { (closed : Closed) → result.closed ≡ Some closed →
        WentThrough weaving.limit (map F.seen feeds.items) (map F.seen result.feeds) closed }
    ensures woven { (closed : Closed) → result.closed ≡ Some closed → Does (K.seen shelf.old) (K.seen shelf.new)
        (IsWoven weaving.config result.status result.lines result.broken result.feeder closed) }
    ensures causes { IsCaused result.status result.broken (K.seen shelf.old).faults (K.seen shelf.new).faults }
{
    let Ok(loom) = make_loom(alloc, weaving) else {
        return untouched(alloc, Status::NoMemory, feeds);
    };
    let sources = unpack(&mut feeds);
    report(weave_on(rt, gate, loom, sources, shelf), feeds)
}

/// Weaves the lines of five sources into one journal over a shelf, and does for each line what a run does. The words are
/// options: how many streams, how many slots, how many bytes of each source at most, and for how many loads there is room
/// between the feeders and the taker. Any other words are `Usage`, and touch nothing.
///
/// Five feeders, in threads of their own, read the five sources, cut lines and hand their items over, each in its order; a
/// feeder whose thread cannot be started is stepped by this thread. Before each load that feeder i hands over, also one
/// that is tried again, the gate is entered with `Place::Feeder(i)`. This thread notes each line's item in the journal, by
/// its text and a line feed, and then processes it: the lines of the journal are the lines of the service. Before each note
/// all that was due for the items noted so far was out, whatever comes of the weave.
///
/// The report says how it ended, and hands the sources back. After `Done` the five were read to their ends, the journal
/// interleaves their items, and all that is due was put and said. An output of which a begin or a put failed is broken, as
/// in a run: `OutputBroken` then stands for `Done`. `ReadFault` and `TooLong` name the feeder whose source failed, or gave
/// the byte after the limit. `JournalFault` comes exactly where the count of notes' faults rose, and `AnswerFault` where that
/// of says did. `NoMemory` may always come. After each of these nothing more is noted, said, begun or put; what the feeders
/// still hand over is dropped until all five have ended. `closed` is the inbox, with all that went through it; it is `None`
/// where no source was touched and no call was made on the shelf. That this returns is not promised.
pub fn weave<R: Threads + Wait + Sync, F: Source + Send + Drop, K: Shelf, G: Gate>(
    rt: &R,
    alloc: Global,
    words: &[String],
    feeds: Vec<F>,
    shelf: &mut K,
    gate: &G,
) -> WeaveReport<F>
    requires five { length feeds.items ≡ 5 }

    // The words alone decide on `Usage`, which touches nothing.
    ensures usage { (result.status ≡ Status.Usage) ↔ (weaving_of (map string_bytes words.now) ≡ None) }
    ensures unused { result.status ≡ Status.Usage → result.closed ≡ None }

    // Where no inbox is handed back, nothing was touched, and the words or want of memory are why.
    ensures untouched { result.closed ≡ None → (shelf.new ≡ shelf.old) × (result.feeds ≡ feeds.items) × (result.lines ≡ 0)
        × (result.broken ≡ []) × (result.feeder ≡ None) × ((result.status ≡ Status.Usage) ⊎ (result.status ≡ Status.NoMemory)) }

    // What the sources gave, under the limit that the words ask for, went through the inbox, and how each of them ended.
    ensures through { (w : Weaving) (closed : Closed) → weaving_of (map string_bytes words.now) ≡ Some w → result.closed ≡ Some closed →
        WentThrough w.limit (map F.seen feeds.items) (map F.seen result.feeds) closed }

    // All calls on the shelf: the one journal, what stood before each note, and what stands at the end, by the status.
    ensures woven { (w : Weaving) (closed : Closed) → weaving_of (map string_bytes words.now) ≡ Some w → result.closed ≡ Some closed →
        Does (K.seen shelf.old) (K.seen shelf.new) (IsWoven w.config result.status result.lines result.broken result.feeder closed) }

    // Over every shelf, also one that tells no call: a fault is reported where its count rose, and nowhere else.
    ensures causes { IsCaused result.status result.broken (K.seen shelf.old).faults (K.seen shelf.new).faults }
{
    match weaving_of(words) {
        Some(weaving) => weave_within(rt, alloc, weaving, feeds, shelf, gate),
        None => untouched(alloc, Status::Usage, feeds),
    }
}

#[cfg(test)]
mod tests;
