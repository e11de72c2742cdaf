ghost use Rattle.std.specs.Prelude.{◌≡◌, IfOk, length};

use super::*;
use as_outside::{Entry, FreeGate, MemDesk, MemSource, Place};
use std::process::Abort;
use std::sync::atomic::{AtomicBool, AtomicU64, Ordering};
use std::test::Fail;
use std::thread;

// Two records of stream a, one of stream b, and a creation.
const FEEDS: [&[u8]; 5] = [
    b"rec a 1 7 1 0 0 0\nrec a 2 7 2 0 0 0\n",
    b"rec b 3 7 3 0 0 0\n",
    b"",
    b"",
    b"create select from a\n",
];

// A feed of more than ten bytes.
const LONG: [&[u8]; 5] = [b"", b"", b"mark a 123\n", b"", b""];

// A gate waits so many turns at most.
const TURNS: u64 = 1_000_000;

// Holds all feeders but one, until that one has come so often; where that takes too many turns it gives up, and says so.
#[derive(Drop)]
struct Behind {
    first: u8,
    wanted: u64,
    came: AtomicU64,
    gave_up: AtomicBool,
}

impl Behind {
    fn new(first: u8, wanted: u64) -> Behind {
        Behind {
            first,
            wanted,
            came: AtomicU64::new(0),
            gave_up: AtomicBool::new(false),
        }
    }
}

impl Gate for Behind {
    fn enter(&self, place: Place) {
        if place == Place::Feeder(self.first) {
            self.came.fetch_add(1, Ordering::SeqCst);
            return;
        }
        for _ in 0..TURNS {
            if self.came.load(Ordering::SeqCst) >= self.wanted {
                return;
            }
            thread::yield_now();
        }
        self.gave_up.store(true, Ordering::SeqCst);
    }
}

// A source of this text, whose first pull fails if it is to.
fn source(alloc: Global, text: &[u8], fails: bool) -> Result<MemSource, Fail> {
    let mut failing = Vec::new(alloc);
    if fails {
        failing.push(1)?;
    }
    Ok(MemSource::new(text.to_vec(alloc)?, Vec::new(alloc), failing).map_err(|_| "memory")?)
}

// The sources of five texts; of one of them the first pull fails, if it is named.
fn sources(alloc: Global, texts: &[&[u8]; 5], failing: u8) -> Result<Vec<MemSource>, Fail>
    ensures { IfOk result (λ sources. length sources.items ≡ 5) }
{
    let [one, two, three, four, five] = texts;
    let mut sources = Vec::new(alloc);
    sources.push(source(alloc, one, failing == 1)?)?;
    sources.push(source(alloc, two, failing == 2)?)?;
    sources.push(source(alloc, three, failing == 3)?)?;
    sources.push(source(alloc, four, failing == 4)?)?;
    sources.push(source(alloc, five, failing == 5)?)?;
    Ok(sources)
}

// A shelf of which the first call fails, if it is to.
fn shelf(alloc: Global, fails: bool) -> Result<MemDesk, Fail> {
    let mut failing = Vec::new(alloc);
    if fails {
        failing.push((1, 0))?;
    }
    Ok(MemDesk::new(alloc, Vec::new(alloc), Vec::new(alloc), failing).map_err(|_| "memory")?)
}

// What a report tells beside what was left.
type Told = (Status, u64, Option<u8>);

// What a weave of the sources reports with one option or none.
fn woven<R: Threads + Wait + Sync, G: Gate>(
    rt: &R,
    alloc: Global,
    options: &[&str],
    sources: Vec<MemSource>,
    shelf: &mut MemDesk,
    gate: &G,
) -> Result<Told, Fail>
    requires { length sources.items ≡ 5 }
{
    let mut words = Vec::new(alloc);
    for word in options {
        words.push(String::from_str(alloc, word)?)?;
    }
    let report = weave(rt, alloc, &words, sources, shelf, gate);
    Ok((report.status, report.lines, report.feeder))
}

// What the log moved: the journal, what was said, and what output 1 holds.
fn moved(alloc: Global, log: &[Entry]) -> Result<(Vec<u8>, Vec<u8>, Vec<u8>), Fail> {
    let mut journal = Vec::new(alloc);
    let mut said = Vec::new(alloc);
    let mut held = Vec::new(alloc);
    for entry in log {
        match entry {
            Entry::Noted(bytes) => journal.extend_from_slice(bytes.as_slice())?,
            Entry::Said(bytes) => said.extend_from_slice(bytes.as_slice())?,
            Entry::Put(1, bytes) => held.extend_from_slice(bytes.as_slice())?,
            _ => {}
        }
    }
    Ok((journal, said, held))
}

#[test]
fn a_query_that_comes_first_has_all_rows(rt: HostRuntime) -> Result<(), Fail> {
    let alloc = rt.alloc();
    let gate = Behind::new(5, 2);
    let mut desk = shelf(alloc, false)?;
    let told = woven(
        &rt,
        alloc,
        &[],
        sources(alloc, &FEEDS, 0)?,
        &mut desk,
        &gate,
    )?;
    assert!(rt; told == (Status::Done, 4, None));
    let (journal, said, held) = moved(alloc, desk.log())?;
    assert!(rt; journal.starts_with(b"create select from a\n"));
    assert!(rt; said.as_slice() == b"1 created 1 at 0\ndone 4\n".as_slice());
    assert!(rt; held.as_slice() == b"1 7 1 0 0 0\n2 7 2 0 0 0\n".as_slice());
    Ok(())
}

#[test]
fn feeders_run_at_the_same_time(rt: HostRuntime) -> Result<(), Fail> {
    let alloc = rt.alloc();
    let gate = Behind::new(2, 1);
    let mut desk = shelf(alloc, false)?;
    let told = woven(
        &rt,
        alloc,
        &["--inbox", "1"],
        sources(alloc, &FEEDS, 0)?,
        &mut desk,
        &gate,
    )?;
    assert!(rt; told == (Status::Done, 4, None));
    assert!(rt; !gate.gave_up.load(Ordering::SeqCst));
    Ok(())
}

#[test]
fn faults_stop_a_weave(rt: HostRuntime) -> Result<(), Fail> {
    let alloc = rt.alloc();
    let mut desk = shelf(alloc, true)?;
    let told = woven(
        &rt,
        alloc,
        &[],
        sources(alloc, &FEEDS, 0)?,
        &mut desk,
        &FreeGate,
    )?;
    assert!(rt; told == (Status::JournalFault, 0, None));
    assert!(rt; matches!(desk.log(), [Entry::NoteFailed(_)]));
    let mut desk = shelf(alloc, false)?;
    let (status, _, feeder) = woven(
        &rt,
        alloc,
        &[],
        sources(alloc, &FEEDS, 2)?,
        &mut desk,
        &FreeGate,
    )?;
    assert!(rt; (status, feeder) == (Status::ReadFault, Some(2)));
    let mut desk = shelf(alloc, false)?;
    let told = woven(
        &rt,
        alloc,
        &["--max-bytes", "10"],
        sources(alloc, &LONG, 0)?,
        &mut desk,
        &FreeGate,
    )?;
    assert!(rt; told == (Status::TooLong, 0, Some(3)));
    assert!(rt; desk.log().is_empty());
    Ok(())
}

#[test]
fn other_words_touch_nothing(rt: HostRuntime) -> Result<(), Fail> {
    let alloc = rt.alloc();
    let mut desk = shelf(alloc, false)?;
    let told = woven(
        &rt,
        alloc,
        &["--slots", "0"],
        sources(alloc, &FEEDS, 0)?,
        &mut desk,
        &FreeGate,
    )?;
    assert!(rt; told == (Status::Usage, 0, None));
    assert!(rt; desk.log().is_empty());
    Ok(())
}
