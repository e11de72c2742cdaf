ghost use Rattle.std.specs.Prelude.{◌≡◌, map};
ghost use Rattle.inbox.specs.Passes.{id_of, inbox_of, taker_inbox, five_times};

use super::*;
use as_base::Item;
use as_outside::{Failed, FreeGate, Source};
use inbox::{Ending, FeedPass, Inbox, Load, TakePass};
use std::alloc::Global;
use std::sync::Wait;
use std::sync::atomic::AtomicBool;
use std::test::Fail;
use std::thread;
use std::thread::Threads;

// A source of a text: a pull gives at most so many bytes, and after so many pulls each fails. It tells nothing.
#[derive(Drop)]
struct Script {
    text: &'static [u8],
    cut: usize,
    pulls: usize,
}

impl Source for Script {
    ghost use Rattle.std.specs.Prelude.{None, ◌-◌, ◌^◌};

    ghost seen = { λ s. record { left = None; faults = 2 ^ 64 - 1 } };

    fn pull(&mut self, buf: &mut [u8]) -> Result<usize, Failed> {
        if self.pulls == 0 {
            return Err(Failed);
        }
        self.pulls -= 1;
        let count = self.cut.min(buf.len()).min(self.text.len());
        buf[..count].copy_from_slice(&self.text[..count]);
        self.text = &self.text[count..];
        Ok(count)
    }
}

// How many bytes a pull gives, after how many pulls each fails, and the limit on the bytes.
type Plan = (usize, usize, usize);

const THREE_LINES: &[u8] = b"delete 1\ndelete 2\ndelete 3";

// More steps than three lines need.
const STEPS: u64 = 200;

// So many calls are far more than a run needs.
const TRIES: u64 = 100_000_000;

// A byte for a load: the number that its line deletes, or how the source ended.
fn byte_of(load: &Load) -> u8 {
    match load {
        Load::Line(Item::Delete(1)) => b'1',
        Load::Line(Item::Delete(2)) => b'2',
        Load::Line(Item::Delete(3)) => b'3',
        Load::Line(_) => b'?',
        Load::Last(Ending::Whole) => b'W',
        Load::Last(Ending::ReadFault) => b'R',
        Load::Last(Ending::TooLong) => b'T',
        Load::Last(Ending::NoMemory) => b'N',
    }
}

// The first feeder's pass.
fn first(inbox: &Inbox, feeds: [FeedPass; 5]) -> FeedPass
    requires { map inbox_of feeds ≡ five_times (id_of inbox.now) }
    ensures { inbox_of result ≡ id_of inbox.now }
{
    let [first, _second, _third, _fourth, _fifth] = feeds;
    first
}

// A feeder of three lines.
fn feeder_at(inbox: &Inbox, alloc: Global, pass: FeedPass, plan: Plan) -> Result<At, Fail>
    requires { inbox_of pass ≡ id_of inbox.now }
{
    let (cut, pulls, limit) = plan;
    let source = Script {
        text: THREE_LINES,
        cut,
        pulls,
    };
    let maker = Maker::new(alloc, limit)?;
    Ok(At {
        inbox,
        feeder: Feeder::new(source, maker, pass, 1),
    })
}

// A feeder at its inbox.
#[derive(Drop)]
struct At<'a> {
    inbox: &'a Inbox,
    feeder: Feeder<Script>,
    ghost fits: { inbox_of feeder.pass ≡ id_of inbox.now },
}

impl<'a> At<'a> {
    fn step<R: Wait>(&mut self, rt: &R) -> bool {
        self.feeder.step(rt, self.inbox, &FreeGate)
    }

    // How many steps get on before the inbox is full.
    fn steps_until_full<R: Wait>(&mut self, rt: &R) -> u64 {
        for step in 0..STEPS {
            if !self.step(rt) {
                return step;
            }
        }
        STEPS
    }

    fn run<R: Wait>(self, rt: &R, skip: bool) -> bool {
        let At { inbox, feeder } = self;
        feeder
            .run(rt, inbox, &FreeGate, &AtomicBool::new(skip))
            .is_over()
    }
}

// Steps by hand, and takes after each third step.
fn fed<R: Wait>(rt: &R, alloc: Global, plan: Plan) -> Result<Vec<u8>, Fail> {
    let (inbox, feeds, pass) = Inbox::new(alloc, 1)?;
    let inbox = &inbox;
    let mut at = feeder_at(inbox, alloc, first(inbox, feeds), plan)?;
    let mut taker = Taker { inbox, pass };
    let mut text = Vec::new(alloc);
    for step in 0..STEPS {
        at.step(rt);
        if step % 3 == 2 {
            if let Some(byte) = taker.take(rt) {
                text.push(byte)?;
            }
        }
    }
    Ok(text)
}

// Whether a feeder of three lines gives these loads.
fn gives<R: Wait>(rt: &R, alloc: Global, plan: Plan, told: &[u8]) -> Result<bool, Fail> {
    let loads = fed(rt, alloc, plan)?;
    Ok(loads.as_slice() == told)
}

#[test]
fn loads_come_whole_and_in_order(rt: HostRuntime) -> Result<(), Fail> {
    let alloc = rt.alloc();
    assert!(rt; gives(&rt, alloc, (3, 1000, 1000), b"123W")?);
    assert!(rt; gives(&rt, alloc, (1000, 1000, 26), b"123W")?);
    assert!(rt; gives(&rt, alloc, (1000, 1000, 25), b"12T")?);
    assert!(rt; gives(&rt, alloc, (10, 2, 1000), b"12R")?);
    assert!(rt; gives(&rt, alloc, (10, 0, 1000), b"R")?);
    Ok(())
}

#[test]
fn a_load_without_room_waits(rt: HostRuntime) -> Result<(), Fail> {
    let alloc = rt.alloc();
    let (inbox, feeds, pass) = Inbox::new(alloc, 1)?;
    let inbox = &inbox;
    let mut at = feeder_at(inbox, alloc, first(inbox, feeds), (1000, 1000, 1000))?;
    let mut taker = Taker { inbox, pass };
    // A pull, a cut, an offer, a cut; then the inbox is full.
    assert!(rt; at.steps_until_full(&rt) == 4);
    assert!(rt; at.steps_until_full(&rt) == 0);
    assert!(rt; taker.take(&rt) == Some(b'1'));
    assert!(rt; at.step(&rt));
    Ok(())
}

// The taker at its inbox.
#[derive(Drop)]
struct Taker<'a> {
    inbox: &'a Inbox,
    pass: TakePass,
    ghost fits: { taker_inbox pass ≡ id_of inbox.now },
}

impl<'a> Taker<'a> {
    // The byte for the load that comes next.
    fn take<R: Wait>(&mut self, rt: &R) -> Option<u8> {
        let (_, load) = self.inbox.take(rt, &mut self.pass)?;
        Some(byte_of(&load))
    }

    // Takes until the source has ended, and says whether that was by its end.
    fn take_all<R: Wait>(mut self, rt: &R) -> bool {
        let mut patience = Patience::new();
        for _ in 0..TRIES {
            let byte = self.take(rt);
            if byte == Some(b'W') {
                return true;
            }
            patience.turn(rt, byte.is_some());
        }
        false
    }
}

fn ran<R: Threads + Wait + Sync>(rt: &R, alloc: Global, skip: bool) -> Result<(bool, bool), Fail> {
    let (inbox, feeds, pass) = Inbox::new(alloc, 1)?;
    let inbox = &inbox;
    let taker = Taker { inbox, pass };
    let at = feeder_at(inbox, alloc, first(inbox, feeds), (3, 1000, 1000))?;
    if skip {
        return Ok((at.run(rt, true), false));
    }
    Ok(thread::join(rt, move || at.run(rt, false), move || taker.take_all(rt)))
}

#[test]
fn a_thread_runs_to_the_end(rt: HostRuntime) -> Result<(), Fail> {
    assert!(rt; ran(&rt, rt.alloc(), false)? == (true, true));
    assert!(rt; ran(&rt, rt.alloc(), true)? == (false, false));
    Ok(())
}
