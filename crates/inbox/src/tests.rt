ghost use Rattle.std.specs.Prelude.{◌≡◌};
ghost use Rattle.inbox.specs.Passes.{id_of, inbox_of, taker_inbox};
ghost use Rattle.inbox.specs.Sound.{IsSound};

use super::*;
use as_base::Item;
use std::sync::Wait;
use std::test::Fail;
use std::thread;
use std::thread::Threads;

// The loads that each feeder offers.
const LOADS: u32 = 1000;

// So many calls are far more than a run needs.
const TRIES: u64 = 100_000_000;

fn line(number: u32) -> Load
    ensures { IsSound result }
{
    Load::Line(Item::Delete(u64::from(number)))
}

fn number(load: &Load) -> Option<u64> {
    match load {
        Load::Line(Item::Delete(number)) => Some(*number),
        _ => None,
    }
}

#[test]
fn one_load_goes_through(rt: HostRuntime) -> Result<(), Fail> {
    let (inbox, feeds, mut taker) = Inbox::new(rt.alloc(), 1)?;
    let (mut first, mut second, third, fourth, fifth) = seats::apart(feeds);
    assert!(rt; inbox.offer(&rt, &mut first, line(8)).is_ok());
    let back = inbox.offer(&rt, &mut second, line(9)).err();
    assert_eq!(rt; back.and_then(|full| number(&full.0)), Some(9));
    let taken = inbox.take(&rt, &mut taker);
    assert_eq!(rt;
        taken.map(|(feeder, load)| (feeder, number(&load))),
        Some((1, Some(8)))
    );
    assert!(rt; inbox.take(&rt, &mut taker).is_none());
    let closed = inbox.close(&rt, [first, second, third, fourth, fifth], taker);
    assert_eq!(rt; closed.left, 0);
    Ok(())
}

#[test]
fn one_load_is_left(rt: HostRuntime) -> Result<(), Fail> {
    let (inbox, feeds, taker) = Inbox::new(rt.alloc(), 1)?;
    let (mut first, second, third, fourth, fifth) = seats::apart(feeds);
    assert!(rt; inbox.offer(&rt, &mut first, line(8)).is_ok());
    let closed = inbox.close(&rt, [first, second, third, fourth, fifth], taker);
    assert_eq!(rt; closed.left, 1);
    Ok(())
}

// A feeder at its inbox.
#[derive(Drop)]
struct Feeder<'a> {
    inbox: &'a Inbox,
    pass: FeedPass,
    ghost fits: { inbox_of pass ≡ id_of inbox.now },
}

impl<'a> Feeder<'a> {
    fn offer<R: Wait>(&mut self, rt: &R, number: u32) -> bool {
        self.inbox.offer(rt, &mut self.pass, line(number)).is_ok()
    }

    // Offers 0, 1, 2 and so on.
    fn offer_all<R: Wait>(mut self, rt: &R) {
        let mut next = 0;
        for _ in 0..TRIES {
            if next >= LOADS {
                return;
            }
            if self.offer(rt, next) {
                next += 1;
            } else {
                thread::yield_now();
            }
        }
    }
}

// The taker at its inbox.
#[derive(Drop)]
struct Taker<'a> {
    inbox: &'a Inbox,
    pass: TakePass,
    ghost fits: { taker_inbox pass ≡ id_of inbox.now },
}

impl<'a> Taker<'a> {
    fn take<R: Wait>(&mut self, rt: &R) -> Option<(u8, Load)> {
        self.inbox.take(rt, &mut self.pass)
    }

    // Takes until all has come, and counts for each feeder the loads that came in order.
    fn take_all<R: Wait>(mut self, rt: &R) -> [u64; 5] {
        let mut seen = [0u64; 5];
        let mut taken = 0;
        for _ in 0..TRIES {
            if taken >= 5 * u64::from(LOADS) {
                return seen;
            }
            match self.take(rt) {
                Some((feeder, load)) => {
                    taken += 1;
                    see(&mut seen, feeder, &load);
                }
                None => thread::yield_now(),
            }
        }
        seen
    }
}

fn see(seen: &mut [u64; 5], feeder: u8, load: &Load) {
    for (place, count) in seen.iter_mut().enumerate() {
        if place + 1 == usize::from(feeder) && number(load) == Some(*count) {
            *count = count.saturating_add(1);
        }
    }
}

fn at<'a>(inbox: &'a Inbox, pass: FeedPass) -> Feeder<'a>
    requires { inbox_of pass ≡ id_of inbox.now }
{
    Feeder { inbox, pass }
}

fn through<R: Threads + Wait + Sync>(
    rt: &R,
    feeders: (Feeder, Feeder, Feeder, Feeder, Feeder),
    taker: Taker,
) -> [u64; 5] {
    let (first, second, third, fourth, fifth) = feeders;
    let last = move || thread::join(rt, move || fifth.offer_all(rt), move || taker.take_all(rt)).1;
    let last = move || thread::join(rt, move || fourth.offer_all(rt), last).1;
    let last = move || thread::join(rt, move || third.offer_all(rt), last).1;
    let last = move || thread::join(rt, move || second.offer_all(rt), last).1;
    thread::join(rt, move || first.offer_all(rt), last).1
}

#[test]
fn five_threads_to_one(rt: HostRuntime) -> Result<(), Fail> {
    for room in [1, 7, 256] {
        let (inbox, feeds, pass) = Inbox::new(rt.alloc(), room)?;
        let inbox = &inbox;
        let (first, second, third, fourth, fifth) = seats::apart(feeds);
        let feeders = (
            at(inbox, first),
            at(inbox, second),
            at(inbox, third),
            at(inbox, fourth),
            at(inbox, fifth),
        );
        let seen = through(&rt, feeders, Taker { inbox, pass });
        assert_eq!(rt; seen, [u64::from(LOADS); 5]);
    }
    Ok(())
}
