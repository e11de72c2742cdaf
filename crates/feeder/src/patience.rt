ghost use Rattle.std.specs.Prelude.{◌≡◌, ◌+◌, if◌then◌else◌, min};

use std::marker::Model;
use std::sync::Wait;
use std::thread::{Parker, yield_now};
use std::time::Duration;

/// After so many turns in vain a thread sleeps.
const TURNS_MAX: u32 = 64;

/// How long it sleeps at first, in microseconds, and then twice as long each time.
const NAP_FIRST: u64 = 50;

/// How long it sleeps at most, in microseconds.
const NAP_MOST: u64 = 1600;

/// What a thread does that tries something again and again: after a turn in vain it lets others run, and after 64 in a row
/// it sleeps a little, longer and longer up to a limit. Contracts see how many turns in a row were in vain, 64 at most.
#[derive(Drop)]
pub struct Patience {
    turns: u32,
    // How long it sleeps next, in microseconds.
    nap: u64,
    parker: Parker,
}

impl Model for Patience {
    ghost use Rattle.std.specs.Prelude.{ℕ, ◌≤◌};

    ghost Value = { ℕ };

    ghost view = { λ p. p.turns };

    ghost invariant = { λ p. (p.turns ≤ 64) × (p.nap ≤ 1600) };
}

impl Patience {
    /// No turn was in vain.
    pub fn new() -> Patience
        ensures { result ≡ 0 }
    {
        Patience {
            turns: 0,
            nap: NAP_FIRST,
            parker: Parker::new(),
        }
    }

    /// A turn was made; if it was in vain, this waits.
    pub fn turn<R: Wait>(&mut self, rt: &R, got_on: bool)
        ensures { self.new ≡ (if got_on then 0 else min (self.old + 1) 64) }
    {
        if got_on {
            self.turns = 0;
            self.nap = NAP_FIRST;
        } else if self.turns < TURNS_MAX {
            self.turns += 1;
            yield_now();
        } else {
            self.parker
                .park_timeout(rt, Duration::from_micros(self.nap));
            self.nap = NAP_MOST.min(2 * self.nap);
        }
    }
}
