ghost use Rattle.std.specs.Prelude.{◌≡◌, ℕ, None};

#[cfg(test)]
mod tests;

use crate::bytes::read_some;
use crate::outlets::Outlets;
use as_outside::{Desk, Failed, Shelf};
use std::alloc::Global;
use std::rt::Files;

/// The outside of a program: it pulls from standard input, says to standard output, and keeps output n in the file
/// `query-N.txt` of the current folder. A begin makes that file anew, each put opens it and appends, and none is kept
/// open: where it is removed in between, the puts on it fail. There is no journal, so each note fails.
///
/// It tells no content, and how often calls failed: of each output's begins and puts on their own, unless there was no
/// memory to keep them apart. Such a fault counts for every output. A count stays at its last value, 2^64 - 1.
#[derive(Drop)]
pub struct RealDesk<'a, R: Files + Input + Print> {
    rt: &'a R,
    reader: R::Reader,
    outlets: Outlets,
}

impl<'a, R: Files + Input + Print> RealDesk<'a, R> {
    /// A desk on which nothing has failed. No file is touched, and no memory is taken.
    pub fn new(rt: &'a R, alloc: Global) -> Self
        ensures log { (⟦<RealDesk<'a, R> as Shelf>⟧.seen result).log ≡ None }
        ensures left { (⟦<RealDesk<'a, R> as Shelf>⟧.seen result).left ≡ None }
        ensures says { (⟦<RealDesk<'a, R> as Shelf>⟧.seen result).faults.say ≡ 0 }
        ensures notes { (⟦<RealDesk<'a, R> as Shelf>⟧.seen result).faults.note ≡ 0 }
        ensures pulls { (⟦<RealDesk<'a, R> as Shelf>⟧.seen result).faults.pull ≡ 0 }
        ensures outputs { (n : ℕ) → (⟦<RealDesk<'a, R> as Shelf>⟧.seen result).faults.output n ≡ 0 }
    {
        RealDesk {
            rt,
            reader: rt.reader(),
            outlets: Outlets::new(alloc),
        }
    }
}

impl<R: Files + Input + Print> Shelf for RealDesk<'_, R> {
    ghost use Rattle.as_real.specs.Outlets.{seen_of};

    ghost seen = { λ d. seen_of d.outlets };

    fn say(&mut self, bytes: &[u8]) -> Result<(), Failed> {
        self.outlets.say(self.rt, bytes)
    }

    // There is no journal here, so a note would be lost.
    fn note(&mut self, _bytes: &[u8]) -> Result<(), Failed> {
        Err(self.outlets.note_failed())
    }

    fn begin(&mut self, n: u64) -> Result<(), Failed> {
        self.outlets.begin(self.rt, n)
    }

    fn put(&mut self, n: u64, bytes: &[u8]) -> Result<(), Failed> {
        self.outlets.put(self.rt, n, bytes)
    }
}

impl<R: Files + Input + Print> Desk for RealDesk<'_, R> {
    fn pull(&mut self, buf: &mut [u8]) -> Result<usize, Failed> {
        match read_some(&mut self.reader, buf) {
            Ok(read) => Ok(read),
            Err(_) => Err(self.outlets.pull_failed()),
        }
    }
}
