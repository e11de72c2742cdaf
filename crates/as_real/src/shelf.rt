ghost use Rattle.std.specs.Prelude.{◌≡◌, ℕ, None};

use crate::bytes::write_whole;
use crate::outlets::Outlets;
use as_outside::{Failed, Shelf};
use std::alloc::Global;
use std::fs;
use std::rt::Files;

/// A shelf of a program: it says to standard output and keeps the outputs in files, as [`RealDesk`](crate::RealDesk)
/// does, and notes to the file `journal.txt` of the current folder. The first note makes that file anew, and each later
/// one appends to it. It stays open in between: where it is removed, the later notes go with it. A note that cannot make
/// it fails, and the next one tries again.
///
/// It tells no content, and how often calls failed, as `RealDesk` does.
#[derive(Drop)]
pub struct RealShelf<'a, R: Files + Print> {
    rt: &'a R,
    // the file of the journal, once a note has made it
    journal: Option<R::File>,
    outlets: Outlets,
}

impl<'a, R: Files + Print> RealShelf<'a, R> {
    /// A shelf on which nothing has failed. No file is touched, and no memory is taken.
    pub fn new(rt: &'a R, alloc: Global) -> Self
        ensures log { (⟦<RealShelf<'a, R> as Shelf>⟧.seen result).log ≡ None }
        ensures left { (⟦<RealShelf<'a, R> as Shelf>⟧.seen result).left ≡ None }
        ensures says { (⟦<RealShelf<'a, R> as Shelf>⟧.seen result).faults.say ≡ 0 }
        ensures notes { (⟦<RealShelf<'a, R> as Shelf>⟧.seen result).faults.note ≡ 0 }
        ensures pulls { (⟦<RealShelf<'a, R> as Shelf>⟧.seen result).faults.pull ≡ 0 }
        ensures outputs { (n : ℕ) → (⟦<RealShelf<'a, R> as Shelf>⟧.seen result).faults.output n ≡ 0 }
    {
        RealShelf {
            rt,
            journal: None,
            outlets: Outlets::new(alloc),
        }
    }
}

// Appends to the journal, and makes it first where no note has. After `Failed` a prefix was written.
fn write_note<R: Files>(rt: &R, journal: &mut Option<R::File>, bytes: &[u8]) -> Result<(), Failed> {
    if journal.is_none() {
        *journal = fs::create(rt, "journal.txt").ok();
    }
    match journal {
        Some(file) => write_whole(file, bytes),
        None => Err(Failed),
    }
}

impl<R: Files + Print> Shelf for RealShelf<'_, R> {
    ghost use Rattle.as_real.specs.Outlets.{seen_of};

    ghost seen = { λ s. seen_of s.outlets };

    fn say(&mut self, bytes: &[u8]) -> Result<(), Failed> {
        self.outlets.say(self.rt, bytes)
    }

    fn note(&mut self, bytes: &[u8]) -> Result<(), Failed> {
        match write_note(self.rt, &mut self.journal, bytes) {
            Ok(()) => Ok(()),
            Err(_) => Err(self.outlets.note_failed()),
        }
    }

    fn begin(&mut self, n: u64) -> Result<(), Failed> {
        self.outlets.begin(self.rt, n)
    }

    fn put(&mut self, n: u64, bytes: &[u8]) -> Result<(), Failed> {
        self.outlets.put(self.rt, n, bytes)
    }
}
