ghost use Rattle.std.specs.Prelude.{◌≡◌, ◌+◌, ℕ, List, [], Some, take, IfOk, IfSome};
ghost use Rattle.as_words.specs.Prefix.{IsPrefix};

mod call_log;
mod script;
#[cfg(test)]
mod tests;

use crate::cuts::Cuts;
use crate::faults::raise;
use crate::tape::Tape;
use crate::{Desk, Entry, Failed, Shelf};
use as_base::{Bytes, NoMemory};
use call_log::{CallLog, Kept};
use script::Script;
use std::alloc::Global;

/// A desk in memory, for tests. It pulls from given bytes, keeps its calls as a log, and lets calls fail by a script.
#[derive(Debug, Drop)]
pub struct MemDesk {
    alloc: Global,
    log: CallLog,
    tape: Tape,
    script: Script,
    says_failed: u64,
    notes_failed: u64,
    pulls_failed: u64,
    // the failed begins and puts that no entry tells of; they count for each output
    outputs_failed: u64,
}

// A copy of the bytes, if there is memory.
fn copied(alloc: Global, bytes: &[u8]) -> Option<Bytes>
    ensures { IfSome result (λ b. b ≡ bytes.now) }
{
    bytes.to_vec(alloc).ok().map(Bytes::from_vec)
}

// The first bytes, at most so many.
fn first(bytes: &[u8], most: usize) -> &[u8]
    ensures value { result.now ≡ take most bytes.now }
    ensures prefix { IsPrefix result.now bytes.now }
{
    &bytes[..most.min(bytes.len())]
}

impl MemDesk {
    /// A desk with this input.
    ///
    /// The pulls move at most so many bytes as `cuts` says for each in turn, failed ones counted too; where it is used
    /// up or holds 0, as many as fit. All calls are numbered from 1. One whose number stands in `fails` fails, after it
    /// has moved the stated number of bytes, or as many as there are; a begin or a pull moves none. The first entry for
    /// a number counts. A call whose entry there is no memory for fails too, and the log is told no longer.
    ///
    /// `NoMemory` is the only refusal.
    pub fn new(
        alloc: Global,
        input: Vec<u8>,
        cuts: Vec<usize>,
        fails: Vec<(u64, usize)>,
    ) -> Result<MemDesk, NoMemory>
        ensures log { IfOk result (λ d. (⟦<MemDesk as Shelf>⟧.seen d).log ≡ Some []) }
        ensures left { IfOk result (λ d. (⟦<MemDesk as Shelf>⟧.seen d).left ≡ Some input.items) }
        ensures says { IfOk result (λ d. (⟦<MemDesk as Shelf>⟧.seen d).faults.say ≡ 0) }
        ensures notes { IfOk result (λ d. (⟦<MemDesk as Shelf>⟧.seen d).faults.note ≡ 0) }
        ensures pulls { IfOk result (λ d. (⟦<MemDesk as Shelf>⟧.seen d).faults.pull ≡ 0) }
        ensures outputs { IfOk result (λ d. (n : ℕ) → (⟦<MemDesk as Shelf>⟧.seen d).faults.output n ≡ 0) }
    {
        Ok(MemDesk {
            alloc,
            log: CallLog::new(alloc),
            tape: Tape::new(input),
            script: Script {
                cuts: Cuts::new(cuts),
                fails,
                calls: 0,
            },
            says_failed: 0,
            notes_failed: 0,
            pulls_failed: 0,
            outputs_failed: 0,
        })
    }

    /// The calls so far; once the log is told no longer, those before.
    pub fn log(&self) -> &[Entry]
        ensures { (told : List Entry) → (⟦<MemDesk as Shelf>⟧.seen self.now).log ≡ Some told → result.now ≡ told }
    {
        self.log.entries.as_slice()
    }
}

impl Shelf for MemDesk {
    ghost use Rattle.as_outside.specs.CallLog.{whole_log};
    ghost use Rattle.as_outside.specs.Failures.{failures};

    ghost seen = { λ d. record {
      log = whole_log d.log;
      left = Some d.tape;
      faults = record {
        say = d.says_failed;
        note = d.notes_failed;
        pull = d.pulls_failed;
        output = λ n. failures n d.log.entries.items + d.outputs_failed;
      };
    } };

    fn say(&mut self, bytes: &[u8]) -> Result<(), Failed> {
        match self.script.next_call() {
            None => {
                let entry = copied(self.alloc, bytes).map(Entry::Said);
                if self.log.keep(entry) == Kept::Lost {
                    raise(&mut self.says_failed);
                    return Err(Failed);
                }
                Ok(())
            }
            Some(count) => {
                let entry = copied(self.alloc, first(bytes, count)).map(Entry::SayFailed);
                self.log.keep(entry);
                raise(&mut self.says_failed);
                Err(Failed)
            }
        }
    }

    fn note(&mut self, bytes: &[u8]) -> Result<(), Failed> {
        match self.script.next_call() {
            None => {
                let entry = copied(self.alloc, bytes).map(Entry::Noted);
                if self.log.keep(entry) == Kept::Lost {
                    raise(&mut self.notes_failed);
                    return Err(Failed);
                }
                Ok(())
            }
            Some(count) => {
                let entry = copied(self.alloc, first(bytes, count)).map(Entry::NoteFailed);
                self.log.keep(entry);
                raise(&mut self.notes_failed);
                Err(Failed)
            }
        }
    }

    fn begin(&mut self, n: u64) -> Result<(), Failed> {
        match self.script.next_call() {
            None => match self.log.keep(Some(Entry::Begun(n))) {
                Kept::Added | Kept::Untold => Ok(()),
                Kept::Lost => {
                    raise(&mut self.outputs_failed);
                    Err(Failed)
                }
            },
            Some(_) => match self.log.keep(Some(Entry::BeginFailed(n))) {
                Kept::Added => Err(Failed),
                Kept::Untold | Kept::Lost => {
                    raise(&mut self.outputs_failed);
                    Err(Failed)
                }
            },
        }
    }

    fn put(&mut self, n: u64, bytes: &[u8]) -> Result<(), Failed> {
        match self.script.next_call() {
            None => {
                let entry = copied(self.alloc, bytes).map(|b| Entry::Put(n, b));
                match self.log.keep(entry) {
                    Kept::Added | Kept::Untold => Ok(()),
                    Kept::Lost => {
                        raise(&mut self.outputs_failed);
                        Err(Failed)
                    }
                }
            }
            Some(count) => {
                let entry = copied(self.alloc, first(bytes, count)).map(|b| Entry::PutFailed(n, b));
                match self.log.keep(entry) {
                    Kept::Added => Err(Failed),
                    Kept::Untold | Kept::Lost => {
                        raise(&mut self.outputs_failed);
                        Err(Failed)
                    }
                }
            }
        }
    }
}

impl Desk for MemDesk {
    #[tactic(auto, using(crate::proofs::MakesLaws::pulled_makes))]
    fn pull(&mut self, buf: &mut [u8]) -> Result<usize, Failed> {
        let most = self.script.cuts.next(buf.len());
        if self.script.next_call().is_some() {
            self.log.keep(Some(Entry::PullFailed));
            raise(&mut self.pulls_failed);
            return Err(Failed);
        }
        let entry = copied(self.alloc, self.tape.front(most)).map(Entry::Pulled);
        match self.log.keep(entry) {
            Kept::Added => Ok(self.tape.take(buf, most)),
            Kept::Untold => Ok(self.tape.take(buf, most)),
            Kept::Lost => {
                raise(&mut self.pulls_failed);
                Err(Failed)
            }
        }
    }
}
