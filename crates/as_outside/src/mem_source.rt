ghost use Rattle.std.specs.Prelude.{◌≡◌, Some, IfOk};

#[cfg(test)]
mod tests;

use crate::cuts::Cuts;
use crate::faults::raise;
use crate::tape::Tape;
use crate::{Failed, Source};
use as_base::NoMemory;

/// A source in memory, for tests. It pulls from given bytes, tells those that are left, and lets pulls fail by number.
#[derive(Debug, Drop)]
pub struct MemSource {
    tape: Tape,
    cuts: Cuts,
    // the numbers of the pulls that fail
    fails: Vec<u64>,
    faults: u64,
}

impl MemSource {
    /// A source with this input.
    ///
    /// The pulls move at most so many bytes as `cuts` says for each in turn, failed ones counted too; where it is used
    /// up or holds 0, as many as fit. All pulls are numbered from 1. One whose number stands in `fails` fails, and moves
    /// none. The counts of pulls and of failed ones stay at their last value, 2^64 - 1.
    ///
    /// It takes no memory, so `NoMemory` never comes.
    pub fn new(input: Vec<u8>, cuts: Vec<usize>, fails: Vec<u64>) -> Result<MemSource, NoMemory>
        ensures left { IfOk result (λ s. (⟦<MemSource as Source>⟧.seen s).left ≡ Some input.items) }
        ensures faults { IfOk result (λ s. (⟦<MemSource as Source>⟧.seen s).faults ≡ 0) }
    {
        Ok(MemSource {
            tape: Tape::new(input),
            cuts: Cuts::new(cuts),
            fails,
            faults: 0,
        })
    }
}

impl Source for MemSource {
    ghost seen = { λ s. record {
      left = Some s.tape;
      faults = s.faults;
    } };

    fn pull(&mut self, buf: &mut [u8]) -> Result<usize, Failed> {
        let most = self.cuts.next(buf.len());
        if self.fails.contains(&self.cuts.pulls) {
            raise(&mut self.faults);
            return Err(Failed);
        }
        Ok(self.tape.take(buf, most))
    }
}
