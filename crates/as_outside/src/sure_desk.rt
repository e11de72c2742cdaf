ghost use Rattle.std.specs.Prelude.{◌≡◌, ℕ, Some, None, IsOk, IfOk};

use crate::tape::Tape;
use crate::{Desk, Failed, Shelf};
use as_base::NoMemory;

/// A desk in memory that never fails. It pulls from given bytes, tells those that are left and no log, and keeps none
/// of the bytes that are said, noted or put on it.
#[derive(Debug, Drop)]
pub struct SureDesk {
    tape: Tape,
}

impl SureDesk {
    /// A desk with this input. It takes no memory, so `NoMemory` never comes.
    pub fn new(input: Vec<u8>) -> Result<SureDesk, NoMemory>
        ensures ok { IsOk result }
        ensures log { IfOk result (λ d. (⟦<SureDesk as Shelf>⟧.seen d).log ≡ None) }
        ensures left { IfOk result (λ d. (⟦<SureDesk as Shelf>⟧.seen d).left ≡ Some input.items) }
        ensures says { IfOk result (λ d. (⟦<SureDesk as Shelf>⟧.seen d).faults.say ≡ 0) }
        ensures notes { IfOk result (λ d. (⟦<SureDesk as Shelf>⟧.seen d).faults.note ≡ 0) }
        ensures pulls { IfOk result (λ d. (⟦<SureDesk as Shelf>⟧.seen d).faults.pull ≡ 0) }
        ensures outputs { IfOk result (λ d. (n : ℕ) → (⟦<SureDesk as Shelf>⟧.seen d).faults.output n ≡ 0) }
    {
        Ok(SureDesk {
            tape: Tape::new(input),
        })
    }
}

impl Shelf for SureDesk {
    // The counts are constants, so the clauses of a call rule out that it answers `Failed`.
    ghost seen = { λ d. record {
      log = None;
      left = Some d.tape;
      faults = record {
        say = 0;
        note = 0;
        pull = 0;
        output = λ n. 0;
      };
    } };

    fn say(&mut self, _bytes: &[u8]) -> Result<(), Failed> {
        Ok(())
    }

    fn note(&mut self, _bytes: &[u8]) -> Result<(), Failed> {
        Ok(())
    }

    fn begin(&mut self, _n: u64) -> Result<(), Failed> {
        Ok(())
    }

    fn put(&mut self, _n: u64, _bytes: &[u8]) -> Result<(), Failed> {
        Ok(())
    }
}

impl Desk for SureDesk {
    #[tactic(auto, using(crate::proofs::MakesLaws::pulled_makes))]
    fn pull(&mut self, buf: &mut [u8]) -> Result<usize, Failed> {
        let room = buf.len();
        Ok(self.tape.take(buf, room))
    }
}

#[cfg(test)]
mod tests {
    use super::*;
    use std::test::Fail;

    // Which calls on the shelf went well.
    fn shelf_calls<S: Shelf>(shelf: &mut S) -> [bool; 4] {
        [
            shelf.say(b"1 ok").is_ok(),
            shelf.note(b"note").is_ok(),
            shelf.begin(7).is_ok(),
            shelf.put(7, b"row").is_ok(),
        ]
    }

    #[test]
    fn no_call_fails(rt: HostRuntime) -> Result<(), Fail> {
        let mut desk = SureDesk::new(b"abcdefg".to_vec(rt.alloc())?)?;
        let mut buf = [0; 4];
        assert_eq!(rt; desk.pull(&mut buf), Ok(4));
        assert_eq!(rt; buf.as_slice(), b"abcd".as_slice());
        assert_eq!(rt; shelf_calls(&mut desk), [true; 4]);
        assert_eq!(rt; desk.pull(&mut buf), Ok(3));
        assert_eq!(rt; &buf[..3], b"efg".as_slice());
        assert_eq!(rt; desk.pull(&mut buf), Ok(0));
        Ok(())
    }
}
