ghost use Rattle.std.specs.Prelude.{◌≡◌, ◌+◌, ◌-◌, ◌^◌, min};
ghost use Rattle.as_outside.specs.Script.{fault_at};

use crate::cuts::Cuts;

/// Which calls on a desk in memory fail, and how many bytes its pulls move.
#[derive(Debug, Drop)]
pub struct Script {
    /// How many bytes the pulls move.
    pub cuts: Cuts,
    /// The numbers of the calls that fail, each with the bytes that move before.
    pub fails: Vec<(u64, usize)>,
    /// How many calls there were.
    pub calls: u64,
}

// How many bytes move before this call fails, if it fails.
fn fault_at(fails: &[(u64, usize)], call: u64) -> Option<usize>
    ensures { result ≡ fault_at fails.now call }
{
    for (number, count) in fails {
        if *number == call {
            return Some(*count);
        }
    }
    None
}

impl Script {
    /// Counts one more call, and says how many bytes move before it fails, if it fails.
    pub fn next_call(&mut self) -> Option<usize>
        ensures fault { result ≡ fault_at self.old.fails.items self.new.calls }
        ensures counted { self.new ≡ record self.old { calls = min (self.old.calls + 1) (2 ^ 64 - 1) } }
    {
        self.calls = self.calls.saturating_add(1);
        fault_at(&self.fails, self.calls)
    }
}
