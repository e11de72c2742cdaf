ghost use Rattle.std.specs.Prelude.{◌≡◌, ℕ};
ghost use Rattle.std.specs.HashMap.{IsEmpty};
ghost use Rattle.as_real.specs.OutputFaults.{faults_of, Raises};

use std::alloc::Global;
use std::collections::HashMap;

/// How often a begin or a put failed, for each output. A count stays at its last value, 2^64 - 1.
#[derive(Drop)]
pub struct OutputFaults {
    // for each output that has faults of its own, how many
    own: HashMap<u64, u64>,
    // the faults that there was no memory to keep apart; they count for each output
    common: u64,
}

impl OutputFaults {
    /// No output has a fault. It takes no memory.
    #[tactic(auto, unfolding(crate::specs::OutputFaults::faults_of))]
    pub fn new(alloc: Global) -> OutputFaults
        ensures empty { IsEmpty result.own }
        ensures faultless { (n : ℕ) → faults_of result n ≡ 0 }
    {
        OutputFaults {
            own: HashMap::new(alloc),
            common: 0,
        }
    }

    /// Counts a fault of output n: as its own, or as a common one where the map cannot grow for want of memory.
    pub fn raise(&mut self, n: u64)
        ensures { Raises n self.old self.new }
    {
        let count = self.own.get(&n).copied().unwrap_or(0);
        if self.own.insert(n, count.saturating_add(1)).is_err() {
            self.common = self.common.saturating_add(1);
        }
    }
}
