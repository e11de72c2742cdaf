ghost use Rattle.std.specs.Prelude.{◌≡◌, [], nat_lt, OnOk};
ghost use Rattle.std.specs.List.Sorted.{IsStrictlyIncreasing};
ghost use Rattle.as_base.specs.Times.{times};

use as_base::{NoMemory, Numbers};
use std::alloc::Global;

/// The numbers of the outputs that broke, by rising number.
#[derive(Debug, Drop)]
pub struct Broken {
    pub numbers: Vec<u64>,
    ghost rising: { IsStrictlyIncreasing numbers.items },
}

impl Broken {
    ghost use Rattle.service.specs.Broken.{HasRoom, IsAdded, TakesRoom};

    /// No outputs.
    pub fn new(alloc: Global) -> Broken
        ensures { result.numbers.items ≡ [] }
    {
        Broken {
            numbers: Vec::new(alloc),
        }
    }

    /// Output `n` broke.
    pub fn contains(&self, n: u64) -> bool
        ensures { result ≡ nat_lt 0 (times n self.now.numbers.items) }
    {
        self.numbers.binary_search(&n).is_ok()
    }

    /// Makes room for so many more numbers. The one refusal is `NoMemory`, after which nothing has changed.
    pub fn reserve(&mut self, more: usize) -> Result<(), NoMemory>
        ensures same { self.new.numbers.items ≡ self.old.numbers.items }
        ensures room { OnOk result (HasRoom self.new more) }
    {
        self.numbers.reserve(more)?;
        Ok(())
    }

    /// Lists output `n`, which is not listed yet. It takes no memory.
    pub fn add(&mut self, n: u64)
        requires { HasRoom self.old 1 }
        ensures listed { times n self.old.numbers.items ≡ 0 → IsAdded n self.old self.new }
        ensures room { TakesRoom 1 self.old self.new }
    {
        match self.numbers.binary_search(&n) {
            Ok(_) => {}
            Err(place) => {
                // There is room, so it stands there now.
                let _ = self.numbers.insert(place, n);
            }
        }
    }

    /// The numbers.
    pub fn into_numbers(self) -> Numbers
        ensures same { result ≡ self.numbers.items }
        ensures rising { IsStrictlyIncreasing result }
    {
        Numbers::from_vec(self.numbers)
    }
}
