ghost use Rattle.std.specs.Prelude.{◌≡◌, ℕ, ◌<◌, ◌-◌, ◌++◌, [], ◌∷◌, take, drop, length, OnOk, OnErr};
ghost use Rattle.std.specs.List.{AllByRecursion};

use as_base::NoMemory;
use std::alloc::Global;
use std::marker::Model;

/// The slots of changes, each below 512, in the order of the changes. Seen as the list of them.
#[derive(Drop)]
pub struct ChangedSlots {
    items: Vec<u16>,
}

impl Model for ChangedSlots {
    ghost use Rattle.std.specs.Prelude.{ℕ, ◌<◌, List};
    ghost use Rattle.std.specs.List.{AllByRecursion};

    ghost Value = { List ℕ };

    ghost view = { λ s. s.items.items };

    ghost invariant = { λ s. AllByRecursion (λ slot. slot < 512) s.items.items };
}

impl ChangedSlots {
    /// No change yet. Takes no memory.
    pub fn new(alloc: Global) -> ChangedSlots
        ensures { result ≡ [] }
    {
        ChangedSlots {
            items: Vec::new(alloc),
        }
    }

    /// How many changes there are.
    pub fn len(&self) -> usize
        ensures { result ≡ length self.now }
    {
        self.items.len()
    }

    /// Adds the slot of a change. The one refusal is `NoMemory`, after which nothing has changed.
    pub fn push(&mut self, slot: u16) -> Result<(), NoMemory>
        requires { slot < 512 }
        ensures ok { OnOk result (self.new ≡ self.old ++ slot ∷ []) }
        ensures err { OnErr result (self.new ≡ self.old) }
    {
        self.items.push(slot)?;
        Ok(())
    }

    /// Takes the last change off.
    pub fn pop(&mut self)
        ensures { self.new ≡ take (length self.old - 1) self.old }
    {
        self.items.pop();
    }

    /// Cuts all off but so many of the last changes.
    pub fn cut(&mut self, later: u64)
        ensures { self.new ≡ drop (length self.old - later) self.old }
    {
        let count = self.items.len().saturating_sub(later as usize);
        self.items.drain(..count);
    }

    /// At most so many of the slots, after the first ones.
    pub fn part(&self, first: usize, count: usize) -> &[u16]
        ensures within { AllByRecursion (λ slot. slot < 512) result.now }
        ensures part { result.now ≡ take count (drop first self.now) }
    {
        part(&self.items, first, count)
    }
}

// At most so many elements after the first ones.
fn part(slots: &[u16], first: usize, count: usize) -> &[u16]
    ensures { result.now ≡ take count (drop first slots.now) }
{
    let from = first.min(slots.len());
    let rest = &slots[from..];
    &rest[..count.min(rest.len())]
}
