ghost use Rattle.std.specs.Prelude.{◌≡◌, ℕ, ◌<◌, ◌≤◌, ◌+◌, true, false, length, slice_index_or, slice_set, IfOk};
ghost use Rattle.group_table.specs.Grids.{AreGiven, AreMore};

use as_base::NoMemory;
use queryset_lanes::QuerySet;
use slot_walk::Slots;
use std::alloc::Global;
use std::marker::Model;

/// How many slots there are.
const SLOTS: usize = 512;

/// The number of a slot that has no column.
const NONE: u16 = 512;

/// Which column each slot has: slots get the next number when they first come, and no two have the same. Seen as the
/// number of each slot, 512 for one without, and how many columns there are.
#[derive(Drop)]
pub struct Numbers {
    numbers: Vec<u16>,
    // The slots that have one.
    known: QuerySet,
    width: u16,
}

impl Model for Numbers {
    ghost use Rattle.group_table.specs.Grids.{Numbering, AreNumbers};

    ghost Value = { Numbering };

    ghost view = { λ n. record { numbers = n.numbers.items; width = n.width } };

    ghost invariant = { λ n. AreNumbers n.numbers.items n.known n.width };
}

impl Numbers {
    /// No slot has a column. The one refusal is `NoMemory`.
    pub fn new(alloc: Global) -> Result<Numbers, NoMemory>
        ensures { IfOk result (λ numbers. numbers.width ≡ 0) }
    {
        let numbers = no_numbers(alloc)?;
        Ok(Numbers {
            numbers,
            known: QuerySet::none(),
            width: 0,
        })
    }

    /// How many columns there are.
    pub fn width(&self) -> usize
        ensures value { result ≡ self.now.width }
        ensures most { self.now.width ≤ 512 }
    {
        usize::from(self.width)
    }

    /// The number of each slot.
    pub fn all(&self) -> &[u16]
        ensures value { result.now ≡ self.now.numbers }
        ensures len { length result.now ≡ 512 }
        ensures apart { AreGiven self.now }
    {
        self.numbers.as_slice()
    }

    /// The number of a slot, 512 for one without.
    pub fn of(&self, slot: u16) -> usize
        ensures value { result ≡ slice_index_or self.now.numbers slot 512 }
        ensures apart { AreGiven self.now }
    {
        match self.numbers.get(usize::from(slot)) {
            Some(number) => usize::from(*number),
            None => SLOTS,
        }
    }

    /// Gives numbers to those of these slots that have none. Takes no memory.
    pub fn give(&mut self, slots: &QuerySet)
        ensures more { AreMore self.old self.new }
        ensures given { (s : ℕ) → slice_index_or slots.now s false ≡ true →
            slice_index_or self.new.numbers s 512 < self.new.width }
    {
        let lacking = self.lacking(slots);
        if lacking.is_empty() {
            return;
        }
        self.give_each(&lacking);
    }

    /// Whether all slots that have a column are among these.
    pub fn are_among(&self, slots: &QuerySet) -> bool
        ensures { result ≡ true → (s : ℕ) → slice_index_or slots.now s false ≡ false →
            self.now.width ≤ slice_index_or self.now.numbers s 512 }
    {
        self.known.and_not(slots).is_empty()
    }

    /// No slot has a column any longer. Takes no memory.
    pub fn clear(&mut self)
        ensures { self.new.width ≡ 0 }
    {
        clear_all(&mut self.numbers);
        self.known = QuerySet::none();
        self.width = 0;
    }

    // Those of the slots that have no number.
    fn lacking(&self, slots: &QuerySet) -> QuerySet
        ensures none { (s : ℕ) → slice_index_or result s false ≡ true → slice_index_or self.now.numbers s 512 ≡ 512 }
        ensures others { (s : ℕ) → slice_index_or slots.now s false ≡ true → slice_index_or result s false ≡ false →
            slice_index_or self.now.numbers s 512 < self.now.width }
    {
        slots.and_not(&self.known)
    }

    // Gives numbers to slots that have none.
    fn give_each(&mut self, slots: &QuerySet)
        requires { (s : ℕ) → slice_index_or slots.now s false ≡ true → slice_index_or self.old.numbers s 512 ≡ 512 }
        ensures more { AreMore self.old self.new }
        ensures given { (s : ℕ) → slice_index_or slots.now s false ≡ true →
            slice_index_or self.new.numbers s 512 < self.new.width }
    {
        let mut left = Slots::of(slots);
        'slots: while let Some(slot) = left.next() {
            self.give_one(slot);
        }
    }

    // Gives the next number to a slot that has none.
    fn give_one(&mut self, slot: u16)
        requires slot { slot < 512 }
        requires none { slice_index_or self.old.numbers slot 512 ≡ 512 }
        ensures value { self.new ≡ record { numbers = slice_set self.old.numbers slot self.old.width; width = self.old.width + 1 } }
        ensures long { length self.old.numbers ≡ 512 }
        ensures few { self.old.width < 512 }
    {
        self.numbers[usize::from(slot)] = self.width;
        self.known = self.known.with(slot, true);
        self.width += 1;
    }
}

// The numbers of slots that have no column.
fn no_numbers(alloc: Global) -> Result<Vec<u16>, NoMemory>
    ensures len { IfOk result (λ numbers. length numbers.items ≡ 512) }
    ensures none { IfOk result (λ numbers. (s : ℕ) → slice_index_or numbers.items s 512 ≡ 512) }
{
    let mut numbers = Vec::new(alloc);
    numbers.resize(SLOTS, NONE)?;
    Ok(numbers)
}

// Takes all numbers away.
fn clear_all(numbers: &mut [u16])
    ensures len { length numbers.new ≡ length numbers.old }
    ensures none { (s : ℕ) → slice_index_or numbers.new s 512 ≡ 512 }
{
    for number in numbers.iter_mut() {
        *number = NONE;
    }
}
