ghost use Rattle.std.specs.Prelude.{◌≡◌, ℕ, ◌++◌, true, false, ◌<◌, ◌≤◌, ◌+◌, ◌^◌, ◌==◌, [], if◌then◌else◌, length, vec_len, nat_le, filter, position, slice_set, slice_index_or, OnOk, OnErr};
ghost use Rattle.as_base.specs.declared.fragment.Cell.{Cell};
ghost use Rattle.group_table.specs.Cells.{sums, count_at, IsSound, AreCells};
ghost use Rattle.group_table.specs.Held.{is_of, is_kept, held, put, put_at, none, AreEntries};
ghost use Rattle.group_table.specs.Steps.{added, added_each, dropped, HaveSome};
ghost use Rattle.group_table.specs.Totals.{total};

use crate::cells::plus;
use as_base::{Cell, NoMemory};
use queryset_lanes::QuerySet;
use slot_walk::Slots;
use std::alloc::Global;
use std::marker::Model;

/// A cell and its slot.
#[derive(Clone, Copy)]
pub struct Entry {
    pub slot: u16,
    pub cell: Cell,
}

/// A few cells, which are looked through. Seen as the list of them.
#[derive(Drop)]
pub struct Small {
    entries: Vec<Entry>,
}

impl Model for Small {
    ghost use Rattle.std.specs.Prelude.{List};
    ghost use Rattle.group_table.specs.declared.small.Entry.{Entry};

    ghost Value = { List Entry };

    ghost use Rattle.group_table.specs.Held.{AreEntries};

    ghost view = { λ s. s.entries.items };

    ghost invariant = { λ s. AreEntries s.entries.items };
}

impl Small {
    /// No cell. Takes no memory.
    pub fn new(alloc: Global) -> Small
        ensures { result ≡ [] }
    {
        Small {
            entries: Vec::new(alloc),
        }
    }

    /// The cells, in the order held.
    pub fn entries(&self) -> &[Entry]
        ensures value { result.now ≡ self.now }
        ensures entries { AreEntries self.now }
    {
        self.entries.as_slice()
    }

    /// How many cells there are, over all slots.
    pub fn len(&self) -> usize
        ensures value { result ≡ length self.now }
        ensures total { result ≡ total (λ slot. sums (held self.now slot)) }
    {
        self.entries.len()
    }

    /// Adds the cell to that of its slot and group. The one refusal is `NoMemory`, after which nothing has changed.
    pub fn add(&mut self, slot: u16, cell: Cell) -> Result<(), NoMemory>
        requires slot { slot < 512 }
        requires some { 0 < cell.count }
        requires sound { IsSound cell }
        requires few { count_at (sums (held self.old slot)) cell.group + cell.count ≤ 2 ^ 62 }
        ensures ok { OnOk result ((s : ℕ) → sums (held self.new s) ≡ added (λ k. sums (held self.old k)) slot cell s) }
        ensures err { OnErr result (self.new ≡ self.old) }
    {
        put(&mut self.entries, slot, cell)?;
        Ok(())
    }

    /// Adds the cell to that of its group in each of these slots. The one refusal is `NoMemory`, after which some of the
    /// slots have it.
    pub fn add_each(&mut self, slots: &QuerySet, cell: Cell) -> Result<(), NoMemory>
        requires some { 0 < cell.count }
        requires sound { IsSound cell }
        requires few { (slot : ℕ) → slice_index_or slots.now slot false ≡ true →
            count_at (sums (held self.old slot)) cell.group + cell.count ≤ 2 ^ 62 }
        ensures ok { OnOk result ((s : ℕ) → sums (held self.new s) ≡ added_each (λ k. sums (held self.old k)) slots.now cell s) }
        ensures err { OnErr result (HaveSome (λ k. sums (held self.old k)) (λ k. sums (held self.new k)) slots.now cell) }
    {
        let mut left = Slots::of(slots);
        'slots: while let Some(slot) = left.next() {
            self.add(slot, cell)?;
        }
        Ok(())
    }

    /// Puts the cells of a slot behind those of the list. The one refusal is `NoMemory`.
    pub fn append(&self, slot: u16, cells: &mut Vec<Cell>) -> Result<(), NoMemory>
        ensures ok { OnOk result (cells.new.items ≡ cells.old.items ++ held self.now slot) }
        ensures cells { AreCells (held self.now slot) }
    {
        append_held(&self.entries, slot, cells)
    }

    /// Takes all cells out, and keeps the memory. Takes no memory.
    pub fn clear(&mut self)
        ensures { self.new ≡ [] }
    {
        self.entries.clear();
    }

    /// Takes the cells of these slots out. Takes no memory.
    pub fn drop_slots(&mut self, slots: &QuerySet)
        ensures { (s : ℕ) → sums (held self.new s) ≡ dropped (λ k. sums (held self.old k)) slots.now s }
    {
        keep_others(&mut self.entries, slots);
    }
}

// Whether the entry is of the slot and of the cell's group.
fn is_of(entry: &Entry, slot: u16, cell: Cell) -> bool
    ensures { result ≡ is_of slot cell.group entry.now }
{
    entry.slot == slot && entry.cell.group == cell.group
}

// The place of the slot's cell of the same group.
fn find(entries: &[Entry], slot: u16, cell: Cell) -> Option<usize>
    ensures { result ≡ position (is_of slot cell.group) entries.now }
{
    entries.iter().position(|entry| is_of(entry, slot, cell))
}

// Adds to the cell in a place.
fn add_at(entries: &mut Vec<Entry>, place: usize, cell: Cell)
    requires within { place < vec_len entries.old }
    requires sound { IsSound cell }
    requires held { IsSound (slice_index_or entries.old.items place none).cell }
    requires few { (slice_index_or entries.old.items place none).cell.count + cell.count ≤ 2 ^ 62 }
    ensures { entries.new.items ≡ put_at place cell entries.old.items }
{
    entries[place].cell = plus(entries[place].cell, cell);
}

// Adds to the cell of the slot and group, or puts the cell last.
fn put(entries: &mut Vec<Entry>, slot: u16, cell: Cell) -> Result<(), NoMemory>
    requires entries { AreEntries entries.old.items }
    requires sound { IsSound cell }
    requires few { count_at (held entries.old.items slot) cell.group + cell.count ≤ 2 ^ 62 }
    ensures ok { OnOk result (entries.new.items ≡ put slot cell entries.old.items) }
    ensures err { OnErr result (entries.new.items ≡ entries.old.items) }
{
    if let Some(place) = find(entries, slot, cell) {
        add_at(entries, place, cell);
        return Ok(());
    }
    entries.push(Entry { slot, cell })?;
    Ok(())
}

// Puts the cells of a slot behind those of the list.
fn append_held(entries: &[Entry], slot: u16, cells: &mut Vec<Cell>) -> Result<(), NoMemory>
    ensures { OnOk result (cells.new.items ≡ cells.old.items ++ held entries.now slot) }
{
    for entry in entries {
        if entry.slot == slot {
            cells.push(entry.cell)?;
        }
    }
    Ok(())
}

// Whether there is such a slot, and it is none of these.
fn is_kept(slots: &QuerySet, slot: u16) -> bool
    ensures { result ≡ is_kept slots.now slot }
{
    slot >= 512 || !slots.test(slot)
}

// Takes the entries of these slots out.
fn keep_others(entries: &mut Vec<Entry>, slots: &QuerySet)
    ensures { entries.new.items ≡ filter (λ entry. is_kept slots.now entry.slot) entries.old.items }
{
    entries.retain(|entry| is_kept(slots, entry.slot));
}
