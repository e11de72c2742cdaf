ghost use Rattle.std.specs.Prelude.{◌≡◌, ◌<◌, ◌≤◌, ◌+◌, ◌++◌, ◌==◌, ◌-◌, ◌^◌, [], length, replicate, slice_index_or, slice_set, if◌then◌else◌, OnOk, OnErr};
ghost use Rattle.as_base.specs.declared.fragment.Cell.{Cell};
ghost use Rattle.group_table.specs.Cells.{blank, plus, IsSound};
ghost use Rattle.group_table.specs.Grids.{shown, Takes, HasAdded};

use crate::cells::{blank, plus};
use as_base::{Cell, NoMemory};
use queryset_lanes::QuerySet;
use slot_walk::Slots;
use std::alloc::Global;
use std::marker::Model;

/// The cells of one group, side by side: one place for each column, and those beyond the end are empty. Seen as the list of
/// the places.
#[derive(Drop)]
pub struct Row {
    cells: Vec<Cell>,
}

impl Model for Row {
    ghost use Rattle.std.specs.Prelude.{List};
    ghost use Rattle.as_base.specs.declared.fragment.Cell.{Cell};

    ghost Value = { List Cell };

    ghost view = { λ r. r.cells.items };
}

impl Row {
    /// No place. Takes no memory.
    pub fn new(alloc: Global) -> Row
        ensures { result ≡ [] }
    {
        Row {
            cells: Vec::new(alloc),
        }
    }

    /// What stands in a place.
    pub fn at(&self, place: usize) -> Cell
        ensures { result ≡ slice_index_or self.now place blank }
    {
        match self.cells.get(place) {
            Some(cell) => *cell,
            None => blank(),
        }
    }

    /// Makes empty places behind the others, up to this many. The one refusal is `NoMemory`, after which nothing has
    /// changed.
    pub fn widen(&mut self, width: usize) -> Result<(), NoMemory>
        ensures more { self.new ≡ self.old ++ replicate (length self.new - length self.old) blank }
        ensures ok { OnOk result (width ≤ length self.new) }
        ensures most { length self.old ≤ width → length self.new ≤ width }
        ensures err { OnErr result (self.new ≡ self.old) }
    {
        reach(&mut self.cells, width)
    }

    /// Adds the cell to what stands in the places of these slots, each of which has the number of one; tells how many of
    /// them were empty. Takes no memory.
    pub fn add_each(&mut self, numbers: &[u16], slots: &QuerySet, cell: Cell) -> usize
        requires { Takes self.old numbers.now slots.now cell }
        ensures { HasAdded self.old self.new numbers.now slots.now cell result }
    {
        add_each_to(&mut self.cells, numbers, slots, cell)
    }

    /// Empties a place, and tells how many cells it had.
    pub fn blank_at(&mut self, place: usize) -> usize
        ensures count { result ≡ length (shown (slice_index_or self.old place blank)) }
        ensures value { self.new ≡ slice_set self.old place blank }
    {
        blank_in(&mut self.cells, place)
    }

    /// Takes all places out, and keeps the memory. Takes no memory.
    pub fn clear(&mut self)
        ensures { self.new ≡ [] }
    {
        self.cells.clear();
    }
}

// Makes empty places behind the others, up to this many.
fn reach(cells: &mut Vec<Cell>, width: usize) -> Result<(), NoMemory>
    ensures more { cells.new.items ≡ cells.old.items ++ replicate (length cells.new.items - length cells.old.items) blank }
    ensures ok { OnOk result (width ≤ length cells.new.items) }
    ensures most { length cells.old.items ≤ width → length cells.new.items ≤ width }
    ensures err { OnErr result (cells.new.items ≡ cells.old.items) }
{
    if width <= cells.len() {
        return Ok(());
    }
    cells.resize(width, blank())?;
    Ok(())
}

// Adds the cell to what stands in the places of these slots, and tells how many of them were empty.
fn add_each_to(places: &mut [Cell], numbers: &[u16], slots: &QuerySet, cell: Cell) -> usize
    requires { Takes places.old numbers.now slots.now cell }
    ensures { HasAdded places.old places.new numbers.now slots.now cell result }
{
    let mut fresh = 0;
    let mut left = Slots::of(slots);
    'slots: while let Some(slot) = left.next() {
        fresh += add_there(places, number_of(numbers, slot), cell);
    }
    fresh
}

// The number of a slot.
fn number_of(numbers: &[u16], slot: u16) -> usize
    requires { slot < length numbers.now }
    ensures { result ≡ slice_index_or numbers.now slot 512 }
{
    usize::from(numbers[usize::from(slot)])
}

// Adds the cell to what stands in a place, and tells how many cells the place has more.
fn add_there(places: &mut [Cell], place: usize, cell: Cell) -> usize
    requires within { place < length places.old }
    requires sound { IsSound cell }
    requires held { IsSound (slice_index_or places.old place blank) }
    requires few { cell.count + (slice_index_or places.old place blank).count ≤ 2 ^ 62 }
    ensures value { places.new ≡ slice_set places.old place (plus cell (slice_index_or places.old place blank)) }
    ensures most { result ≤ 1 }
    ensures fresh { result ≡ (if (slice_index_or places.old place blank).count == 0 then 1 else 0) }
{
    let held = places[place];
    places[place] = plus(cell, held);
    is_none(&held)
}

// Empties a place, and tells how many cells it had.
fn blank_in(places: &mut [Cell], place: usize) -> usize
    ensures count { result ≡ length (shown (slice_index_or places.old place blank)) }
    ensures value { places.new ≡ slice_set places.old place blank }
{
    if place >= places.len() {
        return 0;
    }
    let count = is_some(&places[place]);
    places[place] = blank();
    count
}

// Whether a place is empty, as a number.
fn is_none(cell: &Cell) -> usize
    ensures most { result ≤ 1 }
    ensures value { result ≡ (if cell.now.count == 0 then 1 else 0) }
{
    (cell.count == 0) as usize
}

// Whether there is a cell in a place, as a number.
fn is_some(cell: &Cell) -> usize
    ensures most { result ≤ 1 }
    ensures value { result ≡ length (shown cell.now) }
{
    (cell.count != 0) as usize
}
