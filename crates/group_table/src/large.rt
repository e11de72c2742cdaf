ghost use Rattle.std.specs.Prelude.{◌≡◌, ℕ, List, ◌<◌, ◌≤◌, ◌+◌, ◌-◌, ◌^◌, ◌==◌, ◌++◌, [], Some, true, false, if◌then◌else◌, length, replicate, slice_get, slice_set, slice_index_or, IfOk, OnOk, OnErr};
ghost use Rattle.as_base.specs.declared.fragment.Cell.{Cell};
ghost use Rattle.group_table.specs.Cells.{blank, sums, count_at, IsSound, AreCells};
ghost use Rattle.group_table.specs.Grids.{Grid, shown, all_shown, column, cells_of, without, AreRows, AreApart, Takes, HasAdded};
ghost use Rattle.group_table.specs.Steps.{added, added_each, dropped, HaveSome};
ghost use Rattle.group_table.specs.Totals.{total};

use crate::numbers::Numbers;
use crate::row::Row;
use as_base::{Cell, NoMemory};
use indexmap::IndexSet;
use queryset_lanes::QuerySet;
use slot_walk::Slots;
use std::alloc::Global;
use std::marker::Model;

/// How many slots there are.
const SLOTS: usize = 512;

/// How many places a small table has at most.
const FEW_PLACES: usize = 4096;

/// Cells in rows, one for each group, with a place for each slot that has cells: a record goes to one row, where the cells
/// of its slots stand side by side. Seen as the groups, the rows and the number of each slot's place.
#[derive(Drop)]
pub struct Large {
    alloc: Global,
    // The groups; the number of one in the set is that of its row.
    groups: IndexSet<i64>,
    // As many rows as groups at least; those beyond are kept for later groups.
    rows: Vec<Row>,
    numbers: Numbers,
    // The row used last.
    last: usize,
    // How many cells there are.
    count: usize,
    // How wide the rows were at most before they were cleared.
    most_width: usize,
}

impl Model for Large {
    ghost use Rattle.group_table.specs.Grids.{Grid, IsLarge};

    ghost Value = { Grid };

    ghost view = { λ l. record { keys = l.groups.keys; rows = l.rows.items; numbers = l.numbers.numbers; width = l.numbers.width } };

    ghost invariant = { λ l. IsLarge l.groups.keys l.rows.items l.numbers.numbers l.numbers.width l.count };
}

impl Large {
    /// No cell. The one refusal is `NoMemory`.
    pub fn new(alloc: Global) -> Result<Large, NoMemory>
        ensures { IfOk result (λ large. (s : ℕ) → cells_of large s ≡ []) }
    {
        let numbers = Numbers::new(alloc)?;
        Ok(Large {
            alloc,
            groups: IndexSet::new(alloc),
            rows: Vec::new(alloc),
            numbers,
            last: 0,
            count: 0,
            most_width: 0,
        })
    }

    /// How many cells there are, over all slots.
    pub fn len(&self) -> usize
        ensures { result ≡ total (λ slot. sums (cells_of self.now slot)) }
    {
        self.count
    }

    /// Puts the cells of a slot behind those of the list. The one refusal is `NoMemory`.
    pub fn append(&self, slot: u16, cells: &mut Vec<Cell>) -> Result<(), NoMemory>
        ensures ok { OnOk result (cells.new.items ≡ cells.old.items ++ cells_of self.now slot) }
        ensures cells { AreCells (cells_of self.now slot) }
    {
        let number = self.numbers.of(slot);
        if number >= self.numbers.width() {
            return Ok(());
        }
        append_column(&self.rows, number, cells)
    }

    /// Adds the cell to that of its slot and group. The one refusal is `NoMemory`, after which the cells are as they were.
    pub fn add(&mut self, slot: u16, cell: Cell) -> Result<(), NoMemory>
        requires slot { slot < 512 }
        requires some { 0 < cell.count }
        requires sound { IsSound cell }
        requires few { count_at (sums (cells_of self.old slot)) cell.group + cell.count ≤ 2 ^ 62 }
        ensures ok { OnOk result ((s : ℕ) → sums (cells_of self.new s) ≡ added (λ k. sums (cells_of self.old k)) slot cell s) }
        ensures err { OnErr result ((s : ℕ) → sums (cells_of self.new s) ≡ sums (cells_of self.old s)) }
    {
        self.add_each(&QuerySet::none().with(slot, true), cell)
    }

    /// Adds the cell to that of its group in each of these slots. The one refusal is `NoMemory`, after which the cells are as
    /// they were.
    pub fn add_each(&mut self, slots: &QuerySet, cell: Cell) -> Result<(), NoMemory>
        requires some { 0 < cell.count }
        requires sound { IsSound cell }
        requires few { (slot : ℕ) → slice_index_or slots.now slot false ≡ true →
            count_at (sums (cells_of self.old slot)) cell.group + cell.count ≤ 2 ^ 62 }
        ensures ok { OnOk result ((s : ℕ) →
            sums (cells_of self.new s) ≡ added_each (λ k. sums (cells_of self.old k)) slots.now cell s) }
        ensures err { OnErr result (HaveSome (λ k. sums (cells_of self.old k)) (λ k. sums (cells_of self.new k)) slots.now cell) }
        ensures same { OnErr result ((s : ℕ) → sums (cells_of self.new s) ≡ sums (cells_of self.old s)) }
    {
        self.give_numbers(slots);
        let row = self.row_of(cell.group)?;
        self.widen(row)?;
        self.add_in_row(row, slots, cell)
    }

    /// Takes the cells of these slots out. Takes no memory.
    pub fn drop_slots(&mut self, slots: &QuerySet)
        ensures { (s : ℕ) → sums (cells_of self.new s) ≡ dropped (λ k. sums (cells_of self.old k)) slots.now s }
    {
        if self.are_all(slots) {
            self.clear();
            return;
        }
        self.drop_each(slots);
    }

    /// Takes all cells out, and keeps the memory. Takes no memory.
    pub fn clear(&mut self)
        ensures { (s : ℕ) → cells_of self.new s ≡ [] }
    {
        self.most_width = self.width_at_most();
        clear_all(&mut self.rows);
        self.groups.clear();
        self.numbers.clear();
        self.count = 0;
    }

    /// Whether the rows that there ever were, were they all as wide as the widest, have at most 4,096 places.
    pub fn is_small(&self) -> bool {
        self.rows.len().saturating_mul(self.width_at_most()) <= FEW_PLACES
    }

    // How wide the rows were at most.
    fn width_at_most(&self) -> usize {
        self.most_width.max(self.numbers.width())
    }

    // Gives a place to those of these slots that have none.
    fn give_numbers(&mut self, slots: &QuerySet)
        ensures keys { self.new.keys ≡ self.old.keys }
        ensures rows { self.new.rows ≡ self.old.rows }
        ensures same { (s : ℕ) → cells_of self.new s ≡ cells_of self.old s }
        ensures given { (s : ℕ) → slice_index_or slots.now s false ≡ true →
            slice_index_or self.new.numbers s 512 < self.new.width }
    {
        self.numbers.give(slots);
    }

    // The number of the group's row, which is made if there is none. `NoMemory` leaves the cells as they were, too.
    fn row_of(&mut self, group: i64) -> Result<usize, NoMemory>
        ensures ok { IfOk result (λ row. slice_get self.new.keys row ≡ Some group) }
        ensures numbers { self.new.numbers ≡ self.old.numbers }
        ensures width { self.new.width ≡ self.old.width }
        ensures same { (s : ℕ) → cells_of self.new s ≡ cells_of self.old s }
    {
        if is_row_of(&self.groups, self.last, group) {
            return Ok(self.last);
        }
        let groups = self.groups.len();
        make_row(&mut self.rows, groups, self.alloc)?;
        let row = look_up(&mut self.groups, group)?;
        self.last = row;
        Ok(row)
    }

    // Makes the row of a group as long as there are columns.
    fn widen(&mut self, row: usize) -> Result<(), NoMemory>
        requires { row < length self.old.keys }
        ensures keys { self.new.keys ≡ self.old.keys }
        ensures numbers { self.new.numbers ≡ self.old.numbers }
        ensures width { self.new.width ≡ self.old.width }
        ensures same { (s : ℕ) → cells_of self.new s ≡ cells_of self.old s }
        ensures ok { OnOk result (self.new.width ≤ length (slice_index_or self.new.rows row [])) }
    {
        let width = self.numbers.width();
        widen_row(&mut self.rows, row, width)
    }

    // Adds the cell to those in the row and these slots, which have their places.
    fn add_in_row(&mut self, row: usize, slots: &QuerySet, cell: Cell) -> Result<(), NoMemory>
        requires some { 0 < cell.count }
        requires sound { IsSound cell }
        requires row { slice_get self.old.keys row ≡ Some cell.group }
        requires within { (s : ℕ) → slice_index_or slots.now s false ≡ true →
            slice_index_or self.old.numbers s 512 < length (slice_index_or self.old.rows row []) }
        requires few { (slot : ℕ) → slice_index_or slots.now slot false ≡ true →
            count_at (sums (cells_of self.old slot)) cell.group + cell.count ≤ 2 ^ 62 }
        ensures ok { OnOk result ((s : ℕ) →
            sums (cells_of self.new s) ≡ added_each (λ k. sums (cells_of self.old k)) slots.now cell s) }
        ensures err { OnErr result (self.new ≡ self.old) }
    {
        if self.count > usize::MAX - SLOTS {
            return Err(NoMemory);
        }
        self.count += add_to(&mut self.rows, row, self.numbers.all(), slots, cell);
        Ok(())
    }

    // Whether all slots that have a place are among these.
    fn are_all(&self, slots: &QuerySet) -> bool
        ensures { result ≡ true → (s : ℕ) → slice_index_or slots.now s false ≡ false → cells_of self.now s ≡ [] }
    {
        self.numbers.are_among(slots)
    }

    // Takes the cells of these slots out, slot by slot.
    fn drop_each(&mut self, slots: &QuerySet)
        ensures { (s : ℕ) → sums (cells_of self.new s) ≡ dropped (λ k. sums (cells_of self.old k)) slots.now s }
    {
        let mut left = Slots::of(slots);
        'slots: while let Some(slot) = left.next() {
            self.drop_slot(slot);
        }
    }

    // Takes the cells of a slot out.
    fn drop_slot(&mut self, slot: u16)
        requires { slot < 512 }
        ensures { (s : ℕ) → cells_of self.new s ≡ (if s == slot then [] else cells_of self.old s) }
    {
        let number = self.numbers.of(slot);
        self.count -= blank_column(&mut self.rows, number);
    }
}

// Whether there is a row of this number and it is the group's.
fn is_row_of(groups: &IndexSet<i64>, row: usize, group: i64) -> bool
    ensures { result ≡ true → slice_get groups.now.keys row ≡ Some group }
{
    match groups.get_index(row) {
        Some(key) => *key == group,
        None => false,
    }
}

// Makes sure that there is a row behind those of so many groups.
fn make_row(rows: &mut Vec<Row>, groups: usize, alloc: Global) -> Result<(), NoMemory>
    requires { groups ≤ length rows.old.items }
    ensures more { rows.new.items ≡ rows.old.items ++ replicate (length rows.new.items - length rows.old.items) [] }
    ensures ok { OnOk result (groups < length rows.new.items) }
{
    if groups >= rows.len() {
        rows.push(Row::new(alloc))?;
    }
    Ok(())
}

// The number of the group's row, which is made if there is none.
fn look_up(groups: &mut IndexSet<i64>, group: i64) -> Result<usize, NoMemory>
    requires { AreApart groups.old.keys }
    ensures apart { AreApart groups.new.keys }
    ensures more { (rows : List (List Cell)) → AreRows groups.old.keys rows → AreRows groups.new.keys rows }
    ensures one { length groups.new.keys ≤ length groups.old.keys + 1 }
    ensures ok { IfOk result (λ row. slice_get groups.new.keys row ≡ Some group) }
{
    let (row, _) = groups.insert_full(group)?;
    Ok(row)
}

// Makes a row as long as there are columns.
fn widen_row(rows: &mut Vec<Row>, row: usize, width: usize) -> Result<(), NoMemory>
    requires { row < length rows.old.items }
    ensures value { rows.new.items ≡ slice_set rows.old.items row (slice_index_or rows.new.items row []) }
    ensures more { slice_index_or rows.new.items row [] ≡ slice_index_or rows.old.items row [] ++
        replicate (length (slice_index_or rows.new.items row []) - length (slice_index_or rows.old.items row [])) blank }
    ensures ok { OnOk result (width ≤ length (slice_index_or rows.new.items row [])) }
    ensures most { length (slice_index_or rows.old.items row []) ≤ width → length (slice_index_or rows.new.items row []) ≤ width }
{
    rows[row].widen(width)
}

// Adds the cell to those in the row and these slots, and tells how many of them are new.
fn add_to(rows: &mut Vec<Row>, row: usize, numbers: &[u16], slots: &QuerySet, cell: Cell) -> usize
    requires within { row < length rows.old.items }
    requires takes { Takes (slice_index_or rows.old.items row []) numbers.now slots.now cell }
    ensures value { rows.new.items ≡ slice_set rows.old.items row (slice_index_or rows.new.items row []) }
    ensures added { HasAdded (slice_index_or rows.old.items row []) (slice_index_or rows.new.items row [])
        numbers.now slots.now cell result }
{
    rows[row].add_each(numbers, slots, cell)
}

// Puts the cells of a column behind those of the list.
fn append_column(rows: &[Row], number: usize, cells: &mut Vec<Cell>) -> Result<(), NoMemory>
    ensures { OnOk result (cells.new.items ≡ cells.old.items ++ all_shown (column number rows.now)) }
{
    for row in rows {
        append_shown(row.at(number), cells)?;
    }
    Ok(())
}

// Puts a cell behind those of the list, unless it counts nothing.
fn append_shown(cell: Cell, cells: &mut Vec<Cell>) -> Result<(), NoMemory>
    ensures { OnOk result (cells.new.items ≡ cells.old.items ++ shown cell) }
{
    if cell.count != 0 {
        cells.push(cell)?;
    }
    Ok(())
}

// Empties the places of a column, and tells how many cells they had.
fn blank_column(rows: &mut [Row], number: usize) -> usize
    ensures count { result ≡ length (all_shown (column number rows.old)) }
    ensures value { rows.new ≡ without number rows.old }
{
    let mut count = 0;
    for row in rows.iter_mut() {
        count += row.blank_at(number);
    }
    count
}

// Takes the places of all rows out.
fn clear_all(rows: &mut [Row])
    ensures len { length rows.new ≡ length rows.old }
    ensures none { (k : ℕ) → slice_index_or rows.new k [] ≡ [] }
{
    for row in rows.iter_mut() {
        row.clear();
    }
}
