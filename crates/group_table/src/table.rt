ghost use Rattle.std.specs.Prelude.{◌≡◌, ℕ, ℤ, ◌<◌, ◌≤◌, ◌+◌, ◌^◌, ◌==◌, ◌++◌, [], true, false, slice_index_or, if◌then◌else◌, IfOk, OnOk, OnErr};
ghost use Rattle.std.specs.List.{AllByRecursion};
ghost use Rattle.as_base.specs.declared.fragment.Cell.{Cell};
ghost use Rattle.group_table.specs.Cells.{sums, count_at, times, IsSound, AreCells};
ghost use Rattle.group_table.specs.Held.{held, AreEntries};
ghost use Rattle.group_table.specs.Grids.{cells_of};
ghost use Rattle.group_table.specs.Steps.{added, added_each, merged, dropped, HaveSome, HaveFirst, AreAppended, IsPartlyMerged};
ghost use Rattle.group_table.specs.Tables.{held_at, cells_at};
ghost use Rattle.group_table.specs.Totals.{total};

use crate::large::Large;
use crate::small::{Entry, Small};
use as_base::{Cell, Cells, NoMemory};
use queryset_lanes::QuerySet;
use std::alloc::Global;

/// How many cells are looked through; more of them stand in columns.
const FEW: usize = 16;

/// The two forms in which cells are held.
#[derive(Drop)]
pub enum Form {
    Small(Small),
    Large(Large),
}

/// Sums and counts by query slot, from 0 to 511, and group: what the records of one slice add up to. A cell that is there
/// counts at least one record.
#[derive(Drop)]
pub struct Table {
    alloc: Global,
    form: Form,
}

impl Table {
    /// No cell. Takes no memory.
    #[tactic(auto, unfolding(crate::specs::Tables::cells_at))]
    pub fn new(alloc: Global) -> Table
        ensures { (slot : ℕ) → cells_at result slot ≡ [] }
    {
        Table {
            alloc,
            form: Form::Small(Small::new(alloc)),
        }
    }

    /// Adds a record with this value to the group's cell of a slot, of less than 2^62 records. The one refusal is
    /// `NoMemory`, after which the cells are as they were.
    pub fn add(&mut self, slot: u16, group: i64, value: i64) -> Result<(), NoMemory>
        requires slot { slot < 512 }
        requires few { count_at (cells_at self.old slot) group < 2 ^ 62 }
        ensures ok { OnOk result ((s : ℕ) →
            cells_at self.new s ≡ added (cells_at self.old) slot (record { group = group; sum = value; count = 1 }) s) }
        ensures err { OnErr result ((s : ℕ) → cells_at self.new s ≡ cells_at self.old s) }
    {
        let cell = Cell {
            group,
            sum: i128::from(value),
            count: 1,
        };
        self.add_cell(slot, cell)
    }

    /// Adds a record with this value to the group's cell of each of these slots, each of less than 2^62 records. The one
    /// refusal is `NoMemory`, after which some of the slots have it and the others are as they were.
    #[tactic(auto, unfolding(crate::specs::Tables::cells_at))]
    pub fn add_each(&mut self, slots: &QuerySet, group: i64, value: i64) -> Result<(), NoMemory>
        requires few { (slot : ℕ) → slice_index_or slots.now slot false ≡ true → count_at (cells_at self.old slot) group < 2 ^ 62 }
        ensures ok { OnOk result ((s : ℕ) →
            cells_at self.new s ≡ added_each (cells_at self.old) slots.now (record { group = group; sum = value; count = 1 }) s) }
        ensures err { OnErr result (
            HaveSome (cells_at self.old) (cells_at self.new) slots.now (record { group = group; sum = value; count = 1 })) }
    {
        let cell = Cell {
            group,
            sum: i128::from(value),
            count: 1,
        };
        self.add_cell_each(slots, cell)
    }

    /// Adds the cells of a slot of another table to those of the same slot. No group may come to more than 2^62 records.
    /// The one refusal is `NoMemory`: of this slot the cells of some groups are added then, and others not; other slots are
    /// as they were.
    #[tactic(auto, unfolding(crate::specs::Tables::cells_at))]
    pub fn merge_slot(&mut self, from: &Table, slot: u16) -> Result<(), NoMemory>
        requires slot { slot < 512 }
        requires few { (group : ℤ) → count_at (cells_at self.old slot) group + count_at (cells_at from.now slot) group ≤ 2 ^ 62 }
        ensures ok { OnOk result ((s : ℕ) → cells_at self.new s ≡ merged (cells_at self.old) slot (cells_at from.now slot) s) }
        ensures err { OnErr result (IsPartlyMerged (cells_at self.old slot) (cells_at self.new slot) (cells_at from.now slot)) }
        ensures others { (s : ℕ) → (s == slot) ≡ false → cells_at self.new s ≡ cells_at self.old s }
    {
        let cells = gather(&from.form, slot, self.alloc)?;
        self.add_cells(slot, cells.as_slice())
    }

    /// Puts the cells of a slot behind those of the list, in any order. The one refusal is `NoMemory`.
    #[tactic(auto, unfolding(crate::specs::Tables::cells_at))]
    pub fn append_slot(&self, slot: u16, cells: &mut Vec<Cell>) -> Result<(), NoMemory>
        ensures { OnOk result (AreAppended cells.old.items cells.new.items (cells_at self.now slot)) }
    {
        append(&self.form, slot, cells)
    }

    /// The cells of a slot, by rising group. The one refusal is `NoMemory`.
    #[tactic(auto, unfolding(crate::specs::Tables::cells_at))]
    pub fn sorted_rows(&self, slot: u16) -> Result<Cells, NoMemory>
        ensures { IfOk result (λ cells. cells ≡ cells_at self.now slot) }
    {
        let mut cells = gather(&self.form, slot, self.alloc)?;
        sort(&mut cells);
        Ok(Cells::from_vec(cells))
    }

    /// How many cells there are, over all slots.
    #[tactic(auto, unfolding(crate::specs::Tables::cells_at))]
    pub fn len(&self) -> usize
        ensures { result ≡ total (cells_at self.now) }
    {
        match &self.form {
            Form::Small(small) => small.len(),
            Form::Large(large) => large.len(),
        }
    }

    /// Takes the cells of these slots out. Takes no memory.
    #[tactic(auto, unfolding(crate::specs::Tables::cells_at))]
    pub fn drop_slots(&mut self, slots: &QuerySet)
        ensures { (s : ℕ) → cells_at self.new s ≡ dropped (cells_at self.old) slots.now s }
    {
        drop_slots(&mut self.form, slots);
    }

    /// Takes all cells out, and keeps memory for later ones. Takes no memory.
    #[tactic(auto, unfolding(crate::specs::Tables::cells_at))]
    pub fn clear(&mut self)
        ensures { (s : ℕ) → cells_at self.new s ≡ [] }
    {
        clear(&mut self.form);
    }

    /// Whether so little memory is held, for at most 4,096 cells, that a cleared table may be kept for later.
    pub fn is_small(&self) -> bool {
        match &self.form {
            Form::Small(_) => true,
            Form::Large(large) => large.is_small(),
        }
    }

    // Adds the cell to that of its slot and group.
    #[tactic(auto, unfolding(crate::specs::Tables::cells_at))]
    fn add_cell(&mut self, slot: u16, cell: Cell) -> Result<(), NoMemory>
        requires slot { slot < 512 }
        requires some { 0 < cell.count }
        requires sound { IsSound cell }
        requires few { count_at (cells_at self.old slot) cell.group + cell.count ≤ 2 ^ 62 }
        ensures ok { OnOk result ((s : ℕ) → cells_at self.new s ≡ added (cells_at self.old) slot cell s) }
        ensures err { OnErr result ((s : ℕ) → cells_at self.new s ≡ cells_at self.old s) }
    {
        grow(&mut self.form, 1, self.alloc)?;
        add_to(&mut self.form, slot, cell)
    }

    // Adds the cell to that of its group in each of these slots.
    #[tactic(auto, unfolding(crate::specs::Tables::cells_at))]
    fn add_cell_each(&mut self, slots: &QuerySet, cell: Cell) -> Result<(), NoMemory>
        requires some { 0 < cell.count }
        requires sound { IsSound cell }
        requires few { (slot : ℕ) → slice_index_or slots.now slot false ≡ true →
            count_at (cells_at self.old slot) cell.group + cell.count ≤ 2 ^ 62 }
        ensures ok { OnOk result ((s : ℕ) → cells_at self.new s ≡ added_each (cells_at self.old) slots.now cell s) }
        ensures err { OnErr result (HaveSome (cells_at self.old) (cells_at self.new) slots.now cell) }
    {
        grow(&mut self.form, slots.ones() as usize, self.alloc)?;
        add_each_to(&mut self.form, slots, cell)
    }

    // Adds cells to those of a slot, one by one.
    fn add_cells(&mut self, slot: u16, cells: &[Cell]) -> Result<(), NoMemory>
        requires slot { slot < 512 }
        requires sound { AllByRecursion IsSound cells.now }
        requires some { AllByRecursion (λ (c : Cell). 0 < c.count) cells.now }
        requires few { (group : ℤ) → count_at (cells_at self.old slot) group + count_at cells.now group ≤ 2 ^ 62 }
        ensures ok { OnOk result ((s : ℕ) → cells_at self.new s ≡ merged (cells_at self.old) slot cells.now s) }
        ensures err { OnErr result (HaveFirst (cells_at self.old) (cells_at self.new) slot cells.now) }
    {
        for cell in cells {
            self.add_cell(slot, *cell)?;
        }
        Ok(())
    }
}

// Few cells, in columns.
fn in_columns(entries: &[Entry], alloc: Global) -> Result<Large, NoMemory>
    requires { AreEntries entries.now }
    ensures { IfOk result (λ large. (s : ℕ) → sums (cells_of large s) ≡ sums (held entries.now s)) }
{
    let mut large = Large::new(alloc)?;
    for entry in entries {
        large.add(entry.slot, entry.cell)?;
    }
    Ok(large)
}

// Whether so many cells, and so many more, are no longer few.
fn are_many(cells: usize, more: usize) -> bool {
    cells.saturating_add(more) > FEW
}

// Makes room for some cells more: cells that are few, and will be no longer, go into columns.
fn grow(form: &mut Form, more: usize, alloc: Global) -> Result<(), NoMemory>
    ensures { (s : ℕ) → sums (held_at form.new s) ≡ sums (held_at form.old s) }
{
    let large = match form {
        Form::Small(small) if are_many(small.len(), more) => in_columns(small.entries(), alloc)?,
        _ => return Ok(()),
    };
    *form = Form::Large(large);
    Ok(())
}

// Adds the cell to that of its slot and group.
fn add_to(form: &mut Form, slot: u16, cell: Cell) -> Result<(), NoMemory>
    requires slot { slot < 512 }
    requires some { 0 < cell.count }
    requires sound { IsSound cell }
    requires few { count_at (sums (held_at form.old slot)) cell.group + cell.count ≤ 2 ^ 62 }
    ensures ok { OnOk result ((s : ℕ) → sums (held_at form.new s) ≡ added (λ k. sums (held_at form.old k)) slot cell s) }
    ensures err { OnErr result ((s : ℕ) → sums (held_at form.new s) ≡ sums (held_at form.old s)) }
{
    match form {
        Form::Small(small) => small.add(slot, cell),
        Form::Large(large) => large.add(slot, cell),
    }
}

// Adds the cell to that of its group in each of these slots.
fn add_each_to(form: &mut Form, slots: &QuerySet, cell: Cell) -> Result<(), NoMemory>
    requires some { 0 < cell.count }
    requires sound { IsSound cell }
    requires few { (slot : ℕ) → slice_index_or slots.now slot false ≡ true →
        count_at (sums (held_at form.old slot)) cell.group + cell.count ≤ 2 ^ 62 }
    ensures ok { OnOk result ((s : ℕ) → sums (held_at form.new s) ≡ added_each (λ k. sums (held_at form.old k)) slots.now cell s) }
    ensures err { OnErr result (HaveSome (λ k. sums (held_at form.old k)) (λ k. sums (held_at form.new k)) slots.now cell) }
{
    match form {
        Form::Small(small) => small.add_each(slots, cell),
        Form::Large(large) => large.add_each(slots, cell),
    }
}

// Takes the cells of these slots out.
fn drop_slots(form: &mut Form, slots: &QuerySet)
    ensures { (s : ℕ) → sums (held_at form.new s) ≡ dropped (λ k. sums (held_at form.old k)) slots.now s }
{
    match form {
        Form::Small(small) => small.drop_slots(slots),
        Form::Large(large) => large.drop_slots(slots),
    }
}

// Takes all cells out.
fn clear(form: &mut Form)
    ensures { (s : ℕ) → sums (held_at form.new s) ≡ [] }
{
    match form {
        Form::Small(small) => small.clear(),
        Form::Large(large) => large.clear(),
    }
}

// Puts the cells of a slot, in the order held, behind those of the list.
fn append(form: &Form, slot: u16, cells: &mut Vec<Cell>) -> Result<(), NoMemory>
    ensures ok { OnOk result (cells.new.items ≡ cells.old.items ++ held_at form.now slot) }
    ensures cells { AreCells (held_at form.now slot) }
{
    match form {
        Form::Small(small) => small.append(slot, cells),
        Form::Large(large) => large.append(slot, cells),
    }
}

// The cells of a slot, in the order held.
fn gather(form: &Form, slot: u16, alloc: Global) -> Result<Vec<Cell>, NoMemory>
    ensures value { IfOk result (λ cells. cells.items ≡ held_at form.now slot) }
    ensures cells { AreCells (held_at form.now slot) }
{
    let mut cells = Vec::new(alloc);
    append(form, slot, &mut cells)?;
    Ok(cells)
}

// Sorts cells, of which no two have one group, by rising group.
fn sort(cells: &mut Vec<Cell>)
    requires { (group : ℤ) → times group cells.old.items ≤ 1 }
    ensures { cells.new.items ≡ sums cells.old.items }
{
    cells.sort_unstable_by_key(|cell| cell.group);
}
