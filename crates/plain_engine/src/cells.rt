ghost use Rattle.std.specs.Prelude.{◌≡◌, ◌≤◌, ◌<◌, ◌+◌, ◌-◌, ◌^◌, length, IfOk, OnOk};
ghost use Rattle.views.specs.Groups.{value_at, group_of};
ghost use Rattle.plain_engine.specs.Cells.{summand, AreRising, IsWithin, AreWithin, IsPlace, with_one, put_cell, cells_of};

use as_base::{Cell, Col, Given, Group, Kind, NoMemory, Plan};
use std::alloc::Global;

// The value of the column.
fn value_at(col: Col, given: &Given) -> i64
    ensures { result ≡ value_at col given.now }
{
    match col {
        Col::V1 => given.v[0],
        Col::V2 => given.v[1],
        Col::V3 => given.v[2],
        Col::V4 => given.v[3],
    }
}

// The group of the record; 0 where all records are one.
fn group_of(by: Group, given: &Given) -> i64
    ensures { result ≡ group_of by given.now }
{
    match by {
        Group::Key => given.key,
        Group::Col(col) => value_at(col, given),
        Group::All => 0,
    }
}

// What the record adds to the sum of its group: its value for a sum, and nothing otherwise.
fn summand(kind: Kind, given: &Given) -> i64
    ensures { result ≡ summand kind given.now }
{
    match kind {
        Kind::Sum(col) => value_at(col, given),
        _ => 0,
    }
}

// The first place whose cell, if there is one, is not below the group, of cells that stand by rising group.
fn place_for(cells: &[Cell], group: i64) -> usize
    requires { AreRising cells.now }
    ensures bound { result ≤ length cells.now }
    ensures place { IsPlace group cells.now result }
{
    cells.partition_point(|cell| cell.group < group)
}

// The cell with one record more, which adds the value, where it is of at most so many.
fn with_one(cell: Cell, value: i64, many: usize) -> Cell
    requires most { many < 2 ^ 64 - 1 }
    requires within { IsWithin many cell }
    ensures { result ≡ with_one value cell }
{
    Cell {
        group: cell.group,
        sum: i128::from(value) + cell.sum,
        count: cell.count + 1,
    }
}

// Takes a record of the group into the cells of so many records.
fn put(cells: &mut Vec<Cell>, group: i64, value: i64, many: usize) -> Result<(), NoMemory>
    requires most { many < 2 ^ 64 - 1 }
    requires rising { AreRising cells.old.items }
    requires within { AreWithin many cells.old.items }
    ensures value { OnOk result (cells.new.items ≡ put_cell group value cells.old.items) }
    ensures within { OnOk result (AreWithin (many + 1) cells.new.items) }
{
    let place = place_for(cells, group);
    if place < cells.len() && cells[place].group == group {
        cells[place] = with_one(cells[place], value, many);
        return Ok(());
    }
    let cell = Cell {
        group,
        sum: i128::from(value),
        count: 1,
    };
    cells.insert(place, cell)?;
    Ok(())
}

/// What the records add up to, group by group: a cell for each, by rising group. No sum wraps. The one refusal is
/// `NoMemory`.
pub fn fold(alloc: Global, plan: &Plan, records: &[Given]) -> Result<Vec<Cell>, NoMemory>
    ensures { IfOk result (λ cells. cells.items ≡ cells_of plan.now.kind plan.now.group records.now) }
{
    // From the last record to the first, so that the cells are those of a rest of the records at each step.
    let mut cells = Vec::new(alloc);
    let mut left = records.len();
    while left > 0 {
        let many = records.len() - left;
        left -= 1;
        let given = &records[left];
        put(
            &mut cells,
            group_of(plan.group, given),
            summand(plan.kind, given),
            many,
        )?;
    }
    Ok(cells)
}
