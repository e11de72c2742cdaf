ghost use Rattle.std.specs.Prelude.{ℕ, ℤ, ◌≤◌, ◌<◌, ◌+◌, ◌^◌, IfOk};
ghost use Rattle.group_table.specs.Cells.{count_at};
ghost use Rattle.group_table.specs.Tables.{cells_at};

use crate::Table;
use as_base::{Cell, NoMemory};
use queryset_lanes::QuerySet;
use std::alloc::Global;
use std::test::Fail;

// A table without cells.
fn empty(alloc: Global) -> Table
    ensures { (s : ℕ) (g : ℤ) → count_at (cells_at result s) g ≤ 0 }
{
    Table::new(alloc)
}

// Adds a record to a table that has at most so many of each group in each slot.
fn put(table: &mut Table, slot: u16, group: i64, value: i64, many: u64) -> Result<(), NoMemory>
    requires slot { slot < 512 }
    requires many { many < 2 ^ 62 }
    requires few { (s : ℕ) (g : ℤ) → count_at (cells_at table.old s) g ≤ many }
    ensures { (s : ℕ) (g : ℤ) → count_at (cells_at table.new s) g ≤ many + 1 }
{
    table.add(slot, group, value)
}

// 20 groups by falling number, in two slots: slot 1 has the values 3 and 4 of each, and slot 500 the value -9.
fn twenty(alloc: Global) -> Result<Table, NoMemory>
    ensures { IfOk result (λ table. (s : ℕ) (g : ℤ) → count_at (cells_at table s) g ≤ 60) }
{
    let mut table = empty(alloc);
    let mut left: u8 = 20;
    while left > 0 {
        left -= 1;
        let group = i64::from(left);
        let many = 3 * (19 - u64::from(left));
        put(&mut table, 1, group, 3, many)?;
        put(&mut table, 500, group, -9, many + 1)?;
        put(&mut table, 1, group, 4, many + 2)?;
    }
    Ok(table)
}

// Whether the cells of a slot are of the groups from 0 to 19, each with this sum and count.
fn are_twenty(table: &Table, slot: u16, sum: i128, count: u64) -> Result<bool, NoMemory>
    requires { slot < 512 }
{
    let cells = table.sorted_rows(slot)?;
    let mut group: i64 = 0;
    for cell in cells.as_slice() {
        if *cell != (Cell { group, sum, count }) {
            return Ok(false);
        }
        group = group.wrapping_add(1);
    }
    Ok(group == 20)
}

#[test]
fn one_group(rt: HostRuntime) -> Result<(), Fail> {
    let mut table = empty(rt.alloc());
    put(&mut table, 1, 5, 3, 0)?;
    put(&mut table, 1, 5, 4, 1)?;
    let cells = table.sorted_rows(1)?;
    let cell = Cell {
        group: 5,
        sum: 7,
        count: 2,
    };
    assert!(rt; cells.as_slice() == [cell].as_slice());
    Ok(())
}

#[test]
fn twenty_groups(rt: HostRuntime) -> Result<(), Fail> {
    let mut table = twenty(rt.alloc())?;
    assert!(rt; table.len() == 40);
    assert!(rt; are_twenty(&table, 1, 7, 2)?);
    assert!(rt; are_twenty(&table, 500, -9, 1)?);
    let mut other = twenty(rt.alloc())?;
    other.merge_slot(&table, 1)?;
    assert!(rt; are_twenty(&other, 1, 14, 4)?);
    assert!(rt; are_twenty(&other, 500, -9, 1)?);
    table.drop_slots(&QuerySet::none().with(1, true));
    assert!(rt; table.len() == 20);
    assert!(rt; table.sorted_rows(1)?.as_slice().is_empty());
    assert!(rt; are_twenty(&table, 500, -9, 1)?);
    Ok(())
}

#[test]
fn each_of_many_slots(rt: HostRuntime) -> Result<(), Fail> {
    let mut table = Table::new(rt.alloc());
    table.add_each(&QuerySet::all(), 5, 7)?;
    assert!(rt; table.len() == 512);
    assert!(rt; table.is_small());
    let cell = Cell {
        group: 5,
        sum: 7,
        count: 1,
    };
    assert!(rt; table.sorted_rows(511)?.as_slice() == [cell].as_slice());
    table.clear();
    assert!(rt; table.len() == 0);
    Ok(())
}

#[test]
fn a_slot_appended_twice(rt: HostRuntime) -> Result<(), Fail> {
    let mut table = Table::new(rt.alloc());
    table.add_each(&QuerySet::none().with(3, true), 5, 7)?;
    let mut cells = Vec::new(rt.alloc());
    table.append_slot(3, &mut cells)?;
    table.append_slot(3, &mut cells)?;
    assert!(rt; cells.len() == 2);
    Ok(())
}
