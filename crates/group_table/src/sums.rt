ghost use Rattle.std.specs.Prelude.{◌≡◌, ℤ, ◌≤◌, ◌<◌, ◌+◌, ◌-◌, ◌^◌, ◌&&◌, nat_lt, int_lt, false, length, take, drop, slice_index_or};
ghost use Rattle.std.specs.List.{AllByRecursion};
ghost use Rattle.std.specs.Ordering.{int_eq};
ghost use Rattle.as_base.specs.declared.fragment.Cell.{Cell};
ghost use Rattle.group_table.specs.Cells.{blank, add_in, sums, count_at, IsSound, IsRising, NeverFalls};

use crate::cells::plus;
use as_base::{Cell, Cells};

/// Cells of any groups, in any order, added up by rising group. No group may come to more than 2^62 records. Takes no memory.
pub fn add_up(cells: Vec<Cell>) -> Cells
    requires few { (group : ℤ) → count_at cells.items group ≤ 2 ^ 62 }
    requires sound { AllByRecursion IsSound cells.items }
    ensures { result ≡ sums cells.items }
{
    let mut cells = cells;
    sort(&mut cells);
    join_groups(&mut cells);
    Cells::from_vec(cells)
}

// Sorts cells by group.
fn sort(cells: &mut Vec<Cell>)
    ensures order { NeverFalls cells.new.items }
    ensures same { sums cells.new.items ≡ sums cells.old.items }
    ensures sound { AllByRecursion IsSound cells.old.items → AllByRecursion IsSound cells.new.items }
{
    cells.sort_unstable_by_key(|cell| cell.group);
}

// Adds up neighbours of one group, where no group is below the one before it.
fn join_groups(cells: &mut Vec<Cell>)
    requires order { NeverFalls cells.old.items }
    requires few { (group : ℤ) → count_at cells.old.items group ≤ 2 ^ 62 }
    requires sound { AllByRecursion IsSound cells.old.items }
    ensures { cells.new.items ≡ sums cells.old.items }
{
    let mut kept = 0;
    for next in 0..cells.len() {
        let cell = cells[next];
        kept = put_behind(cells, kept, cell);
    }
    cells.truncate(kept);
}

// Adds a cell to the last of so many first ones, if that is of its group, or puts it behind them; tells how many they are
// then.
fn put_behind(cells: &mut Vec<Cell>, kept: usize, cell: Cell) -> usize
    requires within { kept < length cells.old.items }
    requires rising { IsRising (take kept cells.old.items) }
    requires order { AllByRecursion (λ (held : Cell). int_lt cell.group held.group ≡ false) (take kept cells.old.items) }
    requires few { count_at (take kept cells.old.items) cell.group + cell.count ≤ 2 ^ 62 }
    requires held { AllByRecursion IsSound (take kept cells.old.items) }
    requires sound { IsSound cell }
    ensures most { result ≤ kept + 1 }
    ensures len { length cells.new.items ≡ length cells.old.items }
    ensures value { take result cells.new.items ≡ add_in (take kept cells.old.items) cell }
    ensures rest { drop (kept + 1) cells.new.items ≡ drop (kept + 1) cells.old.items }
{
    if is_last(cells, kept, cell) {
        cells[kept - 1] = plus(cells[kept - 1], cell);
        return kept;
    }
    cells[kept] = cell;
    kept + 1
}

// Whether the last of so many first cells is of the cell's group.
fn is_last(cells: &[Cell], kept: usize, cell: Cell) -> bool
    requires { kept ≤ length cells.now }
    ensures { result ≡ (nat_lt 0 kept && int_eq (slice_index_or cells.now (kept - 1) blank).group cell.group) }
{
    kept > 0 && is_of_group(&cells[kept - 1], cell)
}

// Whether two cells are of one group.
fn is_of_group(held: &Cell, cell: Cell) -> bool
    ensures { result ≡ int_eq held.now.group cell.group }
{
    held.group == cell.group
}
