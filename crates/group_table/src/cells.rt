ghost use Rattle.std.specs.Prelude.{◌≡◌, ◌≤◌, ◌+◌, ◌^◌};
ghost use Rattle.group_table.specs.Cells.{blank, plus, IsSound};

use as_base::Cell;

/// Two cells of one group as one, of at most 2^62 records.
pub fn plus(cell: Cell, more: Cell) -> Cell
    requires few { cell.count + more.count ≤ 2 ^ 62 }
    requires sound { IsSound cell }
    requires more { IsSound more }
    ensures { result ≡ plus cell more }
{
    Cell {
        group: cell.group,
        sum: cell.sum + more.sum,
        count: cell.count + more.count,
    }
}

/// A cell of no records.
pub fn blank() -> Cell
    ensures { result ≡ blank }
{
    Cell {
        group: 0,
        sum: 0,
        count: 0,
    }
}
