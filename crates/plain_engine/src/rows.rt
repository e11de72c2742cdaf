ghost use Rattle.std.specs.Prelude.{◌≡◌, ◌++◌, ◌<◌, ◌^◌, map, true, OnOk};
ghost use Rattle.as_base.specs.declared.item.Given.{Given};
ghost use Rattle.as_base.specs.declared.row.Row.{Row};
ghost use Rattle.as_base.specs.Windows.{fits, start_of, end_of};
ghost use Rattle.views.specs.Groups.{group_told};
ghost use Rattle.views.specs.Pairs.{pairs};
ghost use Rattle.views.specs.Rows.{pair_row, rows_with};
ghost use Rattle.plain_engine.specs.Cells.{cells_of};
ghost use Rattle.plain_engine.specs.Walk.{AreByTime, AreWaiting, value_told, row_of, rows_between, text_of_rows};

use crate::cells::fold;
use crate::pairs::pairs_of;
use crate::windows::{next_window, window_records};
use as_base::{Cell, Couple, Given, Group, Kind, NoMemory, Plan, Row, WinSpec};
use row_text::append_row;
use std::alloc::Global;
use std::ops::Range;

// The group as a row has it; none where all records are one.
fn group_told(by: Group, group: i64) -> Option<i64>
    ensures { result ≡ group_told by group }
{
    match by {
        Group::Key | Group::Col(_) => Some(group),
        Group::All => None,
    }
}

// What a row has of a cell: the sum, or the count.
fn value_told(kind: Kind, cell: &Cell) -> i128
    ensures { result ≡ value_told kind cell.now }
{
    match kind {
        Kind::Sum(_) => cell.sum,
        Kind::Count => i128::from(cell.count),
        Kind::Select | Kind::Join => 0,
    }
}

// Where window `k` begins, and the first time after it.
fn edges(win: &WinSpec, k: u64) -> (u64, u64)
    requires fits { fits win.now ≡ true }
    requires start { start_of win.now k < 2 ^ 62 }
    ensures start { result.0 ≡ start_of win.now k }
    ensures end { result.1 ≡ end_of win.now k }
{
    let start = k * win.slide;
    (start, start + win.size)
}

// The row of a cell in window `k`.
fn row_of(plan: &Plan, k: u64, cell: &Cell) -> Row
    requires fits { fits plan.now.win ≡ true }
    requires start { start_of plan.now.win k < 2 ^ 62 }
    ensures { result ≡ row_of plan.now k cell.now }
{
    let (start, end) = edges(&plan.win, k);
    Row::Agg {
        start,
        end,
        group: group_told(plan.group, cell.group),
        value: value_told(plan.kind, cell),
    }
}

// The row of a pair in window `k`.
fn pair_row(plan: &Plan, k: u64, couple: &Couple) -> Row
    requires fits { fits plan.now.win ≡ true }
    requires start { start_of plan.now.win k < 2 ^ 62 }
    ensures { result ≡ pair_row plan.now k couple.now }
{
    let (start, end) = edges(&plan.win, k);
    Row::Pair {
        start,
        end,
        left: couple.left,
        right: couple.right,
    }
}

// Appends the rows of the records as they are.
fn append_selected(records: &[Given], out: &mut Vec<u8>) -> Result<(), NoMemory>
    ensures { OnOk result (out.new.items ≡ out.old.items ++ text_of_rows (map (λ g. Row.Sel g) records.now)) }
{
    for given in records {
        append_row(&Row::Sel(*given), out)?;
    }
    Ok(())
}

// Appends the rows of the cells in window `k`.
fn append_cells(plan: &Plan, k: u64, cells: &[Cell], out: &mut Vec<u8>) -> Result<(), NoMemory>
    requires fits { fits plan.now.win ≡ true }
    requires start { start_of plan.now.win k < 2 ^ 62 }
    ensures { OnOk result (out.new.items ≡ out.old.items ++ text_of_rows (map (row_of plan.now k) cells.now)) }
{
    for cell in cells {
        append_row(&row_of(plan, k, cell), out)?;
    }
    Ok(())
}

// Appends the rows of the groups of the records in window `k`.
fn append_groups(
    alloc: Global,
    plan: &Plan,
    k: u64,
    records: &[Given],
    out: &mut Vec<u8>,
) -> Result<(), NoMemory>
    requires fits { fits plan.now.win ≡ true }
    requires start { start_of plan.now.win k < 2 ^ 62 }
    ensures { OnOk result (out.new.items ≡ out.old.items ++ text_of_rows (map (row_of plan.now k)
        (cells_of plan.now.kind plan.now.group records.now))) }
{
    let cells = fold(alloc, plan, records)?;
    append_cells(plan, k, &cells, out)
}

// Appends the rows of pairs in window `k`.
fn append_couples(
    plan: &Plan,
    k: u64,
    couples: &[Couple],
    out: &mut Vec<u8>,
) -> Result<(), NoMemory>
    requires fits { fits plan.now.win ≡ true }
    requires start { start_of plan.now.win k < 2 ^ 62 }
    ensures { OnOk result (out.new.items ≡ out.old.items ++ text_of_rows (map (pair_row plan.now k) couples.now)) }
{
    for couple in couples {
        append_row(&pair_row(plan, k, couple), out)?;
    }
    Ok(())
}

// Appends the rows of the pairs of a left and a right record with equal keys in window `k`.
fn append_pairs(
    alloc: Global,
    plan: &Plan,
    k: u64,
    lefts: &[Given],
    rights: &[Given],
    out: &mut Vec<u8>,
) -> Result<(), NoMemory>
    requires fits { fits plan.now.win ≡ true }
    requires start { start_of plan.now.win k < 2 ^ 62 }
    ensures { OnOk result (out.new.items ≡ out.old.items ++ text_of_rows (map (pair_row plan.now k) (pairs lefts.now rights.now))) }
{
    let couples = pairs_of(alloc, lefts, rights)?;
    append_couples(plan, k, &couples, out)
}

// Appends the rows of window `k`, of records of the left and of the right stream that stand by time.
fn append_window(
    alloc: Global,
    plan: &Plan,
    k: u64,
    lefts: &[Given],
    rights: &[Given],
    out: &mut Vec<u8>,
) -> Result<(), NoMemory>
    requires fits { fits plan.now.win ≡ true }
    requires start { start_of plan.now.win k < 2 ^ 62 }
    requires lefts { AreByTime lefts.now }
    requires rights { AreByTime rights.now }
    ensures { OnOk result (out.new.items ≡ out.old.items ++ text_of_rows (rows_with plan.now lefts.now rights.now k)) }
{
    let lefts = window_records(&plan.win, k, lefts);
    match plan.kind {
        Kind::Select => append_selected(lefts, out),
        Kind::Sum(_) | Kind::Count => append_groups(alloc, plan, k, lefts, out),
        Kind::Join => {
            let rights = window_records(&plan.win, k, rights);
            append_pairs(alloc, plan, k, lefts, rights, out)
        }
    }
}

/// Appends the rows of these windows, window by window, of records of the left and of the right stream that stand by time.
/// The one refusal is `NoMemory`, after which some rows are appended.
pub fn append_windows(
    alloc: Global,
    plan: &Plan,
    windows: Range<u64>,
    lefts: &[Given],
    rights: &[Given],
    out: &mut Vec<u8>,
) -> Result<(), NoMemory>
    requires fits { fits plan.now.win ≡ true }
    requires start { start_of plan.now.win windows.start < 2 ^ 62 }
    requires lefts { AreWaiting lefts.now }
    requires rights { AreByTime rights.now }
    ensures { OnOk result (out.new.items ≡ out.old.items
        ++ text_of_rows (rows_between plan.now windows.start windows.end lefts.now rights.now)) }
{
    let mut k = windows.start;
    while let Some(next) = next_window(&plan.win, k, lefts) {
        if windows.end <= next {
            break;
        }
        append_window(alloc, plan, next, lefts, rights, out)?;
        k = next + 1;
    }
    Ok(())
}
