//! The text of the rows of a window.

ghost use Rattle.std.specs.Prelude.{◌≡◌, ◌++◌, ◌<◌, ◌+◌, ◌^◌, map, OnOk};
ghost use Rattle.std.specs.List.{flat_map};
ghost use Rattle.views.specs.Groups.{group_told};
ghost use Rattle.row_text.specs.RowText.{row_text};
ghost use Rattle.result_router.specs.Lent.{lent};
ghost use Rattle.result_router.specs.Merge.{window_text};
ghost use Rattle.result_router.specs.Rows.{told, cell_row, couple_row, record_row, rows_as};
ghost use Rattle.result_router.specs.Sound.{AreSoundOfWindow};

use crate::bodies::{merged_cells, merged_couples, merged_records};
use as_base::{Cell, Couple, Fragment, Group, Kind, NoMemory, Plan, Record, Row};
use row_text::append_row;
use std::alloc::Global;

// The group as a row has it; none where all records are one.
fn group_told(by: Group, group: i64) -> Option<i64>
    ensures { result ≡ group_told by group }
{
    match by {
        Group::Key | Group::Col(_) => Some(group),
        Group::All => None,
    }
}

// What a row has of a cell: of a count how many records they are, and else their sum.
fn told(kind: Kind, cell: &Cell) -> i128
    ensures { result ≡ told kind cell.now }
{
    match kind {
        Kind::Count => i128::from(cell.count),
        Kind::Select | Kind::Sum(_) | Kind::Join => cell.sum,
    }
}

// The row of a cell in the window that begins at `start`.
fn cell_row(plan: &Plan, start: u64, cell: &Cell) -> Row
    requires { start + plan.now.win.size < 2 ^ 64 }
    ensures { result ≡ cell_row plan.now start cell.now }
{
    Row::Agg {
        start,
        end: start + plan.win.size,
        group: group_told(plan.group, cell.group),
        value: told(plan.kind, cell),
    }
}

// The row of a couple in the window that begins at `start`.
fn couple_row(plan: &Plan, start: u64, couple: &Couple) -> Row
    requires { start + plan.now.win.size < 2 ^ 64 }
    ensures { result ≡ couple_row plan.now start couple.now }
{
    Row::Pair {
        start,
        end: start + plan.win.size,
        left: couple.left,
        right: couple.right,
    }
}

// Appends the rows of records.
fn append_records(records: &[Record], out: &mut Vec<u8>) -> Result<(), NoMemory>
    ensures { OnOk result (out.new.items ≡ out.old.items ++ flat_map row_text (map record_row records.now)) }
{
    for record in records {
        append_row(&Row::Sel(record.given), out)?;
    }
    Ok(())
}

// Appends the rows of cells in the window that begins at `start`.
fn append_cells(plan: &Plan, start: u64, cells: &[Cell], out: &mut Vec<u8>) -> Result<(), NoMemory>
    requires { start + plan.now.win.size < 2 ^ 64 }
    ensures { OnOk result (out.new.items ≡ out.old.items ++ flat_map row_text (map (cell_row plan.now start) cells.now)) }
{
    for cell in cells {
        append_row(&cell_row(plan, start, cell), out)?;
    }
    Ok(())
}

// Appends the rows of couples in the window that begins at `start`.
fn append_couples(
    plan: &Plan,
    start: u64,
    couples: &[Couple],
    out: &mut Vec<u8>,
) -> Result<(), NoMemory>
    requires { start + plan.now.win.size < 2 ^ 64 }
    ensures { OnOk result (out.new.items ≡ out.old.items ++ flat_map row_text (map (couple_row plan.now start) couples.now)) }
{
    for couple in couples {
        append_row(&couple_row(plan, start, couple), out)?;
    }
    Ok(())
}

// Appends the rows that a query of this plan makes of what the parts have of the window that begins at `start`.
fn append_rows(
    alloc: Global,
    plan: &Plan,
    start: u64,
    fragments: &[&Fragment],
    out: &mut Vec<u8>,
) -> Result<(), NoMemory>
    requires end { start + plan.now.win.size < 2 ^ 64 }
    requires sound { AreSoundOfWindow (lent fragments.now) }
    ensures { OnOk result (out.new.items ≡ out.old.items ++ flat_map row_text (rows_as plan.now.kind plan.now start (lent fragments.now))) }
{
    match plan.kind {
        Kind::Select => append_records(&merged_records(alloc, fragments)?, out),
        Kind::Sum(_) | Kind::Count => {
            let cells = merged_cells(alloc, fragments)?;
            append_cells(plan, start, cells.as_slice(), out)
        }
        Kind::Join => append_couples(plan, start, &merged_couples(alloc, fragments)?, out),
    }
}

/// Appends the rows of the fragments of one window. The one refusal is `NoMemory`, after which some rows are appended.
pub fn append_window(
    alloc: Global,
    fragments: &[&Fragment],
    out: &mut Vec<u8>,
) -> Result<(), NoMemory>
    requires { AreSoundOfWindow (lent fragments.now) }
    ensures { OnOk result (out.new.items ≡ out.old.items ++ window_text (lent fragments.now)) }
{
    match fragments.first() {
        Some(first) => append_rows(alloc, &first.plan, first.start, fragments, out),
        None => Ok(()),
    }
}
