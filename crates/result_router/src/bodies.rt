//! What the fragments of a window have of records, of cells and of couples, put together.

ghost use Rattle.std.specs.Prelude.{◌≡◌, IfOk, OnOk};
ghost use Rattle.std.specs.List.{AllByRecursion};
ghost use Rattle.group_table.specs.Cells.{IsSound, sums};
ghost use Rattle.views.specs.Pairs.{by_numbers};
ghost use Rattle.result_router.specs.Lent.{lent};
ghost use Rattle.result_router.specs.Rows.{records_in, cells_in, couples_in, records_of, cells_of, couples_of, in_order};
ghost use Rattle.result_router.specs.Sound.{IsSoundFragment, AreSoundOfWindow};

use as_base::{Body, Cell, Cells, Couple, Fragment, NoMemory, Record};
use group_table::add_up;
use std::alloc::Global;

// The numbers of a couple's row, from left to right: the key, the left record's time and values, the right record's.
type Numbers = (i64, u64, [i64; 4], u64, [i64; 4]);

// The records of the body.
fn records_in(body: &Body) -> &[Record]
    ensures { result.now ≡ records_in body.now }
{
    match body {
        Body::Recs(records) => records.as_slice(),
        _ => &[],
    }
}

// The cells of the body.
fn cells_in(body: &Body) -> &[Cell]
    ensures { result.now ≡ cells_in body.now }
{
    match body {
        Body::Cells(cells) => cells.as_slice(),
        _ => &[],
    }
}

// The couples of the body.
fn couples_in(body: &Body) -> &[Couple]
    ensures { result.now ≡ couples_in body.now }
{
    match body {
        Body::Couples(couples) => couples.as_slice(),
        _ => &[],
    }
}

// The records of the fragments, one fragment after the other.
fn records_of(alloc: Global, fragments: &[&Fragment]) -> Result<Vec<Record>, NoMemory>
    ensures { IfOk result (λ found. found.items ≡ records_of (lent fragments.now)) }
{
    let mut found = Vec::new(alloc);
    for fragment in fragments {
        found.extend_from_slice(records_in(&fragment.body))?;
    }
    Ok(found)
}

// The cells of the fragments, one fragment after the other.
fn cells_of(alloc: Global, fragments: &[&Fragment]) -> Result<Vec<Cell>, NoMemory>
    ensures { IfOk result (λ found. found.items ≡ cells_of (lent fragments.now)) }
{
    let mut found = Vec::new(alloc);
    for fragment in fragments {
        found.extend_from_slice(cells_in(&fragment.body))?;
    }
    Ok(found)
}

// The cells of fragments that are sound, which are sound too.
fn sound_cells(alloc: Global, fragments: &[&Fragment]) -> Result<Vec<Cell>, NoMemory>
    requires { AllByRecursion IsSoundFragment (lent fragments.now) }
    ensures value { IfOk result (λ found. found.items ≡ cells_of (lent fragments.now)) }
    ensures sound { IfOk result (λ found. AllByRecursion IsSound found.items) }
{
    let found = cells_of(alloc, fragments)?;
    Ok(found)
}

// The couples of the fragments, one fragment after the other.
fn couples_of(alloc: Global, fragments: &[&Fragment]) -> Result<Vec<Couple>, NoMemory>
    ensures { IfOk result (λ found. found.items ≡ couples_of (lent fragments.now)) }
{
    let mut found = Vec::new(alloc);
    for fragment in fragments {
        found.extend_from_slice(couples_in(&fragment.body))?;
    }
    Ok(found)
}

// Sorts records by time, then by line. Those of one time and line stay as they are.
fn sort_records(records: &mut Vec<Record>) -> Result<(), NoMemory>
    ensures { OnOk result (records.new.items ≡ in_order records.old.items) }
{
    records.sort_by_key(|record| (record.given.time, record.seq))?;
    Ok(())
}

// The numbers of the row of the couple.
fn numbers_of(couple: &Couple) -> Numbers
    ensures { result ≡ (couple.now.left.key, couple.now.left.time, couple.now.left.v, couple.now.right.time, couple.now.right.v) }
{
    let (left, right) = (&couple.left, &couple.right);
    (left.key, left.time, left.v, right.time, right.v)
}

// Sorts couples by the numbers of their rows. Equal ones stay as they are.
fn sort_couples(couples: &mut Vec<Couple>) -> Result<(), NoMemory>
    ensures { OnOk result (couples.new.items ≡ by_numbers couples.old.items) }
{
    couples.sort_by_key(|couple| numbers_of(couple))?;
    Ok(())
}

/// The records of the fragments by time, then by line. The one refusal is `NoMemory`.
pub fn merged_records(alloc: Global, fragments: &[&Fragment]) -> Result<Vec<Record>, NoMemory>
    ensures { IfOk result (λ merged. merged.items ≡ in_order (records_of (lent fragments.now))) }
{
    let mut merged = records_of(alloc, fragments)?;
    sort_records(&mut merged)?;
    Ok(merged)
}

/// The cells of the fragments of a window, added up by rising group. The one refusal is `NoMemory`.
pub fn merged_cells(alloc: Global, fragments: &[&Fragment]) -> Result<Cells, NoMemory>
    requires { AreSoundOfWindow (lent fragments.now) }
    ensures { IfOk result (λ merged. merged ≡ sums (cells_of (lent fragments.now))) }
{
    Ok(add_up(sound_cells(alloc, fragments)?))
}

/// The couples of the fragments by the numbers of their rows. The one refusal is `NoMemory`.
pub fn merged_couples(alloc: Global, fragments: &[&Fragment]) -> Result<Vec<Couple>, NoMemory>
    ensures { IfOk result (λ merged. merged.items ≡ by_numbers (couples_of (lent fragments.now))) }
{
    let mut merged = couples_of(alloc, fragments)?;
    sort_couples(&mut merged)?;
    Ok(merged)
}
