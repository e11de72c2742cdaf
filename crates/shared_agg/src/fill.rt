ghost use Rattle.std.specs.Prelude.{◌≡◌, ℕ, ℤ, ◌<◌, ◌^◌, true, OnOk, OnErr};
ghost use Rattle.group_table.specs.Cells.{count_at};
ghost use Rattle.group_table.specs.Steps.{added_each, HaveSome};
ghost use Rattle.group_table.specs.Tables.{cells_at};
ghost use Rattle.queryset_lanes.specs.Slots.{both};
ghost use Rattle.shared_agg.specs.Duties.{class_at};
ghost use Rattle.shared_agg.specs.Fill.{has, due, class_cell, IsFed, IsPartlyFed};

use crate::duties::{CLASSES, Class, Duties, group_of, summand};
use as_base::{Given, NoMemory};
use group_table::Table;
use queryset_lanes::QuerySet;

// Adds a record for those slots of the set that are of the class.
fn add_class(table: &mut Table, class: &Class, g: &Given, set: &QuerySet) -> Result<(), NoMemory>
    requires { (slot : ℕ) (group : ℤ) → has (both set.now class.now.slots) slot ≡ true → count_at (cells_at table.old slot) group < 2 ^ 62 }
    ensures ok { OnOk result ((s : ℕ) →
        cells_at table.new s ≡ added_each (cells_at table.old) (both set.now class.now.slots) (class_cell class.now g.now) s) }
    ensures err { OnErr result
        (HaveSome (cells_at table.old) (cells_at table.new) (both set.now class.now.slots) (class_cell class.now g.now)) }
{
    let slots = set.and(&class.slots);
    if slots.is_empty() {
        return Ok(());
    }
    let group = group_of(class.group, g);
    let value = summand(class.column, g);
    table.add_each(&slots, group, value)
}

// The same for the class at a place, which may have no slots.
fn add_class_at(
    table: &mut Table,
    place: usize,
    g: &Given,
    set: &QuerySet,
    duties: &Duties,
) -> Result<(), NoMemory>
    requires within { place < 30 }
    requires few { (slot : ℕ) (group : ℤ) → has (both set.now (class_at duties.now place).slots) slot ≡ true →
        count_at (cells_at table.old slot) group < 2 ^ 62 }
    ensures ok { OnOk result ((s : ℕ) → cells_at table.new s ≡
        added_each (cells_at table.old) (both set.now (class_at duties.now place).slots) (class_cell (class_at duties.now place) g.now) s) }
    ensures err { OnErr result (HaveSome (cells_at table.old) (cells_at table.new)
        (both set.now (class_at duties.now place).slots) (class_cell (class_at duties.now place) g.now)) }
{
    match duties.class(place) {
        Some(class) => add_class(table, class, g, set),
        None => Ok(()),
    }
}

/// Adds a record to the cell of each slot of the set that has a duty: class by class, so that a group is looked up once for
/// all slots of a class. The one refusal is `NoMemory`: it is added for some slots then, and not for others.
pub fn fill(table: &mut Table, g: &Given, set: &QuerySet, duties: &Duties) -> Result<(), NoMemory>
    requires { (slot : ℕ) (group : ℤ) → count_at (cells_at table.old slot) group < 2 ^ 62 }
    ensures fed { OnOk result (IsFed table.old table.new (due g.now set.now duties.now)) }
    ensures partly { IsPartlyFed table.old table.new (due g.now set.now duties.now) }
{
    for place in 0..CLASSES {
        add_class_at(table, place, g, set, duties)?;
    }
    Ok(())
}
