use crate::made::{Numbers, bounds_of, mixed, record_at};
use crate::work::Work;
use as_base::{Bounds, Given, NoMemory};
use box_lanes::Columns;
use queryset_lanes::QuerySet;
use std::alloc::Global;

// Columns in which each of so many slots has its bounds.
fn columns_of(slots: u16, alloc: Global) -> Result<Columns, NoMemory> {
    let mut columns = Columns::new(alloc)?;
    for slot in 0..slots.min(512) {
        columns.set(slot, &bounds_of(slot, slots));
    }
    Ok(columns)
}

/// Which slots hold each record, by `Columns`.
pub(crate) fn by_columns(work: &Work, alloc: Global) -> Result<u64, NoMemory> {
    let columns = columns_of(work.slots, alloc)?;
    let mut numbers = Numbers::from(work.records);
    let mut sum = 0;
    for time in 0..work.records {
        let set = columns.select(&record_at(time, &mut numbers), &QuerySet::all());
        sum = mixed(sum, &set.words());
    }
    Ok(sum)
}

// The slots whose bounds hold the record, as words.
fn holding(all: &[Bounds], given: &Given) -> [u64; 8] {
    let mut words = [0; 8];
    for (slot, bounds) in all.iter().enumerate() {
        if slot < 512 && bounds.holds(given) {
            words[slot / 64] |= 1u64 << (slot % 64);
        }
    }
    words
}

/// The same, by a test of each slot's bounds.
pub(crate) fn by_tests(work: &Work, alloc: Global) -> Result<u64, NoMemory> {
    let mut all = Vec::new(alloc);
    for slot in 0..work.slots {
        all.push(bounds_of(slot, work.slots))?;
    }
    let mut numbers = Numbers::from(work.records);
    let mut sum = 0;
    for time in 0..work.records {
        sum = mixed(sum, &holding(&all, &record_at(time, &mut numbers)));
    }
    Ok(sum)
}

/// A slot gets bounds in place of those that it has, one slot after another; then which slots hold a record.
pub(crate) fn by_sets(work: &Work, alloc: Global) -> Result<u64, NoMemory> {
    let mut columns = columns_of(work.slots, alloc)?;
    let slots = u64::from(work.slots.clamp(1, 512));
    for number in 0..work.records {
        let slot = (number % slots) as u16;
        columns.set(slot, &bounds_of(slot + 7, work.slots));
    }
    let mut numbers = Numbers::from(work.records);
    let set = columns.select(&record_at(0, &mut numbers), &QuerySet::all());
    Ok(mixed(0, &set.words()))
}
