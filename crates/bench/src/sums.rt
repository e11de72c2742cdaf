ghost use Rattle.std.specs.Prelude.{◌≡◌};
ghost use Rattle.as_base.specs.declared.stream.StreamId.TheVariants.{A};
ghost use Rattle.shared_agg.specs.Aggs.{records_of};

use crate::made::{Numbers, WINDOW, mixed_cells, record_at};
use crate::queries::queries;
use crate::work::Work;
use as_base::{Cell, Col, Given, Kind, NoMemory, Record, StreamId};
use indexmap::IndexMap;
use queryset_lanes::QuerySet;
use shared_agg::Aggs;
use std::alloc::Global;

/// How many records `Aggs` is given at most.
const MOST: u64 = 1 << 40;

/// The first slots, so many.
pub(crate) fn first_slots(slots: u16) -> QuerySet {
    let mut set = QuerySet::none();
    for slot in 0..slots.min(512) {
        set = set.with(slot, true);
    }
    set
}

// When the window of a time begins.
fn start_of(time: u64) -> u64 {
    time - time % WINDOW
}

// Lets the slice before go where a new one begins.
fn let_last_go(aggs: &mut Aggs, time: u64, set: &QuerySet)
    ensures { records_of aggs.new A ≡ records_of aggs.old A }
{
    if start_of(time) == time {
        aggs.drop_slice(StreamId::A, time.saturating_sub(WINDOW), set);
    }
}

/// Sums of v1 by key in each of so many slots, over windows that follow one another, by `Aggs`; then the last window of
/// slot 0.
pub(crate) fn by_aggs(work: &Work, alloc: Global) -> Result<u64, NoMemory> {
    let epochs = queries(Kind::Sum(Col::V1), work.slots, alloc)?;
    let epoch = epochs.last();
    let set = first_slots(work.slots);
    let mut aggs = Aggs::new(alloc);
    let mut numbers = Numbers::from(work.records);
    for time in 0..work.records.min(MOST) {
        let given = record_at(time, &mut numbers);
        let_last_go(&mut aggs, time, &set);
        let record = Record {
            seq: time + 1,
            given,
        };
        aggs.add(StreamId::A, start_of(time), epoch, &record, &set, &epochs)?;
    }
    let last = start_of(work.records.min(MOST).saturating_sub(1));
    let cells = aggs.window(StreamId::A, 0, last, last.saturating_add(WINDOW))?;
    Ok(mixed_cells(aggs.cells(), cells.as_slice()))
}

// Adds a record's v1 to the cell of its key.
fn add(sums: &mut IndexMap<i64, Cell>, key: i64, v1: i64) -> Result<(), NoMemory> {
    match sums.get_mut(&key) {
        Some(cell) => {
            cell.sum = cell.sum.wrapping_add(i128::from(v1));
            cell.count = cell.count.wrapping_add(1);
        }
        None => {
            let cell = Cell {
                group: key,
                sum: i128::from(v1),
                count: 1,
            };
            sums.insert(key, cell)?;
        }
    }
    Ok(())
}

// The cells of one query, by rising key.
fn sorted(sums: &IndexMap<i64, Cell>, alloc: Global) -> Result<Vec<Cell>, NoMemory> {
    let mut cells = Vec::new(alloc);
    for cell in sums.values() {
        cells.push(*cell)?;
    }
    cells.sort_unstable_by_key(|cell| cell.group);
    Ok(cells)
}

// Each query adds the record.
fn add_to_all(all: &mut [IndexMap<i64, Cell>], key: i64, v1: i64) -> Result<(), NoMemory> {
    for sums in all.iter_mut() {
        add(sums, key, v1)?;
    }
    Ok(())
}

// Each query lets its cells go.
fn clear_all(all: &mut [IndexMap<i64, Cell>]) {
    for sums in all.iter_mut() {
        sums.clear();
    }
}

// The checksum of all queries' cells: how many they are, and those of the first query.
fn mixed_all(all: &[IndexMap<i64, Cell>], alloc: Global) -> Result<u64, NoMemory> {
    let mut count = 0u64;
    for sums in all {
        count = count.wrapping_add(sums.len() as u64);
    }
    match all.first() {
        Some(sums) => Ok(mixed_cells(count, &sorted(sums, alloc)?)),
        None => Ok(count),
    }
}

// So many queries without a cell.
fn no_sums(slots: u16, alloc: Global) -> Result<Vec<IndexMap<i64, Cell>>, NoMemory> {
    let mut all = Vec::new(alloc);
    for _ in 0..slots {
        all.push(IndexMap::new(alloc))?;
    }
    Ok(all)
}

/// The same, by a map of each query's own.
pub(crate) fn by_maps(work: &Work, alloc: Global) -> Result<u64, NoMemory> {
    let mut all = no_sums(work.slots, alloc)?;
    let mut numbers = Numbers::from(work.records);
    for time in 0..work.records {
        let given = record_at(time, &mut numbers);
        if start_of(time) == time {
            clear_all(&mut all);
        }
        add_to_all(&mut all, given.key, given.v[0])?;
    }
    mixed_all(&all, alloc)
}

/// How many ticks a slice has.
const SLICE: u64 = WINDOW / 4;

// The sums of the records of one window, in four slices.
fn one_window(slots: u16, alloc: Global) -> Result<Aggs, NoMemory> {
    let epochs = queries(Kind::Sum(Col::V1), slots, alloc)?;
    let epoch = epochs.last();
    let set = first_slots(slots);
    let mut aggs = Aggs::new(alloc);
    let mut numbers = Numbers::from(0);
    for time in 0..WINDOW {
        let given = record_at(time, &mut numbers);
        let record = Record {
            seq: time + 1,
            given,
        };
        aggs.add(
            StreamId::A,
            time - time % SLICE,
            epoch,
            &record,
            &set,
            &epochs,
        )?;
    }
    Ok(aggs)
}

/// So many times the cells of one query in a window of four slices, the queries in turn.
pub(crate) fn windows_by_aggs(work: &Work, alloc: Global) -> Result<u64, NoMemory> {
    let aggs = one_window(work.slots, alloc)?;
    let mut sum = 0;
    for number in 0..work.records {
        let slot = (number % u64::from(work.slots.clamp(1, 512))) as u16;
        let cells = aggs.window(StreamId::A, slot, 0, WINDOW)?;
        sum = mixed_cells(sum, cells.as_slice());
    }
    Ok(sum)
}

// The cells of one query over the records of one window.
fn folded(records: &[Given], alloc: Global) -> Result<Vec<Cell>, NoMemory> {
    let mut sums = IndexMap::new(alloc);
    for given in records {
        add(&mut sums, given.key, given.v[0])?;
    }
    sorted(&sums, alloc)
}

/// The same, by a fold over the window's records each time.
pub(crate) fn windows_by_folds(work: &Work, alloc: Global) -> Result<u64, NoMemory> {
    let mut records = Vec::new(alloc);
    let mut numbers = Numbers::from(0);
    for time in 0..WINDOW {
        records.push(record_at(time, &mut numbers))?;
    }
    let mut sum = 0;
    for _ in 0..work.records {
        sum = mixed_cells(sum, &folded(&records, alloc)?);
    }
    Ok(sum)
}
