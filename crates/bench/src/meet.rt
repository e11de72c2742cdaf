use crate::made::Numbers;
use crate::sums::first_slots;
use crate::work::Work;
use as_base::{Couple, Given, NoMemory, Record, StreamId};
use changelog_set::Touched;
use key_index::KeyIndex;
use queryset_lanes::QuerySet;
use shared_join::Joins;
use slice_store::Slices;
use std::alloc::Global;

/// How many records each of two slices has.
pub(crate) const FEW: u64 = 1000;

/// How many records each of two larger slices has.
pub(crate) const MANY: u64 = 100_000;

// One slice of so many records of the stream, with as many keys, all of them for these slots.
fn one_slice(
    stream: StreamId,
    seed: u64,
    records: u64,
    set: &QuerySet,
    alloc: Global,
) -> Result<Slices, NoMemory> {
    let mut slices = Slices::new(alloc, stream);
    let mut numbers = Numbers::from(seed);
    for time in 0..records {
        let key = (numbers.next() % records.max(1)).cast_signed();
        let given = Given {
            stream,
            time,
            key,
            v: [0; 4],
        };
        let record = Record { seq: 1, given };
        slices.place(0, 0, record, *set)?;
    }
    Ok(slices)
}

/// So many times two slices of so many records each meet, for joins in so many slots, and the first of them is forgotten.
pub(crate) fn by_joins(work: &Work, records: u64, alloc: Global) -> Result<u64, NoMemory> {
    let set = first_slots(work.slots);
    let a = one_slice(StreamId::A, 1, records, &set, alloc)?;
    let b = one_slice(StreamId::B, 2, records, &set, alloc)?;
    let touched = Touched::new(alloc);
    let mut joins = Joins::new(alloc);
    let mut pairs = 0u64;
    for _ in 0..work.records {
        if a.len() > 0 && b.len() > 0 {
            joins.meet(&a, 0, &b, 0, &touched)?;
        }
        pairs = pairs.wrapping_add(joins.pairs());
        joins.forget(StreamId::A, 0);
    }
    Ok(pairs.wrapping_mul(u64::from(work.slots)))
}

// The places of the records by key.
fn indexed(records: &[Record], alloc: Global) -> Result<KeyIndex, NoMemory> {
    let mut index = KeyIndex::new(alloc);
    for (place, record) in records.iter().enumerate() {
        index.add(record.given.key, place as u64)?;
    }
    Ok(index)
}

// Puts the couples of a left record behind the others.
fn append(
    left: &Record,
    rights: &[Record],
    places: &[u64],
    couples: &mut Vec<Couple>,
) -> Result<(), NoMemory> {
    for place in places {
        if let Some(right) = rights.get(*place as usize) {
            couples.push(Couple {
                left: left.given,
                right: right.given,
            })?;
        }
    }
    Ok(())
}

// A hash join of one query.
fn hash_join(lefts: &[Record], rights: &[Record], alloc: Global) -> Result<u64, NoMemory> {
    let index = indexed(rights, alloc)?;
    let mut couples = Vec::new(alloc);
    for left in lefts {
        append(left, rights, index.places(left.given.key), &mut couples)?;
    }
    Ok(couples.len() as u64)
}

// A hash join for each of so many queries.
fn hash_joins(a: &Slices, b: &Slices, slots: u16, alloc: Global) -> Result<u64, NoMemory> {
    let mut count = 0u64;
    for _ in 0..slots {
        if a.len() > 0 && b.len() > 0 {
            count = count.wrapping_add(hash_join(a.recs(0), b.recs(0), alloc)?);
        }
    }
    Ok(count)
}

/// The same, by a hash join of each query's own.
pub(crate) fn by_hash_joins(work: &Work, records: u64, alloc: Global) -> Result<u64, NoMemory> {
    let set = first_slots(work.slots);
    let a = one_slice(StreamId::A, 1, records, &set, alloc)?;
    let b = one_slice(StreamId::B, 2, records, &set, alloc)?;
    let mut count = 0u64;
    for _ in 0..work.records {
        count = count.wrapping_add(hash_joins(&a, &b, work.slots, alloc)?);
    }
    Ok(count)
}
