ghost use Rattle.std.specs.Prelude.{◌≡◌, ℤ, ◌++◌, ◌<◌, false, length, IfOk, OnOk};
ghost use Rattle.std.specs.List.{flat_map};
ghost use Rattle.key_index.specs.Places.{places_of};
ghost use Rattle.slice_store.specs.Placed.{Placed, placed};
ghost use Rattle.shared_join.specs.Wanted.{wanted, AreAlike};
ghost use Rattle.shared_join.specs.Found.{kept_pair, kept_at, found, places_with};

use crate::pair::{Pair, push_pair};
use crate::side::Side;
use as_base::{NoMemory, Record};
use key_index::KeyIndex;
use queryset_lanes::QuerySet;
use std::alloc::Global;

// The fewest records of the smaller slice for which an index of it is made.
const INDEXED_MIN: usize = 32;

// Adds the pair of a record with the other at a place, if there is one to keep.
fn push_at(
    one: &Record,
    set: &QuerySet,
    others: &Side,
    place: usize,
    turned: bool,
    pairs: &mut Vec<Pair>,
) -> Result<(), NoMemory>
    requires { place < length others.now }
    ensures { OnOk result (pairs.new.items ≡
        pairs.old.items ++ kept_at turned (placed one.now set.now) others.now place) }
{
    let (other, other_set) = others.at(place);
    push_pair(one, set, other, other_set, turned, pairs)
}

// Adds the pairs of a record with each of the others, by looking at all of them.
fn join_each(
    one: &Record,
    set: &QuerySet,
    others: &Side,
    turned: bool,
    looked: &mut u64,
    pairs: &mut Vec<Pair>,
) -> Result<(), NoMemory>
    ensures { OnOk result (pairs.new.items ≡
        pairs.old.items ++ flat_map (kept_pair turned (placed one.now set.now)) others.now) }
{
    if set.is_empty() {
        return Ok(());
    }
    *looked = looked.saturating_add(others.len() as u64);
    for place in 0..others.len() {
        push_at(one, set, others, place, turned, pairs)?;
    }
    Ok(())
}

// The places of the records, by key.
fn index_of(alloc: Global, side: &Side) -> Result<KeyIndex, NoMemory>
    ensures { IfOk result (λ index. (k : ℤ) → places_of index k ≡ places_with k side.now) }
{
    let mut index = KeyIndex::new(alloc);
    for place in 0..side.len() {
        let (r, _) = side.at(place);
        index.add(r.given.key, place as u64)?;
    }
    Ok(index)
}

// Adds the pairs of a record with those of the others that have its key, by an index of these.
fn join_by_index(
    one: &Record,
    set: &QuerySet,
    others: &Side,
    index: &KeyIndex,
    turned: bool,
    looked: &mut u64,
    pairs: &mut Vec<Pair>,
) -> Result<(), NoMemory>
    requires { (k : ℤ) → places_of index.now k ≡ places_with k others.now }
    ensures { OnOk result (pairs.new.items ≡
        pairs.old.items ++ flat_map (kept_pair turned (placed one.now set.now)) others.now) }
{
    if set.is_empty() {
        return Ok(());
    }
    let places = index.places(one.given.key);
    *looked = looked.saturating_add(places.len() as u64);
    for place in places {
        push_at(one, set, others, *place as usize, turned, pairs)?;
    }
    Ok(())
}

// Adds the pairs of each left record with each right one, by looking at all of them.
fn join_all(
    lefts: &Side,
    rights: &Side,
    mask: &QuerySet,
    looked: &mut u64,
    pairs: &mut Vec<Pair>,
) -> Result<(), NoMemory>
    ensures { OnOk result (pairs.new.items ≡ pairs.old.items ++ found false mask.now lefts.now rights.now) }
{
    for place in 0..lefts.len() {
        let (one, set) = lefts.at(place);
        join_each(one, &set.and(mask), rights, false, looked, pairs)?;
    }
    Ok(())
}

// Adds the pairs of each of the records with each of the others, by an index of these.
fn join_indexed(
    ones: &Side,
    others: &Side,
    index: &KeyIndex,
    turned: bool,
    mask: &QuerySet,
    looked: &mut u64,
    pairs: &mut Vec<Pair>,
) -> Result<(), NoMemory>
    requires { (k : ℤ) → places_of index.now k ≡ places_with k others.now }
    ensures { OnOk result (pairs.new.items ≡ pairs.old.items ++ found turned mask.now ones.now others.now) }
{
    for place in 0..ones.len() {
        let (one, set) = ones.at(place);
        join_by_index(one, &set.and(mask), others, index, turned, looked, pairs)?;
    }
    Ok(())
}

/// The pairs that two slices have, for the slots of the mask, in any order. Adds to `looked` how many pairs of records were
/// looked at; it stays at 2^64 - 1. The one refusal is `NoMemory`.
pub(crate) fn join(
    alloc: Global,
    lefts: &Side,
    rights: &Side,
    mask: &QuerySet,
    looked: &mut u64,
) -> Result<Vec<Pair>, NoMemory>
    ensures { IfOk result (λ pairs. AreAlike pairs.items (wanted lefts.now rights.now mask.now)) }
{
    let mut pairs = Vec::new(alloc);
    if lefts.len().min(rights.len()) < INDEXED_MIN {
        join_all(lefts, rights, mask, looked, &mut pairs)?;
        return Ok(pairs);
    }
    if lefts.len() < rights.len() {
        let index = index_of(alloc, lefts)?;
        join_indexed(rights, lefts, &index, true, mask, looked, &mut pairs)?;
        return Ok(pairs);
    }
    let index = index_of(alloc, rights)?;
    join_indexed(lefts, rights, &index, false, mask, looked, &mut pairs)?;
    Ok(pairs)
}
