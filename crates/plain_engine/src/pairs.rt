ghost use Rattle.std.specs.Prelude.{◌≡◌, ◌++◌, int_le, IfOk, OnOk};
ghost use Rattle.std.specs.List.{filter};
ghost use Rattle.std.specs.List.Sorted.{IsSortedBy, IsStableBy};
ghost use Rattle.std.specs.Ordering.{int_eq, is_lt};
ghost use Rattle.as_base.specs.declared.item.Given.{Given};
ghost use Rattle.views.specs.Pairs.{compare, couples_with, couples, pairs};
ghost use Rattle.plain_engine.specs.ByKey.{AreByKey};

use as_base::{Couple, Given, NoMemory};
use std::alloc::Global;

// The numbers of a pair's row, from left to right: the key, the left record's time and values, the right record's.
type Numbers = (i64, u64, [i64; 4], u64, [i64; 4]);

// The numbers of the row of the pair.
fn numbers_of(couple: &Couple) -> Numbers
    ensures { result ≡ (couple.now.left.key, couple.now.left.time, couple.now.left.v, couple.now.right.time, couple.now.right.v) }
{
    let (left, right) = (&couple.left, &couple.right);
    (left.key, left.time, left.v, right.time, right.v)
}

// The records by key. Those of one key stay as they are, and so do the pairs that a left record makes with them.
fn by_key(alloc: Global, records: &[Given]) -> Result<Vec<Given>, NoMemory>
    ensures order { IfOk result (λ sorted. AreByKey sorted.items) }
    ensures same { IfOk result (λ sorted. (l : Given) → couples_with sorted.items l ≡ couples_with records.now l) }
{
    let mut sorted = Vec::from_slice(alloc, records)?;
    sorted.sort_by_key(|given| given.key)?;
    Ok(sorted)
}

// The records from the key on, of records that stand by key.
fn from_key(records: &[Given], key: i64) -> &[Given]
    requires { AreByKey records.now }
    ensures value { result.now ≡ filter (λ (g : Given). int_le key g.key) records.now }
    ensures order { AreByKey result.now }
{
    &records[records.partition_point(|given| given.key < key)..]
}

// The records up to the key, of records that stand by key.
fn until_key(records: &[Given], key: i64) -> &[Given]
    requires { AreByKey records.now }
    ensures { result.now ≡ filter (λ (g : Given). int_le g.key key) records.now }
{
    &records[..records.partition_point(|given| given.key <= key)]
}

// The records of the key, of records that stand by key.
fn with_key(records: &[Given], key: i64) -> &[Given]
    requires { AreByKey records.now }
    ensures { result.now ≡ filter (λ (g : Given). int_eq key g.key) records.now }
{
    until_key(from_key(records, key), key)
}

// Adds the pairs of the left record with the right ones of its key, of right ones that stand by key.
fn push_with(left: &Given, rights: &[Given], couples: &mut Vec<Couple>) -> Result<(), NoMemory>
    requires { AreByKey rights.now }
    ensures { OnOk result (couples.new.items ≡ couples.old.items ++ couples_with rights.now left.now) }
{
    for right in with_key(rights, left.key) {
        let (left, right) = (*left, *right);
        couples.push(Couple { left, right })?;
    }
    Ok(())
}

// Each left record with each right one of its key, of right ones that stand by key.
fn couples_of(alloc: Global, lefts: &[Given], rights: &[Given]) -> Result<Vec<Couple>, NoMemory>
    requires { AreByKey rights.now }
    ensures { IfOk result (λ found. found.items ≡ couples lefts.now rights.now) }
{
    let mut found = Vec::new(alloc);
    for left in lefts {
        push_with(left, rights, &mut found)?;
    }
    Ok(found)
}

// Sorts the pairs by the numbers of their rows. Equal ones stay as they are.
fn sort_by_numbers(couples: &mut Vec<Couple>) -> Result<(), NoMemory>
    ensures order { OnOk result (IsSortedBy (λ c d. is_lt (compare c d)) couples.new.items) }
    ensures stable { OnOk result (IsStableBy (λ c d. is_lt (compare c d)) couples.old.items couples.new.items) }
{
    couples.sort_by_key(|couple| numbers_of(couple))?;
    Ok(())
}

/// The pairs that a join makes of the records of a window, in the order of the numbers of their rows: each left record with
/// each right one of its key. The one refusal is `NoMemory`.
pub fn pairs_of(alloc: Global, lefts: &[Given], rights: &[Given]) -> Result<Vec<Couple>, NoMemory>
    ensures { IfOk result (λ couples. couples.items ≡ pairs lefts.now rights.now) }
{
    // By key the records of each key are found by halving, so that not each left record is compared with each right one.
    let mut couples = couples_of(alloc, lefts, &by_key(alloc, rights)?)?;
    sort_by_numbers(&mut couples)?;
    Ok(couples)
}
