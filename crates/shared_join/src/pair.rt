ghost use Rattle.std.specs.Prelude.{◌≡◌, ◌++◌, OnOk};
ghost use Rattle.slice_store.specs.Placed.{placed};
ghost use Rattle.shared_join.specs.Found.{kept_pair, turned_pair, have_same_key};

use as_base::{Given, NoMemory, Record};
use queryset_lanes::QuerySet;

/// Two records of equal keys, one of each of two streams, and the query slots that have both.
#[derive(Clone, Copy)]
pub struct Pair {
    pub left: Given,
    pub right: Given,
    pub set: QuerySet,
}

// The two records have equal keys.
fn have_same_key(one: &Record, other: &Record) -> bool
    ensures { result ≡ have_same_key one.now other.now }
{
    one.given.key == other.given.key
}

// The pair of the two records, the first on the left, or on the right where it is turned.
fn pair_of(one: &Record, other: &Record, set: QuerySet, turned: bool) -> Pair
    ensures { result ≡ turned_pair turned one.now other.now set }
{
    let (one, other) = (one.given, other.given);
    if turned {
        Pair {
            left: other,
            right: one,
            set,
        }
    } else {
        Pair {
            left: one,
            right: other,
            set,
        }
    }
}

/// Adds the pair of the two records, if their keys are equal and some slot has both. The one refusal is `NoMemory`.
pub(crate) fn push_pair(
    one: &Record,
    set: &QuerySet,
    other: &Record,
    other_set: &QuerySet,
    turned: bool,
    found: &mut Vec<Pair>,
) -> Result<(), NoMemory>
    ensures { OnOk result (found.new.items ≡
        found.old.items ++ kept_pair turned (placed one.now set.now) (placed other.now other_set.now)) }
{
    if !have_same_key(one, other) {
        return Ok(());
    }
    let common = set.and(other_set);
    if common.is_empty() {
        return Ok(());
    }
    found.push(pair_of(one, other, common, turned))?;
    Ok(())
}
