ghost use Rattle.std.specs.Prelude.{◌≡◌};
ghost use Rattle.query_plan.specs.Limits.{low_by, high_by, low_of, high_of, bounds_of};

use as_base::Bounds;
use query_text::{Cond, Op};

// What `op value` raises the low end to at least. Where no number meets it, that is the greatest number.
fn low_by(op: Op, value: i64) -> i64
    ensures { result ≡ low_by op value }
{
    match op {
        Op::Lt if value == i64::MIN => i64::MAX,
        Op::Lt | Op::Le => i64::MIN,
        Op::Eq | Op::Ge => value,
        Op::Gt if value == i64::MAX => i64::MAX,
        Op::Gt => value + 1,
    }
}

// What `op value` lowers the high end to at most. Where no number meets it, that is the least number.
fn high_by(op: Op, value: i64) -> i64
    ensures { result ≡ high_by op value }
{
    match op {
        Op::Lt if value == i64::MIN => i64::MIN,
        Op::Lt => value - 1,
        Op::Le | Op::Eq => value,
        Op::Gt if value == i64::MAX => i64::MIN,
        Op::Ge | Op::Gt => i64::MAX,
    }
}

// The low end that the conditions leave of a field.
fn low_of(field: u8, conds: &[Cond]) -> i64
    ensures { result ≡ low_of field conds.now }
{
    let mut low = i64::MIN;
    for cond in conds {
        if cond.field == field {
            low = low.max(low_by(cond.op, cond.value));
        }
    }
    low
}

// The high end that the conditions leave of a field.
fn high_of(field: u8, conds: &[Cond]) -> i64
    ensures { result ≡ high_of field conds.now }
{
    let mut high = i64::MAX;
    for cond in conds {
        if cond.field == field {
            high = high.min(high_by(cond.op, cond.value));
        }
    }
    high
}

/// The intervals that the conditions leave.
pub fn bounds_of(conds: &[Cond]) -> Bounds
    ensures { result ≡ bounds_of conds.now }
{
    Bounds {
        lo: [
            low_of(0, conds),
            low_of(1, conds),
            low_of(2, conds),
            low_of(3, conds),
            low_of(4, conds),
        ],
        hi: [
            high_of(0, conds),
            high_of(1, conds),
            high_of(2, conds),
            high_of(3, conds),
            high_of(4, conds),
        ],
    }
}
