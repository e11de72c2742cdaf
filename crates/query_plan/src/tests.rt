use super::*;
use as_base::{Plan, Text, Word, is_text};
use std::alloc::Global;
use std::process::Abort;
use std::test::Fail;

/// Queries over four streams, each with the canonical text of its plan: each kind, windows at their limits, conditions
/// that say one thing twice or contradict each other, and the ends of the numbers.
const PLANNED: &[u8] =
    b"select from a where v1 < 30000 and key = 4=>select from a where key = 4 and v1 <= 29999
sum v3 by v2 from c slide 20 10=>sum v3 by v2 from c slide 20 10
count by key from a slide 1 1=>count by key from a tumble 1
count by key from a slide 64 1=>count by key from a slide 64 1
count by all from b tumble 4294967296=>count by all from b tumble 4294967296
join c d tumble 7 left v4 <= 2 and key > 1 right v1 = 0 and v1 >= 0=>join c d tumble 7 left key >= 2 and v4 <= 2 right v1 = 0
select from c where v3 >= -5 and v3 < 8 and v3 > -9 and v3 <= 7=>select from c where v3 >= -5 and v3 <= 7
select from b where v4 = 3 and v4 = 5=>select from b where v4 >= 5 and v4 <= 3
select from a where key >= -9223372036854775808 and v1 <= 9223372036854775807=>select from a
select from a where v1 < -9223372036854775808=>select from a where v1 >= 9223372036854775807 and v1 <= -9223372036854775808
join a b slide 10 5 right v2 > 9223372036854775807=>join a b slide 10 5 right v2 >= 9223372036854775807 and v2 <= -9223372036854775808";

/// A query with a low and a high end of each of its ten intervals.
const BOUNDED: &[u8] =
    b"join d a slide 4294967296 67108864 left key >= -9223372036854775807 and key <= 9223372036854775806 \
    and v1 >= -1 and v1 <= 1 and v2 >= -9223372036854775807 and v2 <= 9223372036854775806 and v3 >= 0 \
    and v3 <= 9223372036854775806 and v4 >= -9223372036854775807 and v4 <= 0 right key >= -5 and key <= \
    9 and v1 >= -9223372036854775807 and v1 <= 9223372036854775806 and v2 >= 7 and v2 <= 8 and v3 >= \
    -9223372036854775807 and v3 <= 9223372036854775806 and v4 >= 1 and v4 <= 9223372036854775806";

// The plan of the query, where so many streams are configured, or the word that refuses it.
fn planned(
    rt: &impl Abort,
    alloc: Global,
    bytes: &[u8],
    streams: u8,
) -> Result<Result<Plan, Word>, Fail> {
    assert!(rt; is_text(bytes), "{bytes:?}");
    assert!(rt; 2 <= streams && streams <= 4);
    let text = Text::from_vec(bytes.to_vec(alloc)?);
    Ok(plan_of(alloc, &text, streams)?)
}

// The query has a plan with this text, and the text has this plan.
fn check_explained(
    rt: &impl Abort,
    alloc: Global,
    bytes: &[u8],
    explained: &[u8],
) -> Result<(), Fail> {
    let plan = planned(rt, alloc, bytes, 4)?;
    let Ok(plan) = plan else {
        panic!(rt; "no plan of {bytes:?}");
    };
    let mut out = Vec::new(alloc);
    explain(&plan, &mut out)?;
    assert_eq!(rt; out.as_slice(), explained);
    assert_eq!(rt; planned(rt, alloc, explained, 4)?, Ok(plan));
    Ok(())
}

// The row has a query and the canonical text of its plan.
fn check_row(rt: &impl Abort, alloc: Global, row: &[u8]) -> Result<(), Fail> {
    let Some(at) = row.windows(2).position(|two| two == b"=>".as_slice()) else {
        panic!(rt; "no arrow in {row:?}");
    };
    check_explained(rt, alloc, &row[..at], &row[at + 2..])
}

#[test]
fn queries_have_their_canonical_texts(rt: HostRuntime) -> Result<(), Fail> {
    for row in PLANNED.split(|byte| *byte == b'\n') {
        check_row(&rt, rt.alloc(), row)?;
    }
    check_explained(&rt, rt.alloc(), BOUNDED, BOUNDED)
}

/// Queries that are refused where so many streams are configured.
const REFUSED: [(&[u8], u8, Word); 9] = [
    (b"select from e", 4, Word::Syntax(3)),
    (b"select from c", 2, Word::Stranger),
    (b"join d d tumble 0", 2, Word::Stranger),
    (b"count by all from d tumble 0", 3, Word::Stranger),
    (b"join a a tumble 0", 4, Word::Twin),
    (b"count by all from a tumble 0", 4, Word::Window),
    (b"count by all from a tumble 4294967297", 4, Word::Window),
    (b"count by all from a slide 65 1", 4, Word::Window),
    (b"join a b slide 5 0", 2, Word::Window),
];

#[test]
fn refusals_come_in_their_order(rt: HostRuntime) -> Result<(), Fail> {
    for (bytes, streams, word) in REFUSED {
        assert_eq!(rt; planned(&rt, rt.alloc(), bytes, streams)?, Err(word));
    }
    Ok(())
}
