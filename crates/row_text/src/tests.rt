use super::*;
use as_base::{Bounds, Col, Given, Group, Kind, Plan, Row, StreamId, WinSpec};
use std::test::Fail;

fn given(stream: StreamId, time: u64, key: i64, v: [i64; 4]) -> Given {
    Given {
        stream,
        time,
        key,
        v,
    }
}

// A row of each kind: a selection's, a count's, a sum's beyond 64 bits, a pair's.
fn rows() -> [Row; 4] {
    let left = given(StreamId::A, 1, 7, [0, 0, 0, 0]);
    [
        Row::Sel(given(StreamId::A, 5, 1, [10, 0, 0, -5])),
        Row::Agg {
            start: 0,
            end: 100,
            group: None,
            value: 1,
        },
        Row::Agg {
            start: 0,
            end: 10,
            group: Some(5),
            value: 18_446_744_073_709_551_614,
        },
        Row::Pair {
            start: 0,
            end: 10,
            left,
            right: given(StreamId::B, 2, 7, [0, 0, 0, 0]),
        },
    ]
}

#[test]
fn rows_of_each_kind_are_appended(rt: HostRuntime) -> Result<(), Fail> {
    let mut out = Vec::new(rt.alloc());
    for row in &rows() {
        append_row(row, &mut out).expect(&rt, "memory");
    }
    let text = b"5 1 10 0 0 -5\n0 100 1\n0 10 5 18446744073709551614\n0 10 7 1 0 0 0 0 2 0 0 0 0\n";
    assert_eq!(rt; out.as_slice(), text.as_slice());
    Ok(())
}

// A plan on streams a and b whose windows do not overlap.
fn plan(kind: Kind, group: Group, size: u64) -> Plan {
    let all = Bounds {
        lo: [i64::MIN; 5],
        hi: [i64::MAX; 5],
    };
    Plan {
        kind,
        group,
        left: StreamId::A,
        right: StreamId::B,
        left_bounds: all,
        right_bounds: all,
        win: WinSpec { size, slide: size },
    }
}

// The bytes are read as this row, or as none.
fn reads(plan: &Plan, bytes: &[u8], row: Option<Row>) -> bool {
    read_row(plan, bytes) == row
}

#[test]
fn rows_are_read(rt: HostRuntime) {
    let [selected, count, sum, pair] = rows();
    let selection = plan(Kind::Select, Group::All, 1);
    let counts = plan(Kind::Count, Group::All, 100);
    let sums = plan(Kind::Sum(Col::V1), Group::Col(Col::V2), 10);
    let pairs = plan(Kind::Join, Group::All, 10);
    assert!(rt; reads(&selection, b"5 1 10 0 0 -5\n", Some(selected)));
    assert!(rt; reads(&counts, b"0 100 1\n", Some(count)));
    assert!(rt; reads(&counts, b"0 100 1", None));
    assert!(rt; reads(&counts, b"0 100 01\n", None));
    assert!(rt; reads(&counts, b"0 100 0\n", None));
    assert!(rt; reads(&counts, b"0 100 1 1\n", None));
    assert!(rt; reads(&counts, b"50 150 1\n", None));
    assert!(rt; reads(&counts, b"0 99 1\n", None));
    assert!(rt; reads(&sums, b"0 10 5 18446744073709551614\n", Some(sum)));
    assert!(rt; reads(&sums, b"0 10 18446744073709551614\n", None));
    assert!(rt; reads(&sums, b"0 10 5 -0\n", None));
    assert!(rt; reads(&pairs, b"0 10 7 1 0 0 0 0 2 0 0 0 0\n", Some(pair)));
    assert!(rt; reads(&pairs, b"0 10 7 1 0 0 0 0 10 0 0 0 0\n", None));
    assert!(rt; reads(&pairs, b"10 20 7 9 0 0 0 0 12 0 0 0 0\n", None));
}
