use super::*;
use as_base::{Bounds, Change, Col, Given, Group, Kind, Msg, Plan, Record, StreamId, WinSpec};
use std::alloc::{AllocError, Global};
use std::test::Fail;

fn record(stream: StreamId, time: u64, key: i64, v: [i64; 4]) -> Msg {
    Msg::Rec(Record {
        seq: time,
        given: Given {
            stream,
            time,
            key,
            v,
        },
    })
}

// A query of stream A, or of it and another one, is opened.
fn opened(kind: Kind, group: Group, right: StreamId, size: u64, slide: u64) -> Msg {
    let all = Bounds {
        lo: [i64::MIN; 5],
        hi: [i64::MAX; 5],
    };
    Msg::Change(Change::Opened {
        n: 1,
        slot: 0,
        at: 0,
        plan: Plan {
            kind,
            group,
            left: StreamId::A,
            right,
            left_bounds: all,
            right_bounds: all,
            win: WinSpec { size, slide },
        },
    })
}

fn closed(at: u64) -> Msg {
    Msg::Change(Change::Closed { n: 1, slot: 0, at })
}

// The watermarks of streams A and B.
fn marks(a: u64, b: u64) -> Msg {
    Msg::Advance { wm: [a, b, 0, 0] }
}

// The bytes of all pieces that the messages bring, a '|' after those of each.
fn told(alloc: Global, messages: &[Msg]) -> Result<Vec<u8>, AllocError> {
    let mut store = Store::new(alloc);
    let mut all = Vec::new(alloc);
    for message in messages {
        if let Ok(pieces) = store.take(message) {
            for piece in pieces.as_slice() {
                all.extend_from_slice(piece.bytes.as_slice())?;
            }
        }
        all.push(b'|').map_err(|_| AllocError)?;
    }
    Ok(all)
}

fn sums(alloc: Global) -> Result<Vec<u8>, AllocError> {
    told(
        alloc,
        &[
            opened(Kind::Sum(Col::V1), Group::Key, StreamId::A, 10, 5),
            record(StreamId::A, 7, 1, [3, 0, 0, 0]),
            record(StreamId::A, 12, 1, [4, 0, 0, 0]),
            marks(15, 0),
            marks(20, 0),
        ],
    )
}

fn counts(alloc: Global) -> Result<Vec<u8>, AllocError> {
    told(
        alloc,
        &[
            opened(Kind::Count, Group::All, StreamId::A, 1000, 1000),
            record(StreamId::A, 50, 1, [0; 4]),
            closed(101),
            marks(100, 0),
            marks(101, 0),
        ],
    )
}

fn selected(alloc: Global) -> Result<Vec<u8>, AllocError> {
    told(
        alloc,
        &[
            opened(Kind::Select, Group::All, StreamId::A, 1, 1),
            record(StreamId::A, 5, 7, [1, 0, 0, -1]),
            record(StreamId::A, 5, 6, [1, 0, 0, -1]),
            record(StreamId::A, 6, 7, [1, 0, 0, -1]),
            marks(6, 0),
            marks(4_611_686_018_427_387_904, 0),
        ],
    )
}

fn wide_sums(alloc: Global) -> Result<Vec<u8>, AllocError> {
    told(
        alloc,
        &[
            opened(Kind::Sum(Col::V1), Group::Col(Col::V2), StreamId::A, 10, 10),
            record(StreamId::A, 1, 3, [i64::MAX, 5, 0, 0]),
            record(StreamId::A, 2, 4, [i64::MAX, 5, 0, 0]),
            record(StreamId::A, 2, 4, [1, -1, 0, 0]),
            record(StreamId::A, 4_611_686_018_427_387_903, 4, [1, -1, 0, 0]),
            marks(10, 0),
            marks(4_611_686_018_427_387_904, 0),
        ],
    )
}

// A join: two equal left records, two right ones of their key, of which the later has the lower number, and one of another
// key. The window is passed once both watermarks are.
fn joined(alloc: Global) -> Result<Vec<u8>, AllocError> {
    told(
        alloc,
        &[
            opened(Kind::Join, Group::All, StreamId::B, 10, 10),
            record(StreamId::A, 1, 7, [3, 0, 0, 0]),
            record(StreamId::A, 1, 7, [3, 0, 0, 0]),
            record(StreamId::B, 8, 7, [9, 0, 0, 0]),
            record(StreamId::B, 8, 6, [0; 4]),
            record(StreamId::B, 8, 7, [5, 0, 0, 0]),
            marks(20, 9),
            marks(20, 10),
        ],
    )
}

#[test]
fn windows_are_told_once_they_are_passed(rt: HostRuntime) -> Result<(), Fail> {
    let alloc = rt.alloc();
    assert!(rt; sums(alloc)?.as_slice() == b"|||0 10 1 3\n5 15 1 7\n|10 20 1 4\n|".as_slice());
    assert!(rt; counts(alloc)?.as_slice() == b"||||0 1000 1\n|".as_slice());
    assert!(rt;
        selected(alloc)?.as_slice()
            == b"||||5 7 1 0 0 -1\n5 6 1 0 0 -1\n|6 7 1 0 0 -1\n|".as_slice()
    );
    assert!(rt;
        wide_sums(alloc)?.as_slice()
            == b"|||||0 10 -1 1\n0 10 5 18446744073709551614\n|4611686018427387900 4611686018427387910 -1 1\n|".as_slice()
    );
    assert!(rt;
        joined(alloc)?.as_slice()
            == b"|||||||0 10 7 1 3 0 0 0 8 5 0 0 0\n0 10 7 1 3 0 0 0 8 5 0 0 0\n0 10 7 1 3 0 0 0 8 9 0 0 0\n0 10 7 1 3 0 0 0 8 9 0 0 0\n|".as_slice()
    );
    Ok(())
}
