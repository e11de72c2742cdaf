ghost use Rattle.std.specs.Prelude.{◌<◌, ◌≤◌};

use crate::Joins;
use as_base::{Given, NoMemory, Record, StreamId};
use changelog_set::Touched;
use queryset_lanes::QuerySet;
use slice_store::Slices;
use std::alloc::Global;
use std::test::Fail;

// A record of a stream with this time and key.
fn record(stream: StreamId, time: u64, key: i64) -> Record {
    Record {
        seq: 1,
        given: Given {
            stream,
            time,
            key,
            v: [0; 4],
        },
    }
}

// The set of one slot.
fn only(slot: u8) -> QuerySet {
    QuerySet::none().with(u16::from(slot), true)
}

// So many changes, each of which touches slot 0.
fn changes(alloc: Global, count: u8) -> Result<Touched, NoMemory> {
    let mut touched = Touched::new(alloc);
    for _ in 0..count {
        if touched.last() < 512 {
            touched.append(&only(0))?;
        }
    }
    Ok(touched)
}

// The slice that begins at `start`, with records of these keys, each in the set of slot 0.
fn slice(
    alloc: Global,
    stream: StreamId,
    start: u64,
    epoch: u64,
    keys: &[i64],
) -> Result<Slices, NoMemory> {
    let mut slices = Slices::new(alloc, stream);
    for key in keys {
        slices.place(start, epoch, record(stream, start, *key), only(0))?;
    }
    Ok(slices)
}

// Joins the first slices of the two streams; false where there is none or no memory.
fn meet(joins: &mut Joins, a: &Slices, b: &Slices, touched: &Touched) -> bool {
    0 < a.len() && 0 < b.len() && joins.meet(a, 0, b, 0, touched).is_ok()
}

// How many pairs a window shows from the first tick and before `to`, and the stream on the left of the first.
fn shown(
    joins: &Joins,
    a: &Slices,
    b: &Slices,
    left: StreamId,
    slot: u8,
    to: u64,
) -> (usize, Option<StreamId>) {
    match joins.window(a, b, left, u16::from(slot), 0, to) {
        Ok(couples) => {
            let couples = couples.as_slice();
            (
                couples.len(),
                couples.first().map(|couple| couple.left.stream),
            )
        }
        Err(_) => (usize::MAX, None),
    }
}

#[test]
fn slices_of_one_epoch(rt: HostRuntime) -> Result<(), Fail> {
    let touched = changes(rt.alloc(), 3)?;
    let a = slice(rt.alloc(), StreamId::A, 0, 1, &[7])?;
    let b = slice(rt.alloc(), StreamId::B, 0, 1, &[7])?;
    let mut joins = Joins::new(rt.alloc());
    assert!(rt; meet(&mut joins, &a, &b, &touched));
    assert!(rt; joins.pairs() == 1 && joins.looked == 1);
    assert!(rt; meet(&mut joins, &a, &b, &touched));
    assert!(rt; joins.pairs() == 1 && joins.looked == 1);
    assert!(rt; shown(&joins, &a, &b, StreamId::A, 0, 1) == (1, Some(StreamId::A)));
    assert!(rt; shown(&joins, &a, &b, StreamId::B, 0, 1) == (1, Some(StreamId::B)));
    assert!(rt; shown(&joins, &a, &b, StreamId::A, 1, 1) == (0, None));
    assert!(rt; shown(&joins, &a, &b, StreamId::A, 0, 0) == (0, None));
    joins.forget(StreamId::A, 0);
    assert!(rt; joins.pairs() == 0 && meet(&mut joins, &a, &b, &touched));
    assert!(rt; joins.pairs() == 1 && joins.looked == 2);
    joins.forget(StreamId::B, 0);
    assert!(rt; joins.pairs() == 0);
    Ok(())
}

#[test]
fn slices_of_two_epochs(rt: HostRuntime) -> Result<(), Fail> {
    let touched = changes(rt.alloc(), 3)?;
    let a = slice(rt.alloc(), StreamId::A, 0, 1, &[7])?;
    let b = slice(rt.alloc(), StreamId::B, 11, 3, &[7])?;
    let mut joins = Joins::new(rt.alloc());
    assert!(rt; meet(&mut joins, &a, &b, &touched));
    assert!(rt; joins.pairs() == 0 && joins.looked == 0);
    Ok(())
}

// The keys from 0 on.
fn keys(alloc: Global, count: u8) -> Result<Vec<i64>, NoMemory> {
    let mut keys = Vec::new(alloc);
    for key in 0..count {
        keys.push(i64::from(key % 40))?;
    }
    Ok(keys)
}

#[test]
fn large_slices_by_an_index(rt: HostRuntime) -> Result<(), Fail> {
    let touched = changes(rt.alloc(), 1)?;
    let few = keys(rt.alloc(), 40)?;
    let many = keys(rt.alloc(), 100)?;
    let a = slice(rt.alloc(), StreamId::A, 0, 1, &few)?;
    let b = slice(rt.alloc(), StreamId::B, 0, 1, &many)?;
    let c = slice(rt.alloc(), StreamId::C, 0, 1, &few)?;
    let mut joins = Joins::new(rt.alloc());
    assert!(rt; meet(&mut joins, &a, &b, &touched) && joins.pairs() == 100);
    assert!(rt; meet(&mut joins, &b, &c, &touched) && joins.pairs() == 200);
    assert!(rt; joins.looked == 200);
    assert!(rt; shown(&joins, &a, &b, StreamId::B, 0, 1) == (100, Some(StreamId::B)));
    assert!(rt; shown(&joins, &b, &c, StreamId::B, 0, 1) == (100, Some(StreamId::B)));
    joins.forget(StreamId::B, 0);
    assert!(rt; joins.pairs() == 0);
    Ok(())
}
