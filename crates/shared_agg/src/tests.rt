use crate::Aggs;
use as_base::{
    Bounds, Cell, Change, Col, Given, Group, Kind, NoMemory, Plan, Record, StreamId, WinSpec,
};
use changelog::Epochs;
use queryset_lanes::QuerySet;
use std::alloc::Global;
use std::test::Fail;

// A plan with windows of 100 ticks on stream a.
fn plan(kind: Kind, group: Group) -> Plan {
    let all = Bounds {
        lo: [i64::MIN; 5],
        hi: [i64::MAX; 5],
    };
    Plan {
        kind,
        group,
        left: StreamId::A,
        right: StreamId::A,
        left_bounds: all,
        right_bounds: all,
        win: WinSpec {
            size: 100,
            slide: 100,
        },
    }
}

// Slot 0 sums v1 by key, and slot 1 counts all; then slot 1 is closed.
fn row(alloc: Global) -> Result<Epochs, NoMemory> {
    let mut epochs = Epochs::new(alloc);
    epochs.append(&Change::Opened {
        n: 1,
        slot: 0,
        at: 0,
        plan: plan(Kind::Sum(Col::V1), Group::Key),
    })?;
    epochs.append(&Change::Opened {
        n: 2,
        slot: 1,
        at: 0,
        plan: plan(Kind::Count, Group::All),
    })?;
    epochs.append(&Change::Closed {
        n: 2,
        slot: 1,
        at: 20,
    })?;
    Ok(epochs)
}

// A record of stream a with this key and first value.
fn record(key: i64, v1: i64) -> Record {
    Record {
        seq: 1,
        given: Given {
            stream: StreamId::A,
            time: 5,
            key,
            v: [v1, 0, 0, 0],
        },
    }
}

// The cells of a slot of stream a between two times are those; false where there was no memory.
fn are(aggs: &Aggs, slot: u16, from: u64, to: u64, wanted: &[Cell]) -> bool {
    if slot >= 512 {
        return false;
    }
    match aggs.window(StreamId::A, slot, from, to) {
        Ok(cells) => cells.as_slice() == wanted,
        Err(_) => false,
    }
}

// So many slices of stream a have a cell, and the first begins there, in this epoch.
fn begins(aggs: &Aggs, slices: usize, start: u64, epoch: u64) -> bool {
    aggs.slices(StreamId::A) == slices
        && slices > 0
        && aggs.start(StreamId::A, 0) == start
        && aggs.epoch(StreamId::A, 0) == epoch
}

fn cell(group: i64, sum: i128, count: u64) -> Cell {
    Cell { group, sum, count }
}

#[test]
fn slices_add_up_and_are_dropped(rt: HostRuntime) -> Result<(), Fail> {
    let epochs = row(rt.alloc())?;
    let one = QuerySet::none().with(1, true);
    let both = one.with(0, true);
    let mut aggs = Aggs::new(rt.alloc());
    aggs.add(StreamId::A, 0, 2, &record(5, 7), &both, &epochs)?;
    aggs.add(StreamId::A, 11, 2, &record(9, -2), &both, &epochs)?;
    assert!(rt; are(&aggs, 1, 0, 100, &[cell(0, 0, 2)]));
    assert!(rt; are(&aggs, 0, 0, 100, &[cell(5, 7, 1), cell(9, -2, 1)]));
    assert!(rt; are(&aggs, 0, 0, 11, &[cell(5, 7, 1)]));
    assert!(rt; are(&aggs, 0, 12, 100, &[]));
    assert!(rt; aggs.cells() == 4 && begins(&aggs, 2, 0, 2));
    aggs.drop_slice(StreamId::B, 0, &both);
    aggs.drop_slice(StreamId::A, 0, &one);
    assert!(rt; are(&aggs, 1, 0, 100, &[cell(0, 0, 1)]));
    assert!(rt; aggs.cells() == 3 && begins(&aggs, 2, 0, 2));
    aggs.drop_slice(StreamId::A, 0, &both);
    assert!(rt; aggs.cells() == 2 && begins(&aggs, 1, 11, 2));
    Ok(())
}

#[test]
fn a_new_slice_has_its_own_records_alone(rt: HostRuntime) -> Result<(), Fail> {
    let epochs = row(rt.alloc())?;
    let both = QuerySet::none().with(0, true).with(1, true);
    let mut aggs = Aggs::new(rt.alloc());
    aggs.add(StreamId::A, 0, 2, &record(5, 7), &both, &epochs)?;
    aggs.drop_slice(StreamId::A, 0, &both);
    aggs.add(StreamId::A, 11, 2, &record(9, -2), &both, &epochs)?;
    assert!(rt; are(&aggs, 0, 0, 100, &[cell(9, -2, 1)]));
    Ok(())
}

#[test]
fn duties_are_those_of_the_epoch(rt: HostRuntime) -> Result<(), Fail> {
    let epochs = row(rt.alloc())?;
    let one = QuerySet::none().with(1, true);
    let mut aggs = Aggs::new(rt.alloc());
    aggs.add(StreamId::A, 20, 3, &record(5, 7), &one, &epochs)?;
    aggs.add(StreamId::A, 0, 2, &record(5, 7), &one, &epochs)?;
    assert!(rt; are(&aggs, 1, 0, 100, &[cell(0, 0, 1)]));
    assert!(rt; aggs.cells() == 1 && begins(&aggs, 1, 0, 2));
    Ok(())
}

#[test]
fn duties_come_anew_after_a_trim(rt: HostRuntime) -> Result<(), Fail> {
    let mut epochs = row(rt.alloc())?;
    let both = QuerySet::none().with(0, true).with(1, true);
    let mut aggs = Aggs::new(rt.alloc());
    epochs.trim(3);
    aggs.add(StreamId::A, 20, 3, &record(5, 7), &both, &epochs)?;
    assert!(rt; are(&aggs, 0, 0, 100, &[cell(5, 7, 1)]));
    assert!(rt; aggs.cells() == 1 && begins(&aggs, 1, 20, 3));
    Ok(())
}
