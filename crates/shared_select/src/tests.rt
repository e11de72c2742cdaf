use crate::Selector;
use as_base::{Bounds, Change, Given, Group, Kind, NoMemory, Plan, StreamId, WinSpec};
use changelog::Epochs;
use queryset_lanes::QuerySet;
use std::alloc::Global;
use std::test::Fail;

// Bounds in which the key is from `low` to `high`, and every other field may have each number.
fn keys(low: i64, high: i64) -> Bounds {
    Bounds {
        lo: [low, i64::MIN, i64::MIN, i64::MIN, i64::MIN],
        hi: [high, i64::MAX, i64::MAX, i64::MAX, i64::MAX],
    }
}

// A plan with windows of 100 ticks over two streams, on the left one with these bounds.
fn plan(kind: Kind, left: StreamId, right: StreamId, bounds: Bounds) -> Plan {
    Plan {
        kind,
        group: Group::All,
        left,
        right,
        left_bounds: bounds,
        right_bounds: keys(i64::MIN, i64::MAX),
        win: WinSpec {
            size: 100,
            slide: 100,
        },
    }
}

// Slot 0 has a join of a and b, which wants keys 5 to 9 of a, then nobody, and then a selection of all of b.
fn row(alloc: Global) -> Result<Epochs, NoMemory> {
    let join = plan(Kind::Join, StreamId::A, StreamId::B, keys(5, 9));
    let selection = plan(
        Kind::Select,
        StreamId::B,
        StreamId::B,
        keys(i64::MIN, i64::MAX),
    );
    let mut epochs = Epochs::new(alloc);
    epochs.append(&Change::Opened {
        n: 1,
        slot: 0,
        at: 0,
        plan: join,
    })?;
    epochs.append(&Change::Closed {
        n: 1,
        slot: 0,
        at: 11,
    })?;
    epochs.append(&Change::Opened {
        n: 2,
        slot: 0,
        at: 20,
        plan: selection,
    })?;
    Ok(epochs)
}

// Which of four records of the selector's stream, with keys 4, 5, 9 and 10, slot 0 wants, and no other slot; none where
// another slot wants one.
fn wanted(selector: &Selector) -> Option<[bool; 4]> {
    Some([
        wants(selector, 4)?,
        wants(selector, 5)?,
        wants(selector, 9)?,
        wants(selector, 10)?,
    ])
}

// Whether slot 0 wants a record of this key.
fn wants(selector: &Selector, key: i64) -> Option<bool> {
    let given = Given {
        stream: selector.stream(),
        time: 0,
        key,
        v: [0; 4],
    };
    let set = selector.tag(&given);
    if set == QuerySet::none().with(0, true) {
        return Some(true);
    }
    if set.is_empty() { Some(false) } else { None }
}

// What a selector of the stream wants at a time that it is advanced to after another.
fn wanted_at(epochs: &Epochs, alloc: Global, s: StreamId, times: [u64; 2]) -> Option<[bool; 4]> {
    let [before, time] = times;
    let mut selector = Selector::new(alloc, s).ok()?;
    selector.advance_to(before, epochs);
    selector.advance_to(time, epochs);
    wanted(&selector)
}

#[test]
fn a_slot_keeps_nothing_of_its_last_owner(rt: HostRuntime) -> Result<(), Fail> {
    let Ok(epochs) = row(rt.alloc()) else {
        panic!(rt; "no memory");
    };
    let none = Some([false; 4]);
    let some = Some([false, true, true, false]);
    let all = Some([true; 4]);
    assert!(rt; wanted_at(&epochs, rt.alloc(), StreamId::A, [0, 10]) == some);
    assert!(rt; wanted_at(&epochs, rt.alloc(), StreamId::A, [10, 11]) == none);
    assert!(rt; wanted_at(&epochs, rt.alloc(), StreamId::A, [10, 20]) == none);
    assert!(rt; wanted_at(&epochs, rt.alloc(), StreamId::B, [0, 10]) == all);
    assert!(rt; wanted_at(&epochs, rt.alloc(), StreamId::B, [10, 11]) == none);
    assert!(rt; wanted_at(&epochs, rt.alloc(), StreamId::B, [11, 20]) == all);
    assert!(rt; wanted_at(&epochs, rt.alloc(), StreamId::C, [0, 20]) == none);
    Ok(())
}
