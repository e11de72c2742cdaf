ghost use Rattle.std.specs.Prelude.{◌<◌};

use crate::Columns;
use as_base::{Bounds, Given, StreamId};
use queryset_lanes::QuerySet;
use std::test::Fail;

// Bounds in which v1 is from `low` to `high`, and every other field may have each number.
fn first_from_to(low: i64, high: i64) -> Bounds {
    Bounds {
        lo: [i64::MIN, low, i64::MIN, i64::MIN, i64::MIN],
        hi: [i64::MAX, high, i64::MAX, i64::MAX, i64::MAX],
    }
}

// A record of stream a with this v1.
fn with_first(v1: i64) -> Given {
    Given {
        stream: StreamId::A,
        time: 0,
        key: 0,
        v: [v1, 0, 0, 0],
    }
}

// Whether the slots that hold a record with this v1 are just these.
fn are_held(columns: &Columns, v1: i64, slots: &QuerySet) -> bool {
    columns.select(&with_first(v1), &QuerySet::all()) == *slots
}

// Whether this slot alone, of all, holds a record with this v1.
fn is_alone(columns: &Columns, slot: u16, v1: i64) -> bool
    requires { slot < 512 }
{
    are_held(columns, v1, &QuerySet::none().with(slot, true))
}

// Whether no slot holds a record with this v1.
fn is_none(columns: &Columns, v1: i64) -> bool {
    are_held(columns, v1, &QuerySet::none())
}

// Slots 3 and 70 overlap, slot 511 ends where 70 begins, and slot 64 holds nothing.
fn set_four(columns: &mut Columns) {
    columns.set(3, &first_from_to(5, 9));
    columns.set(70, &first_from_to(8, i64::MAX));
    columns.set(511, &first_from_to(i64::MIN, 8));
    columns.set(64, &first_from_to(9, 8));
}

// Whether the four slots hold what they are to hold.
fn hold_as_set(columns: &Columns) -> bool {
    let low = QuerySet::none().with(511, true);
    let high = QuerySet::none().with(70, true);
    let some = low.with(3, true);
    is_alone(columns, 511, i64::MIN)
        && is_alone(columns, 511, 4)
        && are_held(columns, 5, &some)
        && are_held(columns, 8, &some.or(&high))
        && are_held(columns, 9, &high.with(3, true))
        && is_alone(columns, 70, 10)
        && is_alone(columns, 70, i64::MAX)
}

// The same with one slot bounded anew, and two that have no bounds any more.
fn change_three(columns: &mut Columns) {
    columns.set(3, &first_from_to(20, 30));
    columns.clear(70);
    columns.clear(511);
}

// Whether the one slot that is left holds what it is to hold.
fn hold_as_changed(columns: &Columns) -> bool {
    is_none(columns, 8)
        && is_none(columns, 19)
        && is_alone(columns, 3, 20)
        && is_alone(columns, 3, 30)
        && is_none(columns, 31)
}

#[test]
fn a_slot_holds_what_is_within_its_bounds(rt: HostRuntime) -> Result<(), Fail> {
    for slot in [0, 3, 63, 64, 511] {
        assert!(rt; slot < 512);
        let Ok(mut columns) = Columns::new(rt.alloc()) else {
            panic!(rt; "no memory");
        };
        assert!(rt; is_none(&columns, 5));
        columns.set(slot, &first_from_to(5, 9));
        assert!(rt; is_alone(&columns, slot, 5));
        assert!(rt; is_alone(&columns, slot, 9));
        assert!(rt; is_none(&columns, 4));
        assert!(rt; is_none(&columns, 10));
        columns.clear(slot);
        assert!(rt; is_none(&columns, 5));
    }
    Ok(())
}

#[test]
fn room_changes_no_answer(rt: HostRuntime) -> Result<(), Fail> {
    // With one start no interval has its ends in the index of v1, with three the first alone has.
    for room in [1, 3, 1025] {
        let Ok(mut columns) = Columns::with_room(rt.alloc(), room) else {
            panic!(rt; "no memory");
        };
        for round in 0..2 {
            set_four(&mut columns);
            assert!(rt; hold_as_set(&columns));
            change_three(&mut columns);
            assert!(rt; hold_as_changed(&columns));
            columns.clear(3);
            columns.clear(64);
            assert!(rt; is_none(&columns, 20));
        }
    }
    Ok(())
}
