ghost use Rattle.std.specs.Prelude.{◌<◌};

use crate::Slices;
use as_base::{Given, Record, StreamId};
use queryset_lanes::QuerySet;
use std::test::Fail;

// A record with this number and time.
fn record(seq: u64, time: u64) -> Record {
    Record {
        seq,
        given: Given {
            stream: StreamId::B,
            time,
            key: 0,
            v: [0; 4],
        },
    }
}

// The set of one slot.
fn only(slot: u16) -> QuerySet
    requires { slot < 512 }
{
    QuerySet::none().with(slot, true)
}

// Slice `i` begins there, has this epoch, and holds so many records, the first of this number, in that slot's set.
fn is(slices: &Slices, i: usize, start: u64, epoch: u64, count: usize, seq: u64, slot: u16) -> bool
    requires { slot < 512 }
{
    if slices.len() <= i || slices.start(i) != start || slices.epoch(i) != epoch {
        return false;
    }
    let (recs, sets) = (slices.recs(i), slices.sets(i));
    match (recs.first(), sets.first()) {
        (Some(r), Some(set)) => {
            recs.len() == count && sets.len() == count && r.seq == seq && set.test(slot)
        }
        _ => false,
    }
}

// Slice `i`, where there is one, is let go.
fn goes(slices: &mut Slices, i: usize, windows: &QuerySet, selects: &QuerySet, wm: u64) -> bool {
    i < slices.len() && slices.evict(i, windows, selects, wm)
}

#[test]
fn slices_are_placed_and_let_go(rt: HostRuntime) -> Result<(), Fail> {
    let none = QuerySet::none();
    let mut slices = Slices::new(rt.alloc(), StreamId::B);
    slices.place(0, 1, record(1, 3), only(0))?;
    slices.place(0, 9, record(2, 4), only(511))?;
    slices.place(11, 2, record(3, 15), only(1))?;
    assert!(rt; slices.stream() == StreamId::B && slices.len() == 2);
    assert!(rt; slices.within(0, 11) == (0, 1) && slices.within(11, 100) == (1, 2));
    assert!(rt; slices.within(12, 13) == (0, 0) && slices.within(0, 100) == (0, 2));
    slices.place(5, 3, record(4, 6), only(2))?;
    assert!(rt; slices.len() == 3 && is(&slices, 0, 0, 1, 2, 1, 0));
    assert!(rt; is(&slices, 1, 5, 3, 1, 4, 2) && is(&slices, 2, 11, 2, 1, 3, 1));
    assert!(rt; !goes(&mut slices, 2, &only(1), &none, 100));
    assert!(rt; !goes(&mut slices, 2, &none, &only(1), 15));
    assert!(rt; goes(&mut slices, 2, &only(2), &only(1), 16));
    assert!(rt; !goes(&mut slices, 0, &none, &only(511), 4));
    assert!(rt; goes(&mut slices, 0, &only(2), &only(511), 5) && slices.len() == 1);
    slices.place(20, 4, record(5, 20), only(7))?;
    assert!(rt; is(&slices, 0, 5, 3, 1, 4, 2) && is(&slices, 1, 20, 4, 1, 5, 7));
    Ok(())
}
