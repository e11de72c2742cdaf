//! Numbered changes of the slots: epoch e is what stands after the first e of them. It tells who owns a slot in an epoch,
//! and where a slice of a stream begins and ends.
#![tactic(auto)]

mod edges;
mod epochs;
mod laws;
mod slots;
mod spans;

pub use epochs::Epochs;
pub use laws::{owners_are_those_of_views, slices_are_those_of_views};

#[cfg(test)]
mod tests {
    use super::*;
    use as_base::{Bounds, Change, Group, Kind, NoMemory, Plan, StreamId, WinSpec};
    use std::alloc::Global;
    use std::test::Fail;

    // A count over windows of 100 ticks, one after the other, on a.
    fn hundreds() -> Plan {
        let all = Bounds {
            lo: [i64::MIN; 5],
            hi: [i64::MAX; 5],
        };
        Plan {
            kind: Kind::Count,
            group: Group::All,
            left: StreamId::A,
            right: StreamId::A,
            left_bounds: all,
            right_bounds: all,
            win: WinSpec {
                size: 100,
                slide: 100,
            },
        }
    }

    // It is opened, closed, and opened again.
    fn row(alloc: Global) -> Result<Epochs, NoMemory> {
        let plan = hundreds();
        let mut epochs = Epochs::new(alloc);
        epochs.append(&Change::Opened {
            n: 1,
            slot: 0,
            at: 0,
            plan,
        })?;
        epochs.append(&Change::Closed {
            n: 1,
            slot: 0,
            at: 11,
        })?;
        epochs.append(&Change::Opened {
            n: 2,
            slot: 0,
            at: 11,
            plan,
        })?;
        Ok(epochs)
    }

    // The number of the query that owns slot 0 in an epoch; 0 for none.
    fn owner_number(epochs: &Epochs, epoch: u64) -> u64 {
        match epochs.owner(epoch, 0) {
            Some((n, _)) => n,
            None => 0,
        }
    }

    #[test]
    fn epochs_and_owners(rt: HostRuntime) -> Result<(), Fail> {
        let epochs = row(rt.alloc())?;
        assert_eq!(rt; epochs.last(), 3);
        assert_eq!(rt; epochs.epoch_at(10), 1);
        assert_eq!(rt; epochs.epoch_at(11), 3);
        assert_eq!(rt; owner_number(&epochs, 0), 0);
        assert_eq!(rt; owner_number(&epochs, 1), 1);
        assert_eq!(rt; owner_number(&epochs, 2), 0);
        assert_eq!(rt; owner_number(&epochs, 3), 2);
        Ok(())
    }

    #[test]
    fn slices_begin_at_changes_and_edges(rt: HostRuntime) -> Result<(), Fail> {
        let epochs = row(rt.alloc())?;
        assert_eq!(rt; epochs.slice_start(StreamId::A, 10), 0);
        assert_eq!(rt; epochs.slice_start(StreamId::A, 20), 11);
        assert_eq!(rt; epochs.slice_start(StreamId::A, 100), 100);
        assert_eq!(rt; epochs.slice_start(StreamId::B, 100), 11);
        assert_eq!(rt; epochs.slice_end(StreamId::A, 10), 11);
        assert_eq!(rt; epochs.slice_end(StreamId::A, 20), 100);
        assert_eq!(rt; epochs.slice_end(StreamId::A, 100), 200);
        assert_eq!(rt; epochs.slice_end(StreamId::B, 100), 1 << 62);
        Ok(())
    }

    // Slot 7 is opened, then slot 2; then the first is closed.
    fn two_slots(alloc: Global) -> Result<Epochs, NoMemory> {
        let plan = hundreds();
        let mut epochs = Epochs::new(alloc);
        epochs.append(&Change::Opened {
            n: 1,
            slot: 7,
            at: 0,
            plan,
        })?;
        epochs.append(&Change::Opened {
            n: 2,
            slot: 2,
            at: 5,
            plan,
        })?;
        epochs.append(&Change::Closed {
            n: 1,
            slot: 7,
            at: 9,
        })?;
        Ok(epochs)
    }

    // They are those, in this order.
    fn are_slots(slots: &[u16], wanted: &[u16]) -> bool {
        slots == wanted
    }

    #[test]
    fn slots_of_changes(rt: HostRuntime) -> Result<(), Fail> {
        let mut epochs = two_slots(rt.alloc())?;
        assert!(rt; are_slots(epochs.slots_between(0, 3), &[7, 2, 7]));
        assert!(rt; are_slots(epochs.slots_between(1, 2), &[2]));
        assert!(rt; are_slots(epochs.slots_between(3, 3), &[]));
        epochs.trim(2);
        assert!(rt; are_slots(epochs.slots_between(2, 3), &[7]));
        Ok(())
    }

    #[test]
    fn later_epochs_stay(rt: HostRuntime) -> Result<(), Fail> {
        let mut epochs = row(rt.alloc())?;
        assert_eq!(rt; epochs.first(), 0);
        epochs.trim(2);
        assert_eq!(rt; epochs.first(), 2);
        assert_eq!(rt; epochs.last(), 3);
        assert_eq!(rt; epochs.epoch_at(11), 3);
        assert_eq!(rt; owner_number(&epochs, 2), 0);
        assert_eq!(rt; owner_number(&epochs, 3), 2);
        assert_eq!(rt; epochs.slice_start(StreamId::A, 20), 11);
        epochs.trim(9);
        assert_eq!(rt; epochs.epoch_at(11), 3);
        assert_eq!(rt; owner_number(&epochs, 3), 2);
        assert_eq!(rt; epochs.slice_start(StreamId::A, 20), 11);
        Ok(())
    }
}
