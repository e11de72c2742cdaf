ghost use Rattle.std.specs.Prelude.{◌≡◌, ◌≤◌, IfOk};
ghost use Rattle.changelog.specs.EpochsFor.{last_of, newest};

use crate::made::{WINDOW, bounds_of};
use as_base::{Change, Group, Kind, NoMemory, Plan, StreamId, WinSpec};
use changelog::Epochs;
use std::alloc::Global;

// A query of stream a, with the bounds of a slot of so many, that groups by key where it groups.
fn plan_of(kind: Kind, slot: u16, slots: u16) -> Plan {
    let bounds = bounds_of(slot, slots);
    Plan {
        kind,
        group: Group::Key,
        left: StreamId::A,
        right: StreamId::A,
        left_bounds: bounds,
        right_bounds: bounds,
        win: WinSpec {
            size: WINDOW,
            slide: WINDOW,
        },
    }
}

/// The changes that make one query of this kind in each of so many slots, all of them at 0.
pub(crate) fn queries(kind: Kind, slots: u16, alloc: Global) -> Result<Epochs, NoMemory> {
    let mut epochs = Epochs::new(alloc);
    for slot in 0..slots.min(512) {
        let opened = Change::Opened {
            n: u64::from(slot) + 1,
            slot,
            at: 0,
            plan: plan_of(kind, slot, slots),
        };
        epochs.append(&opened)?;
    }
    Ok(epochs)
}
