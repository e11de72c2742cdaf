//! Which slots of queries are live: each new query gets the least slot that is free.
#![tactic(auto)]

ghost use Rattle.std.specs.Prelude.{◌≡◌, ◌+◌, ◌<◌, ◌≤◌, ◌↔◌, false, true, length, replicate, slice_set, IfOk, IsErr, OnOk};
ghost use Rattle.slot_alloc.specs.Slots.{is_live, live_count, least_free, IsLeastFree, IsTaken};

use queryset_lanes::QuerySet;
use std::marker::Model;

/// The one refusal: every slot is live.
#[derive(Clone, Copy, Debug, PartialEq, Eq)]
pub struct Full;

/// From 1 to 512 slots, each live or free: contracts see a truth value for each slot, true where it is live.
/// No call takes memory.
#[derive(Debug, Drop)]
pub struct Slots {
    live: QuerySet,
    slots: u16,
}

impl Model for Slots {
    ghost use Rattle.std.specs.Prelude.{◌≡◌, ◌≤◌, Bool, List, length, take};

    ghost Value = { List Bool };

    ghost view = { λ s. take s.slots s.live };

    ghost invariant = { λ s. (1 ≤ s.slots) × (s.slots ≤ 512) × (length s.live ≡ 512) };
}

impl Slots {
    /// So many slots, from 1 to 512, all of them free.
    pub fn new(slots: u16) -> Slots
        requires some { 1 ≤ slots }
        requires most { slots ≤ 512 }
        ensures { result ≡ replicate slots false }
    {
        Slots {
            live: QuerySet::none(),
            slots,
        }
    }

    /// The least free slot, which is live from then on. `Full` exactly where every slot is live; nothing changes then.
    #[tactic(auto, using(crate::proofs::SlotLaws::laws))]
    pub fn take(&mut self) -> Result<u16, Full>
        ensures taken { IsTaken result self.old self.new }
        ensures least { IfOk result (λ slot. IsLeastFree self.old slot) }
        ensures full { IsErr result ↔ (live_count self.old ≡ length self.old) }
        ensures live { OnOk result (live_count self.new ≡ live_count self.old + 1) }
        ensures length { length self.new ≡ length self.old }
        ensures slots { (1 ≤ length self.old) × (length self.old ≤ 512) }
    {
        match self.least_free() {
            None => Err(Full),
            Some(slot) => {
                self.mark(slot, true);
                Ok(slot)
            }
        }
    }

    /// Frees a slot that is live; every other slot stays as it was.
    #[tactic(auto, using(crate::proofs::SlotLaws::laws))]
    pub fn give(&mut self, slot: u16)
        requires { is_live self.old slot ≡ true }
        ensures given { self.new ≡ slice_set self.old slot false }
        ensures live { live_count self.new + 1 ≡ live_count self.old }
        ensures length { length self.new ≡ length self.old }
    {
        self.mark(slot, false);
    }

    // The least free slot, or `None` where every slot is live.
    fn least_free(&self) -> Option<u16>
        ensures value { result ≡ least_free self.now }
        ensures slots { (1 ≤ length self.now) × (length self.now ≤ 512) }
    {
        self.live.least_unset(self.slots)
    }

    // Makes a slot live or free.
    fn mark(&mut self, slot: u16, live: bool)
        requires { slot < length self.old }
        ensures { self.new ≡ slice_set self.old slot live }
    {
        self.live = self.live.with(slot, live);
    }
}

#[cfg(test)]
mod tests {
    use super::*;
    use std::test::Fail;

    #[test]
    fn the_least_free_slot(rt: HostRuntime) -> Result<(), Fail> {
        let mut slots = Slots::new(2);
        assert_eq!(rt; slots.take(), Ok(0));
        assert_eq!(rt; slots.take(), Ok(1));
        assert_eq!(rt; slots.take(), Err(Full));
        slots.give(0);
        assert_eq!(rt; slots.take(), Ok(0));
        assert_eq!(rt; slots.take(), Err(Full));
        assert_eq!(rt; filled(1), Err(Full));
        assert_eq!(rt; filled(65), Err(Full));
        assert_eq!(rt; filled(512), Err(Full));
        Ok(())
    }

    // What `take` gives after so many slots were taken in order, of as many; the first that it gave otherwise.
    fn filled(count: u16) -> Result<u16, Full>
        requires some { 1 ≤ count }
        requires most { count ≤ 512 }
    {
        let mut slots = Slots::new(count);
        for slot in 0..count {
            let taken = slots.take();
            if taken != Ok(slot) {
                return taken;
            }
        }
        slots.take()
    }
}
