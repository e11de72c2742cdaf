//! Which slots changes touch: a set of slots for each change, and the slots that no change of a stretch touches.
#![tactic(auto)]

mod laws;
mod touched;
mod unions;

pub use laws::unchanged_slot_by_slot;
pub use touched::Touched;

#[cfg(test)]
mod tests {
    use super::*;
    use as_base::NoMemory;
    use queryset_lanes::QuerySet;
    use std::alloc::Global;
    use std::test::Fail;

    // Slot 0, then slots 0 and 2.
    fn row(alloc: Global) -> Result<Touched, NoMemory> {
        let first = QuerySet::none().with(0, true);
        let mut touched = Touched::new(alloc);
        touched.append(&first)?;
        if touched.last() == 1 {
            touched.append(&first.with(2, true))?;
        }
        Ok(touched)
    }

    // Entry e has slot e alone.
    fn one_by_one(alloc: Global, count: u8) -> Result<Touched, NoMemory> {
        let mut touched = Touched::new(alloc);
        for slot in 1..=count {
            if touched.last() < 512 {
                touched.append(&QuerySet::none().with(u16::from(slot), true))?;
            }
        }
        Ok(touched)
    }

    // Between the two places stay as many slots, the one among them and the other not.
    fn leaves(touched: &Touched, i: u64, j: u64, count: u32, stays: u8, goes: u8) -> bool {
        let set = touched.unchanged(i, j);
        set.ones() == count && set.test(u16::from(stays)) && !set.test(u16::from(goes))
    }

    #[test]
    fn slots_of_two_entries(rt: HostRuntime) -> Result<(), Fail> {
        let touched = row(rt.alloc())?;
        assert_eq!(rt; touched.last(), 2);
        assert!(rt; leaves(&touched, 0, 1, 511, 2, 0));
        assert!(rt; leaves(&touched, 1, 2, 510, 1, 0));
        assert!(rt; leaves(&touched, 0, 2, 510, 1, 2));
        assert_eq!(rt; touched.unchanged(1, 1).ones(), 512);
        Ok(())
    }

    #[test]
    fn entries_in_blocks(rt: HostRuntime) -> Result<(), Fail> {
        let mut touched = one_by_one(rt.alloc(), 200)?;
        assert_eq!(rt; touched.last(), 200);
        assert!(rt; leaves(&touched, 0, 200, 312, 0, 64));
        assert!(rt; leaves(&touched, 1, 199, 314, 1, 2));
        assert!(rt; leaves(&touched, 63, 129, 446, 63, 64));
        assert!(rt; leaves(&touched, 64, 128, 448, 129, 128));
        assert!(rt; leaves(&touched, 60, 70, 502, 71, 70));
        touched.trim(70);
        assert_eq!(rt; touched.last(), 200);
        assert!(rt; leaves(&touched, 70, 200, 382, 70, 71));
        assert!(rt; leaves(&touched, 130, 195, 447, 196, 195));
        touched.trim(1000);
        assert_eq!(rt; touched.unchanged(200, 200).ones(), 512);
        Ok(())
    }
}
