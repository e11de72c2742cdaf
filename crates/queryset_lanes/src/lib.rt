//! Sets of up to 512 query slots, and batches of them, as lanes of words.
#![tactic(auto)]

ghost use Rattle.std.specs.Prelude.{◌≡◌, ℕ, ◌*◌, ◌^◌, ◌<◌, ◌≤◌, ◌==◌, IfNone, IfSome, false, true, not, length, map, take, count_by, position, replicate, slice_index, slice_index_or, slice_set, sum_by};
ghost use Rattle.queryset_lanes.specs.Slots.{both, either, but_not, has_slot, meets};
ghost use Rattle.queryset_lanes.specs.Words.{slots_of, IsWords, IsFirstOpen};

use std::marker::Model;
use std::simd::prelude::*;

/// A set of query slots, each below 512: contracts see it as 512 truth values, one per slot. No call takes memory.
#[derive(Clone, Copy, Debug, PartialEq, Eq)]
pub struct QuerySet {
    words: [u64; 8],
}

impl Model for QuerySet {
    ghost use Rattle.std.specs.Prelude.{List, Bool};

    ghost Value = { List Bool };

    ghost use Rattle.std.proofs.Common.{ap};
    ghost use Rattle.queryset_lanes.specs.Words.{slots_of, words_of, IsWords};
    ghost use Rattle.queryset_lanes.specs.Inverse.{words_of-slots_of};

    ghost view = { λ set. slots_of set.words };

    ghost invariant = { λ set. IsWords set.words };

    ghost inverse = { λ slots. record { words = words_of slots } };

    ghost inverse_ok = { λ set h. ap (λ words. record { words = words }) (words_of-slots_of set.words h) };
}

impl QuerySet {
    /// The set of no slot.
    pub fn none() -> QuerySet
        ensures { result ≡ replicate 512 false }
    {
        QuerySet::from_lanes(u64x8::splat(0))
    }

    /// The set of all slots.
    pub fn all() -> QuerySet
        ensures { result ≡ replicate 512 true }
    {
        QuerySet::from_lanes(u64x8::splat(u64::MAX))
    }

    /// The set whose slots are the bits of the words: slot 64 k + i is bit i of word k, the lowest bit first.
    pub fn from_words(words: [u64; 8]) -> QuerySet
        ensures { result ≡ slots_of words }
    {
        let [a, b, c, d, e, f, g, h] = words;
        QuerySet {
            words: [a, b, c, d, e, f, g, h],
        }
    }

    /// The words whose bits are the slots, as `from_words` takes them.
    pub fn words(&self) -> [u64; 8]
        ensures words { IsWords result }
        ensures value { slots_of result ≡ self.now }
        ensures slots { length self.now ≡ 512 }
    {
        self.lanes().to_array()
    }

    /// The slots that are in both sets.
    #[tactic(auto, using(crate::proofs::Words::operations))]
    pub fn and(&self, o: &QuerySet) -> QuerySet
        ensures slots { (length self.now ≡ 512) × (length o.now ≡ 512) }
        ensures value { result ≡ both self.now o.now }
    {
        QuerySet::from_lanes(self.lanes() & o.lanes())
    }

    /// The slots that are in either set.
    #[tactic(auto, using(crate::proofs::Words::operations))]
    pub fn or(&self, o: &QuerySet) -> QuerySet
        ensures slots { (length self.now ≡ 512) × (length o.now ≡ 512) }
        ensures value { result ≡ either self.now o.now }
    {
        QuerySet::from_lanes(self.lanes() | o.lanes())
    }

    /// The slots of this set that are not in the other.
    #[tactic(auto, using(crate::proofs::Words::operations))]
    pub fn and_not(&self, o: &QuerySet) -> QuerySet
        ensures slots { (length self.now ≡ 512) × (length o.now ≡ 512) }
        ensures value { result ≡ but_not self.now o.now }
    {
        QuerySet::from_lanes(self.lanes() & !o.lanes())
    }

    /// Whether a slot is in the set.
    pub fn test(&self, slot: u16) -> bool
        requires { slot < 512 }
        ensures slots { length self.now ≡ 512 }
        ensures value { result ≡ slice_index_or self.now slot false }
    {
        let word = self.words[usize::from(slot / 64)];
        (word >> (slot % 64)) & 1 == 1
    }

    /// The set with the slot in it or not, and every other slot as it was.
    pub fn with(&self, slot: u16, on: bool) -> QuerySet
        requires { slot < 512 }
        ensures slots { length self.now ≡ 512 }
        ensures value { result ≡ slice_set self.now slot on }
    {
        let place = usize::from(slot / 64);
        let bit = 1u64 << (slot % 64);
        let mut words = self.words;
        words[place] = if on {
            words[place] | bit
        } else {
            words[place] & !bit
        };
        QuerySet { words }
    }

    /// Whether no slot is in the set.
    pub fn is_empty(&self) -> bool
        ensures slots { length self.now ≡ 512 }
        ensures value { result ≡ not (has_slot self.now) }
    {
        self.lanes().reduce_or() == 0
    }

    /// How many slots are in the set.
    pub fn ones(&self) -> u32
        ensures slots { length self.now ≡ 512 }
        ensures value { result ≡ count_by (λ on. on) self.now }
    {
        self.lanes().count_ones().strict_reduce_sum() as u32
    }

    /// The least slot below `below` that is not in the set, or `None` where each slot below it is in the set.
    pub fn least_unset(&self, below: u16) -> Option<u16>
        ensures slots { length self.now ≡ 512 }
        ensures value { result ≡ position (λ on. not on) (take below self.now) }
    {
        let words = self.lanes();
        let place = first_open(words)?;
        let slot = 64 * place as u16 + words[place].trailing_ones() as u16;
        if slot < below { Some(slot) } else { None }
    }

    // A word that is 0 exactly where the sets have no slot in common.
    fn common(&self, o: &QuerySet) -> u64
        ensures { (result == 0) ≡ not (meets self.now o.now) }
    {
        (self.lanes() & o.lanes()).reduce_or()
    }

    // The words, as lanes.
    fn lanes(&self) -> u64x8
        ensures words { IsWords result }
        ensures slots { slots_of result ≡ self.now }
        ensures size { length self.now ≡ 512 }
    {
        u64x8::from_array(self.words)
    }

    // The set of the slots that stand in the lanes.
    fn from_lanes(lanes: u64x8) -> QuerySet
        requires { IsWords lanes }
        ensures { result ≡ slots_of lanes }
    {
        QuerySet {
            words: lanes.to_array(),
        }
    }
}

/// Leaves in each set the slots that are in the mask too: a set is one vector, so that no set is left over.
pub fn mask_all(sets: &mut [QuerySet], mask: &QuerySet)
    ensures { sets.new ≡ map (λ set. both set mask.now) sets.old }
{
    for set in sets.iter_mut() {
        *set = set.and(mask);
    }
}

/// How many sets have a slot in common with the mask: eight sets at a time, and then the rest one by one.
pub fn count_meeting(sets: &[QuerySet], mask: &QuerySet) -> usize
    ensures { result ≡ count_by (λ set. meets set mask.now) sets.now }
{
    let (blocks, rest) = sets.as_chunks::<8>();
    meeting_in_blocks(blocks, mask) + meeting_in_rest(rest, mask)
}

// How many sets of the blocks have a slot in common with the mask.
fn meeting_in_blocks(blocks: &[[QuerySet; 8]], mask: &QuerySet) -> usize
    requires { length blocks.now * 8 < 2 ^ 64 }
    ensures fits { result ≤ length blocks.now * 8 }
    ensures value { result ≡ sum_by (λ block. count_by (λ set. meets set mask.now) block) blocks.now }
{
    let mut count = 0;
    for block in blocks {
        count += meeting_in_block(block, mask) as usize;
    }
    count
}

// How many of eight sets have a slot in common with the mask: a lane for each set.
fn meeting_in_block(sets: &[QuerySet; 8], mask: &QuerySet) -> u32
    ensures fits { result ≤ 8 }
    ensures value { result ≡ count_by (λ set. meets set mask.now) sets.now }
{
    let mut words = [0; 8];
    for (place, set) in sets.iter().enumerate() {
        words[place] = set.common(mask);
    }
    u64x8::from_array(words)
        .simd_ne(u64x8::splat(0))
        .to_bitmask()
        .count_ones()
}

// How many sets have a slot in common with the mask, one by one.
fn meeting_in_rest(sets: &[QuerySet], mask: &QuerySet) -> usize
    ensures { result ≡ count_by (λ set. meets set mask.now) sets.now }
{
    sets.iter().filter(|set| set.common(mask) != 0).count()
}

// The place of the first word with a slot that is not in the set.
fn first_open(words: u64x8) -> Option<usize>
    requires { IsWords words }
    ensures none { IfNone result ((k : ℕ) → k < 8 → slice_index words k ≡ u64.MAX) }
    ensures some { IfSome result (λ place. IsFirstOpen words place) }
{
    let open = words.simd_ne(u64x8::splat(u64::MAX)).to_bitmask();
    if open == 0 {
        None
    } else {
        Some(open.trailing_zeros() as usize)
    }
}

#[cfg(test)]
mod tests {
    use super::*;
    use std::test::Fail;

    #[test]
    fn the_least_slot_that_is_off(rt: HostRuntime) -> Result<(), Fail> {
        let low = QuerySet::none().with(0, true).with(1, true).with(3, true);
        assert_eq!(rt; QuerySet::none().least_unset(512), Some(0));
        assert_eq!(rt; QuerySet::none().least_unset(0), None);
        assert_eq!(rt; low.least_unset(512), Some(2));
        assert_eq!(rt; low.least_unset(3), Some(2));
        assert_eq!(rt; low.least_unset(2), None);
        assert_eq!(rt; low.least_unset(1000), Some(2));
        assert_eq!(rt; QuerySet::all().least_unset(512), None);
        assert_eq!(rt; QuerySet::all().least_unset(1000), None);
        assert_eq!(rt; QuerySet::all().with(63, false).least_unset(512), Some(63));
        assert_eq!(rt; QuerySet::all().with(64, false).least_unset(512), Some(64));
        assert_eq!(rt;
            QuerySet::all().with(511, false).least_unset(512),
            Some(511)
        );
        assert_eq!(rt; QuerySet::all().with(511, false).least_unset(511), None);
        Ok(())
    }

    #[test]
    fn slots_of_the_first_set_alone(rt: HostRuntime) -> Result<(), Fail> {
        let some = QuerySet::none()
            .with(1, true)
            .with(64, true)
            .with(130, true)
            .with(200, true)
            .with(511, true);
        let others = QuerySet::none()
            .with(64, true)
            .with(300, true)
            .with(511, true);
        assert!(rt; others == QuerySet::from_words([0, 1, 0, 0, 1 << 44, 0, 0, 1 << 63]));
        assert!(rt; others != some);
        let left = some.and_not(&others);
        assert_eq!(rt; left.ones(), 3);
        assert!(rt; left.test(1) && left.test(130) && left.test(200));
        let left = others.and_not(&some);
        assert_eq!(rt; left.ones(), 1);
        assert!(rt; left.test(300));
        assert_eq!(rt; some.and_not(&QuerySet::none()).ones(), 5);
        assert_eq!(rt; QuerySet::all().and_not(&some).ones(), 507);
        Ok(())
    }

    #[test]
    fn batches_of_each_length(rt: HostRuntime) -> Result<(), Fail> {
        let mask = QuerySet::none().with(7, true).with(500, true);
        for (length, meeting, left) in [
            (0, 0, 0),
            (1, 1, 2),
            (7, 3, 4),
            (8, 3, 4),
            (9, 4, 5),
            (16, 7, 8),
            (17, 8, 9),
        ] {
            // Slot 7 is in every fourth set, slot 500 in every fifth, slot 9 in each: the second eight meet the mask
            // once more than the first eight.
            let mut sets = [QuerySet::none().with(9, true); 17];
            for (i, set) in sets.iter_mut().enumerate() {
                *set = set.with(7, i % 4 == 0).with(500, i % 5 == 0);
            }
            assert!(rt; length <= sets.len());
            let (batch, rest) = sets.split_at_mut(length);
            assert_eq!(rt; count_meeting(batch, &mask), meeting);
            mask_all(batch, &mask);
            assert_eq!(rt;
                batch
                    .iter()
                    .map(|set| set.ones())
                    .fold(0, u32::wrapping_add),
                left
            );
            assert_eq!(rt; rest.iter().all(|set| set.test(9)), true);
        }
        Ok(())
    }
}
