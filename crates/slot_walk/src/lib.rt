//! A walk over the slots of a set, by rising number: a test a word, and a few instructions a slot.
#![tactic(auto)]

ghost use Rattle.std.specs.Prelude.{◌≡◌, ◌≢◌, ℕ, ◌<◌, ◌≤◌, ◌+◌, ◌*◌, ◌/◌, false, length, slice_index_or, slice_set, IfSome, IfNone, true};
ghost use Rattle.queryset_lanes.specs.Words.{slots_of, IsWords};
ghost use Rattle.slot_walk.specs.Walk.{has, IsTaken, IsFirstWord};

use queryset_lanes::QuerySet;
use std::marker::Model;

/// The slots of a set that are still to come: contracts see them as 512 truth values, one per slot. No call takes memory.
#[derive(Drop)]
pub struct Slots {
    words: [u64; 8],
    // No slot is to come in the words before this one.
    place: usize,
}

impl Model for Slots {
    ghost use Rattle.std.specs.Prelude.{List, Bool};
    ghost use Rattle.queryset_lanes.specs.Words.{slots_of};
    ghost use Rattle.slot_walk.specs.Walk.{IsWalk};

    ghost Value = { List Bool };

    ghost view = { λ s. slots_of s.words };

    ghost invariant = { λ s. IsWalk s.words s.place };
}

impl Slots {
    /// All slots of the set.
    pub fn of(set: &QuerySet) -> Slots
        ensures { result ≡ set.now }
    {
        Slots {
            words: set.words(),
            place: 0,
        }
    }

    /// Takes the least slot that is still to come; `None` where there is none.
    pub fn next(&mut self) -> Option<u16>
        ensures some { IfSome result (λ slot. IsTaken self.old self.new slot) }
        ensures none { IfNone result ((slot : ℕ) → has self.old slot ≡ false) }
    {
        let place = first_word(&self.words, self.place)?;
        self.place = place;
        Some(take_lowest(&mut self.words, place))
    }
}

// The place of the first word that has a slot, from this place on.
fn first_word(words: &[u64], from: usize) -> Option<usize>
    ensures some { IfSome result (λ place. IsFirstWord words.now from place) }
    ensures none { IfNone result ((k : ℕ) → from ≤ k → k < length words.now → slice_index_or words.now k 0 ≡ 0) }
{
    let mut place = from;
    'words: while place < words.len() {
        if words[place] != 0 {
            return Some(place);
        }
        place += 1;
    }
    None
}

// Takes the lowest bit out of a word that has one, and tells which slot it is.
fn take_lowest(words: &mut [u64; 8], place: usize) -> u16
    requires words { IsWords words.old }
    requires within { place < 8 }
    requires some { slice_index_or words.old place 0 ≢ 0 }
    ensures words { IsWords words.new }
    ensures value { slots_of words.new ≡ slice_set (slots_of words.old) result false }
    ensures here { result / 64 ≡ place }
    ensures was { has (slots_of words.old) result ≡ true }
    ensures least { (s : ℕ) → 64 * place ≤ s → s < result → has (slots_of words.old) s ≡ false }
    ensures others { (k : ℕ) → k < place → slice_index_or words.new k 0 ≡ slice_index_or words.old k 0 }
{
    let word = words[place];
    let bit = word.trailing_zeros();
    words[place] = word & !(1u64 << bit);
    64 * place as u16 + bit as u16
}

#[cfg(test)]
mod tests;
