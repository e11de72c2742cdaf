ghost use Rattle.std.specs.Prelude.{◌≡◌, ℕ, ◌≤◌, ◌<◌, ◌+◌, ◌*◌, ◌^◌, ◌++◌, List, Bool, [], ◌∷◌, length, MatchResult, OnOk, OnErr};
ghost use Rattle.changelog_set.specs.Sets.{union_of, entries, unchanged};
ghost use Rattle.changelog_set.specs.TouchedFor.{TouchedFor, IsKept, last_of, held_of, unions_held};

use crate::unions::{BLOCK, Unions, count_between, cut, part, union_of};
use as_base::NoMemory;
use queryset_lanes::QuerySet;
use std::alloc::Global;

/// For each change the set of slots that it touches, in the order of appending, as far as entries are still asked for. Entry
/// e is the set of change e, and the first is entry 1.
#[derive(Drop)]
pub struct Touched {
    // How many entries there are.
    last: u64,
    // Those of them that are held, which are the last ones.
    sets: Vec<QuerySet>,
    // The unions of all of them, in blocks, but for blocks that were trimmed.
    unions: Unions,
}

// Adds a set last.
fn push(sets: &mut Vec<QuerySet>, set: &QuerySet) -> Result<(), NoMemory>
    ensures ok { OnOk result (sets.new.items ≡ sets.old.items ++ set.now ∷ []) }
    ensures err { OnErr result (sets.new.items ≡ sets.old.items) }
{
    sets.push(*set)?;
    Ok(())
}

impl Touched {
    /// No entry. Takes no memory.
    pub fn new(alloc: Global) -> Touched
        ensures none { TouchedFor result [] }
        ensures last { last_of result ≡ 0 }
    {
        Touched {
            last: 0,
            sets: Vec::new(alloc),
            unions: Unions::new(alloc),
        }
    }

    /// How many entries there are, trimmed ones included.
    pub fn last(&self) -> u64
        ensures value { result ≡ last_of self.now }
        ensures sets { (sets : List (List Bool)) → TouchedFor self.now sets → result ≡ length sets }
    {
        self.last
    }

    /// Adds an entry, the last. The one refusal is `NoMemory`, after which the entries are as they were.
    pub fn append(&mut self, set: &QuerySet) -> Result<(), NoMemory>
        requires few { last_of self.old < 2 ^ 62 }
        ensures last { OnOk result (last_of self.new ≡ last_of self.old + 1) }
        ensures last_err { OnErr result (last_of self.new ≡ last_of self.old) }
        ensures kept { (e : ℕ) → IsKept self.old e → IsKept self.new e }
        ensures sets { (sets : List (List Bool)) → TouchedFor self.old sets →
            MatchResult result (λ _. TouchedFor self.new (sets ++ set.now ∷ [])) (λ _. TouchedFor self.new sets) }
    {
        push(&mut self.sets, set)?;
        if self.unions.add(set).is_err() {
            self.sets.pop();
            return Err(NoMemory);
        }
        self.last += 1;
        Ok(())
    }

    /// The slots that none of the entries i + 1 to j has, where none of these was trimmed: all slots where i is j. It costs
    /// at most 126 unions of eight words, and one more for each 64 entries between.
    #[tactic(auto, using(crate::proofs::SetLaws::left))]
    pub fn unchanged(&self, i: u64, j: u64) -> QuerySet
        ensures { (sets : List (List Bool)) → TouchedFor self.now sets → IsKept self.now i → i ≤ j → j ≤ length sets →
            result ≡ unchanged sets i j }
    {
        QuerySet::all().and_not(&self.touched(i, j))
    }

    // The slots that some of the entries i + 1 to j has.
    fn touched(&self, i: u64, j: u64) -> QuerySet
        ensures { (sets : List (List Bool)) → TouchedFor self.now sets → IsKept self.now i → i ≤ j → j ≤ length sets →
            result ≡ union_of (entries sets i j) }
    {
        let first = i.div_ceil(BLOCK);
        let last = j / BLOCK;
        if last <= first {
            return self.walked(i, j);
        }
        let before = self.walked(i, BLOCK * first);
        let blocks = self.unions.between(first, last);
        let after = self.walked(BLOCK * last, j);
        before.or(&blocks).or(&after)
    }

    // The same, one entry after another, for few entries.
    #[tactic(auto, using(crate::proofs::KeepLaws::walks))]
    fn walked(&self, i: u64, j: u64) -> QuerySet
        ensures { (sets : List (List Bool)) → TouchedFor self.now sets → IsKept self.now i → i ≤ j → j ≤ length sets →
            result ≡ union_of (entries sets i j) }
    {
        let trimmed = self.last.saturating_sub(self.sets.len() as u64);
        let first = i.saturating_sub(trimmed) as usize;
        union_of(part(&self.sets, first, count_between(i, j)))
    }

    /// Lets entries up to i go, and keeps those after it: places from i on may still be asked for. Takes no memory. It moves
    /// all entries that are held, so let many go at once.
    pub fn trim(&mut self, i: u64)
        ensures same { (sets : List (List Bool)) → TouchedFor self.old sets → TouchedFor self.new sets }
        ensures kept { (e : ℕ) → i ≤ e → IsKept self.old e → IsKept self.new e }
        ensures last { last_of self.new ≡ last_of self.old }
        ensures freed { i ≤ last_of self.old → held_of self.new + i ≤ last_of self.old }
        ensures unions { (sets : List (List Bool)) → TouchedFor self.old sets → i ≤ last_of self.old →
            64 * unions_held self.new + i ≤ last_of self.old + 63 }
    {
        let base = i.min(self.last);
        let later = self.last - base;
        let count = count_between(later, self.sets.len() as u64);
        cut(&mut self.sets, count);
        self.unions.trim(base / BLOCK);
    }
}
