//! The unions of sets of slots, of many at once too.

ghost use Rattle.std.specs.Prelude.{◌≡◌, ◌≤◌, ◌+◌, ◌*◌, ◌-◌, ◌++◌, [], ◌∷◌, List, Bool, max, take, drop, length, MatchResult};
ghost use Rattle.changelog_set.specs.Sets.{union_of, entries};
ghost use Rattle.changelog_set.specs.Blocks.{UnionsFor, gone_of, unions_of};

use as_base::NoMemory;
use queryset_lanes::QuerySet;
use std::alloc::Global;

/// How many entries a block has.
pub(crate) const BLOCK: u64 = 64;

/// The unions of entries in blocks of 64, without the entries.
#[derive(Drop)]
pub(crate) struct Unions {
    // Of how many of the first blocks the union was let go.
    gone: u64,
    // The unions of the other blocks.
    whole: Vec<QuerySet>,
    // How many entries come after the blocks, at most 63, and their union.
    count: u64,
    begun: QuerySet,
}

/// The slots that some of the sets has, one set after another.
#[tactic(auto, using(crate::proofs::SetLaws::walk))]
pub(crate) fn union_of(sets: &[QuerySet]) -> QuerySet
    ensures { result ≡ union_of sets.now }
{
    let mut union = QuerySet::none();
    for set in sets {
        union = union.or(set);
    }
    union
}

/// At most so many sets after the first ones.
pub(crate) fn part(sets: &[QuerySet], first: usize, count: usize) -> &[QuerySet]
    ensures { result.now ≡ take count (drop first sets.now) }
{
    let from = first.min(sets.len());
    let rest = &sets[from..];
    &rest[..count.min(rest.len())]
}

/// How many come after one number and up to another.
pub(crate) fn count_between(from: u64, to: u64) -> usize
    ensures { result ≡ to - from }
{
    to.saturating_sub(from) as usize
}

/// Cuts so many of the first sets off, or all.
pub(crate) fn cut(sets: &mut Vec<QuerySet>, count: usize)
    ensures { sets.new.items ≡ drop count sets.old.items }
{
    let count = count.min(sets.len());
    sets.drain(..count);
}

// The union of some sets and one more.
#[tactic(auto, using(crate::proofs::SetLaws::one_more))]
fn with_one(union: &QuerySet, set: &QuerySet) -> QuerySet
    ensures slots { length set.now ≡ 512 }
    ensures value { (sets : List (List Bool)) → union.now ≡ union_of sets → result ≡ union_of (sets ++ set.now ∷ []) }
{
    union.or(set)
}

impl Unions {
    /// No entry. Takes no memory.
    pub(crate) fn new(alloc: Global) -> Unions
        ensures none { UnionsFor result [] }
        ensures gone { gone_of result ≡ 0 }
    {
        Unions {
            gone: 0,
            whole: Vec::new(alloc),
            count: 0,
            begun: QuerySet::none(),
        }
    }

    /// Takes in an entry more, the last. The one refusal is `NoMemory`, after which the entries are as they were.
    #[tactic(auto, using(crate::proofs::BlockLaws::laws))]
    pub(crate) fn add(&mut self, set: &QuerySet) -> Result<(), NoMemory>
        ensures sets { (sets : List (List Bool)) → UnionsFor self.old sets →
            MatchResult result (λ _. UnionsFor self.new (sets ++ set.now ∷ [])) (λ _. UnionsFor self.new sets) }
        ensures gone { gone_of self.new ≡ gone_of self.old }
        ensures slots { length set.now ≡ 512 }
    {
        let union = with_one(&self.begun, set);
        if self.count < BLOCK - 1 {
            self.begun = union;
            self.count += 1;
            return Ok(());
        }
        self.whole.push(union)?;
        self.begun = QuerySet::none();
        self.count = 0;
        Ok(())
    }

    /// The union of the blocks that come after so many and up to so many.
    pub(crate) fn between(&self, from: u64, to: u64) -> QuerySet
        ensures { (sets : List (List Bool)) → UnionsFor self.now sets → gone_of self.now ≤ from → from ≤ to → 64 * to ≤ length sets →
            result ≡ union_of (entries sets (64 * from) (64 * to)) }
    {
        let first = from.saturating_sub(self.gone);
        union_of(part(&self.whole, first as usize, count_between(from, to)))
    }

    /// Lets the unions of so many of the first blocks go. Takes no memory.
    #[tactic(auto, using(crate::proofs::BlockLaws::trims))]
    pub(crate) fn trim(&mut self, blocks: u64)
        ensures same { (sets : List (List Bool)) → UnionsFor self.old sets → UnionsFor self.new sets }
        ensures gone { gone_of self.new ≤ max (gone_of self.old) blocks }
        ensures freed { (sets : List (List Bool)) → UnionsFor self.old sets → 64 * blocks ≤ length sets →
            64 * (blocks + unions_of self.new) ≤ length sets }
    {
        let count = blocks
            .saturating_sub(self.gone)
            .min(self.whole.len() as u64);
        cut(&mut self.whole, count as usize);
        self.gone += count;
    }
}
