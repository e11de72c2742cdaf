ghost use Rattle.std.specs.Prelude.{◌≡◌, ℕ, ◌≤◌, ◌<◌, ◌==◌, ◌-◌, ◌/◌, ◌%◌, ◌^◌, min, max, Bool, true, false, ◌&&◌, ◌||◌, if◌then◌else◌};
ghost use Rattle.std.specs.Prelude.{Some, None, List, [], length, replicate, count_by, IfOk, OnOk, OnErr};
ghost use Rattle.as_base.specs.declared.stream.StreamId.{StreamId};
ghost use Rattle.as_base.specs.Stream.{place_of};
ghost use Rattle.changelog_set.specs.Sets.{unchanged};
ghost use Rattle.changelog_set.specs.TouchedFor.{TouchedFor, IsKept};
ghost use Rattle.views.specs.Pairs.{by_numbers};
ghost use Rattle.shared_join.specs.Wanted.{ArePairsOf};
ghost use Rattle.shared_join.specs.Lanes.{met_at};
ghost use Rattle.shared_join.specs.Window.{start_of, window_of};
ghost use Rattle.shared_join.specs.Names.{names_of, is_named, number_of};
ghost use Rattle.shared_join.specs.Joins.{lane_at, lane_place, lane_of, met_in, has_met, kept_in, is_name, has_slice, forgotten, shown_in};

use crate::count::count_all;
use crate::lanes::{Lane, cut, cut_entries, has_met, put};
use crate::pair::Pair;
use crate::side::Side;
use crate::walk::join;
use crate::window::{Window, couples_of};
use as_base::{Couples, Listed, NoMemory, StreamId};
use by_start::ByStart;
use changelog_set::Touched;
use queryset_lanes::QuerySet;
use slice_store::Slices;
use std::alloc::Global;

/// How many streams there are.
const STREAMS: usize = 4;

/// The pairs of records that slices of two streams have, by pair of slices that were joined.
#[derive(Drop)]
pub struct Joins {
    alloc: Global,
    // A lane for each first and each second stream, at 4 times the place of the first and that of the second. Whoever joins
    // streams in one order alone leaves most of them empty.
    lanes: [Lane; 16],
    // How many pairs of records were looked at; it stays at 2^64 - 1.
    pub(crate) looked: u64,
}

// The place of a stream.
fn place_of(s: StreamId) -> usize
    ensures place { result ≡ place_of s }
    ensures within { result < 4 }
{
    match s {
        StreamId::A => 0,
        StreamId::B => 1,
        StreamId::C => 2,
        StreamId::D => 3,
    }
}

// The place of the lane of two streams.
fn lane_place(first: StreamId, second: StreamId) -> usize
    ensures place { result ≡ lane_place first second }
    ensures within { result < 16 }
{
    STREAMS * place_of(first) + place_of(second)
}

// The slots that no change between two epochs touches.
fn unchanged_between(touched: &Touched, one: u64, other: u64) -> QuerySet
    ensures { (sets : List (List Bool)) → TouchedFor touched.now sets → IsKept touched.now (min one other) → max one other ≤ length sets →
        result ≡ unchanged sets (min one other) (max one other) }
{
    touched.unchanged(one.min(other), one.max(other))
}

// The pairs that slice `i` of `a` and slice `j` of `b` have, for all slots that no change between their epochs touches.
fn pairs_of(
    alloc: Global,
    a: &Slices,
    i: usize,
    b: &Slices,
    j: usize,
    touched: &Touched,
    looked: &mut u64,
) -> Result<Listed<Pair>, NoMemory>
    requires first { i < length a.now.slices }
    requires second { j < length b.now.slices }
    ensures { IfOk result (λ pairs. ArePairsOf touched.now a.now i b.now j pairs) }
{
    let mask = unchanged_between(touched, a.epoch(i), b.epoch(j));
    let lefts = Side::new(a.recs(i), a.sets(i));
    let rights = Side::new(b.recs(j), b.sets(j));
    let pairs = join(alloc, &lefts, &rights, &mask, looked)?;
    Ok(Listed::from_vec(pairs))
}

// Keeps the pairs of two slices in the lane at a place.
fn put_at(
    lanes: &mut [Lane],
    place: usize,
    alloc: Global,
    first: u64,
    second: u64,
    pairs: Listed<Pair>,
) -> Result<(), NoMemory>
    requires within { place < length lanes.old }
    requires fresh { met_at (lane_at lanes.old place) first second ≡ None }
    ensures ok { OnOk result ((c d : ℕ) → met_at (lane_at lanes.new place) c d ≡
        (if (c == first) && (d == second) then Some pairs else met_at (lane_at lanes.old place) c d)) }
    ensures others { (k : ℕ) → (k == place) ≡ false → lane_at lanes.new k ≡ lane_at lanes.old k }
    ensures err { OnErr result ((k : ℕ) → lane_at lanes.new k ≡ lane_at lanes.old k) }
{
    put(&mut lanes[place], alloc, first, second, pairs)
}

// Lets the pairs of a slice go in the lane at a place: of a slice of the first stream, and of one of the second.
fn forget_at(lanes: &mut [Lane], place: usize, is_first: bool, is_second: bool, start: u64)
    requires { place < length lanes.old }
    ensures lane { lane_at lanes.new place ≡ forgotten is_first is_second start (lane_at lanes.old place) }
    ensures others { (k : ℕ) → (k == place) ≡ false → lane_at lanes.new k ≡ lane_at lanes.old k }
{
    if is_first {
        cut(&mut lanes[place], start);
    }
    if is_second {
        cut_entries(&mut lanes[place], start);
    }
}

// Lets the pairs of a slice go in all lanes.
fn forget_all(lanes: &mut [Lane], stream: usize, start: u64)
    ensures { (k : ℕ) → lane_at lanes.new k ≡ forgotten (k / 4 == stream) (k % 4 == stream) start (lane_at lanes.old k) }
{
    for place in 0..lanes.len() {
        let (first, second) = (place / STREAMS, place % STREAMS);
        forget_at(lanes, place, first == stream, second == stream, start);
    }
}

// A lane for each first and each second stream.
fn new_lanes(alloc: Global) -> [Lane; 16]
    ensures { result ≡ replicate 16 [] }
{
    [
        ByStart::new(alloc),
        ByStart::new(alloc),
        ByStart::new(alloc),
        ByStart::new(alloc),
        ByStart::new(alloc),
        ByStart::new(alloc),
        ByStart::new(alloc),
        ByStart::new(alloc),
        ByStart::new(alloc),
        ByStart::new(alloc),
        ByStart::new(alloc),
        ByStart::new(alloc),
        ByStart::new(alloc),
        ByStart::new(alloc),
        ByStart::new(alloc),
        ByStart::new(alloc),
    ]
}

impl Joins {
    /// No pair of slices has met. Takes no memory.
    pub fn new(alloc: Global) -> Joins
        ensures { (s : StreamId) (c : ℕ) (t : StreamId) (d : ℕ) → met_in result s c t d ≡ None }
    {
        Joins {
            alloc,
            lanes: new_lanes(alloc),
            looked: 0,
        }
    }

    // The lane of two streams.
    fn lane(&self, first: StreamId, second: StreamId) -> &Lane
        ensures { result.now ≡ lane_of self.now first second }
    {
        &self.lanes[lane_place(first, second)]
    }

    // Whether two slices have met.
    #[tactic(auto, unfolding(crate::specs::Joins::met_of))]
    fn have_met(&self, s: StreamId, first: u64, t: StreamId, second: u64) -> bool
        ensures { result ≡ has_met self.now s first t second }
    {
        has_met(self.lane(s, t), first, second)
    }

    /// Joins slice `i` of `a` with slice `j` of `b`, for all queries at once: it keeps every pair of a record of the one and
    /// a record of the other with equal keys, with the slots that have both records and that no change between the epochs
    /// of the slices touches, where there is such a slot. Where the two have met already, nothing changes. The one refusal
    /// is `NoMemory`: the two have not met then, and all else is as before. The changes between the epochs may not be
    /// trimmed.
    pub fn meet(
        &mut self,
        a: &Slices,
        i: usize,
        b: &Slices,
        j: usize,
        touched: &Touched,
    ) -> Result<(), NoMemory>
        requires first { i < length a.now.slices }
        requires second { j < length b.now.slices }
        ensures again { has_met self.old a.now.stream (start_of a.now i) b.now.stream (start_of b.now j) ≡ true → self.new ≡ self.old }
        ensures met { OnOk result ((s : StreamId) (c : ℕ) (t : StreamId) (d : ℕ) → has_met self.new s c t d ≡
            (is_name a.now.stream (start_of a.now i) b.now.stream (start_of b.now j) s c t d || has_met self.old s c t d)) }
        ensures pairs { OnOk result (has_met self.old a.now.stream (start_of a.now i) b.now.stream (start_of b.now j) ≡ false →
            ArePairsOf touched.now a.now i b.now j (kept_in self.new a.now.stream (start_of a.now i) b.now.stream (start_of b.now j))) }
        ensures others { (s : StreamId) (c : ℕ) (t : StreamId) (d : ℕ) →
            is_name a.now.stream (start_of a.now i) b.now.stream (start_of b.now j) s c t d ≡ false →
            kept_in self.new s c t d ≡ kept_in self.old s c t d }
        ensures met_err { OnErr result ((s : StreamId) (c : ℕ) (t : StreamId) (d : ℕ) →
            has_met self.new s c t d ≡ has_met self.old s c t d) }
        ensures kept_err { OnErr result ((s : StreamId) (c : ℕ) (t : StreamId) (d : ℕ) →
            kept_in self.new s c t d ≡ kept_in self.old s c t d) }
    {
        let (s, t) = (a.stream(), b.stream());
        let (first, second) = (a.start(i), b.start(j));
        if self.have_met(s, first, t, second) {
            return Ok(());
        }
        let pairs = pairs_of(self.alloc, a, i, b, j, touched, &mut self.looked)?;
        self.keep(s, first, t, second, pairs)
    }

    // Keeps the pairs of two slices that have not met.
    #[tactic(auto, unfolding(crate::specs::Joins::met_of))]
    fn keep(
        &mut self,
        s: StreamId,
        first: u64,
        t: StreamId,
        second: u64,
        pairs: Listed<Pair>,
    ) -> Result<(), NoMemory>
        requires { met_in self.old s first t second ≡ None }
        ensures ok { OnOk result ((u : StreamId) (c : ℕ) (v : StreamId) (d : ℕ) → met_in self.new u c v d ≡
            (if is_name s first t second u c v d then Some pairs else met_in self.old u c v d)) }
        ensures err { OnErr result ((u : StreamId) (c : ℕ) (v : StreamId) (d : ℕ) → met_in self.new u c v d ≡ met_in self.old u c v d) }
    {
        let place = lane_place(s, t);
        put_at(&mut self.lanes, place, self.alloc, first, second, pairs)
    }

    /// The pairs of records of a slot, in the order of the numbers of their rows, with the record of stream `left` on the
    /// left: of those slices of `a` and `b` that have met, and that both begin at `from` or later, and before `to`, in
    /// ticks. The one refusal is `NoMemory`.
    pub fn window(
        &self,
        a: &Slices,
        b: &Slices,
        left: StreamId,
        slot: u16,
        from: u64,
        to: u64,
    ) -> Result<Couples, NoMemory>
        requires { slot < 512 }
        ensures { IfOk result (λ couples. couples ≡
            by_numbers (shown_in self.now (window_of slot from to (place_of left == place_of b.now.stream)) a.now b.now)) }
    {
        let lane = self.lane(a.stream(), b.stream());
        let turned = place_of(left) == place_of(b.stream());
        let window = Window {
            slot,
            from,
            to,
            turned,
        };
        couples_of(self.alloc, lane, a, b, &window)
    }

    /// Lets the pairs go that have this slice on either side: it has not met then. Takes no memory.
    pub fn forget(&mut self, s: StreamId, start: u64)
        ensures met { (t : StreamId) (c : ℕ) (u : StreamId) (d : ℕ) → has_met self.new t c u d ≡
            (if has_slice s start t c u d then false else has_met self.old t c u d) }
        ensures kept { (t : StreamId) (c : ℕ) (u : StreamId) (d : ℕ) → kept_in self.new t c u d ≡
            (if has_slice s start t c u d then [] else kept_in self.old t c u d) }
    {
        forget_all(&mut self.lanes, place_of(s), start);
    }

    /// How many pairs of records are kept, of all names whose slices have met; 2^64 - 1 where they would be more.
    pub fn pairs(&self) -> u64
        ensures number { result ≡ min (number_of self.now) (2 ^ 64 - 1) }
        ensures listed { (s : StreamId) (c : ℕ) (t : StreamId) (d : ℕ) →
            count_by (is_named s c t d) (names_of self.now) ≡ (if has_met self.now s c t d then 1 else 0) }
    {
        count_all(&self.lanes)
    }
}
