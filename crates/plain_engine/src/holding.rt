ghost use Rattle.std.specs.Prelude.{◌≡◌, ◌==◌, ◌++◌, ◌<◌, ◌≤◌, ◌*◌, ◌^◌, nat_lt, true, OnOk, OnErr};
ghost use Rattle.as_base.specs.declared.item.Given.{Given};
ghost use Rattle.as_base.specs.Range.{IsTime};
ghost use Rattle.as_base.specs.Stream.{place_of};
ghost use Rattle.as_base.specs.Windows.{fits};
ghost use Rattle.plain_engine.specs.Held.{is_join};
ghost use Rattle.plain_engine.specs.Holding.{newly_held, wants_on, wants_left, wants_right, with_given, ended, first_left, due_text, forgotten};

use crate::rows::append_windows;
use crate::waiting::Waiting;
use as_base::{Bounds, FOREVER, Given, Kind, NoMemory, Plan, StreamId};
use std::alloc::Global;
use std::marker::Model;

/// A query that may still get rows: its number, its plan, its life from a time up to but not including another, in
/// ticks, and those of its records that some window still wants, of a join on each side.
#[derive(Debug, Drop)]
pub struct Holding {
    n: u64,
    plan: Plan,
    from: u64,
    to: u64,
    lefts: Waiting,
    rights: Waiting,
}

impl Model for Holding {
    ghost use Rattle.std.specs.Prelude.{◌≡◌, ◌≤◌, ◌^◌, true};
    ghost use Rattle.as_base.specs.Windows.{fits};
    ghost use Rattle.plain_engine.specs.Held.{Held};

    ghost Value = { Held };

    ghost view = { λ h. record { n = h.n; plan = h.plan; from = h.from; to = h.to; lefts = h.lefts; rights = h.rights } };

    ghost invariant = { λ h. (fits h.plan.win ≡ true) × (h.to ≤ 2 ^ 62) };
}

// The streams are the same one.
fn is_same(one: StreamId, other: StreamId) -> bool
    ensures { result ≡ (place_of one == place_of other) }
{
    one == other
}

// Queries of this kind read a right stream beside the left one.
fn is_join(kind: Kind) -> bool
    ensures { result ≡ is_join kind }
{
    matches!(kind, Kind::Join)
}

impl Holding {
    /// A query that is opened at a time. It lives on.
    pub fn opened(alloc: Global, n: u64, plan: &Plan, at: u64) -> Holding
        requires { fits plan.now.win ≡ true }
        ensures { result ≡ newly_held n plan.now at }
    {
        Holding {
            n,
            plan: *plan,
            from: at,
            to: FOREVER,
            lefts: Waiting::new(alloc),
            rights: Waiting::new(alloc),
        }
    }

    /// Its number.
    pub fn number(&self) -> u64
        ensures { result ≡ self.now.n }
    {
        self.n
    }

    /// Its plan.
    pub fn plan(&self) -> &Plan
        ensures { result.now ≡ self.now.plan }
    {
        &self.plan
    }

    /// A query with this watermark may still get rows: the mark has not reached its end.
    pub fn awaits(&self, mark: u64) -> bool
        ensures { result ≡ nat_lt mark self.now.to }
    {
        mark < self.to
    }

    // The query wants the record of a stream that it reads within these bounds: it lives at its time, and they hold it.
    fn wants_on(&self, stream: StreamId, bounds: &Bounds, given: &Given) -> bool
        ensures value { result ≡ wants_on self.now stream bounds.now given.now }
        ensures time { result ≡ true → IsTime given.now.time }
    {
        is_same(given.stream, stream)
            && self.from <= given.time
            && given.time < self.to
            && bounds.holds(given)
    }

    // The query wants the record of its left stream.
    fn wants_left(&self, given: &Given) -> bool
        ensures value { result ≡ wants_left self.now given.now }
        ensures time { result ≡ true → IsTime given.now.time }
    {
        self.wants_on(self.plan.left, &self.plan.left_bounds, given)
    }

    // The query is a join, and wants the record of its right stream.
    fn wants_right(&self, given: &Given) -> bool
        ensures value { result ≡ wants_right self.now given.now }
        ensures time { result ≡ true → IsTime given.now.time }
    {
        is_join(self.plan.kind) && self.wants_on(self.plan.right, &self.plan.right_bounds, given)
    }

    /// Takes a record, if the query wants it. The one refusal is `NoMemory`, after which nothing has changed.
    pub fn take(&mut self, given: &Given) -> Result<(), NoMemory>
        ensures ok { OnOk result (self.new ≡ with_given given.now self.old) }
        ensures err { OnErr result (self.new ≡ self.old) }
    {
        if self.wants_left(given) {
            return self.lefts.put(given);
        }
        if self.wants_right(given) {
            return self.rights.put(given);
        }
        Ok(())
    }

    /// Ends the query's life at a time, if it has this number and does not end before.
    pub fn end(&mut self, n: u64, at: u64)
        ensures { self.new ≡ ended n at self.old }
    {
        if self.n == n {
            self.to = self.to.min(at);
        }
    }

    // The first window that the mark has not passed; one beyond all where it has reached the end of the query's life.
    fn first_left(&self, mark: u64) -> u64
        ensures value { result ≡ first_left self.now mark }
        ensures start { mark < self.now.to → result * self.now.plan.win.slide < 2 ^ 62 }
        ensures most { result ≤ 2 ^ 62 }
    {
        if self.to <= mark {
            return FOREVER;
        }
        self.plan.win.first_window(mark)
    }

    /// Appends the rows of the windows that the later mark passes and the first one has not, window by window. The one
    /// refusal is `NoMemory`, after which some rows are appended.
    pub fn append_due(
        &self,
        alloc: Global,
        mark: u64,
        later: u64,
        out: &mut Vec<u8>,
    ) -> Result<(), NoMemory>
        ensures { OnOk result (out.new.items ≡ out.old.items ++ due_text mark later self.now) }
    {
        if self.to <= mark {
            return Ok(());
        }
        let first = self.first_left(mark);
        let until = self.first_left(later);
        append_windows(
            alloc,
            &self.plan,
            first..until,
            self.lefts.as_slice(),
            self.rights.as_slice(),
            out,
        )
    }

    /// Lets the records go that no window wants after those that the mark has passed.
    pub fn forget(&mut self, mark: u64)
        ensures { self.new ≡ forgotten mark self.old }
    {
        if self.to <= mark {
            return;
        }
        let start = self.first_left(mark) * self.plan.win.slide;
        self.lefts.forget_before(start);
        self.rights.forget_before(start);
    }
}
