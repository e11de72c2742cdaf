//! The queries that a part still has to do with, by rising number.

ghost use Rattle.std.specs.Prelude.{◌≡◌, ◌<◌, ◌++◌, ℕ, true, [], ◌∷◌, List, map, min, nat_lt, OnOk};
ghost use Rattle.std.specs.List.{AllByRecursion};
ghost use Rattle.as_base.specs.declared.stream.StreamId.{StreamId};
ghost use Rattle.as_base.specs.Stream.{place_of};
ghost use Rattle.as_base.specs.Windows.{fits};
ghost use Rattle.views.specs.Slots.{opened_holder, closed_holder, held};
ghost use Rattle.changelog.specs.Changes.{slot_of};
ghost use Rattle.contents.specs.Past.{mark_of, mark_for};
ghost use Rattle.part_state.specs.Entries.{holder_of, holders_in, closed_entry, IsSafe, AreSafe, window_fits, is_running, running};

use as_base::{Change, FOREVER, NoMemory, Plan, StreamId};
use std::alloc::Global;
use std::marker::Model;

/// A query with its slot: its number, its plan, its life from a time up to another, in ticks, and whether it lives.
#[derive(Drop)]
pub(crate) struct Entry {
    pub(crate) n: u64,
    pub(crate) slot: u16,
    pub(crate) plan: Plan,
    pub(crate) from: u64,
    pub(crate) to: u64,
    pub(crate) live: bool,
}

/// Queries with their slots, by rising number. Seen as the list of them.
#[derive(Drop)]
pub(crate) struct Entries {
    entries: Vec<Entry>,
}

impl Model for Entries {
    ghost use Rattle.std.specs.Prelude.{List};
    ghost use Rattle.views.specs.Slots.{Holder};
    ghost use Rattle.part_state.specs.Entries.{holders_in, AreSafe};

    ghost Value = { List Holder };

    ghost view = { λ e. holders_in e.entries.items };

    ghost invariant = { λ e. AreSafe e.entries.items };
}

// The place of a stream.
fn place_of(s: StreamId) -> usize
    ensures place { result ≡ place_of s }
    ensures within { result < 4 }
{
    match s {
        StreamId::A => 0,
        StreamId::B => 1,
        StreamId::C => 2,
        StreamId::D => 3,
    }
}

/// The watermark of a stream.
pub(crate) fn mark_of(marks: &[u64; 4], s: StreamId) -> u64
    ensures { result ≡ mark_of marks.now s }
{
    marks[place_of(s)]
}

/// The least watermark of the streams that the query reads.
pub(crate) fn mark_for(e: &Entry, marks: &[u64; 4]) -> u64
    ensures { result ≡ mark_for marks.now (holder_of e.now).query }
{
    mark_of(marks, e.plan.left).min(mark_of(marks, e.plan.right))
}

// The query lives, or its watermark has not reached its end.
fn is_running(marks: &[u64; 4], e: &Entry) -> bool
    ensures { result ≡ is_running marks.now (holder_of e.now) }
{
    e.live || mark_for(e, marks) < e.to
}

impl Entry {
    // Ends the query's life, if it lives and has this number.
    fn close(&mut self, n: u64, at: u64)
        ensures { self.new ≡ closed_entry n at self.old }
    {
        if self.n == n && self.live {
            self.to = at;
            self.live = false;
        }
    }
}

// The same of each of the queries.
fn close_each(entries: &mut [Entry], n: u64, at: u64)
    ensures { entries.new ≡ map (closed_entry n at) entries.old }
{
    for entry in entries.iter_mut() {
        entry.close(n, at);
    }
}

fn close_all(entries: &mut Vec<Entry>, n: u64, at: u64)
    ensures closed { holders_in entries.new.items ≡ map (closed_holder n at) (holders_in entries.old.items) }
    ensures safe { AreSafe entries.old.items → AreSafe entries.new.items }
{
    close_each(entries, n, at);
}

// Lets the queries go that run no more.
fn retain(entries: &mut Vec<Entry>, marks: &[u64; 4])
    ensures running { holders_in entries.new.items ≡ running marks.now (holders_in entries.old.items) }
    ensures safe { AreSafe entries.old.items → AreSafe entries.new.items }
{
    entries.retain(|e: &Entry| is_running(marks, e));
}

// Adds a query that begins.
fn open(entries: &mut Vec<Entry>, n: u64, slot: u16, at: u64, plan: &Plan) -> Result<(), NoMemory>
    requires slot { slot < 512 }
    requires fits { fits plan.now.win ≡ true }
    ensures added { OnOk result (holders_in entries.new.items ≡ holders_in entries.old.items ++ opened_holder n slot at plan.now ∷ []) }
    ensures safe { AreSafe entries.old.items → AreSafe entries.new.items }
{
    entries.push(Entry {
        n,
        slot,
        plan: *plan,
        from: at,
        to: FOREVER,
        live: true,
    })?;
    Ok(())
}

impl Entries {
    /// No query. Takes no memory.
    pub(crate) fn new(alloc: Global) -> Entries
        ensures { result ≡ [] }
    {
        Entries {
            entries: Vec::new(alloc),
        }
    }

    /// Opens or closes a query, and lets queries go that run no more. After `NoMemory`, the one refusal, nothing has changed.
    pub(crate) fn change(&mut self, c: &Change, marks: &[u64; 4]) -> Result<(), NoMemory>
        requires slot { slot_of c.now < 512 }
        requires fits { window_fits c.now ≡ true }
        ensures { OnOk result (self.new ≡ running marks.now (held self.old c.now)) }
    {
        match c {
            Change::Opened { n, slot, at, plan } => {
                open(&mut self.entries, *n, *slot, *at, plan)?;
            }
            Change::Closed { n, at, .. } => close_all(&mut self.entries, *n, *at),
        }
        retain(&mut self.entries, marks);
        Ok(())
    }

    /// The queries.
    pub(crate) fn as_slice(&self) -> &[Entry]
        ensures queries { holders_in result.now ≡ self.now }
        ensures safe { AreSafe result.now }
    {
        &self.entries
    }

    /// Lets the queries go that run no more by these watermarks.
    pub(crate) fn retain_running(&mut self, marks: &[u64; 4])
        ensures { self.new ≡ running marks.now self.old }
    {
        retain(&mut self.entries, marks);
    }
}
