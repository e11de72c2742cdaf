ghost use Rattle.std.specs.Prelude.{◌≡◌, [], ◌++◌, ◌∷◌, length, OnErr, OnOk};
ghost use Rattle.std.specs.List.{list_any};
ghost use Rattle.queryset_lanes.specs.Slots.{meets};
ghost use Rattle.slice_store.specs.Placed.{placed, placed_of, records_of, sets_of, is_awaited, may_go};

use as_base::{NoMemory, Record};
use queryset_lanes::QuerySet;
use std::alloc::Global;
use std::marker::Model;

/// What a slice holds: its epoch, and what was placed in it.
#[derive(Drop)]
pub struct Held {
    pub epoch: u64,
    pub placed: Placements,
}

/// Records in order of placing, each with its set of query slots. Seen as the list of them.
#[derive(Drop)]
pub struct Placements {
    records: Vec<Record>,
    // The set of each record, at the record's place.
    sets: Vec<QuerySet>,
}

impl Model for Placements {
    ghost use Rattle.std.specs.Prelude.{◌≡◌, List, length};
    ghost use Rattle.slice_store.specs.Placed.{Placed, placed_of};

    ghost Value = { List Placed };

    ghost view = { λ p. placed_of p.records.items p.sets.items };

    ghost invariant = { λ p. length p.records.items ≡ length p.sets.items };
}

/// The most records that lists kept for later use have room for.
const ROOM_MAX: usize = 1024;

// The sets have a slot in common.
fn meet(a: &QuerySet, b: &QuerySet) -> bool
    ensures { result ≡ meets a.now b.now }
{
    !a.and(b).is_empty()
}

// A window or a selection still waits for the record.
fn is_awaited(r: &Record, set: &QuerySet, windows: &QuerySet, selects: &QuerySet, wm: u64) -> bool
    ensures { result ≡ is_awaited windows.now selects.now wm (placed r.now set.now) }
{
    meet(set, windows) || (wm <= r.given.time && meet(set, selects))
}

// One of the records, each with its set, is still awaited.
fn any_awaited(
    records: &[Record],
    sets: &[QuerySet],
    windows: &QuerySet,
    selects: &QuerySet,
    wm: u64,
) -> bool
    requires { length records.now ≡ length sets.now }
    ensures { result ≡ list_any (is_awaited windows.now selects.now wm) (placed_of records.now sets.now) }
{
    for place in 0..records.len() {
        if is_awaited(&records[place], &sets[place], windows, selects, wm) {
            return true;
        }
    }
    false
}

// Adds a record and a set; neither where there is no memory for both.
fn push_both(
    records: &mut Vec<Record>,
    sets: &mut Vec<QuerySet>,
    r: Record,
    set: QuerySet,
) -> Result<(), NoMemory>
    ensures records { OnOk result (records.new.items ≡ records.old.items ++ r ∷ []) }
    ensures sets { OnOk result (sets.new.items ≡ sets.old.items ++ set ∷ []) }
    ensures records_err { OnErr result (records.new.items ≡ records.old.items) }
    ensures sets_err { OnErr result (sets.new.items ≡ sets.old.items) }
{
    records.push(r)?;
    if sets.push(set).is_err() {
        records.pop();
        return Err(NoMemory);
    }
    Ok(())
}

impl Placements {
    /// Nothing yet. Takes no memory.
    pub fn new(alloc: Global) -> Placements
        ensures { result ≡ [] }
    {
        Placements {
            records: Vec::new(alloc),
            sets: Vec::new(alloc),
        }
    }

    /// Adds a record and its set. The one refusal is `NoMemory`, after which nothing has changed.
    pub fn push(&mut self, r: Record, set: QuerySet) -> Result<(), NoMemory>
        ensures ok { OnOk result (self.new ≡ self.old ++ placed r set ∷ []) }
        ensures err { OnErr result (self.new ≡ self.old) }
    {
        push_both(&mut self.records, &mut self.sets, r, set)
    }

    /// The records.
    pub fn records(&self) -> &[Record]
        ensures { result.now ≡ records_of self.now }
    {
        &self.records
    }

    /// The sets of the records.
    pub fn sets(&self) -> &[QuerySet]
        ensures { result.now ≡ sets_of self.now }
    {
        &self.sets
    }

    /// Nobody waits for any of the records: no set meets the windows, and no set of a record from the watermark on, in
    /// ticks, meets the selections.
    pub fn may_go(&self, windows: &QuerySet, selects: &QuerySet, wm: u64) -> bool
        ensures { result ≡ may_go windows.now selects.now wm self.now }
    {
        !any_awaited(&self.records, &self.sets, windows, selects, wm)
    }

    /// Lets all records go, and keeps the memory.
    pub fn clear(&mut self)
        ensures { self.new ≡ [] }
    {
        self.records.clear();
        self.sets.clear();
    }

    /// Whether the lists are small enough to be kept for later use.
    pub fn is_small(&self) -> bool {
        self.records.capacity() <= ROOM_MAX && self.sets.capacity() <= ROOM_MAX
    }
}
