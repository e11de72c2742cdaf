ghost use Rattle.std.specs.Prelude.{◌≡◌, ◌<◌, IfOk, None, Some, length, replicate, slice_set};
ghost use Rattle.box_lanes.specs.Columns.{selected};

use crate::blocks::Blocks;
use crate::indexes::Indexes;
use as_base::{Bounds, Given, NoMemory};
use queryset_lanes::QuerySet;
use std::alloc::Global;
use std::marker::Model;

// Room for the starts that 512 intervals of a field need: the two ends of each, and the least number of all.
const ROOM: usize = 2 * 512 + 1;

/// The bounds of up to 512 query slots, in columns with an index of each field beside them: contracts see for each slot
/// its bounds, or `None`. Bounds that no record is within are bounds too. No call but `new` takes memory.
#[derive(Drop)]
pub struct Columns {
    blocks: Blocks,
    indexes: Indexes,
}

impl Model for Columns {
    ghost use Rattle.std.specs.Prelude.{List, Option};
    ghost use Rattle.as_base.specs.declared.query.Bounds.{Bounds};
    ghost use Rattle.box_lanes.specs.Indexed.{AreIndexed};

    ghost Value = { List (Option Bounds) };

    ghost view = { λ c. c.blocks };

    ghost invariant = { λ c. AreIndexed c.indexes c.blocks };
}

impl Columns {
    /// 512 slots without bounds, with all the memory that they will ever take.
    pub fn new(alloc: Global) -> Result<Columns, NoMemory>
        ensures { IfOk result (λ c. c ≡ replicate 512 None) }
    {
        Columns::with_room(alloc, ROOM)
    }

    // The same with room for so many starts in the index of each field. Where it does not do, the slots that hold a
    // record are computed by lanes, until no slot has bounds.
    pub(crate) fn with_room(alloc: Global, room: usize) -> Result<Columns, NoMemory>
        ensures { IfOk result (λ c. c ≡ replicate 512 None) }
    {
        let blocks = Blocks::new(alloc)?;
        let indexes = Indexes::new(alloc, room)?;
        Ok(Columns { blocks, indexes })
    }

    /// Gives a slot its bounds, in place of those that it may have had.
    pub fn set(&mut self, slot: u16, b: &Bounds)
        requires { slot < 512 }
        ensures slots { length self.old ≡ 512 }
        ensures value { self.new ≡ slice_set self.old slot (Some b.now) }
    {
        self.clear(slot);
        self.indexes.mark(slot, b, true);
        self.blocks.set(slot, b);
    }

    /// Takes the bounds of a slot away, if it has any.
    pub fn clear(&mut self, slot: u16)
        requires { slot < 512 }
        ensures slots { length self.old ≡ 512 }
        ensures value { self.new ≡ slice_set self.old slot None }
    {
        let Some(b) = self.blocks.bounds(slot) else {
            return;
        };
        self.indexes.mark(slot, &b, false);
        self.blocks.clear(slot);
        if !self.indexes.is_whole() && self.blocks.is_empty() {
            self.indexes.reset();
        }
    }

    /// The slots that are read and whose bounds hold the record.
    pub fn select(&self, g: &Given, reads: &QuerySet) -> QuerySet
        ensures slots { (length self.now ≡ 512) × (length reads.now ≡ 512) }
        ensures value { result ≡ selected self.now reads.now g.now }
    {
        if self.indexes.is_whole() {
            return self.indexes.look(g).and(reads);
        }
        self.blocks.select(g, reads)
    }
}
