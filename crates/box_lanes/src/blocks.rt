ghost use Rattle.std.specs.Prelude.{◌≡◌, ◌<◌, IfOk, IsTrue, None, Some, length, replicate, slice_index_or, slice_set};
ghost use Rattle.box_lanes.specs.Columns.{selected};

use crate::block::Block;
use as_base::{Bounds, Given, NoMemory};
use queryset_lanes::QuerySet;
use std::alloc::Global;
use std::marker::Model;

// The bounds of 512 slots, in blocks of 64: contracts see for each slot its bounds, or `None`.
#[derive(Drop)]
pub(crate) struct Blocks {
    blocks: Vec<Block>,
}

impl Model for Blocks {
    ghost use Rattle.std.specs.Prelude.{List, Option};
    ghost use Rattle.as_base.specs.declared.query.Bounds.{Bounds};
    ghost use Rattle.box_lanes.specs.Parts.{joined, IsBlocks};

    ghost Value = { List (Option Bounds) };

    ghost view = { λ c. joined c.blocks.items };

    ghost invariant = { λ c. IsBlocks c.blocks.items };
}

impl Blocks {
    // 512 slots without bounds, with all the memory that they will ever take.
    pub(crate) fn new(alloc: Global) -> Result<Blocks, NoMemory>
        ensures { IfOk result (λ c. c ≡ replicate 512 None) }
    {
        let mut blocks = Vec::with_capacity(alloc, 8)?;
        for place in 0..8usize {
            blocks.push(Block::new())?;
        }
        Ok(Blocks { blocks })
    }

    // Gives a slot its bounds, in place of those that it may have had.
    pub(crate) fn set(&mut self, slot: u16, b: &Bounds)
        requires { slot < 512 }
        ensures slots { length self.old ≡ 512 }
        ensures value { self.new ≡ slice_set self.old slot (Some b.now) }
    {
        self.blocks[usize::from(slot / 64)].set(slot % 64, b);
    }

    // Takes the bounds of a slot away, if it has any.
    pub(crate) fn clear(&mut self, slot: u16)
        requires { slot < 512 }
        ensures slots { length self.old ≡ 512 }
        ensures value { self.new ≡ slice_set self.old slot None }
    {
        self.blocks[usize::from(slot / 64)].clear(slot % 64);
    }

    // The bounds of a slot.
    pub(crate) fn bounds(&self, slot: u16) -> Option<Bounds>
        requires { slot < 512 }
        ensures slots { length self.now ≡ 512 }
        ensures value { result ≡ slice_index_or self.now slot None }
    {
        self.blocks[usize::from(slot / 64)].bounds(slot % 64)
    }

    // Whether no slot has bounds.
    pub(crate) fn is_empty(&self) -> bool
        ensures { IsTrue result → self.now ≡ replicate 512 None }
    {
        for place in 0..8usize {
            if !self.blocks[place].is_empty() {
                return false;
            }
        }
        true
    }

    // The slots that are read and whose bounds hold the record.
    pub(crate) fn select(&self, g: &Given, reads: &QuerySet) -> QuerySet
        ensures slots { (length self.now ≡ 512) × (length reads.now ≡ 512) }
        ensures value { result ≡ selected self.now reads.now g.now }
    {
        let mut words = reads.words();
        for place in 0..8 {
            words[place] = self.blocks[place].select(g, words[place]);
        }
        QuerySet::from_words(words)
    }
}
