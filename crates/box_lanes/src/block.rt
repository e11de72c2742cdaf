ghost use Rattle.std.specs.Prelude.{◌≡◌, ◌<◌, IsTrue, None, Some, length, replicate, slice_index_or, slice_set};
ghost use Rattle.std.specs.Simd.Lanes.{mask_l};
ghost use Rattle.queryset_lanes.specs.Words.{word_slots};
ghost use Rattle.box_lanes.specs.Columns.{selected};

use crate::boxes::Boxes;
use as_base::{Bounds, Given};
use std::marker::Model;

// 64 slots, each of which may have bounds.
#[derive(Drop)]
pub(crate) struct Block {
    set: u64,
    boxes: Boxes,
}

impl Model for Block {
    ghost use Rattle.std.specs.Prelude.{◌≡◌, ◌<◌, ◌^◌, List, Option, length};
    ghost use Rattle.as_base.specs.declared.query.Bounds.{Bounds};
    ghost use Rattle.box_lanes.specs.Parts.{set_boxes};

    ghost Value = { List (Option Bounds) };

    ghost view = { λ b. set_boxes b.set b.boxes };

    ghost invariant = { λ b. (b.set < 2 ^ 64) × (length b.boxes ≡ 64) };
}

impl Block {
    // No slot has bounds.
    pub(crate) fn new() -> Block
        ensures { result ≡ replicate 64 None }
    {
        let boxes = Boxes::new();
        Block { set: 0, boxes }
    }

    // Gives a slot its bounds.
    pub(crate) fn set(&mut self, slot: u16, b: &Bounds)
        requires { slot < 64 }
        ensures slots { length self.old ≡ 64 }
        ensures value { self.new ≡ slice_set self.old slot (Some b.now) }
    {
        self.boxes.put(usize::from(slot), b);
        self.set |= 1u64 << slot;
    }

    // Takes the bounds of a slot away.
    pub(crate) fn clear(&mut self, slot: u16)
        requires { slot < 64 }
        ensures slots { length self.old ≡ 64 }
        ensures value { self.new ≡ slice_set self.old slot None }
    {
        self.set &= !(1u64 << slot);
    }

    // The bounds of a slot.
    pub(crate) fn bounds(&self, slot: u16) -> Option<Bounds>
        requires { slot < 64 }
        ensures slots { length self.now ≡ 64 }
        ensures value { result ≡ slice_index_or self.now slot None }
    {
        if (self.set >> slot) & 1 == 0 {
            return None;
        }
        Some(self.boxes.bounds(usize::from(slot)))
    }

    // Whether no slot has bounds.
    pub(crate) fn is_empty(&self) -> bool
        ensures { IsTrue result → self.now ≡ replicate 64 None }
    {
        self.set == 0
    }

    // The slots that are read and whose bounds hold the record, as the bits of a word.
    pub(crate) fn select(&self, g: &Given, reads: u64) -> u64
        ensures slots { length self.now ≡ 64 }
        ensures value { result ≡ mask_l (selected self.now (word_slots reads) g.now) }
    {
        let live = reads & self.set;
        if live == 0 {
            return 0;
        }
        live & self.boxes.holding(g)
    }
}
