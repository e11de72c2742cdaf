ghost use Rattle.std.specs.Prelude.{◌≡◌, ◌+◌, ◌*◌, ◌<◌, [], ◌∷◌, length, map, replicate, slice_index_or, slice_set};
ghost use Rattle.std.specs.Simd.Lanes.{mask_l};
ghost use Rattle.as_base.specs.Query.{holds_all};
ghost use Rattle.box_lanes.specs.Parts.{empty};

use crate::field::Field;
use as_base::{Bounds, Given};
use std::marker::Model;

// The bounds of 64 slots, field by field.
#[derive(Drop)]
pub(crate) struct Boxes {
    key: Field,
    v1: Field,
    v2: Field,
    v3: Field,
    v4: Field,
}

impl Model for Boxes {
    ghost use Rattle.std.specs.Prelude.{List};
    ghost use Rattle.as_base.specs.declared.query.Bounds.{Bounds};
    ghost use Rattle.box_lanes.specs.Parts.{boxes_of, AreColumns};

    ghost Value = { List Bounds };

    ghost view = { λ b. boxes_of b.key b.v1 b.v2 b.v3 b.v4 };

    ghost invariant = { λ b. AreColumns b.key b.v1 b.v2 b.v3 b.v4 };
}

impl Boxes {
    // Some bounds.
    pub(crate) fn new() -> Boxes
        ensures { result ≡ replicate 64 empty }
    {
        let key = Field::new();
        let v1 = Field::new();
        let v2 = Field::new();
        let v3 = Field::new();
        let v4 = Field::new();
        Boxes {
            key,
            v1,
            v2,
            v3,
            v4,
        }
    }

    // Gives a slot its bounds.
    pub(crate) fn put(&mut self, slot: usize, b: &Bounds)
        requires { slot < 64 }
        ensures slots { length self.old ≡ 64 }
        ensures value { self.new ≡ slice_set self.old slot b.now }
    {
        self.key.put(slot, b.lo[0], b.hi[0]);
        self.v1.put(slot, b.lo[1], b.hi[1]);
        self.v2.put(slot, b.lo[2], b.hi[2]);
        self.v3.put(slot, b.lo[3], b.hi[3]);
        self.v4.put(slot, b.lo[4], b.hi[4]);
    }

    // The bounds of a slot.
    pub(crate) fn bounds(&self, slot: usize) -> Bounds
        requires { slot < 64 }
        ensures slots { length self.now ≡ 64 }
        ensures value { result ≡ slice_index_or self.now slot empty }
    {
        let key = self.key.interval(slot);
        let v1 = self.v1.interval(slot);
        let v2 = self.v2.interval(slot);
        let v3 = self.v3.interval(slot);
        let v4 = self.v4.interval(slot);
        Bounds {
            lo: [key.0, v1.0, v2.0, v3.0, v4.0],
            hi: [key.1, v1.1, v2.1, v3.1, v4.1],
        }
    }

    // The slots whose bounds hold the record, as the bits of a word. No field ends the test early: a test that may end
    // early was measured slower.
    pub(crate) fn holding(&self, g: &Given) -> u64
        ensures slots { length self.now ≡ 64 }
        ensures value { result ≡ mask_l (map (λ b. holds_all b g.now) self.now) }
    {
        let _ = &self.key;
        let mut word = 0;
        for pair in 0..32 {
            word |= self.two(2 * pair, g) << (2 * pair);
        }
        word
    }

    // The same for two slots.
    #[inline(always)]
    fn two(&self, slot: usize, g: &Given) -> u64
        requires { slot + 1 < 64 }
        ensures slots { length self.now ≡ 64 }
        ensures value { result ≡ mask_l (
            holds_all (slice_index_or self.now slot empty) g.now
            ∷ holds_all (slice_index_or self.now (slot + 1) empty) g.now ∷ []) }
    {
        let front = self.v1.two(slot, g.v[0]) & self.v2.two(slot, g.v[1]);
        let back = self.v3.two(slot, g.v[2]) & self.v4.two(slot, g.v[3]);
        (self.key.two(slot, g.key) & front & back).to_bitmask()
    }
}
