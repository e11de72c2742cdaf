ghost use Rattle.std.specs.Prelude.{◌≡◌, ◌+◌, ◌*◌, ◌<◌, [], ◌∷◌, length, replicate, slice_index_or, slice_set};
ghost use Rattle.box_lanes.specs.Parts.{nothing, lane, is_inside};

use std::marker::Model;
use std::simd::prelude::*;

// The intervals that 64 slots have for one field: the least numbers, and the greatest.
#[derive(Drop)]
pub(crate) struct Field {
    low: [i64; 64],
    high: [i64; 64],
}

impl Model for Field {
    ghost use Rattle.std.specs.Prelude.{List};
    ghost use Rattle.box_lanes.specs.Parts.{Interval, intervals, IsField};

    ghost Value = { List Interval };

    ghost view = { λ f. intervals f.low f.high };

    ghost invariant = { λ f. IsField f.low f.high };
}

impl Field {
    // Some intervals.
    pub(crate) fn new() -> Field
        ensures { result ≡ replicate 64 nothing }
    {
        Field {
            low: [0; 64],
            high: [0; 64],
        }
    }

    // Gives a slot the interval of these two numbers.
    pub(crate) fn put(&mut self, slot: usize, low: i64, high: i64)
        requires { slot < 64 }
        ensures slots { length self.old ≡ 64 }
        ensures value { self.new ≡ slice_set self.old slot (record { low = low; high = high }) }
    {
        self.low[slot] = low;
        self.high[slot] = high;
    }

    // The least number and the greatest that a slot has.
    pub(crate) fn interval(&self, slot: usize) -> (i64, i64)
        requires { slot < 64 }
        ensures slots { length self.now ≡ 64 }
        ensures value { slice_index_or self.now slot nothing ≡ record { low = result.0; high = result.1 } }
    {
        (self.low[slot], self.high[slot])
    }

    // This slot and the next: a lane of ones where the value is in the interval of the slot.
    #[inline(always)]
    pub(crate) fn two(&self, slot: usize, value: i64) -> mask64x2
        requires { slot + 1 < 64 }
        ensures slots { length self.now ≡ 64 }
        ensures value { result ≡
            lane (is_inside (slice_index_or self.now slot nothing) value)
            ∷ lane (is_inside (slice_index_or self.now (slot + 1) nothing) value) ∷ [] }
    {
        let low = i64x2::from_slice(&self.low[slot..]);
        let high = i64x2::from_slice(&self.high[slot..]);
        let value = i64x2::splat(value);
        low.simd_le(value) & value.simd_le(high)
    }
}
