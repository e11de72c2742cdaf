ghost use Rattle.std.specs.Prelude.{◌<◌, ◌^◌};

use as_base::{Bounds, Cell, Given, StreamId};

/// v1 is below this.
const RANGE: u64 = 1 << 31;

/// How much of the range of v1 the bounds of a slot hold.
const WIDTH: u64 = RANGE / 64;

/// How many ticks a window has; a record comes at each tick.
pub(crate) const WINDOW: u64 = 1000;

/// How many keys there are.
const KEYS: u64 = 1000;

/// Numbers that look drawn, the same ones each time.
#[derive(Drop)]
pub(crate) struct Numbers {
    state: u64,
}

impl Numbers {
    /// The first number is made of this one.
    pub(crate) fn from(seed: u64) -> Numbers {
        Numbers { state: seed }
    }

    /// The next number, below 2^31.
    pub(crate) fn next(&mut self) -> u64
        ensures { result < 2 ^ 31 }
    {
        self.state = self
            .state
            .wrapping_mul(6_364_136_223_846_793_005)
            .wrapping_add(1_442_695_040_888_963_407);
        self.state >> 33
    }
}

/// The bounds of a slot, of so many: v1 is in a part of its range, the parts of all slots are spread over the range, and no
/// two of them begin or end at one number; every other field may have each number.
pub(crate) fn bounds_of(slot: u16, slots: u16) -> Bounds {
    let step = RANGE / u64::from(slots.max(1));
    let low = (u64::from(slot) * (step + 1)) as i64;
    let high = low + (WIDTH as i64 - 1);
    Bounds {
        lo: [i64::MIN, low, i64::MIN, i64::MIN, i64::MIN],
        hi: [i64::MAX, high, i64::MAX, i64::MAX, i64::MAX],
    }
}

/// A record of stream a at a time, with a key and values of the next five numbers.
pub(crate) fn record_at(time: u64, numbers: &mut Numbers) -> Given {
    let key = (numbers.next() % KEYS) as i64;
    let v1 = numbers.next() as i64;
    let v2 = numbers.next() as i64;
    let v3 = numbers.next() as i64;
    let v4 = numbers.next() as i64;
    Given {
        stream: StreamId::A,
        time,
        key,
        v: [v1, v2, v3, v4],
    }
}

/// The checksum with one set more.
pub(crate) fn mixed(sum: u64, words: &[u64; 8]) -> u64 {
    let mut mixed = sum;
    for word in words {
        mixed = mixed.rotate_left(5) ^ *word;
    }
    mixed
}

/// The checksum with some cells more.
pub(crate) fn mixed_cells(sum: u64, cells: &[Cell]) -> u64 {
    let mut mixed = sum;
    for cell in cells {
        let group = cell.group.cast_unsigned();
        let total = u64::try_from(cell.sum).unwrap_or(0);
        let parts = cell.count.wrapping_mul(31) ^ group ^ total.wrapping_mul(7);
        mixed = mixed.rotate_left(5) ^ parts;
    }
    mixed
}
