ghost use Rattle.std.specs.Prelude.{◌≡◌};
ghost use Rattle.as_base.specs.Query.{is_within, holds_front, holds_back, holds_all};

use crate::{Given, StreamId, WinSpec};

/// One of the four values of a record.
#[derive(Clone, Copy, Debug, PartialEq, Eq)]
pub enum Col {
    V1,
    V2,
    V3,
    V4,
}

/// What a query makes of its records.
#[derive(Clone, Copy, Debug, PartialEq, Eq)]
pub enum Kind {
    /// The records as they are.
    Select,
    /// The sums of a column, by window and group.
    Sum(Col),
    /// The numbers of records, by window and group.
    Count,
    /// The pairs of records of two streams with equal keys, by window.
    Join,
}

/// What the records of a window are grouped by.
#[derive(Clone, Copy, Debug, PartialEq, Eq)]
pub enum Group {
    /// The key.
    Key,
    /// A value.
    Col(Col),
    /// Nothing: all records are one group.
    All,
}

/// The least and the greatest number that each field may have, both included, in the order key, v1, v2, v3, v4. A
/// field whose least number is above its greatest is never within.
#[derive(Clone, Copy, Debug, PartialEq, Eq)]
pub struct Bounds {
    pub lo: [i64; 5],
    pub hi: [i64; 5],
}

/// What a query is to do. The right side is that of a join; other kinds ignore it.
#[derive(Clone, Copy, Debug, PartialEq, Eq)]
pub struct Plan {
    pub kind: Kind,
    pub group: Group,
    pub left: StreamId,
    pub right: StreamId,
    pub left_bounds: Bounds,
    pub right_bounds: Bounds,
    pub win: WinSpec,
}

/// The value is in the interval.
fn is_between(low: i64, value: i64, high: i64) -> bool
    ensures { result ≡ is_within low value high }
{
    low <= value && value <= high
}

impl Bounds {
    /// The first two values are in their intervals.
    fn holds_front(&self, v: &[i64; 4]) -> bool
        ensures { result ≡ holds_front self.now v.now }
    {
        is_between(self.lo[1], v[0], self.hi[1]) && is_between(self.lo[2], v[1], self.hi[2])
    }

    /// The last two values are in their intervals.
    fn holds_back(&self, v: &[i64; 4]) -> bool
        ensures { result ≡ holds_back self.now v.now }
    {
        is_between(self.lo[3], v[2], self.hi[3]) && is_between(self.lo[4], v[3], self.hi[4])
    }

    /// Each field of the record is in its interval.
    pub fn holds(&self, g: &Given) -> bool
        ensures { result ≡ holds_all self.now g.now }
    {
        is_between(self.lo[0], g.key, self.hi[0]) && self.holds_front(&g.v) && self.holds_back(&g.v)
    }
}
