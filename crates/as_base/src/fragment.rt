use crate::{Cells, Couples, Fragments, Given, Plan, Recs};

/// What the records of one group add up to. A query that does not group has the one group 0.
#[derive(Clone, Copy, Debug, PartialEq, Eq)]
pub struct Cell {
    pub group: i64,
    /// The sum of the column; 0 for a count.
    pub sum: i128,
    /// How many records they are.
    pub count: u64,
}

/// A left and a right record that were joined.
#[derive(Clone, Copy, Debug, PartialEq, Eq)]
pub struct Couple {
    pub left: Given,
    pub right: Given,
}

/// What a part has of a window.
#[derive(Debug, PartialEq, Eq, Drop)]
pub enum Body {
    /// The records of a selection.
    Recs(Recs),
    /// The cells of a sum or a count.
    Cells(Cells),
    /// The couples of a join.
    Couples(Couples),
}

/// What a part has of the window that begins at `start`, in ticks, for query `n`. That of a selection has `start` 0.
#[derive(Debug, PartialEq, Eq, Drop)]
pub struct Fragment {
    pub n: u64,
    pub plan: Plan,
    pub start: u64,
    pub body: Body,
}

/// What a part answers to an advance of the watermarks.
#[derive(Debug, PartialEq, Eq, Drop)]
pub struct Reply {
    pub fragments: Fragments,
}

/// How much is held: records, cells and joined pairs.
#[derive(Clone, Copy, Debug, PartialEq, Eq)]
pub struct Held {
    pub records: u64,
    pub cells: u64,
    pub pairs: u64,
}
