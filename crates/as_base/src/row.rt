use crate::Given;

/// A row of an output.
#[derive(Clone, Copy, Debug, PartialEq, Eq)]
pub enum Row {
    /// A selected record.
    Sel(Given),
    /// What a sum or a count makes of a group in the window from `start` up to, but not including, `end`, in ticks.
    Agg {
        start: u64,
        end: u64,
        /// The group; `None` where all records are one.
        group: Option<i64>,
        value: i128,
    },
    /// A left and a right record with equal keys in one window.
    Pair {
        start: u64,
        end: u64,
        left: Given,
        right: Given,
    },
}
