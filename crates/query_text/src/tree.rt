use as_base::{Col, Group, StreamId};

/// What is told of each group.
#[derive(Clone, Copy, Debug, PartialEq, Eq)]
pub enum Measure {
    /// The sum of a column.
    Sum(Col),
    /// The number of records.
    Count,
}

/// Windows as they are written.
#[derive(Clone, Copy, Debug, PartialEq, Eq)]
pub enum Window {
    /// One after another, of this size.
    Tumble(u64),
    /// Of this size, begun at each multiple of the slide.
    Slide(u64, u64),
}

/// A query up to its windows.
#[derive(Clone, Copy, Debug, PartialEq, Eq)]
pub enum Stem {
    Grouped(Measure, Group, StreamId),
    Joined(StreamId, StreamId),
}

/// A query up to its conditions.
#[derive(Clone, Copy, Debug, PartialEq, Eq)]
pub enum Head {
    Select(StreamId),
    Windowed(Stem, Window),
}

/// The first word of a query.
#[derive(Clone, Copy, Debug, PartialEq, Eq)]
pub enum Verb {
    Select,
    Sum,
    Count,
    Join,
}

/// The first word of windows.
#[derive(Clone, Copy, Debug, PartialEq, Eq)]
pub enum Shape {
    Tumble,
    Slide,
}

/// The stream that a condition is on.
#[derive(Clone, Copy, Debug, PartialEq, Eq)]
pub enum Side {
    Left,
    Right,
}
