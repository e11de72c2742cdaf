use as_base::Item;

/// How a feeder's input ended.
#[derive(Clone, Copy, Debug, PartialEq, Eq)]
pub enum Ending {
    /// It was read to its end.
    Whole,
    /// A read failed.
    ReadFault,
    /// It is longer than its limit.
    TooLong,
    /// There was no memory for a part of it.
    NoMemory,
}

/// What a feeder hands to the taker.
#[derive(Debug, Drop)]
pub enum Load {
    /// What one line of the input says.
    Line(Item),
    /// The end of the feeder's input.
    Last(Ending),
}

/// The load that an inbox had no room for.
#[derive(Debug, Drop)]
pub struct Full(pub Load);
