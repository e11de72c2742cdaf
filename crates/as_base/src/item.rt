use crate::{StreamId, Text};

/// The time after every time, in ticks: 2^62. A time is below it.
pub const FOREVER: u64 = 4_611_686_018_427_387_904;

/// A record as its line gives it: its stream, its time in ticks, its key and its values v1 to v4.
#[derive(Clone, Copy, Debug, PartialEq, Eq)]
pub struct Given {
    pub stream: StreamId,
    pub time: u64,
    pub key: i64,
    pub v: [i64; 4],
}

/// An accepted record, with the number of its line, from 1.
#[derive(Clone, Copy, Debug, PartialEq, Eq)]
pub struct Record {
    pub seq: u64,
    pub given: Given,
}

/// Why a line is no item of any other kind.
#[derive(Clone, Copy, Debug, PartialEq, Eq)]
pub enum Cause {
    /// The line has more than 4,096 bytes.
    Long,
    /// The line is in none of the forms.
    Form,
}

/// What one line of the input says.
#[derive(Debug, Drop)]
pub enum Item {
    /// A record of a stream.
    Rec(Given),
    /// A watermark: no later record of the stream has a time below it.
    Mark(StreamId, u64),
    /// The end of a stream.
    End(StreamId),
    /// The creation of a query, with its text.
    Create(Text),
    /// The deletion of the query with this number.
    Delete(u64),
    /// A line that is none of these.
    Bad(Cause),
}
