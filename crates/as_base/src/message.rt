use crate::{Plan, Record};

/// A slot is opened for a query, or closed, at a changelog time in ticks.
#[derive(Clone, Copy, Debug, PartialEq, Eq)]
pub enum Change {
    /// Query `n` was created and has the slot.
    Opened {
        n: u64,
        slot: u16,
        at: u64,
        plan: Plan,
    },
    /// Query `n` was deleted, and its slot is free.
    Closed {
        n: u64,
        slot: u16,
        at: u64,
    },
}

/// What an accepted item is to the parts of an engine.
#[derive(Clone, Copy, Debug, PartialEq, Eq)]
pub enum Msg {
    /// A record.
    Rec(Record),
    /// The watermarks of the four streams after a watermark or an end, in ticks.
    Advance { wm: [u64; 4] },
    /// A slot was opened or closed.
    Change(Change),
}
