use as_base::Bytes;

/// One call on a shelf or a desk: which call it was, the bytes that were moved, and whether it failed.
#[derive(Debug, PartialEq, Eq, Drop)]
pub enum Entry {
    /// These bytes were pulled; none of them is the end of input.
    Pulled(Bytes),
    /// A pull failed.
    PullFailed,
    /// These bytes were said.
    Said(Bytes),
    /// A say failed after these bytes.
    SayFailed(Bytes),
    /// These bytes were noted in the journal.
    Noted(Bytes),
    /// A note failed after these bytes.
    NoteFailed(Bytes),
    /// The output with this number was begun.
    Begun(u64),
    /// The begin of this output failed.
    BeginFailed(u64),
    /// These bytes were put on the output.
    Put(u64, Bytes),
    /// A put on the output failed after these bytes.
    PutFailed(u64, Bytes),
}
