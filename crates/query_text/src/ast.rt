use as_base::{Group, Kind, Listed, StreamId};

/// How a field is compared with a number.
#[derive(Clone, Copy, Debug, PartialEq, Eq)]
pub enum Op {
    /// `<`
    Lt,
    /// `<=`
    Le,
    /// `=`
    Eq,
    /// `>=`
    Ge,
    /// `>`
    Gt,
}

/// A condition on one field of a record: `field op value`. Field 0 is the key, 1 to 4 are v1 to v4.
#[derive(Clone, Copy, Debug, PartialEq, Eq)]
pub struct Cond {
    pub field: u8,
    pub op: Op,
    pub value: i64,
}

/// Conditions, all of which are to hold.
pub type Conds = Listed<Cond>;

/// A query as its text says it.
#[derive(Debug, Drop)]
pub struct Ast {
    pub kind: Kind,
    /// `All` for a selection and a join, which do not group.
    pub group: Group,
    pub left: StreamId,
    /// The second stream of a join; `None` for the other kinds.
    pub right: Option<StreamId>,
    /// Size and slide of the windows, in ticks, from 0 to 2^63 - 1 each; `None` for a selection.
    pub win: Option<(u64, u64)>,
    /// The conditions on `left`: those after `where`, or after `left` in a join.
    pub left_conds: Conds,
    /// The conditions on `right`: those after `right` in a join.
    pub right_conds: Conds,
}

/// Why no tree was read.
#[derive(Clone, Copy, Debug, PartialEq, Eq)]
pub enum TextFault {
    /// The place, from 1, of the first word such that no query text begins with the words up to and including it; one
    /// more than the number of words where the text ends too early.
    Syntax(u32),
    /// There was no memory for the conditions.
    NoMemory,
}
