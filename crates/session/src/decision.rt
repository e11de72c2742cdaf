use as_base::{Answer, Change, Msg};

/// What becomes of an item.
#[derive(Clone, Copy, Debug, PartialEq, Eq)]
pub enum Decision {
    /// An accepted record, watermark or end, as the parts of an engine take it. It has no answer.
    Pass(Msg),
    /// A refused item, with its answer.
    Told(Answer),
    /// An accepted creation or deletion, with its answer and the change that it brings about.
    Acted(Answer, Change),
}
