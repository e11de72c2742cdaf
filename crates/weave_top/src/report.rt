use as_base::Numbers;
use as_outside::{Feeds, Status};
use inbox::Closed;

/// What a weave reports.
#[derive(Drop)]
pub struct WeaveReport<F> {
    /// How it ended.
    pub status: Status,
    /// How many lines of the journal were taken.
    pub lines: u64,
    /// The numbers of the broken outputs, rising.
    pub broken: Numbers,
    /// The feeder, 1 to 5, whose source failed or is too long, where the status says so.
    pub feeder: Option<u8>,
    /// The five sources as they were left, in the order of their feeders.
    pub feeds: Feeds<F>,
    /// The closed inbox; `None` where no source was touched and nothing was noted.
    pub closed: Option<Closed>,
}
