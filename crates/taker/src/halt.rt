use inbox::Ending;
use service::Stop;

/// Why no more lines are noted and processed.
#[derive(Clone, Copy, Debug, PartialEq, Eq)]
pub enum Halt {
    /// A note failed.
    Journal,
    /// A line was stopped, or the ends of the streams, or the last lines: by want of memory or by a say that failed.
    Line(Stop),
    /// The last load of this feeder, 1 to 5, says that its source did not end whole.
    Feed(u8, Ending),
}
