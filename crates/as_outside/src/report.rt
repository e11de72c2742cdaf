ghost use Rattle.std.specs.Prelude.{◌≡◌};
ghost use Rattle.as_outside.specs.Report.{code};

use as_base::Numbers;

/// How a run ended.
#[derive(Clone, Copy, Debug, PartialEq, Eq)]
pub enum Status {
    /// The input was read to its end, and all that is due was put and said.
    Done,
    /// There was no memory.
    NoMemory,
    /// The words of the call are none that it knows; nothing was touched.
    Usage,
    /// Reading the input failed.
    ReadFault,
    /// Saying an answer failed.
    AnswerFault,
    /// Beginning an output, or putting on it, failed.
    OutputBroken,
    /// The input is longer than the limit.
    TooLong,
    /// Noting in the journal failed.
    JournalFault,
}

/// What a run reports: how it ended, how many lines it took, and the numbers of the broken outputs, rising.
#[derive(Debug, Drop)]
pub struct Report {
    pub status: Status,
    pub lines: u64,
    pub broken: Numbers,
}

/// The exit status that stands for how a run ended: 0 for `Done`, else 1 to 7.
pub fn code(status: Status) -> u8
    ensures { result ≡ code status }
{
    match status {
        Status::Done => 0,
        Status::NoMemory => 1,
        Status::Usage => 2,
        Status::ReadFault => 3,
        Status::AnswerFault => 4,
        Status::OutputBroken => 5,
        Status::TooLong => 6,
        Status::JournalFault => 7,
    }
}
