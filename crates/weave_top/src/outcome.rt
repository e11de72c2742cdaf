ghost use Rattle.std.specs.Prelude.{◌≡◌};
ghost use Rattle.weave_top.specs.Outcome.{status_of, named_in, ended_by, named_by};

use as_outside::Status;
use inbox::Ending;
use service::{Broken, Stop};
use taker::Halt;

// The status of a halt; of a source that ended whole there is none.
fn status_of(halt: Halt) -> Status
    ensures { result ≡ status_of halt }
{
    match halt {
        Halt::Journal => Status::JournalFault,
        Halt::Line(Stop::NoMemory) => Status::NoMemory,
        Halt::Line(Stop::ReadFault) => Status::ReadFault,
        Halt::Line(Stop::AnswerFault) => Status::AnswerFault,
        Halt::Line(Stop::TooLong) => Status::TooLong,
        Halt::Feed(_, Ending::ReadFault) => Status::ReadFault,
        Halt::Feed(_, Ending::TooLong) => Status::TooLong,
        Halt::Feed(_, Ending::NoMemory | Ending::Whole) => Status::NoMemory,
    }
}

// The feeder that a halt names: the one whose source failed or is too long.
fn named_in(halt: Halt) -> Option<u8>
    ensures { result ≡ named_in halt }
{
    match halt {
        Halt::Feed(feeder, Ending::ReadFault | Ending::TooLong) => Some(feeder),
        _ => None,
    }
}

/// How a weave ends by its outcome and its broken outputs.
pub fn ended_by(outcome: Result<(), Halt>, broken: &Broken) -> Status
    ensures { result ≡ ended_by outcome broken.now.numbers.items }
{
    match outcome {
        Ok(()) if broken.numbers.is_empty() => Status::Done,
        Ok(()) => Status::OutputBroken,
        Err(halt) => status_of(halt),
    }
}

/// The feeder that it names, if it does.
pub fn named_by(outcome: Result<(), Halt>) -> Option<u8>
    ensures { result ≡ named_by outcome }
{
    match outcome {
        Ok(()) => None,
        Err(halt) => named_in(halt),
    }
}
