ghost use Rattle.service.specs.declared.stop.Stop.TheVariants as stop;
ghost use Rattle.std.specs.Prelude.{◌≡◌};

use as_base::NoMemory;

/// Why a run stopped before the end of its input. An output that breaks stops nothing.
#[derive(Clone, Copy, Debug, PartialEq, Eq)]
pub enum Stop {
    /// There was no memory.
    NoMemory,
    /// A pull failed.
    ReadFault,
    /// A say failed.
    AnswerFault,
    /// The byte after the limit was pulled.
    TooLong,
}

impl From<NoMemory> for Stop {
    ghost from_gives = { λ _ s. s ≡ stop.NoMemory };

    fn from(_: NoMemory) -> Self {
        Stop::NoMemory
    }
}
