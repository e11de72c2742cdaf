ghost use Rattle.std.specs.Prelude.{ℕ, List, ⊤};

/// What a caller keeps true of the loads that were taken and of those in the queue, each with its feeder's number. The
/// inbox knows nothing of it, so that what it tells of it was so at a moment of the call.
pub trait Watch<T> {
    ghost sees: { List (ℕ × T) → List (ℕ × T) → Type 0 };
}

/// Nothing is watched.
pub struct Unwatched;

impl<T> Watch<T> for Unwatched {
    ghost sees = { λ taken items. ⊤ };
}
