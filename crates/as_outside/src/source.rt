ghost use Rattle.std.specs.Prelude.{◌≡◌, ◌<◌, ◌≤◌, ℕ, List, [], Some, length, take, OnErr, IfOk};
ghost use Rattle.as_outside.specs.Sources.{SourceSeen, Pulls};

use crate::Failed;
use as_base::Listed;

/// The sources of the feeders, in the order of the feeders.
pub type Feeds<F> = Listed<F>;

/// What gives bytes to a feeder. A pull answers `Failed` only where the count of failed pulls rose, or stands at a
/// counter's last value.
pub trait Source {
    /// The bytes that are left to be pulled, where they are told, and the count of failed pulls.
    ghost seen: { Self → SourceSeen };

    /// Moves bytes into the front of the buffer, and says how many: 0 at the end of input only. `Failed` moved none.
    fn pull(&mut self, buf: &mut [u8]) -> Result<usize, Failed>
        requires { 0 < length buf.old }
        ensures room { IfOk result (λ k. k ≤ length buf.old) }
        ensures size { length buf.new ≡ length buf.old }
        ensures ok { IfOk result (λ k. Pulls (seen self.old) (seen self.new) (take k buf.new) 0) }
        ensures end { IfOk result (λ k. k ≡ 0 → (rest : List ℕ) → (seen self.old).left ≡ Some rest → rest ≡ []) }
        ensures err { OnErr result (Pulls (seen self.old) (seen self.new) [] 1) };
}
