ghost use Rattle.as_outside.specs.Makes.{Rose};

use as_outside::Failed;

/// Counts a fault; the count stays at its last value, 2^64 - 1.
pub fn raise(count: &mut u64) -> Failed
    ensures { Rose count.old count.new }
{
    *count = count.saturating_add(1);
    Failed
}
