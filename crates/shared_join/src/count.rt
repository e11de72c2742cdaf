ghost use Rattle.std.specs.Prelude.{◌≡◌, ◌-◌, ◌^◌, min};
ghost use Rattle.std.specs.List.{AllByRecursion, sum_by};
ghost use Rattle.by_start.specs.Order.{StartsRise};
ghost use Rattle.shared_join.specs.Names.{row_pairs, lane_pairs, IsInOrder};

use crate::lanes::{Lane, Row};

// How many pairs the row has; 2^64 - 1 where they would be more.
fn count_row(row: &Row) -> u64
    ensures number { result ≡ min (row_pairs row.now) (2 ^ 64 - 1) }
    ensures rise { StartsRise row.now }
{
    let mut count = 0u64;
    for place in 0..row.len() {
        count = count.saturating_add(row.thing(place).as_slice().len() as u64);
    }
    count
}

// How many pairs the lane has; 2^64 - 1 where they would be more.
fn count_lane(lane: &Lane) -> u64
    ensures number { result ≡ min (lane_pairs lane.now) (2 ^ 64 - 1) }
    ensures order { IsInOrder lane.now }
{
    let mut count = 0u64;
    for place in 0..lane.len() {
        count = count.saturating_add(count_row(lane.thing(place)));
    }
    count
}

/// How many pairs all lanes have; 2^64 - 1 where they would be more.
pub(crate) fn count_all(lanes: &[Lane]) -> u64
    ensures number { result ≡ min (sum_by lane_pairs lanes.now) (2 ^ 64 - 1) }
    ensures order { AllByRecursion IsInOrder lanes.now }
{
    let mut count = 0u64;
    for lane in lanes {
        count = count.saturating_add(count_lane(lane));
    }
    count
}
