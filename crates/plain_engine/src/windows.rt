ghost use Rattle.std.specs.Prelude.{◌≡◌, ◌≤◌, ◌<◌, ◌*◌, ◌+◌, ◌^◌, nat_lt, nat_le, length, take, drop, true, IfSome};
ghost use Rattle.std.specs.List.{filter};
ghost use Rattle.as_base.specs.declared.item.Given.{Given};
ghost use Rattle.as_base.specs.Windows.{fits, start_of};
ghost use Rattle.views.specs.Passed.{windows_with, within};
ghost use Rattle.plain_engine.specs.Walk.{AreByTime, AreWaiting, next_from};

use as_base::{Given, WinSpec};

/// How many of the records, which stand by time, are before the time.
pub fn count_before(records: &[Given], time: u64) -> usize
    requires { AreByTime records.now }
    ensures bound { result ≤ length records.now }
    ensures before { take result records.now ≡ filter (λ (g : Given). nat_lt g.time time) records.now }
    ensures rest { drop result records.now ≡ filter (λ (g : Given). nat_le time g.time) records.now }
{
    records.partition_point(|given| given.time < time)
}

// The records from the time on, of records that stand by time.
fn from_time(records: &[Given], time: u64) -> &[Given]
    requires { AreByTime records.now }
    ensures value { result.now ≡ filter (λ (g : Given). nat_le time g.time) records.now }
    ensures order { AreByTime result.now }
{
    &records[count_before(records, time)..]
}

// The records before the time, of records that stand by time.
fn until_time(records: &[Given], time: u64) -> &[Given]
    requires { AreByTime records.now }
    ensures value { result.now ≡ filter (λ (g : Given). nat_lt g.time time) records.now }
{
    &records[..count_before(records, time)]
}

/// The records of window `k`, of records that stand by time.
pub fn window_records<'a>(win: &WinSpec, k: u64, records: &'a [Given]) -> &'a [Given]
    requires fits { fits win.now ≡ true }
    requires start { start_of win.now k < 2 ^ 63 }
    requires order { AreByTime records.now }
    ensures { result.now ≡ within win.now k records.now }
{
    let start = k * win.slide;
    until_time(from_time(records, start), start + win.size)
}

/// The first window from `k` on that holds one of the records, which stand by time.
pub fn next_window(win: &WinSpec, k: u64, records: &[Given]) -> Option<u64>
    requires fits { fits win.now ≡ true }
    requires start { start_of win.now k < 2 ^ 63 }
    requires waiting { AreWaiting records.now }
    ensures value { result ≡ next_from k (windows_with win.now records.now) }
    ensures start { IfSome result (λ next. start_of win.now next < 2 ^ 62) }
{
    let first = from_time(records, k * win.slide).first()?;
    Some(win.first_window(first.time).max(k))
}
