ghost use Rattle.std.specs.Prelude.{◌≡◌, ◌<◌, ◌+◌, ◌^◌, min};
ghost use Rattle.as_base.specs.Windows.{last_edge};
ghost use Rattle.views.specs.View.{reads};
ghost use Rattle.views.specs.Slots.{has_windows};
ghost use Rattle.changelog.specs.Changes.{edge_of};
ghost use Rattle.changelog.specs.Ends.{next_multiple, next_edge, edge_after};

use as_base::{FOREVER, Kind, Plan, StreamId, WinSpec};

/// Queries of this kind have windows: all but selections.
fn has_windows(kind: Kind) -> bool
    ensures { result ≡ has_windows kind }
{
    !matches!(kind, Kind::Select)
}

/// The plan reads the stream.
fn reads(plan: &Plan, s: StreamId) -> bool
    ensures { result ≡ reads plan.now s }
{
    plan.left == s || plan.right == s
}

/// The latest edge that is not after the time, of any windows: of those that never move on, the two of the first one.
fn last_edge(win: &WinSpec, t: u64) -> u64
    ensures { result ≡ last_edge win.now t }
{
    if win.slide == 0 {
        return if t < win.size { 0 } else { win.size };
    }
    let start = t - t % win.slide;
    if t < win.size {
        return start;
    }
    let end = t - (t - win.size) % win.slide;
    start.max(end)
}

/// The latest edge that is not after the time, of the windows that the owner of a slot has on a stream.
pub fn edge_of(holder: &Option<(u64, Plan)>, s: StreamId, t: u64) -> u64
    ensures { result ≡ edge_of s t holder.now }
{
    match holder {
        Some((_, plan)) => {
            if has_windows(plan.kind) && reads(plan, s) {
                last_edge(&plan.win, t)
            } else {
                0
            }
        }
        None => 0,
    }
}

/// The first multiple of a slide that is after the number, and `FOREVER` where the slide is 0; `shift` more, at most
/// `FOREVER`.
fn next_multiple(slide: u64, n: u64, shift: u64) -> u64
    requires { n + shift < 2 ^ 62 }
    ensures { result ≡ min (next_multiple slide n + shift) (2 ^ 62) }
{
    if slide == 0 {
        return FOREVER;
    }
    let past = n - n % slide + shift;
    past.saturating_add(slide).min(FOREVER)
}

/// The first edge after the time, of any windows.
fn next_edge(win: &WinSpec, t: u64) -> u64
    requires { t < 2 ^ 62 }
    ensures { result ≡ next_edge win.now t }
{
    let start = next_multiple(win.slide, t, 0);
    if t < win.size {
        return start.min(win.size);
    }
    start.min(next_multiple(win.slide, t - win.size, win.size))
}

/// The first edge after the time, of the windows that the owner of a slot has on a stream.
pub fn edge_after(holder: &Option<(u64, Plan)>, s: StreamId, t: u64) -> u64
    requires { t < 2 ^ 62 }
    ensures { result ≡ edge_after s t holder.now }
{
    match holder {
        Some((_, plan)) => {
            if has_windows(plan.kind) && reads(plan, s) {
                next_edge(&plan.win, t)
            } else {
                FOREVER
            }
        }
        None => FOREVER,
    }
}
