ghost use Rattle.std.specs.Prelude.{◌≡◌, ◌≤◌, ◌<◌, ◌+◌, ◌↔◌, ℕ, true};
ghost use Rattle.as_base.specs.declared.windows.WinSpec.{WinSpec};
ghost use Rattle.as_base.specs.Windows.{fits, first_window, last_window, in_window, last_edge, IsEdge};

/// Window k holds a time just where it is one of those from the first to the last, which are from 1 to 64 windows.
pub fn windows_hold_their_times()
    ensures holds { (w : WinSpec) (k t : ℕ) → fits w ≡ true → (in_window w k t ≡ true) ↔ ((first_window w t ≤ k) × (k ≤ last_window w t)) }
    ensures some { (w : WinSpec) (t : ℕ) → fits w ≡ true → first_window w t ≤ last_window w t }
    ensures few { (w : WinSpec) (t : ℕ) → fits w ≡ true → last_window w t < first_window w t + 64 }
{}

/// The last edge at a time is a start or an end of a window, it is not after the time, and of those it is the latest.
pub fn last_edges_are_the_latest()
    ensures edge { (w : WinSpec) (t : ℕ) → IsEdge w (last_edge w t) }
    ensures before { (w : WinSpec) (t : ℕ) → last_edge w t ≤ t }
    ensures latest { (w : WinSpec) (e t : ℕ) → fits w ≡ true → IsEdge w e → e ≤ t → e ≤ last_edge w t }
{}
