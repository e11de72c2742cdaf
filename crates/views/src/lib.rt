//! Views: the queries, the accepted records and the watermarks after some input, and what each query has of them. The
//! definitions stand in `specs/`; the functions here are their laws.
#![tactic(auto)]

mod slots;

ghost use Rattle.std.specs.Prelude.{ℕ, ℤ, Bool, List, true, ◌≡◌, ◌==◌, ◌&&◌, ◌<ℤ◌};
ghost use Rattle.std.specs.List.{AllPairs, list_any, count_by, sum_by};
ghost use Rattle.std.specs.List.Sorted.{IsSortedBy, IsStrictlyIncreasing};
ghost use Rattle.std.specs.Ordering.{int_eq, is_lt};
ghost use Rattle.as_words.specs.Prefix.{IsPrefix};
ghost use Rattle.as_base.specs.Windows.{fits, in_window};
ghost use Rattle.as_base.specs.declared.fragment.Couple.{Couple};
ghost use Rattle.as_base.specs.declared.item.Given.{Given};
ghost use Rattle.as_base.specs.declared.item.Record.{Record};
ghost use Rattle.as_base.specs.declared.message.Change.{Change};
ghost use Rattle.as_base.specs.declared.message.Msg.{Msg};
ghost use Rattle.as_base.specs.declared.query.Group.{Group};
ghost use Rattle.as_base.specs.declared.windows.WinSpec.{WinSpec};
ghost use Rattle.views.specs.View.{View};
ghost use Rattle.views.specs.Passed.{windows_with};
ghost use Rattle.views.specs.Groups.{groups, group_of};
ghost use Rattle.views.specs.Pairs.{couple, compare, pairs};
ghost use Rattle.views.specs.Rows.{due_to, has_passed, rows_of};
ghost use Rattle.views.specs.Message.{after, Follows};
ghost use Rattle.views.specs.IsView.{IsView, first_view};

pub use slots::{
    changes_leave_earlier_slices, holders_hold_the_queries_of_views, live_queries_own_their_slots,
    windows_go_by_slices,
};

/// The windows that hold some of the records are numbered by rising number, each once: window k is among them just where
/// one of the records lies in it.
pub fn windows_are_those_that_hold_records()
    ensures rise { (w : WinSpec) (gs : List Given) → IsStrictlyIncreasing (windows_with w gs) }
    ensures hold { (w : WinSpec) (gs : List Given) (k : ℕ) → fits w ≡ true →
        list_any (λ j. j == k) (windows_with w gs) ≡ list_any (λ (g : Given). in_window w k g.time) gs }
{}

/// The groups of records stand by rising number, each once: a number is among them just where one of the records has it.
pub fn groups_are_those_of_records()
    ensures rise { (by : Group) (gs : List Given) → AllPairs ◌<ℤ◌ (groups by gs) }
    ensures hold { (by : Group) (gs : List Given) (z : ℤ) →
        list_any (λ y. int_eq y z) (groups by gs) ≡ list_any (λ (g : Given). int_eq (group_of by g) z) gs }
{}

/// The pairs of records stand by the numbers of their rows, and are just those of a left and a right record with equal
/// keys, each as often as these records come: for each test, as many pairs pass it as there are such pairs of records.
pub fn pairs_are_those_of_records()
    ensures rise { (lefts rights : List Given) → IsSortedBy (λ c d. is_lt (compare c d)) (pairs lefts rights) }
    ensures hold { (lefts rights : List Given) (p : Couple → Bool) → count_by p (pairs lefts rights)
        ≡ sum_by (λ (l : Given). count_by (λ (r : Given). int_eq l.key r.key && p (couple l r)) rights) lefts }
{}

/// What holds of every view holds of the first, and after each message that may follow.
pub fn messages_make_views()
    ensures first { IsView first_view }
    ensures after { (v : View) (m : Msg) → IsView v → Follows v m → IsView (after v m) }
{}

/// The rows that are due to a query stay due, with the same rows before them, and watermarks alone make more due: a
/// record or a change makes none.
pub fn due_rows_stay()
    ensures stay { (v : View) (m : Msg) (n : ℕ) → IsView v → Follows v m → IsPrefix (due_to v n) (due_to (after v m) n) }
    ensures record_none { (v : View) (r : Record) (n : ℕ) → IsView v → Follows v (Msg.Rec r) →
        due_to (after v (Msg.Rec r)) n ≡ due_to v n }
    ensures change_none { (v : View) (c : Change) (n : ℕ) → IsView v → Follows v (Msg.Change c) →
        due_to (after v (Msg.Change c)) n ≡ due_to v n }
{}

/// A window that the watermark of a query has passed stays passed, and its rows stay the same.
pub fn passed_windows_stay()
    ensures { (v : View) (m : Msg) (n k : ℕ) → IsView v → Follows v m → has_passed v n k ≡ true →
        (has_passed (after v m) n k ≡ true) × (rows_of (after v m) n k ≡ rows_of v n k) }
{}
