//! Laws of slots and slices: who owns a slot, the set of a record, and where the slices of a stream begin.

ghost use Rattle.std.specs.Prelude.{ℕ, List, Some, true, ◌≡◌, ◌<◌, ◌^◌, IsTrue};
ghost use Rattle.std.specs.List.{AllByRecursion};
ghost use Rattle.as_base.specs.declared.item.Record.{Record};
ghost use Rattle.as_base.specs.declared.message.Change.{Change};
ghost use Rattle.as_base.specs.declared.stream.StreamId.{StreamId};
ghost use Rattle.views.specs.View.{reads};
ghost use Rattle.views.specs.Message.{changed};
ghost use Rattle.views.specs.Slots.{Holder, held, queries_of, lives_at, owner, set_of, is_windowed, cut, holds_in_life};
ghost use Rattle.views.specs.IsHolder.{time_of, begun, live_holder, IsUnended, IsSettled, LiveAlone, IsAmong};

/// A change does to the queries of the holders what it does to the queries of a view: a slot is all that holders add.
pub fn holders_hold_the_queries_of_views()
    ensures { (hs : List Holder) (c : Change) → queries_of (held hs c) ≡ changed (queries_of hs) c }
{}

/// A change leaves what was before it: where each slice of an earlier time begins, which query owned each slot then, by
/// number, plan and beginning, and so the set of each earlier record. It leaves live queries without an end.
pub fn changes_leave_earlier_slices()
    ensures cuts { (hs : List Holder) (c : Change) (s : StreamId) (t : ℕ) →
        AllByRecursion IsUnended hs → t < time_of c → t < 2 ^ 62 → cut (held hs c) s t ≡ cut hs s t }
    ensures owners { (hs : List Holder) (c : Change) (t slot : ℕ) →
        AllByRecursion IsUnended hs → t < time_of c → t < 2 ^ 62 → begun (owner (held hs c) t slot) ≡ begun (owner hs t slot) }
    ensures sets { (hs : List Holder) (c : Change) (r : Record) →
        AllByRecursion IsUnended hs → r.given.time < time_of c → r.given.time < 2 ^ 62 → set_of (held hs c) r ≡ set_of hs r }
    ensures unended { (hs : List Holder) (c : Change) → AllByRecursion IsUnended hs → AllByRecursion IsUnended (held hs c) }
{}

/// Where all changes came by a time, the owner then of a slot is the first of its holders that lives; and where no two
/// holders of a slot live at once, each that lives owns its slot.
pub fn live_queries_own_their_slots()
    ensures first { (hs : List Holder) (t slot : ℕ) →
        t < 2 ^ 62 → AllByRecursion (IsSettled t) hs → owner hs t slot ≡ live_holder hs slot }
    ensures each { (hs : List Holder) (h : Holder) (t : ℕ) →
        t < 2 ^ 62 → AllByRecursion (IsSettled t) hs → LiveAlone hs → IsAmong h hs → IsTrue h.query.live → owner hs t h.slot ≡ Some h }
{}

/// A window of a query, as far as it lies in the query's life, holds a time just where it holds the beginning of the slice
/// of that time, if the query lives then and reads the stream: a window is made of whole slices.
pub fn windows_go_by_slices()
    ensures { (hs : List Holder) (h : Holder) (s : StreamId) (t k : ℕ) →
        IsAmong h hs → is_windowed h.query.plan ≡ true → 0 < h.query.plan.win.slide →
        lives_at h.query t ≡ true → reads h.query.plan s ≡ true → holds_in_life h.query k t ≡ holds_in_life h.query k (cut hs s t) }
{}
