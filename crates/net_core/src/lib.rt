//! What the parts of an engine are sent, and the machine of all schedules. The definitions stand in `specs/`; the functions
//! here are their laws.
#![tactic(auto)]

mod merging;

ghost use Rattle.std.specs.Prelude.{◌≡◌, ℕ, ◌<◌, ◌^◌, true, List, [], ◌∷◌, ◌++◌, map, length, take, count_by};
ghost use Rattle.std.specs.List.{filter, AllByRecursion};
ghost use Rattle.as_base.specs.declared.config.Config.{Config};
ghost use Rattle.as_base.specs.declared.item.Item.{Item};
ghost use Rattle.as_base.specs.Config.{fits, is_configured};
ghost use Rattle.as_base.specs.Pieces.{ArePieces, bytes_for};
ghost use Rattle.as_base.specs.Range.{InRange};
ghost use Rattle.views.specs.Slots.{queries_of};
ghost use Rattle.contents.specs.Orderly.{AreOrderly};
ghost use Rattle.contents.specs.Past.{past_of};
ghost use Rattle.session.specs.Book.{book};
ghost use Rattle.session.specs.Holders.{holders};
ghost use Rattle.session.specs.View.{view, text_of};
ghost use Rattle.net_core.specs.Bounds.{IsPlaced, IsWithin};
ghost use Rattle.net_core.specs.Due.{due, dues};
ghost use Rattle.net_core.specs.Machine.{Event, start, is_advance, run};
ghost use Rattle.net_core.specs.Part.{in_part};
ghost use Rattle.net_core.specs.Sent.{goes_to, sent_by, sent};

pub use merging::replies_make_what_is_due;

/// One item more sends what it gives by those before it.
pub fn sent_is_said_item_by_item()
    ensures { (c : Config) (h : List Item) (x : Item) (p : ℕ) → sent c (h ++ x ∷ []) p ≡ sent c h p ++ sent_by c h x p }
{}

/// What was sent to a part makes the queries of the book, with the slots that they hold, the watermarks of the view, and of
/// its records those whose keys go to the part, in the same order.
pub fn parts_take_what_views_take()
    ensures queries { (c : Config) (h : List Item) (p : ℕ) → queries_of (past_of (sent c h p)).holders ≡ book c h }
    ensures slots { (c : Config) (h : List Item) (p : ℕ) → (past_of (sent c h p)).holders ≡ map in_part (holders c h) }
    ensures marks { (c : Config) (h : List Item) (p : ℕ) → (past_of (sent c h p)).marks ≡ (view c h).marks }
    ensures records { (c : Config) (h : List Item) (p : ℕ) → (past_of (sent c h p)).records ≡ filter (goes_to c p) (view c h).records }
{}

/// What is sent to a part may come to it, one message after another: of a configuration in its ranges, and of items in
/// theirs, fewer than 2^62.
pub fn what_is_sent_is_orderly()
    ensures { (c : Config) (h : List Item) (p : ℕ) → fits c ≡ true → length h < 2 ^ 62 → AllByRecursion InRange h →
        AreOrderly (is_configured c) (sent c h p) }
{}

/// What a part has taken of it at any time is orderly too.
pub fn what_was_taken_is_orderly()
    ensures { (c : Config) (h : List Item) (p n : ℕ) → fits c ≡ true → length h < 2 ^ 62 → AllByRecursion InRange h →
        AreOrderly (is_configured c) (take n (sent c h p)) }
{}

/// Each part is sent one advance for each accepted watermark or end.
pub fn advances_go_to_every_part()
    ensures { (c : Config) (h : List Item) (p : ℕ) → count_by is_advance (sent c h p) ≡ length (dues c h) }
{}

/// The numbers of each part stay within their bounds, whatever events come.
pub fn positions_stay_within_bounds()
    ensures { (c : Config) (events : List Event) (p : ℕ) → AllByRecursion (IsPlaced c) events → p < c.parts →
        IsWithin c (run c (start c) events) p }
{}

/// The pieces that an item makes due stand by rising query number, none is empty, and each output has those bytes more.
pub fn outputs_grow_by_what_is_due()
    ensures pieces { (c : Config) (h : List Item) (x : Item) → ArePieces (due c h x) }
    ensures text { (c : Config) (h : List Item) (x : Item) (n : ℕ) → AllByRecursion InRange h → InRange x →
        text_of c (h ++ x ∷ []) n ≡ text_of c h n ++ bytes_for n (due c h x) }
{}
