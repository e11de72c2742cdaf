ghost use Rattle.std.specs.Prelude.{◌≡◌, ℕ, true, false, [], ◌∷◌, ◌++◌, List, Some, None, length, count_by};
ghost use Rattle.std.specs.List.{range_with_len, AllByRecursion};
ghost use Rattle.as_words.specs.Prefix.{IsPrefix};
ghost use Rattle.as_base.specs.Range.{InRange};
ghost use Rattle.as_base.specs.declared.config.Config.{Config};
ghost use Rattle.as_base.specs.declared.item.Item.{Item};
ghost use Rattle.as_base.specs.declared.message.Msg.{Msg};
ghost use Rattle.views.specs.Alike.{AreAlike};
ghost use Rattle.views.specs.IsView.{IsView};
ghost use Rattle.views.specs.Message.{after, Follows};
ghost use Rattle.views.specs.Query.{Query};
ghost use Rattle.views.specs.Rows.{has_passed, rows_of};
ghost use Rattle.session.specs.Answers.{answers, answer_to};
ghost use Rattle.session.specs.Book.{book, numbers};
ghost use Rattle.session.specs.Holders.{queries_of, holders, slots_of};
ghost use Rattle.session.specs.Message.{message};
ghost use Rattle.session.specs.Outcome.{created};
ghost use Rattle.session.specs.Prints.{prints};
ghost use Rattle.session.specs.Shut.{shut};
ghost use Rattle.session.specs.View.{view, text_of};

/// The queries that any items made are numbered 1, 2, and so on, in the order of their making, and an item makes those
/// that its answer tells the creation of.
pub fn queries_are_numbered_in_order()
    ensures numbers { (c : Config) (h : List Item) → numbers c h ≡ range_with_len 1 (length (book c h)) }
    ensures told { (c : Config) (h : List Item) (x : Item) → numbers c (h ++ x ∷ []) ≡ numbers c h ++ created (answer_to c h x) }
{}

/// The queries that hold slots are those of the book, and as many slots are held as queries live.
pub fn live_queries_hold_slots()
    ensures queries { (c : Config) (h : List Item) → queries_of (holders c h) ≡ book c h }
    ensures slots { (c : Config) (h : List Item) →
        count_by (λ on. on) (slots_of c (holders c h)) ≡ count_by (λ (q : Query). q.live) (book c h) }
{}

/// The message of an item may follow the view before it, and makes of it the view after the item; an item without a
/// message changes no view.
pub fn messages_are_what_views_take()
    ensures after { (c : Config) (h : List Item) (x : Item) (m : Msg) →
        message c h x ≡ Some m → view c (h ++ x ∷ []) ≡ after (view c h) m }
    ensures same { (c : Config) (h : List Item) (x : Item) → message c h x ≡ None → view c (h ++ x ∷ []) ≡ view c h }
    ensures follows { (c : Config) (h : List Item) (x : Item) (m : Msg) →
        AllByRecursion InRange h → InRange x → message c h x ≡ Some m → Follows (view c h) m }
    ensures views { (c : Config) (h : List Item) → AllByRecursion InRange h → IsView (view c h) }
{}

/// The ends that follow the items, of the streams that are open, have no answer.
pub fn last_ends_have_no_answer()
    ensures { (c : Config) (h : List Item) → answers c (shut c h) ≡ answers c h }
{}

/// The text of an output only grows: after any item it begins with the text that it had.
pub fn outputs_only_grow()
    ensures { (c : Config) (h : List Item) (x : Item) (n : ℕ) → AllByRecursion InRange h → InRange x →
        IsPrefix (text_of c h n) (text_of c (h ++ x ∷ []) n) }
{}

/// Only an accepted watermark or end may add to an output: after any other item, and after any that is refused, each
/// output has the text that it had.
pub fn only_marks_and_ends_print()
    ensures { (c : Config) (h : List Item) (x : Item) (n : ℕ) → AllByRecursion InRange h → InRange x →
        prints c h x ≡ false → text_of c (h ++ x ∷ []) n ≡ text_of c h n }
{}

/// A window that the watermark of a query has passed stays passed after any item, and its rows stay as they are.
pub fn passed_windows_stay()
    ensures { (c : Config) (h : List Item) (x : Item) (n k : ℕ) → AllByRecursion InRange h → InRange x →
        has_passed (view c h) n k ≡ true → (has_passed (view c (h ++ x ∷ [])) n k ≡ true)
        × (rows_of (view c (h ++ x ∷ [])) n k ≡ rows_of (view c h) n k) }
{}

/// Alike queries, of two lists of items and under two configurations, have the same text, whoever else lives or held their
/// slots.
pub fn alike_queries_have_equal_texts()
    ensures { (c d : Config) (h k : List Item) (n m : ℕ) →
        AreAlike (view c h) n (view d k) m → text_of c h n ≡ text_of d k m }
{}
