ghost use Rattle.std.specs.Prelude.{◌≡◌, ℕ};
ghost use Rattle.as_words.specs.Prefix.{IsPrefix};
ghost use Rattle.as_base.specs.declared.item.Record.{Record};
ghost use Rattle.as_base.specs.declared.message.Change.{Change};
ghost use Rattle.as_base.specs.declared.message.Msg.{Msg};
ghost use Rattle.views.specs.View.{View};
ghost use Rattle.views.specs.Alike.{AreAlike};
ghost use Rattle.views.specs.Message.{after, Follows};
ghost use Rattle.views.specs.IsView.{IsView};
ghost use Rattle.row_text.specs.RowText.{text_of};

/// The text of an output only grows, and watermarks alone add to it: a record or a change adds nothing.
pub fn texts_only_grow()
    ensures grow { (v : View) (m : Msg) (n : ℕ) → IsView v → Follows v m → IsPrefix (text_of v n) (text_of (after v m) n) }
    ensures record_none { (v : View) (r : Record) (n : ℕ) → IsView v → Follows v (Msg.Rec r) →
        text_of (after v (Msg.Rec r)) n ≡ text_of v n }
    ensures change_none { (v : View) (c : Change) (n : ℕ) → IsView v → Follows v (Msg.Change c) →
        text_of (after v (Msg.Change c)) n ≡ text_of v n }
{}

/// Two alike queries have the same text, whatever else their views have.
pub fn alike_queries_have_equal_texts()
    ensures { (v w : View) (n m : ℕ) → AreAlike v n w m → text_of v n ≡ text_of w m }
{}
