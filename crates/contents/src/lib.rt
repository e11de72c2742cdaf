//! What a part holds of the messages that it took. The definitions stand in `specs/`; the functions here are their laws.
#![tactic(auto)]

ghost use Rattle.std.specs.Prelude.{◌≡◌, ℕ, ◌≤◌, ◌<◌, ◌^◌, min, max, Bool, true, false, if◌then◌else◌, List, [], ◌∷◌, ◌++◌, map, IsTrue};
ghost use Rattle.std.specs.List.{filter, fold, count_by, list_any, AllByRecursion};
ghost use Rattle.as_base.specs.declared.message.Change.{Change};
ghost use Rattle.as_base.specs.declared.item.Record.{Record};
ghost use Rattle.as_base.specs.declared.message.Msg.{Msg};
ghost use Rattle.as_base.specs.declared.stream.StreamId.{StreamId};
ghost use Rattle.as_base.specs.Windows.{start_of, end_of};
ghost use Rattle.group_table.specs.Cells.{add_in};
ghost use Rattle.views.specs.IsHolder.{time_of, IsAmong};
ghost use Rattle.views.specs.Message.{after};
ghost use Rattle.changelog.specs.Changes.{epoch_at};
ghost use Rattle.changelog_set.specs.Sets.{has, unchanged};
ghost use Rattle.as_base.specs.declared.fragment.Couple.{Couple};
ghost use Rattle.views.specs.Pairs.{couples};
ghost use Rattle.views.specs.Passed.{given_to, within};
ghost use Rattle.views.specs.Query.{Query};
ghost use Rattle.views.specs.Rows.{rows};
ghost use Rattle.views.specs.Slots.{Holder, held, owner, cut, holds_in_life};
ghost use Rattle.contents.specs.IsPast.{IsPast, ComesBefore};
ghost use Rattle.contents.specs.Kept.{is_open_window, is_in, is_needed, slice_at, in_needed_slice, kept_with, kept};
ghost use Rattle.contents.specs.Orderly.{MayFollow, AreOrderly};
ghost use Rattle.contents.specs.Cells.{adds_up, whole_for, share_at, cells_at, is_open_at, whole_at, cells_between, window_sums, HaveCells};
ghost use Rattle.contents.specs.Free.{Once};
ghost use Rattle.contents.specs.Pairs.{is_quiet, is_paired, has_both, is_join, have_met, couples_between, window_couples, AreIn};
ghost use Rattle.contents.specs.Rows.{cell_row};
ghost use Rattle.contents.specs.Touched.{touched};
ghost use Rattle.contents.specs.Past.{Past, followed, past_of, view_of, mark_of};

/// One message more makes of a past what it makes of its view, and of what stood after those before it what `followed` and
/// `kept_with` say; messages are orderly just where each may follow those before it.
pub fn messages_come_one_by_one()
    ensures view { (p : Past) (m : Msg) → view_of (followed p m) ≡ after (view_of p) m }
    ensures past { (ms : List Msg) (m : Msg) → past_of (ms ++ m ∷ []) ≡ followed (past_of ms) m }
    ensures kept { (ms : List Msg) (m : Msg) → kept (ms ++ m ∷ []) ≡ kept_with (followed (past_of ms) m) (kept ms) m }
    ensures orderly { (is_there : StreamId → Bool) (ms : List Msg) (m : Msg) →
        AreOrderly is_there ms → MayFollow is_there (past_of ms) m → AreOrderly is_there (ms ++ m ∷ []) }
    ensures each { (is_there : StreamId → Bool) (ms : List Msg) (m : Msg) →
        AreOrderly is_there (ms ++ m ∷ []) → AreOrderly is_there ms × MayFollow is_there (past_of ms) m }
{}

/// Orderly messages make sound pasts: the lives of a slot's holders stand one after another, and each that lives has no
/// end.
pub fn orderly_messages_make_pasts()
    ensures { (is_there : StreamId → Bool) (ms : List Msg) → AreOrderly is_there ms → IsPast (past_of ms) }
{}

/// A record that no query needs is needed by none later.
pub fn needs_end()
    ensures { (is_there : StreamId → Bool) (p : Past) (m : Msg) (r : Record) → IsPast p → MayFollow is_there p m →
        r.given.time < 2 ^ 62 → ComesBefore m r → is_needed (followed p m) r ≡ true → is_needed p r ≡ true }
{}

/// An advance leaves a slice as it was, or takes the whole of it out: it stays just where a needed record is in it.
pub fn slices_go_whole()
    ensures { (p : Past) (records : List Record) (s : StreamId) (c : ℕ) →
        slice_at p.holders s c (filter (in_needed_slice p records) records) ≡
        (if list_any (is_needed p) (slice_at p.holders s c records) then slice_at p.holders s c records else []) }
{}

/// What is kept suffices: of the records that are kept as many are needed, and the same in the same order, as of all
/// records.
pub fn kept_records_suffice()
    ensures needed { (is_there : StreamId → Bool) (ms : List Msg) → AreOrderly is_there ms →
        filter (is_needed (past_of ms)) (kept ms) ≡ filter (is_needed (past_of ms)) (past_of ms).records }
    ensures among { (ms : List Msg) (test : Record → Bool) →
        AllByRecursion (λ r. IsTrue (test r)) (past_of ms).records → AllByRecursion (λ r. IsTrue (test r)) (kept ms) }
{}

/// What a message makes of the cells of a slot in a slice: a record adds its share, an advance takes out those of which
/// the last window is passed, and a change leaves them.
pub fn cells_by_messages()
    ensures record { (p : Past) (r : Record) (s : StreamId) (slot c : ℕ) → cells_at (followed p (Msg.Rec r)) s slot c ≡
        fold add_in (cells_at p s slot c) (if is_in p.holders s c r then share_at p slot r else []) }
    ensures advance { (is_there : StreamId → Bool) (p : Past) (wm : List ℕ) (s : StreamId) (slot c : ℕ) → IsPast p →
        MayFollow is_there p (Msg.Advance wm) → cells_at (followed p (Msg.Advance wm)) s slot c ≡
        (if is_open_at wm p.holders slot c then cells_at p s slot c else []) }
    ensures change { (is_there : StreamId → Bool) (p : Past) (c : Change) (s : StreamId) (slot d : ℕ) → IsPast p →
        MayFollow is_there p (Msg.Change c) → cells_at (followed p (Msg.Change c)) s slot d ≡ cells_at p s slot d }
    ensures share { (p : Past) (slot : ℕ) (r : Record) → IsPast p → mark_of p.marks r.given.stream ≤ r.given.time →
        share_at p slot r ≡ whole_for r (owner p.holders r.given.time slot) }
{}

/// Cells are whole: those of a slot in a slice count all records of the slice that belong to its owner, or there are none.
pub fn cells_are_whole()
    ensures { (p : Past) (s : StreamId) (slot c : ℕ) → IsPast p →
        cells_at p s slot c ≡ (if is_open_at p.marks p.holders slot c then whole_at p s slot c else []) }
{}

/// The cells of a window's slices, added up, are what the records of the window add up to, as long as the window is not
/// passed: whichever slices are looked at, if each that has a cell of the slot is among them, once. Their rows are the rows of
/// the window.
pub fn cells_of_slices_are_those_of_windows()
    ensures sums { (p : Past) (h : Holder) (k : ℕ) (starts : List ℕ) → IsPast p → IsAmong h p.holders →
        adds_up h.query.plan.kind ≡ true → is_open_window p.marks h.query k ≡ true →
        Once starts → HaveCells p h.query.plan.left h.slot starts →
        cells_between p h.query.plan.left h.slot starts
        (max (start_of h.query.plan.win k) h.query.from) (min (end_of h.query.plan.win k) h.query.to) ≡
        window_sums h.query k p.records }
    ensures rows { (p : Past) (q : Query) (k : ℕ) → adds_up q.plan.kind ≡ true →
        map (cell_row q.plan k) (window_sums q k p.records) ≡ rows (view_of p) q k }
{}

/// The set of a pair: a slot is in it just where a query that has the slot has both records. It is the slots of both records'
/// sets which no change touches between the epochs of the two slices; and the epoch of a slice is that of its records.
pub fn sets_of_pairs_are_those_of_joins()
    ensures both { (p : Past) (slot : ℕ) (r s : Record) → IsPast p →
        is_paired p.holders slot r s ≡ list_any (has_both slot r s) p.holders }
    ensures quiet { (p : Past) (slot t u : ℕ) → IsPast p → slot < 512 → max t u < 2 ^ 62 → is_quiet p.holders slot t u ≡
        has slot (unchanged (touched p.changes) (epoch_at p.changes (min t u)) (epoch_at p.changes (max t u))) }
    ensures epoch { (p : Past) (s : StreamId) (t : ℕ) → IsPast p → t < 2 ^ 62 →
        epoch_at p.changes (cut p.holders s t) ≡ epoch_at p.changes t }
{}

/// The couples between the kept records of a window's slices are those of all records of the window, as long as the window
/// is not passed, each as often; and those are the pairs that the join makes of its records as they were given.
pub fn couples_of_slices_are_those_of_windows()
    ensures counts { (p : Past) (stored : List Record) (h : Holder) (k : ℕ) (cs ds : List ℕ) (test : Couple → Bool) → IsPast p →
        IsAmong h p.holders → is_join h.query.plan.kind ≡ true → is_open_window p.marks h.query k ≡ true →
        filter (is_needed p) stored ≡ filter (is_needed p) p.records → Once cs → Once ds →
        AreIn p.holders h.query.plan.left cs stored → AreIn p.holders h.query.plan.right ds stored →
        count_by test (couples_between p.holders stored h.slot h.query.plan.left h.query.plan.right cs ds
        (max (start_of h.query.plan.win k) h.query.from) (min (end_of h.query.plan.win k) h.query.to)) ≡
        count_by test (window_couples h.query k p.records) }
    ensures given { (p : Past) (q : Query) (k : ℕ) → window_couples q k p.records ≡
        couples (within q.plan.win k (given_to (view_of p) q q.plan.left)) (within q.plan.win k (given_to (view_of p) q q.plan.right)) }
{}

/// Slices that begin in a window of a join which is passed have met, and a change leaves which slices have.
pub fn slices_of_passed_windows_have_met()
    ensures passed { (p : Past) (h : Holder) (k c d : ℕ) → IsPast p → IsAmong h p.holders → is_join h.query.plan.kind ≡ true →
        is_open_window p.marks h.query k ≡ false → holds_in_life h.query k c ≡ true → holds_in_life h.query k d ≡ true →
        have_met p.marks p.holders h.query.plan.left h.query.plan.right c d ≡ true }
    ensures change { (is_there : StreamId → Bool) (p : Past) (change : Change) (a b : StreamId) (c d : ℕ) → IsPast p →
        MayFollow is_there p (Msg.Change change) → c < time_of change → d < time_of change →
        have_met p.marks (held p.holders change) a b c d ≡ have_met p.marks p.holders a b c d }
{}
