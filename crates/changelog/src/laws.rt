//! Laws of numbered changes: they tell of owners and slices what views tell.

ghost use Rattle.std.specs.Prelude.{◌≡◌, ℕ, ◌<◌, ◌^◌, List};
ghost use Rattle.as_base.specs.declared.message.Change.{Change};
ghost use Rattle.as_base.specs.declared.stream.StreamId.{StreamId};
ghost use Rattle.views.specs.Slots.{holders_of, cut};
ghost use Rattle.changelog.specs.Changes.{epoch_at, owner, slice_start};
ghost use Rattle.changelog.specs.Orderly.{owner_at, IsOrderly};

/// Who owns a slot in the epoch of a time is, by number and plan, who owns it at that time by the views of the same changes;
/// nobody where nobody does there. The changes are such as may come one after another.
pub fn owners_are_those_of_views()
    ensures { (cs : List Change) (t slot : ℕ) → IsOrderly cs → t < 2 ^ 62 →
        owner cs (epoch_at cs t) slot ≡ owner_at (holders_of cs) t slot }
{}

/// The slice of a stream that holds a time begins where it begins by the views of the same changes, which are such as may
/// come one after another.
pub fn slices_are_those_of_views()
    ensures { (cs : List Change) (s : StreamId) (t : ℕ) → IsOrderly cs → t < 2 ^ 62 →
        slice_start cs s t ≡ cut (holders_of cs) s t }
{}
