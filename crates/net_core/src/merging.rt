//! Merging what the parts reply: the law that it makes what is due.

ghost use Rattle.std.specs.Prelude.{◌≡◌, ℕ, Bool, true, Some, List, length, ◌<◌, ◌^◌};
ghost use Rattle.std.specs.List.{filter, flat_map, range_with_len, AllByRecursion};
ghost use Rattle.as_base.specs.declared.config.Config.{Config};
ghost use Rattle.as_base.specs.declared.item.Item.{Item};
ghost use Rattle.as_base.specs.declared.message.Msg.{Msg};
ghost use Rattle.as_base.specs.Config.{fits};
ghost use Rattle.as_base.specs.Range.{InRange};
ghost use Rattle.result_router.specs.Merge.{pieces_of};
ghost use Rattle.result_router.specs.Sound.{AreSound};
ghost use Rattle.session.specs.Message.{message};
ghost use Rattle.net_core.specs.Due.{due};
ghost use Rattle.net_core.specs.Merged.{replied_by};

/// The fragments that the parts reply to an accepted watermark or end, merged, are the pieces that the item makes due; and
/// those of any of the parts may be merged.
pub fn replies_make_what_is_due()
    ensures pieces { (c : Config) (h : List Item) (x : Item) (wm : List ℕ) → fits c ≡ true → length h < 2 ^ 62 →
        AllByRecursion InRange h → InRange x → message c h x ≡ Some (Msg.Advance wm) →
        pieces_of (flat_map (replied_by c h wm) (range_with_len 0 c.parts)) ≡ due c h x }
    ensures sound { (c : Config) (h : List Item) (x : Item) (wm : List ℕ) → fits c ≡ true → length h < 2 ^ 62 →
        AllByRecursion InRange h → InRange x → message c h x ≡ Some (Msg.Advance wm) → (test : ℕ → Bool) →
        AreSound (flat_map (replied_by c h wm) (filter test (range_with_len 0 c.parts))) }
{}
