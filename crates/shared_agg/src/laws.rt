ghost use Rattle.std.specs.Prelude.{List, [], ◌∷◌, ◌++◌};
ghost use Rattle.as_base.specs.declared.message.Change.{Change};
ghost use Rattle.shared_agg.specs.declared.aggs.Aggs.{Aggs};
ghost use Rattle.shared_agg.specs.Aggs.{AggsFor};

/// A law: what is kept for some changes is kept for these and one more.
pub fn appended_changes_alter_no_duty()
    ensures { (a : Aggs) (cs : List Change) (c : Change) → AggsFor a cs → AggsFor a (cs ++ c ∷ []) }
{}
