ghost use Rattle.std.specs.Prelude.{ℕ, ◌≡◌, List, Ok, IsTrue};
ghost use Rattle.as_base.specs.Query.{holds_all};
ghost use Rattle.as_base.specs.declared.item.Given.{Given};
ghost use Rattle.query_text.specs.declared.ast.Cond.{Cond};
ghost use Rattle.as_base.specs.Text.{is_text};
ghost use Rattle.as_base.specs.declared.query.Plan.{Plan};
ghost use Rattle.query_text.specs.declared.ast.Ast.{Ast};
ghost use Rattle.query_text.specs.Spelling.{FitsConds};
ghost use Rattle.query_plan.specs.Limits.{bounds_of};
ghost use Rattle.query_plan.specs.Meaning.{meets_all, FitsGiven};
ghost use Rattle.query_plan.specs.Planning.{IsTree, plan, plan_of};
ghost use Rattle.as_base.specs.Canonical.{IsCanonical, FitsPlan};
ghost use Rattle.query_plan.specs.Text.{canonical_text};

/// What `explain` writes of a canonical plan that fits is read and planned as this plan.
pub fn explained_plans_are_read()
    ensures { (p : Plan) → IsCanonical p → FitsPlan p → plan_of 4 (canonical_text p) ≡ Ok p }
{}

/// What `explain` writes of a plan that fits is a query text.
pub fn explained_plans_are_texts()
    ensures { (p : Plan) → FitsPlan p → IsTrue (is_text (canonical_text p)) }
{}

/// Each plan of a tree that some text has is canonical and fits.
pub fn plans_are_canonical()
    ensures { (streams : ℕ) (ast : Ast) (p : Plan) → IsTree ast → plan streams ast ≡ Ok p → IsCanonical p × FitsPlan p }
{}

/// A record is within the intervals that conditions leave just where it meets each of the conditions.
pub fn bounds_are_their_conditions()
    ensures { (cs : List Cond) (g : Given) → FitsConds cs → FitsGiven g → holds_all (bounds_of cs) g ≡ meets_all cs g }
{}
