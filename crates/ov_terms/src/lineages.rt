//! Whether a condition names the lineage of a version.

ghost use Rattle.std.specs.Prelude.{◌↔◌, ℕ, Bool, List};
ghost use Rattle.std.specs.List.{All};
ghost use Rattle.ov_model.specs.declared.query.Cond.{Cond};
ghost use Rattle.ov_model.specs.declared.query.Cond.TheVariants.{Compare, IsNull, InLineage, InList, Not, Every, Any};
ghost use Rattle.ov_model.specs.declared.query.LineageKind.{LineageKind};
ghost use Rattle.ov_model.specs.declared.query.Operand.{Operand};
ghost use Rattle.ov_model.specs.declared.query.Sign.{Sign};
ghost use Rattle.ov_terms.specs.Standing.{NoLineage};

use ov_model::Cond;

/// Which conditions name no lineage, by cases.
pub fn free_by_cases()
    ensures compare { (left : Operand) (by : Sign) (right : Operand) → NoLineage (Compare left by right) }
    ensures null { (x : Operand) (negated : Bool) → NoLineage (IsNull x negated) }
    ensures lineage { (kind : LineageKind) (vid : ℕ) (negated : Bool) → ¬ (NoLineage (InLineage kind vid negated)) }
    ensures listed { (vids : List ℕ) (negated : Bool) → NoLineage (InList vids negated) }
    ensures not_ { (c : Cond) → NoLineage (Not c) ↔ NoLineage c }
    ensures every { (cs : List Cond) → NoLineage (Every cs) ↔ All NoLineage cs }
    ensures any { (cs : List Cond) → NoLineage (Any cs) ↔ All NoLineage cs }
{}
