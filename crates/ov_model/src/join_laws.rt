// Laws of joins.
ghost use Rattle.std.specs.Prelude.{◌≡◌, ℕ, Bool, List, map};
ghost use Rattle.ov_model.specs.Act.{Session};
ghost use Rattle.ov_model.specs.Joins.{join_deed, wide_cond, wide_operand};
ghost use Rattle.ov_model.specs.World.{World, book};
ghost use Rattle.ov_model.specs.declared.query.Cond.{Cond};
ghost use Rattle.ov_model.specs.declared.query.Cond.TheVariants.{Compare, IsNull, InLineage, InList, Not, Every, Any};
ghost use Rattle.ov_model.specs.declared.query.JoinQuery.{JoinQuery as AJoin};
ghost use Rattle.ov_model.specs.declared.query.LineageKind.{LineageKind};
ghost use Rattle.ov_model.specs.declared.query.Operand.{Operand};
ghost use Rattle.ov_model.specs.declared.query.Sign.{Sign};

/// What a join says depends on the book and the join alone: on no partition, plan or number of the store.
pub fn a_join_is_of_the_book()
    ensures { (w v : World) (s : Session) (join : AJoin) → book w ≡ book v → join_deed w s join ≡ join_deed v s join }
{}

/// A join's condition over rows that stand side by side, by cases: its columns alone get other names.
pub fn join_conditions_by_cases()
    ensures compare { (left : Operand) (by : Sign) (right : Operand)
        → wide_cond (Compare left by right) ≡ Compare (wide_operand left) by (wide_operand right) }
    ensures null { (x : Operand) (negated : Bool) → wide_cond (IsNull x negated) ≡ IsNull (wide_operand x) negated }
    ensures lineage { (kind : LineageKind) (vid : ℕ) (negated : Bool) → wide_cond (InLineage kind vid negated) ≡ InLineage kind vid negated }
    ensures listed { (vids : List ℕ) (negated : Bool) → wide_cond (InList vids negated) ≡ InList vids negated }
    ensures not_ { (c : Cond) → wide_cond (Not c) ≡ Not (wide_cond c) }
    ensures every { (cs : List Cond) → wide_cond (Every cs) ≡ Every (map wide_cond cs) }
    ensures any { (cs : List Cond) → wide_cond (Any cs) ≡ Any (map wide_cond cs) }
{}
