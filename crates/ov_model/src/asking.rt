// Laws of what a query asks.
ghost use Rattle.std.specs.Prelude.{◌≡◌, ℕ, Bool, List, [], ◌∷◌, map};
ghost use Rattle.ov_model.specs.Act.{Session};
ghost use Rattle.ov_model.specs.Asking.{cond_lineages, run_deed};
ghost use Rattle.ov_model.specs.QueryTexts.{Asked};
ghost use Rattle.ov_model.specs.Lists.{joined};
ghost use Rattle.ov_model.specs.World.{World, book};
ghost use Rattle.ov_model.specs.declared.query.Cond.{Cond};
ghost use Rattle.ov_model.specs.declared.query.Cond.TheVariants.{Compare, IsNull, InLineage, InList, Not, Every, Any};
ghost use Rattle.ov_model.specs.declared.query.LineageKind.{LineageKind};
ghost use Rattle.ov_model.specs.declared.query.Operand.{Operand};
ghost use Rattle.ov_model.specs.declared.query.Sign.{Sign};

/// What a query says depends on the book and the query alone: on no partition, plan or number of the store.
pub fn an_answer_is_of_the_book()
    ensures { (w v : World) (s : Session) (asked : Asked) → book w ≡ book v → run_deed w s asked ≡ run_deed v s asked }
{}

/// The versions whose lineages a condition names, by cases: from the left, those within NOT, AND and OR as they stand there.
pub fn lineages_by_cases()
    ensures compare { (left : Operand) (by : Sign) (right : Operand) → cond_lineages (Compare left by right) ≡ [] }
    ensures null { (x : Operand) (negated : Bool) → cond_lineages (IsNull x negated) ≡ [] }
    ensures lineage { (kind : LineageKind) (vid : ℕ) (negated : Bool) → cond_lineages (InLineage kind vid negated) ≡ vid ∷ [] }
    ensures listed { (vids : List ℕ) (negated : Bool) → cond_lineages (InList vids negated) ≡ [] }
    ensures not_ { (c : Cond) → cond_lineages (Not c) ≡ cond_lineages c }
    ensures every { (cs : List Cond) → cond_lineages (Every cs) ≡ joined (map cond_lineages cs) }
    ensures any { (cs : List Cond) → cond_lineages (Any cs) ≡ joined (map cond_lineages cs) }
{}
