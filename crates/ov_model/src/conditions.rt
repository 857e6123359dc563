// The laws of conditions.
ghost use Rattle.std.specs.Prelude.{◌≡◌, ℕ, Bool, List, map, Some};
ghost use Rattle.ov_value.specs.declared.column.Kind.TheVariants.{Int};
ghost use Rattle.ov_model.specs.Answers.{Here, truth, compared, cell_order, operand_in, turned_if, is_null_cell, version_among, truth_not, truth_every, truth_any};
ghost use Rattle.ov_model.specs.Kinds.{Place, counted, count_all, compared as compares, tested, operand_kind, grouped_or};
ghost use Rattle.ov_model.specs.declared.query.Col.TheVariants.{Vid};
ghost use Rattle.ov_model.specs.declared.query.Cond.{Cond};
ghost use Rattle.ov_model.specs.declared.query.Cond.TheVariants.{Compare, IsNull, InLineage, InList, Not, Every, Any};
ghost use Rattle.ov_model.specs.declared.query.LineageKind.{LineageKind};
ghost use Rattle.ov_model.specs.declared.query.Operand.{Operand};
ghost use Rattle.ov_model.specs.declared.query.Sign.{Sign};

/// What a condition says, by cases: a comparison with NULL or with nothing is unknown; NOT, AND and OR have three truth values.
pub fn truth_by_cases()
    ensures compare { (here : Here) (left : Operand) (by : Sign) (right : Operand)
        → truth here (Compare left by right) ≡ compared by (cell_order (operand_in here left) (operand_in here right)) }
    ensures null { (here : Here) (x : Operand) (negated : Bool)
        → truth here (IsNull x negated) ≡ Some (turned_if negated (is_null_cell (operand_in here x))) }
    ensures lineage { (here : Here) (kind : LineageKind) (vid : ℕ) (negated : Bool)
        → truth here (InLineage kind vid negated) ≡ Some (turned_if negated (version_among here (here.related kind vid))) }
    ensures listed { (here : Here) (vids : List ℕ) (negated : Bool)
        → truth here (InList vids negated) ≡ Some (turned_if negated (version_among here vids)) }
    ensures not_ { (here : Here) (c : Cond) → truth here (Not c) ≡ truth_not (truth here c) }
    ensures every { (here : Here) (cs : List Cond) → truth here (Every cs) ≡ truth_every (map (truth here) cs) }
    ensures any { (here : Here) (cs : List Cond) → truth here (Any cs) ≡ truth_any (map (truth here) cs) }
{}

/// How comparisons are counted and refused, by cases: from the left, those within NOT, AND and OR as they stand there.
pub fn comparisons_by_cases()
    ensures compare { (place : Place) (left : Operand) (by : Sign) (right : Operand)
        → counted place (Compare left by right) ≡ (λ nth. compares place nth left right) }
    ensures null { (place : Place) (x : Operand) (negated : Bool) → counted place (IsNull x negated) ≡ (λ nth. tested nth (operand_kind place x)) }
    ensures lineage { (place : Place) (kind : LineageKind) (vid : ℕ) (negated : Bool)
        → counted place (InLineage kind vid negated) ≡ (λ nth. tested nth (grouped_or place Vid Int)) }
    ensures listed { (place : Place) (vids : List ℕ) (negated : Bool) → counted place (InList vids negated) ≡ (λ nth. tested nth (grouped_or place Vid Int)) }
    ensures not_ { (place : Place) (c : Cond) → counted place (Not c) ≡ counted place c }
    ensures every { (place : Place) (cs : List Cond) → counted place (Every cs) ≡ count_all (map (counted place) cs) }
    ensures any { (place : Place) (cs : List Cond) → counted place (Any cs) ≡ count_all (map (counted place) cs) }
{}
