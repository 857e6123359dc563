//! A law on choices. It is the contract of a function that does nothing.

ghost use Rattle.std.specs.Prelude.{◌≡◌, ◌++◌, ℕ, List, map};
ghost use Rattle.ov_model.specs.Plans as plans;
ghost use Rattle.ov_model.specs.Records.{Rec};
ghost use Rattle.ov_model.specs.World.{Part, held};
ghost use Rattle.ov_match.specs.Matching.{modification, places_within};
ghost use Rattle.ov_match.specs.Naming.{Names};

/// Where rids name records, a choice by rids is one by records: a partition costs the same, and the same of its pieces lie within
/// the target.
pub fn costs_agree()
    ensures modification { (rid : Rec → ℕ) (wanted : List Rec) (part : Part) → Names rid (wanted ++ held part)
        → modification (map rid wanted) (map (map rid) part.pieces) ≡ plans.modification wanted part }
    ensures places { (rid : Rec → ℕ) (at : ℕ) (wanted : List Rec) (part : Part) → Names rid (wanted ++ held part)
        → places_within at (map rid wanted) (map (map rid) part.pieces) ≡ plans.places_within at wanted part.pieces }
{}
