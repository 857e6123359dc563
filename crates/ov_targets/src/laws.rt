//! A law on targets. It is the contract of a function that does nothing.

ghost use Rattle.law_partitions.specs.Pieces.{HasPieces};
ghost use Rattle.ov_model.specs.World.{Dataset};
ghost use Rattle.ov_targets.specs.Telling.{Agree, HasApart};

/// Where the lists and the partitions are those of a dataset, what is said of its targets by rids is what the event of its plan
/// says; and no two segments of a partition share a rid.
pub fn targets_agree()
    ensures agree { (d : Dataset) → HasPieces d → Agree d }
    ensures apart { (d : Dataset) → HasPieces d → HasApart d }
{}
