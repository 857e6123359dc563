// Laws of the sources of targets.
ghost use Rattle.std.specs.Prelude.{◌≡◌, ◌≢◌, ◌≤◌, ℕ, [], Some};
ghost use Rattle.ov_model.specs.Lists.{IsIn};
ghost use Rattle.ov_model.specs.Moves.{Move, moved};
ghost use Rattle.ov_model.specs.Placed.{IsPlaced, times};
ghost use Rattle.ov_model.specs.Plans.{current};
ghost use Rattle.ov_model.specs.World.{Dataset, Part, Plan, World, empty_world};
ghost use Rattle.law_partitions.specs.Courses.{IsDue};
ghost use Rattle.law_partitions.specs.OldOrNew.{AreOldOrNew, IsOldOrNew};
ghost use Rattle.law_partitions.specs.Pieces.{HasPieces};
ghost use Rattle.law_partitions.specs.Sound.{IsSound};
ghost use Rattle.law_partitions.specs.Sources.{AreSourced, PlanIsSourced};

/// A target that waits keeps pieces in ascending places, of a partition that has no version of a later target; so it stays with
/// every move. The flip of a target that keeps pieces leaves their partition without versions: all that it has are the target's.
pub fn sources_go_with_their_flips()
    ensures start { AreSourced empty_world.sets }
    ensures kept { (m : Move) (w : World) → IsDue m w → IsSound w → AreOldOrNew w.sets → AreSourced w.sets → AreSourced (moved m w).sets }
    ensures emptied { (d : Dataset) (plan : Plan) → IsPlaced d → IsOldOrNew d → HasPieces d → d.plan ≡ Some plan → PlanIsSourced d d.plan
        → (current plan).kept ≢ [] → (part : Part) → IsIn d.parts part → part.id ≡ (current plan).source
        → (vid : ℕ) → 1 ≤ times part.versions vid → 1 ≤ times (current plan).versions vid }
{}
