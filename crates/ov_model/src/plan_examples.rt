// A worked plan, and what a copy and a checkpoint count.
ghost use Rattle.std.specs.Prelude.{◌≡◌, ◌+◌, ◌++◌, Some, codes, length, min};
ghost use Rattle.ov_model.specs.Examples.{people, served_all};
ghost use Rattle.ov_model.specs.Plans.{copied_more, missing};
ghost use Rattle.ov_model.specs.World.{Dataset, Plan as APlan, copied_records};
ghost use Rattle.ov_model.specs.PlanExamples.{plan_behind, second_plan, two_plans};

/// A target stays as its plan began: flipped, and its source gone, it still tells how many records its kept pieces had.
pub fn a_flipped_target_stays_as_it_was()
    ensures { plan_behind two_plans ≡ Some second_plan }
{}

/// A copy brings the next 256 of the records that the target misses, or all that are left.
pub fn a_copy_brings_256_records_at_most()
    ensures { (d : Dataset) (plan : APlan) → d.plan ≡ Some plan
        → copied_records (copied_more d).plan ≡ copied_records d.plan + min 256 (length (missing d plan)) }
{}

/// After a checkpoint a World has a record for its numbers and one for each dataset, in the next epoch.
pub fn a_checkpoint_has_its_records()
    ensures records { (served_all (people ++ codes "checkpoint\n")).world.records ≡ 2 }
    ensures epoch { (served_all (people ++ codes "checkpoint\n")).world.epoch ≡ 2 }
{}
