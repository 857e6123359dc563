// Laws of plans.
ghost use Rattle.std.specs.Prelude.{◌≡◌, ◌≢◌, ◌≤◌, ℕ, true, false, List, Some, None};
ghost use Rattle.ov_place.specs.declared.place_facts.Place.TheVariants.{Join};
ghost use Rattle.ov_model.specs.Act.{Session};
ghost use Rattle.ov_model.specs.Book.{Version};
ghost use Rattle.ov_model.specs.Course.{Space, course, world_at};
ghost use Rattle.ov_model.specs.Forms.{Form};
ghost use Rattle.ov_model.specs.Lists.{IsIn};
ghost use Rattle.ov_model.specs.Moves.{Move, moved, placed_at, with_version};
ghost use Rattle.ov_model.specs.Placed.{HasParents, IsPlaced, times};
ghost use Rattle.ov_model.specs.Plans.{copied_more, flipped, planned};
ghost use Rattle.ov_model.specs.World.{Dataset, Part, Plan, World, empty_world, is_unmoved};
ghost use Rattle.law_partitions.specs.Courses.{HasPartitions, IsDue};
ghost use Rattle.law_partitions.specs.OldOrNew.{AllTight, AreOldOrNew, IsOld, IsOldOrNew};
ghost use Rattle.law_partitions.specs.Pieces.{HasPieces};
ghost use Rattle.law_partitions.specs.PlanBounds.{AreExact, IsBounded};
ghost use Rattle.law_partitions.specs.PlanEnds.{ArePlanned, HasAllVersions, IsPlanned, IsSplit, PlanHasAll};
ghost use Rattle.law_partitions.specs.Sound.{AllNameVersions, IsSound};

/// While a plan runs, all versions of a partition wait in targets that weren't flipped yet, or none does, and then the partition
/// keeps the records of its own versions alone.
pub fn partitions_are_old_or_new()
    ensures start { AreOldOrNew empty_world.sets }
    ensures kept { (m : Move) (w : World) → IsDue m w → HasPartitions w → AreOldOrNew w.sets → AreOldOrNew (moved m w).sets }
    ensures course { (forms : List Form) (steps : ℕ) (w : World) (s : Session) (lines : List (List ℕ)) (space : Space) → AllNameVersions forms lines → HasPartitions w
        → AreOldOrNew w.sets → (k : ℕ) → AreOldOrNew (world_at w (course forms steps w s lines space).items k).sets }
{}

/// A partition takes no version while a plan runs that has one of its versions in a target not yet flipped: it stays as it is.
pub fn a_waiting_partition_takes_no_version()
    ensures joined { (d : Dataset) (v : Version) (id : ℕ) → IsPlaced d → IsOldOrNew d → HasParents v.parents d → placed_at d v ≡ Join id
        → (part : Part) → IsIn d.parts part → part.id ≡ id → (vid : ℕ) → 1 ≤ times part.versions vid → is_unmoved d.plan vid ≡ false }
    ensures stays { (d : Dataset) (v : Version) → IsPlaced d → IsOldOrNew d → HasParents v.parents d
        → (part : Part) (vid : ℕ) → IsIn d.parts part → 1 ≤ times part.versions vid → is_unmoved d.plan vid ≡ true → IsIn (with_version v d).parts part }
{}

/// A partition that has a version in a target not yet flipped goes on to wait as a whole, with commits and with steps, and after
/// the plan's last flip it is gone.
pub fn a_waiting_partition_goes()
    ensures version { (d : Dataset) → IsPlaced d → IsOldOrNew d → (part : Part) → IsIn d.parts part → IsOld d.plan part
        → (v : Version) → HasParents v.parents d → (after : Part) → IsIn (with_version v d).parts after → after.id ≡ part.id → IsOld (with_version v d).plan after }
    ensures copied { (d : Dataset) → IsPlaced d → IsOldOrNew d → (part : Part) → IsIn d.parts part → IsOld d.plan part
        → (after : Part) → IsIn (copied_more d).parts after → after.id ≡ part.id → IsOld (copied_more d).plan after }
    ensures flipped { (d : Dataset) → IsPlaced d → IsOldOrNew d → (part : Part) → IsIn d.parts part → IsOld d.plan part
        → (after : Part) → IsIn (flipped d).parts after → after.id ≡ part.id → IsOld (flipped d).plan after }
    ensures gone { (d : Dataset) → IsPlaced d → IsOldOrNew d → (part : Part) → IsIn d.parts part → IsOld d.plan part
        → (flipped d).plan ≡ None → (after : Part) → IsIn (flipped d).parts after → after.id ≢ part.id }
{}

/// Where no plan of a dataset runs, each of its partitions keeps the records of its own versions alone. So it is after any flip
/// that ends a plan.
pub fn partitions_are_tight_where_no_plan_runs()
    ensures idle { (d : Dataset) → IsOldOrNew d → d.plan ≡ None → AllTight d.parts }
    ensures last_flip { (d : Dataset) → IsOldOrNew d → (flipped d).plan ≡ None → AllTight (flipped d).parts }
    ensures course { (forms : List Form) (steps : ℕ) (w : World) (s : Session) (lines : List (List ℕ)) (space : Space) → AllNameVersions forms lines → HasPartitions w
        → AreOldOrNew w.sets → (k : ℕ) (d : Dataset) → IsIn (world_at w (course forms steps w s lines space).items k).sets d → d.plan ≡ None
        → AllTight d.parts }
{}

/// A plan has all versions of its dataset where no commit came since it began.
pub fn a_plan_has_all_versions_until_a_commit()
    ensures begun { (p q : ℕ) (d : Dataset) → PlanHasAll (planned p q d) }
    ensures copied { (d : Dataset) → PlanHasAll d → PlanHasAll (copied_more d) }
    ensures flipped { (d : Dataset) → PlanHasAll d → PlanHasAll (flipped d) }
{}

/// After the last flip of a plan that has all versions, the partitions, by number, are the parts of the split in order, each
/// tight.
pub fn a_finished_plan_is_the_split()
    ensures start { ArePlanned empty_world.sets }
    ensures kept { (m : Move) (w : World) → IsDue m w → HasPartitions w → AreOldOrNew w.sets → ArePlanned w.sets → ArePlanned (moved m w).sets }
    ensures course { (forms : List Form) (steps : ℕ) (w : World) (s : Session) (lines : List (List ℕ)) (space : Space) → AllNameVersions forms lines → HasPartitions w
        → AreOldOrNew w.sets → ArePlanned w.sets → (k : ℕ) → ArePlanned (world_at w (course forms steps w s lines space).items k).sets }
    ensures last_flip { (d : Dataset) (plan : Plan) → IsOldOrNew d → IsPlanned d → d.plan ≡ Some plan → HasAllVersions d plan → (flipped d).plan ≡ None
        → IsSplit (flipped d) plan.p plan.q }
    ensures at_each_world { (forms : List Form) (steps : ℕ) (w : World) (s : Session) (lines : List (List ℕ)) (space : Space) → AllNameVersions forms lines → HasPartitions w
        → AreOldOrNew w.sets → ArePlanned w.sets → (k : ℕ) (d : Dataset) (plan : Plan) → IsIn (world_at w (course forms steps w s lines space).items k).sets d
        → d.plan ≡ Some plan → HasAllVersions d plan → (flipped d).plan ≡ None → IsSplit (flipped d) plan.p plan.q }
{}

/// A partition whose pieces share no record and that keeps the records of its own versions alone has each of them once.
pub fn tight_partitions_are_exact()
    ensures { (d : Dataset) → IsPlanned d → HasPieces d → AllTight d.parts → AreExact d }
{}

/// Where no plan runs and the partitions are the parts of a split, each with the records of its versions once, what is stored and
/// what checkouts read are as its optimize told, and both bounds of the split hold of them. So it is in every World of a run.
pub fn a_finished_plan_meets_the_bounds()
    ensures set { (d : Dataset) (p q : ℕ) → IsOldOrNew d → IsPlanned d → IsSplit d p q → d.plan ≡ None → AreExact d → IsBounded d p q }
    ensures course { (forms : List Form) (steps : ℕ) (w : World) (s : Session) (lines : List (List ℕ)) (space : Space) → AllNameVersions forms lines → IsSound w
        → AreOldOrNew w.sets → ArePlanned w.sets → (k : ℕ) (d : Dataset) (p q : ℕ) → IsIn (world_at w (course forms steps w s lines space).items k).sets d
        → IsSplit d p q → d.plan ≡ None → IsBounded d p q }
{}
