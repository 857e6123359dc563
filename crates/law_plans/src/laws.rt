// Laws of what a finished plan leaves.
ghost use Rattle.std.specs.Prelude.{◌≡◌, ◌≢◌, ◌≤◌, ◌<◌, ◌+◌, ℕ, List, slice_get, Some, None};
ghost use Rattle.ov_host.specs.Disk.{Image};
ghost use Rattle.ov_event.specs.declared.event.Event.{Event};
ghost use Rattle.ov_journal.specs.Journal.{Kept};
ghost use Rattle.ov_model.specs.Act.{Session};
ghost use Rattle.ov_model.specs.Course.{Item, Space, course, moves_of, world_at};
ghost use Rattle.ov_model.specs.Forms.{Form, all_forms};
ghost use Rattle.ov_model.specs.Lists.{IsIn};
ghost use Rattle.ov_model.specs.Moves.{BeginPlan, Move, moved};
ghost use Rattle.ov_model.specs.Plans.{flipped};
ghost use Rattle.ov_model.specs.World.{Dataset, Part, Plan, World, empty_world};
ghost use Rattle.law_partitions.specs.Courses.{IsDue};
ghost use Rattle.law_partitions.specs.OldOrNew.{AllTight};
ghost use Rattle.law_partitions.specs.PlanEnds.{HasAllVersions, IsSplit};
ghost use Rattle.law_partitions.specs.Sound.{AllNameVersions};
ghost use Rattle.law_image.specs.Images.{StandsAs, StandsBy};
ghost use Rattle.law_image.specs.Pages.{readings_of};
ghost use Rattle.law_image.specs.Worked.{the_image, the_world};
ghost use Rattle.law_plans.specs.Ends.{BeganAt, BeginsNoPlan, BringsNoVersion, EndsPlan, LeavesParts, Waits};
ghost use Rattle.law_plans.specs.Leaves.{IsFinished, StaysSplit};
ghost use Rattle.law_plans.specs.OnDisk.{IsSplitOnDisk};
ghost use Rattle.law_plans.specs.Runs.{Between, HasPlans, IsRun};
ghost use Rattle.law_plans.specs.Told.{IsAnswered, IsAsTold};
ghost use Rattle.law_plans.specs.Worked.{the_items, the_plan, the_set};

/// What the laws below ask of the World in which a run begins holds where an image stands for it, and in the empty World; and
/// it holds in each World of a run. So they are laws of the course of every script on such an image, by any forms by which a commit
/// lists a version, as their clauses `image` say once more: those that are served are such, and all that are defined.
pub fn worlds_of_images_have_plans()
    ensures start { HasPlans empty_world }
    ensures image { (c : Image) (w : World) → StandsAs w c → HasPlans w }
    ensures moved { (m : Move) (w : World) → IsDue m w → HasPlans w → HasPlans (moved m w) }
    ensures each { (w : World) (items : List Item) (k : ℕ) → IsRun w items → HasPlans (world_at w items k) }
    ensures forms { (forms : List Form) (c : Image) (w : World) (steps : ℕ) (s : Session) (lines : List (List ℕ)) (space : Space) → AllNameVersions forms lines → StandsAs w c
        → IsRun w (course forms steps w s lines space).items }
    ensures all { (c : Image) (w : World) (steps : ℕ) (s : Session) (lines : List (List ℕ)) (space : Space) → StandsAs w c
        → IsRun w (course all_forms steps w s lines space).items }
{}

/// Directly behind the flip that ends a plan which has all versions of its dataset, the partitions, by number, are the parts of
/// the split in order, each tight, and both bounds hold of them.
pub fn the_last_flip_leaves_the_split()
    ensures run { (w : World) (items : List Item) (k : ℕ) (d : Dataset) (plan : Plan) → IsRun w items → EndsPlan w items k d plan → HasAllVersions d plan
        → IsFinished (world_at w items (k + 1)) (flipped d) plan.p plan.q }
    ensures image { (forms : List Form) (c : Image) (w : World) (steps : ℕ) (s : Session) (lines : List (List ℕ)) (space : Space) (k : ℕ) (d : Dataset) (plan : Plan) → AllNameVersions forms lines → StandsAs w c
        → EndsPlan w (course forms steps w s lines space).items k d plan → HasAllVersions d plan
        → IsFinished (world_at w (course forms steps w s lines space).items (k + 1)) (flipped d) plan.p plan.q }
{}

/// The partitions that a finished plan left are the parts of its split in each later World until a commit to that dataset, a
/// flip of it or its drop.
pub fn the_split_stays()
    ensures run { (w : World) (items : List Item) (k j : ℕ) (d : Dataset) (plan : Plan) → IsRun w items → EndsPlan w items k d plan → HasAllVersions d plan
        → k < j → Between items (k + 1) j (LeavesParts d.cvd.number) → StaysSplit (world_at w items j) (flipped d) plan.p plan.q }
    ensures image { (forms : List Form) (c : Image) (w : World) (steps : ℕ) (s : Session) (lines : List (List ℕ)) (space : Space) (k j : ℕ) (d : Dataset) (plan : Plan) → AllNameVersions forms lines → StandsAs w c
        → EndsPlan w (course forms steps w s lines space).items k d plan → HasAllVersions d plan
        → k < j → Between (course forms steps w s lines space).items (k + 1) j (LeavesParts d.cvd.number)
        → StaysSplit (world_at w (course forms steps w s lines space).items j) (flipped d) plan.p plan.q }
{}

/// A plan that began in a run has all versions of its dataset where it ends, exactly if no commit to that dataset came since.
pub fn all_versions_are_there_without_a_commit()
    ensures untouched { (w : World) (items : List Item) (b k p q : ℕ) (d : Dataset) (plan : Plan) → IsRun w items → EndsPlan w items k d plan
        → BeganAt items b k d.cvd.number p q → Between items (b + 1) k (BringsNoVersion d.cvd.number) → HasAllVersions d plan }
    ensures committed { (w : World) (items : List Item) (b k p q : ℕ) (d : Dataset) (plan : Plan) → IsRun w items → EndsPlan w items k d plan
        → BeganAt items b k d.cvd.number p q → HasAllVersions d plan → Between items (b + 1) k (BringsNoVersion d.cvd.number) }
{}

/// Each beginning of a plan in a run is answered, directly behind it, by what will stand when the plan is done. Where a plan
/// that has all versions ends, what stands is what that answer told.
pub fn a_finished_plan_is_as_told()
    ensures answered { (w : World) (items : List Item) (b number p q : ℕ) → IsRun w items → slice_get (moves_of items) b ≡ Some (BeginPlan number p q)
        → IsAnswered w items b number p q }
    ensures threshold { (w : World) (items : List Item) (b k p q : ℕ) (d : Dataset) (plan : Plan) → IsRun w items → EndsPlan w items k d plan
        → BeganAt items b k d.cvd.number p q → (plan.p ≡ p) × (plan.q ≡ q) }
    ensures run { (w : World) (items : List Item) (b k p q : ℕ) (d : Dataset) (plan : Plan) → IsRun w items → EndsPlan w items k d plan
        → BeganAt items b k d.cvd.number p q → HasAllVersions d plan → IsAsTold items b (flipped d) p q }
    ensures image { (forms : List Form) (c : Image) (w : World) (steps : ℕ) (s : Session) (lines : List (List ℕ)) (space : Space) (b k p q : ℕ) (d : Dataset) (plan : Plan) → AllNameVersions forms lines → StandsAs w c
        → EndsPlan w (course forms steps w s lines space).items k d plan
        → BeganAt (course forms steps w s lines space).items b k d.cvd.number p q → HasAllVersions d plan
        → IsAsTold (course forms steps w s lines space).items b (flipped d) p q }
{}

/// Directly behind any flip that ends a plan, commits since it began or not, each partition of the dataset keeps the records of
/// its own versions alone; and each that had a version of a target not yet flipped, in an earlier World in which this plan ran,
/// is gone. What the flip makes of the dataset is in the World behind it.
pub fn the_last_flip_leaves_all_tight()
    ensures there { (w : World) (items : List Item) (k : ℕ) (d : Dataset) (plan : Plan) → IsRun w items → EndsPlan w items k d plan
        → IsIn (world_at w items (k + 1)).sets (flipped d) }
    ensures tight { (w : World) (items : List Item) (k : ℕ) (d : Dataset) (plan : Plan) → IsRun w items → EndsPlan w items k d plan → AllTight (flipped d).parts }
    ensures gone { (w : World) (items : List Item) (j k : ℕ) (d e : Dataset) (plan : Plan) (part : Part) → IsRun w items → EndsPlan w items k d plan
        → j ≤ k → Between items j k (BeginsNoPlan d.cvd.number) → IsIn (world_at w items j).sets e → e.cvd.number ≡ d.cvd.number
        → IsIn e.parts part → Waits e part → (after : Part) → IsIn (flipped d).parts after → after.id ≢ part.id }
    ensures image { (forms : List Form) (c : Image) (w : World) (steps : ℕ) (s : Session) (lines : List (List ℕ)) (space : Space) (k : ℕ) (d : Dataset) (plan : Plan) → AllNameVersions forms lines → StandsAs w c
        → EndsPlan w (course forms steps w s lines space).items k d plan → AllTight (flipped d).parts }
    ensures image_gone { (forms : List Form) (c : Image) (w : World) (steps : ℕ) (s : Session) (lines : List (List ℕ)) (space : Space) (j k : ℕ) (d e : Dataset) (plan : Plan) (part : Part)
        → AllNameVersions forms lines → StandsAs w c → EndsPlan w (course forms steps w s lines space).items k d plan
        → j ≤ k → Between (course forms steps w s lines space).items j k (BeginsNoPlan d.cvd.number)
        → IsIn (world_at w (course forms steps w s lines space).items j).sets e → e.cvd.number ≡ d.cvd.number
        → IsIn e.parts part → Waits e part → (after : Part) → IsIn (flipped d).parts after → after.id ≢ part.id }
{}

/// What these laws ask for can be met: on an image of a store with one dataset, a script that optimizes it, with a step behind
/// each reply, is a run in which a plan begins and ends, and has all versions.
pub fn a_plan_ends_in_a_run()
    ensures stands { StandsAs the_world the_image }
    ensures run { IsRun the_world the_items }
    ensures begins { BeganAt the_items 0 1 1 1 2 }
    ensures ends { EndsPlan the_world the_items 1 the_set the_plan }
    ensures has_all { HasAllVersions the_set the_plan }
{}

/// A split that stands where a run begins, with no plan running, goes on to stand in each World of the run until a commit to that dataset,
/// a flip of it or its drop; and so in each run after it.
pub fn a_split_stays_in_later_runs()
    ensures { (w : World) (items : List Item) (j p q : ℕ) (d : Dataset) → IsRun w items → IsIn w.sets d → IsSplit d p q → d.plan ≡ None
        → Between items 0 j (LeavesParts d.cvd.number) → StaysSplit (world_at w items j) d p q }
{}

/// On the disk: where an image stands for a World behind the flip that ends a plan which has all versions, and no commit to that dataset,
/// flip of it or drop came since, the journal's events say partitions whose versions are the parts of the split, in order; the segments of
/// each, as read of the pages, have just the records of its versions, each once; and both bounds hold of these numbers. So it is in
/// later runs, of a split that stood at their entry.
pub fn a_finished_plan_stands_on_the_disk()
    ensures plan { (w : World) (items : List Item) (k j : ℕ) (d : Dataset) (plan : Plan) (c : Image) (kept : Kept) (events : List Event) → IsRun w items
        → EndsPlan w items k d plan → HasAllVersions d plan → k < j → Between items (k + 1) j (LeavesParts d.cvd.number)
        → StandsBy kept events (world_at w items j) c → IsSplitOnDisk events (readings_of c.pages) (flipped d) plan.p plan.q }
    ensures later { (w : World) (items : List Item) (j p q : ℕ) (d : Dataset) (c : Image) (kept : Kept) (events : List Event) → IsRun w items → IsIn w.sets d
        → IsSplit d p q → d.plan ≡ None → Between items 0 j (LeavesParts d.cvd.number) → StandsBy kept events (world_at w items j) c
        → IsSplitOnDisk events (readings_of c.pages) d p q }
{}
