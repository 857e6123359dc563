// Laws of complete runs.
ghost use Rattle.std.specs.Prelude.{◌≡◌, ◌+◌, ℕ, Bool, List, [], length, None};
ghost use Rattle.law_complete.specs.Complete.{IsComplete, IsValid, NoFaults};
ghost use Rattle.law_complete.specs.OnDisk.{LeavesSplit};
ghost use Rattle.law_complete.specs.Room.{LinesHaveRoom};
ghost use Rattle.law_partitions.specs.PlanEnds.{HasAllVersions, IsSplit};
ghost use Rattle.law_plans.specs.Ends.{EndsPlan, LeavesParts};
ghost use Rattle.law_plans.specs.Runs.{Between};
ghost use Rattle.law_room.specs.Room.{Entry, Made};
ghost use Rattle.law_runs.specs.Licence.{Licensed};
ghost use Rattle.ov_model.specs.Act.{Session};
ghost use Rattle.ov_host.specs.Disk.{as_read};
ghost use Rattle.ov_model.specs.Course.{Served, Space, course, moves_of};
ghost use Rattle.ov_model.specs.Forms.{Form};
ghost use Rattle.ov_model.specs.Lists.{IsIn};
ghost use Rattle.ov_model.specs.Plans.{flipped};
ghost use Rattle.ov_model.specs.World.{Dataset, Plan, World};
ghost use Rattle.ov_top.specs.Ending.{Cause, Ends, IsTold, Played, Plays, course_of};
ghost use Rattle.ov_top.specs.declared.status.Status.{Status as StatusValue};

/// Where the words are of the form, the ends tell their bytes, nothing is pending, the store's bytes stand for a World, the source
/// has fewer than 2^32 bytes and no count of faults rose, what `run` says of its status (`cause`, `plays`) leaves `Done` and
/// `Refused`, each with the whole course played, and want of memory.
pub fn valid_input_is_served()
    ensures { (words : List (List ℕ)) (steps : ℕ) (w : World) (old new : Ends) (status : StatusValue) → IsValid words steps w old
        → NoFaults old new → Cause status words old new → Plays status steps w old new → IsComplete status steps w old new }
{}

/// Where there is room for each move that a script attempts, after those before it, no answer for room that is licensed refuses one:
/// the course is that of no refusals, whatever the answers are.
pub fn nothing_is_refused_where_there_is_room()
    ensures { (entry : Entry) (before : List Made) (forms : List Form) (steps : ℕ) (w : World) (s : Session) (lines : List (List ℕ)) (space : Space)
        → LinesHaveRoom entry before forms steps w s lines → Licensed entry before forms steps w s lines space
        → (record (course forms steps w s lines space) { left = [] }) ≡ course forms steps w s lines [] }
{}

/// After a run that was read to its end, where its ends tell: a plan that ended in it with all versions of its dataset, without a commit
/// to that dataset, a flip of it or its drop since, stands on the disk as the split, by the journal and the pages that the run left. And so
/// does a split that stood at the run's entry with no plan of it running, and was left alone: so it stays over one run after another.
pub fn a_run_leaves_the_split_on_the_disk()
    ensures plan { (steps : ℕ) (w : World) (failed : Bool) (old new : Ends) (k : ℕ) (d : Dataset) (plan : Plan) → IsTold w old
        → (played : Played steps w failed old new) → EndsPlan w (course_of steps w old played.space).items k d plan → HasAllVersions d plan
        → Between (course_of steps w old played.space).items (k + 1) (length (moves_of (course_of steps w old played.space).items)) (LeavesParts d.cvd.number)
        → LeavesSplit (course_of steps w old played.space).world (as_read new.host.tape.disk) (flipped d) plan.p plan.q }
    ensures later { (steps : ℕ) (w : World) (failed : Bool) (old new : Ends) (d : Dataset) (p q : ℕ) → IsTold w old
        → (played : Played steps w failed old new) → IsIn w.sets d → IsSplit d p q → d.plan ≡ None
        → Between (course_of steps w old played.space).items 0 (length (moves_of (course_of steps w old played.space).items)) (LeavesParts d.cvd.number)
        → LeavesSplit (course_of steps w old played.space).world (as_read new.host.tape.disk) d p q }
{}
