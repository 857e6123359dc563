// Laws of runs, each the contract of a function that does nothing.
ghost use Rattle.std.specs.Prelude.{◌≡◌, ℕ, Bool};
ghost use Rattle.ov_host.specs.declared.area.Extent.{Extent};
ghost use Rattle.ov_host.specs.Disk.{Disk, Image};
ghost use Rattle.ov_host.specs.Tape.{clock, left_since};
ghost use Rattle.ov_catalog.specs.Numbers.{Numbers};
ghost use Rattle.ov_model.specs.Course.{world_at};
ghost use Rattle.ov_model.specs.World.{World};
ghost use Rattle.ov_open.specs.declared.errors.OpenErr.{OpenErr as OpenErrValue};
ghost use Rattle.ov_open.specs.Opening.{IsOutside};
ghost use Rattle.ov_open.specs.Refusing.{Refuses};
ghost use Rattle.ov_top.specs.declared.status.Status.{Status as StatusValue};
ghost use Rattle.ov_top.specs.Bytes.{Opens, OpensAs};
ghost use Rattle.ov_top.specs.Composing.{BeginsFrom, Continues};
ghost use Rattle.ov_top.specs.Ending.{Ends, IsTold, Keeps, Played, PlayedTaken, Plays, Stops, course_of, course_taken};

/// Bytes that open are refused for nothing: not as no store's, not for a format number, and not as damaged.
pub fn bytes_that_open_are_not_refused()
    ensures { (why : OpenErrValue) (d e : Disk) → Opens d → Refuses why d e → IsOutside why }
{}

/// Bytes say one catalog's numbers at most.
pub fn bytes_say_one_thing()
    ensures { (a b : Numbers Extent Extent) (d : Disk) → OpensAs a d → OpensAs b d → a ≡ b }
{}

/// Runs compose. After a run whose script was read to its end, or as far as was possible, the next one may begin, at the World
/// that this one left.
pub fn a_run_goes_on_where_the_last_one_ended()
    ensures whole { (steps : ℕ) (w : World) (failed : Bool) (old new next : Ends) → IsTold w old → Keeps old new
        → (played : Played steps w failed old new) → Continues new next → IsTold (course_of steps w old played.space).world next }
    ensures taken { (steps : ℕ) (w : World) (old new next : Ends) → IsTold w old → Keeps old new
        → (played : PlayedTaken steps w old new) → Continues new next → IsTold (course_taken steps w old new played.space).world next }
{}

/// And after a stop at any moment of a run, or after its end, however it ended: over the bytes that were left the next one begins
/// at a World that is due.
pub fn a_run_goes_on_after_a_stop()
    ensures { (status : StatusValue) (steps : ℕ) (w : World) (old new next : Ends) (c : Image) → Plays status steps w old new
        → (left : left_since new.host.tape (clock old.host.tape) c) → BeginsFrom c next
        → (stops : Stops steps w old new) × IsTold (world_at w (course_of steps w old stops.space).items (stops.stops c left).k) next }
{}
