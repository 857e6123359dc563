// Laws of the course.
ghost use Rattle.std.specs.Prelude.{ℕ, List};
ghost use Rattle.ov_host.specs.Disk.{Image};
ghost use Rattle.ov_host.specs.Host.{State};
ghost use Rattle.ov_host.specs.Tape.{clock, left_since};
ghost use Rattle.ov_core.specs.AtWorld.{IsAtWorld};
ghost use Rattle.ov_core.specs.Held.{Held};
ghost use Rattle.ov_model.specs.Act.{Session};
ghost use Rattle.ov_model.specs.Course.{Item, SaysSome, course};
ghost use Rattle.ov_model.specs.Forms.{Form};
ghost use Rattle.ov_model.specs.World.{World};
ghost use Rattle.law_runs.specs.Serving.{Runs};
ghost use Rattle.law_runs.specs.Stops.{IsDue, IsFound, printed_of};

/// A stop at some place of what is to be done and said, where no reply is empty: a prefix x of the replies is printed, and the
/// image stands for a World that is due then, in the words of `whole`, `due` and `World(k)`.
pub fn a_stop_is_found_between_due_replies()
    ensures { (w : World) (printed : List ℕ) (items : List Item) (c : Image) → SaysSome items → IsFound w printed items c
        → IsDue w printed items c }
{}

/// A run from a World that a store is at, by commands of any forms: all that a stop at some moment of it may have left is due in its course.
pub fn any_stop_of_a_run_leaves_what_is_due()
    ensures { (forms : List Form) (steps : ℕ) (w : World) (s : Session) (lines : List (List ℕ)) (before : Held) (old new : State) → IsAtWorld w before old
        → (runs : Runs forms steps w s lines before old new) → (c : Image) → left_since new.tape (clock old.tape) c
        → IsDue w (printed_of old) (course forms steps w s lines runs.space).items c }
{}
