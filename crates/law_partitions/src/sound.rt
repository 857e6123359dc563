// Laws of all that holds in a World, together.
ghost use Rattle.std.specs.Prelude.{◌≡◌, ◌-◌, ℕ, List, length, min, Some, None};
ghost use Rattle.ov_model.specs.Act.{Session};
ghost use Rattle.ov_model.specs.Deed.{deed};
ghost use Rattle.ov_model.specs.Course.{Space, course, world_at};
ghost use Rattle.ov_model.specs.Formed.{AllAsk, IsAsked};
ghost use Rattle.ov_model.specs.Forms.{Form, all_forms};
ghost use Rattle.ov_model.specs.Moves.{Move, moved};
ghost use Rattle.ov_model.specs.Steps.{all_moved, next_step, next_steps, steps_left};
ghost use Rattle.ov_model.specs.World.{World, empty_world};
ghost use Rattle.ov_model.specs.declared.command.Command.{Command};
ghost use Rattle.law_partitions.specs.Countdown.{AreNumbered};
ghost use Rattle.law_partitions.specs.Sound.{AllMay, AllNameVersions, IsSound, MayMove, NamesVersions};

/// What the laws say of a World holds in the empty one and stays so with every move that may be made. The step that is next
/// is always such a move.
pub fn worlds_stay_sound()
    ensures start { IsSound empty_world }
    ensures kept { (m : Move) (w : World) → MayMove m w → IsSound w → IsSound (moved m w) }
    ensures next { (w : World) (m : Move) → next_step w ≡ Some m → AreNumbered w → MayMove m w }
{}

/// So many steps, one after another, leave so many fewer; as many as are left end all plans, and no step is taken then.
pub fn steps_end_all_plans()
    ensures left { (n : ℕ) (w : World) → IsSound w → steps_left (all_moved (next_steps n w) w) ≡ steps_left w - n }
    ensures taken { (n : ℕ) (w : World) → IsSound w → length (next_steps n w) ≡ min n (steps_left w) }
    ensures end { (w : World) → IsSound w → next_step (all_moved (next_steps (steps_left w) w) w) ≡ None }
{}

/// What a command does may be done, one move after another: its refusals keep out all else.
pub fn commands_do_what_may_be_done()
    ensures { (w : World) (s : Session) (command : Command) → NamesVersions command → IsSound w → AllMay (deed w s command).moves w }
{}

/// Each World of a run from an empty store is sound: after each of its moves all of these laws hold. So is each World of a run
/// from a sound one, by any forms of commands, where the lines that ask for a commit list a version. So they do where each line's
/// command has what its form reads.
pub fn each_world_of_a_run_is_sound()
    ensures all { (steps : ℕ) (s : Session) (lines : List (List ℕ)) (space : Space) (k : ℕ)
        → IsSound (world_at empty_world (course all_forms steps empty_world s lines space).items k) }
    ensures asked { (forms : List Form) (steps : ℕ) (s : Session) (lines : List (List ℕ)) (space : Space) (k : ℕ) → AllAsk IsAsked forms lines
        → IsSound (world_at empty_world (course forms steps empty_world s lines space).items k) }
    ensures kept { (forms : List Form) (steps : ℕ) (w : World) (s : Session) (lines : List (List ℕ)) (space : Space) (k : ℕ)
        → AllNameVersions forms lines → IsSound w → IsSound (world_at w (course forms steps w s lines space).items k) }
    ensures names { (lines : List (List ℕ)) → AllNameVersions all_forms lines }
    ensures listed { (forms : List Form) (lines : List (List ℕ)) → AllAsk IsAsked forms lines → AllNameVersions forms lines }
{}
