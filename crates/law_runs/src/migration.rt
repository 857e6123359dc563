// Laws of migration steps, one after another.
ghost use Rattle.std.specs.Prelude.{◌≡◌, ◌≢◌, ℕ, suc, Bool, true, false, List, Some, None};
ghost use Rattle.ov_host.specs.Host.{State};
ghost use Rattle.ov_host.specs.Stops.{Only};
ghost use Rattle.ov_core.specs.AtWorld.{IsAtWorld, IsEither};
ghost use Rattle.ov_core.specs.Held.{Held};
ghost use Rattle.ov_model.specs.Act.{Session};
ghost use Rattle.ov_model.specs.Forms.{Form};
ghost use Rattle.ov_model.specs.Line.{Comment, line_of};
ghost use Rattle.ov_model.specs.Moves.{Move, moved};
ghost use Rattle.ov_model.specs.Steps.{next_step};
ghost use Rattle.ov_model.specs.World.{World};
ghost use Rattle.law_room.specs.Room.{Entry, IsWithin, LacksRecord, LacksRun, Made};
ghost use Rattle.law_runs.specs.Moving.{IsMoved};
ghost use Rattle.law_runs.specs.Serving.{Serves};
ghost use Rattle.law_runs.specs.Stepping.{IsStepped, IsStepping};
ghost use Rattle.law_runs.specs.Stops.{printed_of};

/// Steps are taken one by one, each by a call of the store that may look at the host before. They end where all were made, where no
/// plan runs, and where there may be no room for the next one, which isn't made then.
pub fn steps_are_taken_one_by_one()
    ensures none { (n : ℕ) (w : World) (held : Held) (st : State) → IsAtWorld w held st → IsStepping n n w w held held st st }
    ensures looked { (n left : ℕ) (w v : World) (before now : Held) (old mid new : State) → IsStepping n left w v before now old mid
        → new.tells ≡ mid.tells → new.tape ≡ mid.tape → IsStepping n left w v before now old new }
    ensures more { (n left : ℕ) (w v : World) (m : Move) (before now later : Held) (old mid new : State)
        → IsStepping n (suc left) w v before now old mid → next_step v ≡ Some m → IsMoved m v now later mid new
        → IsStepping n left w (moved m v) before later old new }
    ensures over { (n : ℕ) (w v : World) (before now : Held) (old new : State) → IsStepping n 0 w v before now old new
        → IsStepped n w true before now old new }
    ensures idle { (n left : ℕ) (w v : World) (before now : Held) (old new : State) → IsStepping n left w v before now old new
        → next_step v ≡ None → IsStepped n w true before now old new }
    ensures no_run { (n left : ℕ) (w v : World) (m : Move) (before now : Held) (old new : State) (pages : ℕ)
        → IsStepping n (suc left) w v before now old new → next_step v ≡ Some m
        → ((entry : Entry) (past : List Made) → IsWithin entry past now → LacksRun entry past m v pages)
        → IsStepped n w true before now old new }
    ensures no_record { (n left : ℕ) (w v : World) (m : Move) (before now : Held) (old new : State)
        → IsStepping n (suc left) w v before now old new → next_step v ≡ Some m
        → ((entry : Entry) (past : List Made) → IsWithin entry past now → LacksRecord entry past m v)
        → IsStepped n w true before now old new }
{}

/// They may be broken off: in a step, which was made then or not, or between two, where the host was at most looked at.
pub fn steps_may_be_broken_off()
    ensures in_a_step { (n left : ℕ) (w v : World) (m : Move) (before now later : Held) (old mid new : State)
        → IsStepping n (suc left) w v before now old mid → next_step v ≡ Some m
        → Only mid.tape new.tape (IsEither v (moved m v) (printed_of mid)) → IsStepped n w false before later old new }
    ensures between { (n left : ℕ) (w v : World) (before now later : Held) (old mid new : State) → IsStepping n left w v before now old mid
        → new.tape ≡ mid.tape → IsStepped n w false before later old new }
{}

/// A line that isn't a comment, of commands of any forms, is served as if no step were asked for, and then come its steps; none where the run ends in it.
pub fn steps_follow_a_line()
    ensures line { (forms : List Form) (n : ℕ) (w : World) (s t : Session) (line : List ℕ) (ok refused : Bool) (before at_reply now : Held) (old mid new : State)
        → line_of forms line ≢ Comment → (a : Serves forms 0 w s t line true refused before at_reply old mid)
        → IsStepped n a.did.world ok at_reply now mid new → Serves forms n w s t line ok refused before now old new }
    ensures unserved { (forms : List Form) (n : ℕ) (w : World) (s t : Session) (line : List ℕ) (refused : Bool) (before now : Held) (old new : State)
        → line_of forms line ≢ Comment → Serves forms 0 w s t line false refused before now old new
        → Serves forms n w s t line false refused before now old new }
{}
