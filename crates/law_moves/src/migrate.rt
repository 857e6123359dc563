// Laws of `migrate`.
ghost use Rattle.std.specs.Prelude.{◌≡◌, ◌⊎◌, ◌+◌, ◌∷◌, ℕ, suc, List, [], length, Some, None};
ghost use Rattle.ov_host.specs.Host.{State};
ghost use Rattle.ov_host.specs.Stops.{Only};
ghost use Rattle.ov_core.specs.AtWorld.{IsEither};
ghost use Rattle.ov_core.specs.Held.{Held};
ghost use Rattle.ov_model.specs.Act.{Session, migrate_by};
ghost use Rattle.ov_model.specs.Deed.{permitted};
ghost use Rattle.ov_model.specs.Moves.{Move, moved};
ghost use Rattle.ov_model.specs.Steps.{next_step, next_steps, steps_left};
ghost use Rattle.ov_model.specs.World.{World};
ghost use Rattle.ov_model.specs.declared.command.Command.TheVariants as asks;
ghost use Rattle.ov_model.specs.declared.refusal.Refusal.TheVariants as no;
ghost use Rattle.ov_model.specs.declared.reply.Reply.TheVariants as says;
ghost use Rattle.law_room.specs.Room.{Entry, IsWithin, LacksRecord, LacksRun, Made};
ghost use Rattle.law_runs.specs.Serving.{Breaks, Does};
ghost use Rattle.law_runs.specs.Stepping.{IsStepping};
ghost use Rattle.law_runs.specs.Stops.{printed_of};
ghost use Rattle.law_moves.specs.Doing.{IsDoing};

/// Of so many steps none comes where none is asked for or no plan runs; else the next one, and then one less from the World after it.
pub fn the_next_step_comes_first()
    ensures over { (n : ℕ) (w : World) → (n ≡ 0) ⊎ (next_step w ≡ None) → next_steps n w ≡ [] }
    ensures next { (n : ℕ) (w : World) (m : Move) → next_step w ≡ Some m → next_steps (suc n) w ≡ m ∷ next_steps n (moved m w) }
{}

/// The moves of a `migrate` are steps, taken one by one. It tells how many were taken and how many are left: once no step comes any
/// more, and where there may be no room for the next one. Broken off, it is so as any command of several moves is.
pub fn steps_make_a_migrate()
    ensures moves { (n left : ℕ) (s : Session) (w v : World) (before now : Held) (old new : State) → IsStepping n left w v before now old new
        → IsDoing (migrate_by w s (next_steps n w)) w v (next_steps left v) before now old new }
    ensures done { (n : ℕ) (s : Session) (w v : World) (before now : Held) (old new : State)
        → (is : IsDoing (migrate_by w s (next_steps n w)) w v [] before now old new)
        → Does (migrate_by w s (next_steps n w)) s s w (says.Migrate (length is.moves) (steps_left v)) before now old new }
    ensures all { (n left taken : ℕ) (s : Session) (w v : World) (before now : Held) (old new : State)
        → IsStepping n left w v before now old new → taken + left ≡ n → (left ≡ 0) ⊎ (next_step v ≡ None)
        → Does (permitted w s (asks.Migrate n)) s s w (says.Migrate taken (steps_left v)) before now old new }
    ensures no_run { (n left taken : ℕ) (s : Session) (w v : World) (m : Move) (before now : Held) (old new : State) (pages : ℕ)
        → IsStepping n (suc left) w v before now old new → taken + suc left ≡ n → next_step v ≡ Some m
        → ((entry : Entry) (past : List Made) → IsWithin entry past now → LacksRun entry past m v pages)
        → Does (permitted w s (asks.Migrate n)) s s w (says.Refused (no.NoRun pages (Some (taken, steps_left v)))) before now old new }
    ensures no_record { (n left taken : ℕ) (s : Session) (w v : World) (m : Move) (before now : Held) (old new : State)
        → IsStepping n (suc left) w v before now old new → taken + suc left ≡ n → next_step v ≡ Some m
        → ((entry : Entry) (past : List Made) → IsWithin entry past now → LacksRecord entry past m v)
        → Does (permitted w s (asks.Migrate n)) s s w (says.Refused (no.JournalFull (Some (taken, steps_left v)))) before now old new }
    ensures in_a_step { (n left : ℕ) (s : Session) (w v : World) (m : Move) (before now : Held) (old mid new : State)
        → IsStepping n (suc left) w v before now old mid → next_step v ≡ Some m
        → Only mid.tape new.tape (IsEither v (moved m v) (printed_of mid)) → Breaks (permitted w s (asks.Migrate n)) s w old new }
    ensures between { (n left : ℕ) (s : Session) (w v : World) (before now : Held) (old mid new : State)
        → IsStepping n left w v before now old mid → new.tape ≡ mid.tape → Breaks (permitted w s (asks.Migrate n)) s w old new }
{}
