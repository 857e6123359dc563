// Laws of commands of several moves.
ghost use Rattle.std.specs.Prelude.{◌≡◌, ◌∷◌, ℕ, List, [], length, Some, None, true, false};
ghost use Rattle.ov_host.specs.Host.{State};
ghost use Rattle.ov_host.specs.Stops.{Only};
ghost use Rattle.ov_core.specs.AtWorld.{IsAtWorld, IsEither};
ghost use Rattle.ov_core.specs.Held.{Held};
ghost use Rattle.ov_model.specs.Act.{Deed, Session};
ghost use Rattle.ov_model.specs.Moves.{Move, moved};
ghost use Rattle.ov_model.specs.Steps.{steps_left};
ghost use Rattle.ov_model.specs.World.{World};
ghost use Rattle.ov_model.specs.declared.refusal.Refusal.TheVariants as no;
ghost use Rattle.ov_model.specs.declared.reply.Reply.TheVariants as says;
ghost use Rattle.law_room.specs.Room.{Entry, IsWithin, LacksRecord, LacksRun, Made};
ghost use Rattle.law_runs.specs.Serving.{Breaks, Does};
ghost use Rattle.law_runs.specs.Stops.{printed_of};
ghost use Rattle.law_moves.specs.Doing.{IsDoing, IsMoved};

/// Moves, each made by a call of the store, do what a command means once all of them are made; and wherever such a call is broken
/// off, the command is.
pub fn moves_make_a_deed()
    ensures none { (d : Deed) (w : World) (held : Held) (s : State) → IsAtWorld w held s → IsDoing d w w d.moves held held s s }
    ensures more { (d : Deed) (w v : World) (m : Move) (left : List Move) (before now later : Held) (old mid new : State)
        → IsDoing d w v (m ∷ left) before now old mid → IsMoved m v now later mid new → IsDoing d w (moved m v) left before later old new }
    ensures all { (d : Deed) (s : Session) (w v : World) (before now : Held) (old new : State) → IsDoing d w v [] before now old new
        → Does d s d.session w d.reply before now old new }
    ensures broken { (d : Deed) (s : Session) (w v : World) (m : Move) (left : List Move) (before now : Held) (old mid new : State)
        → IsDoing d w v (m ∷ left) before now old mid → Only mid.tape new.tape (IsEither v (moved m v) (printed_of mid)) → Breaks d s w old new }
{}

/// Where there may be no room for the next move, the command may be refused for that; the moves before it stay. Where the command
/// counts its steps, as `migrate` does, the refusal tells how many were taken and how many are left.
pub fn the_first_move_without_room_ends_a_deed()
    ensures run { (d : Deed) (s : Session) (w v : World) (m : Move) (left : List Move) (before now : Held) (old new : State) (pages : ℕ)
        → IsDoing d w v (m ∷ left) before now old new → d.counts_steps ≡ false
        → ((entry : Entry) (past : List Made) → IsWithin entry past now → LacksRun entry past m v pages)
        → Does d s s w (says.Refused (no.NoRun pages None)) before now old new }
    ensures record_ { (d : Deed) (s : Session) (w v : World) (m : Move) (left : List Move) (before now : Held) (old new : State)
        → IsDoing d w v (m ∷ left) before now old new → d.counts_steps ≡ false
        → ((entry : Entry) (past : List Made) → IsWithin entry past now → LacksRecord entry past m v)
        → Does d s s w (says.Refused (no.JournalFull None)) before now old new }
    ensures run_counted { (d : Deed) (s : Session) (w v : World) (m : Move) (left : List Move) (before now : Held) (old new : State) (pages : ℕ)
        → (is : IsDoing d w v (m ∷ left) before now old new) → d.counts_steps ≡ true
        → ((entry : Entry) (past : List Made) → IsWithin entry past now → LacksRun entry past m v pages)
        → Does d s s w (says.Refused (no.NoRun pages (Some (length is.moves, steps_left v)))) before now old new }
    ensures record_counted { (d : Deed) (s : Session) (w v : World) (m : Move) (left : List Move) (before now : Held) (old new : State)
        → (is : IsDoing d w v (m ∷ left) before now old new) → d.counts_steps ≡ true
        → ((entry : Entry) (past : List Made) → IsWithin entry past now → LacksRecord entry past m v)
        → Does d s s w (says.Refused (no.JournalFull (Some (length is.moves, steps_left v)))) before now old new }
{}
