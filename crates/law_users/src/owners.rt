// Whose commands change a user's staged tables.
ghost use Rattle.std.specs.Prelude.{◌≡◌, ◌≢◌, ℕ, List, take};
ghost use Rattle.ov_model.specs.Act.{Session};
ghost use Rattle.ov_model.specs.Deed.{deed, own_rows};
ghost use Rattle.ov_model.specs.Registry.{stage_name};
ghost use Rattle.ov_model.specs.Steps.{all_moved};
ghost use Rattle.ov_model.specs.World.{World, set_named};
ghost use Rattle.ov_model.specs.declared.command.Command.{Command};
ghost use Rattle.law_users.specs.Owners.{IsKept, IsStaging};

/// The rows of a user's staged tables stay as they are through every command, however many of its moves take place, but for his own
/// `checkout -t` and `unstage`.
pub fn only_the_owner_changes_his_tables()
    ensures { (w : World) (s : Session) (command : Command) (user : List ℕ) (k : ℕ) → IsKept w → (IsStaging command → s.user ≢ user)
        → own_rows user (set_named (all_moved (take k (deed w s command).moves) w) stage_name) ≡ own_rows user (set_named w stage_name) }
{}
