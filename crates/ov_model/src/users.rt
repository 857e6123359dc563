// Laws of users: who may do what, and how the registry changes.
ghost use Rattle.std.specs.Prelude.{◌≡◌, ◌⊎◌, ◌↔◌, ℕ, true, false, List, [], ◌∷◌, Option, Some, None};
ghost use Rattle.ov_model.specs.Act.{Session, refuses};
ghost use Rattle.ov_model.specs.Asking.{name_read, run_deed};
ghost use Rattle.ov_model.specs.QueryTexts.{AsksJoin, AsksQuery};
ghost use Rattle.ov_model.specs.Deed.{ChangesOnce, CommitsStaged, IsOneMore, IsStagedMore, deed, own_rows, permitted};
ghost use Rattle.ov_model.specs.Registry.{is_foreign, last_rows, stage_name, stage_schema, user_row, users_name, users_schema, without_row};
ghost use Rattle.ov_model.specs.Users.{AreSilent, IsLeast, is_run, permit, permit_names, rules};
ghost use Rattle.ov_model.specs.World.{Dataset, World, set_named};
ghost use Rattle.ov_model.specs.declared.command.Command.{Command};
ghost use Rattle.ov_model.specs.declared.command.Command.TheVariants.{Checkout, CommitStaged, CreateUser, Tables, Unstage};
ghost use Rattle.ov_model.specs.declared.query.JoinQuery.{JoinQuery as AJoin};
ghost use Rattle.ov_model.specs.declared.query.Query.{Query};
ghost use Rattle.ov_model.specs.declared.refusal.Refusal.{Refusal};
ghost use Rattle.ov_model.specs.declared.refusal.Refusal.TheVariants.{Denied};
ghost use Rattle.ov_model.specs.declared.reply.Reply.TheVariants.{Refused};
ghost use Rattle.ov_value.specs.Shapes.{Shape};

/// A user's command is denied by the first of the rules that denies it, and by nothing else: the user and the command alone
/// decide.
pub fn the_least_rule_denies()
    ensures denied { (user : List ℕ) (command : Command) (nth : ℕ)
        → (permit user command ≡ Some (Denied nth)) ↔ IsLeast rules nth user command }
    ensures silent { (user : List ℕ) (command : Command) → (permit user command ≡ None) ↔ AreSilent rules user command }
    ensures alone { (user : List ℕ) (command : Command) (refusal : Refusal) → permit user command ≡ Some refusal
        → (nth : ℕ) × (refusal ≡ Denied nth) }
{}

/// At every World and over all files a command is denied exactly by the rules, before all else that it may be refused for; and
/// where none denies, it does what it means by itself. A run is denied by the names of the datasets that its query or
/// join reads.
pub fn rules_decide_who_may()
    ensures exactly { (w : World) (s : Session) (command : Command) (nth : ℕ) → is_run command ≡ false
        → ((deed w s command).reply ≡ Refused (Denied nth)) ↔ (permit s.user command ≡ Some (Denied nth)) }
    ensures first { (w : World) (s : Session) (command : Command) (refusal : Refusal) → permit s.user command ≡ Some refusal
        → deed w s command ≡ refuses s refusal }
    ensures permitted { (w : World) (s : Session) (command : Command) → permit s.user command ≡ None
        → deed w s command ≡ permitted w s command }
    ensures run { (w : World) (s : Session) (query : Query) (refusal : Refusal)
        → permit_names s.user (name_read query.source ∷ []) ≡ Some refusal → run_deed w s (AsksQuery query) ≡ refuses s refusal }
    ensures join { (w : World) (s : Session) (join : AJoin) (refusal : Refusal)
        → permit_names s.user (join.left.cvd ∷ join.right.cvd ∷ []) ≡ Some refusal → run_deed w s (AsksJoin join) ≡ refuses s refusal }
{}

/// A dataset of the registry is foreign exactly where it is live with another schema.
pub fn another_schema_is_foreign()
    ensures live { (schema : Shape) (d : Dataset) → (is_foreign schema (Some d) ≡ false) ↔ (d.cvd.schema ≡ schema) }
    ensures none { (schema : Shape) → is_foreign schema None ≡ false }
{}

/// What changes the registry is refused, and leaves the session, or makes one move: the row of this user or of this table more, or a
/// table's row less.
pub fn the_registry_changes_by_one_move()
    ensures create { (w : World) (s : Session) (name : List ℕ)
        → ChangesOnce s users_name users_schema (set_named w users_name) (IsOneMore (set_named w users_name) (user_row name))
        (deed w s (CreateUser name)) }
    ensures stage { (w : World) (s : Session) (cvd vids table : List ℕ) (file : Option (List ℕ))
        → ChangesOnce s stage_name stage_schema (set_named w stage_name) (IsStagedMore w s cvd table vids (set_named w stage_name))
        (deed w s (Checkout cvd vids file (Some table))) }
    ensures unstage { (w : World) (s : Session) (user table : List ℕ)
        → ChangesOnce s stage_name stage_schema (set_named w stage_name)
        (λ rows. rows ≡ without_row (last_rows (set_named w stage_name)) user table) (deed w s (Unstage user table)) }
{}

/// What `tables` says hangs on the user's own rows alone, and on whether the registry is foreign.
pub fn tables_are_the_users_own()
    ensures { (w v : World) (s : Session) → own_rows s.user (set_named w stage_name) ≡ own_rows s.user (set_named v stage_name)
        → is_foreign stage_schema (set_named w stage_name) ≡ is_foreign stage_schema (set_named v stage_name) → deed w s Tables ≡ deed v s Tables }
{}

/// A commit of a staged table is refused before it is begun, or goes on for the user whom the table's row names as owner, and by that
/// row alone.
pub fn a_staged_table_is_its_owners()
    ensures { (w : World) (s : Session) (user table message : List ℕ) → ((refusal : Refusal) × (deed w s (CommitStaged user table message) ≡ refuses s refusal))
        ⊎ CommitsStaged w s user table message (deed w s (CommitStaged user table message)) }
{}
