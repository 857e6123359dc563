// Laws of the limits that are too great for a worked example.
ghost use Rattle.std.specs.Prelude.{◌≡◌, ◌≤◌, ◌<◌, ◌+◌, ◌^◌, ℕ, Bool, false, List, [], ◌∷◌, length, Some, None, Result, Ok, Err};
ghost use Rattle.ov_value.specs.declared.column.Column.{Column};
ghost use Rattle.ov_value.specs.declared.column.Kind.{Kind};
ghost use Rattle.ov_value.specs.declared.schema_err.SchemaErr.{SchemaErr};
ghost use Rattle.ov_value.specs.Shapes.{Shape};
ghost use Rattle.ov_model.specs.Act.{Deed, Session, commit_deed, commit_rows, does, format_one, fresh_of, refuses, repeated_key, schema_with, vids_refusal, with_rows};
ghost use Rattle.ov_model.specs.Book.{Cvd, Row};
ghost use Rattle.ov_model.specs.Deed.{changes};
ghost use Rattle.ov_model.specs.Forms.{schema_refusal};
ghost use Rattle.ov_model.specs.Joins.{join_answer, join_kinds, join_over, joined_rows, told};
ghost use Rattle.ov_model.specs.Merge.{in_key_order};
ghost use Rattle.ov_model.specs.Moves.{Commit, wide};
ghost use Rattle.ov_model.specs.Records.{order_of};
ghost use Rattle.ov_model.specs.Registry.{change_of, change_refusal, last_alone, version_rows};
ghost use Rattle.ov_model.specs.World.{Dataset, World};
ghost use Rattle.ov_model.specs.declared.query.JoinQuery.{JoinQuery as AJoin};
ghost use Rattle.ov_model.specs.declared.refusal.Refusal.{Refusal};
ghost use Rattle.ov_model.specs.declared.refusal.Refusal.TheVariants as no;
ghost use Rattle.ov_model.specs.declared.reply.Reply.{Reply};
ghost use Rattle.ov_model.specs.declared.reply.Reply.TheVariants as says;
ghost use Rattle.std.specs.Prelude.{codes};

/// A commit to a dataset of 65,535 versions is refused, whatever columns and file come with it; to fewer, first for its columns.
/// Over 1,000,000 rows are refused before a key that is repeated, and that before NULL in a store of format 1. Last, there are at
/// most 2^31 records with the new ones, which are counted with the added columns.
pub fn a_commit_keeps_to_the_limits()
    ensures versions { (w : World) (s : Session) (name : List ℕ) (parents message file : List ℕ) (added : List Column) (d : Dataset)
        → vids_refusal (length d.cvd.versions) [] parents ≡ None → 65535 ≤ length d.cvd.versions
        → commit_deed w s name parents message added file (Some d) ≡ refuses s (no.TooManyVersions d.cvd.name) }
    ensures columns { (w : World) (s : Session) (name : List ℕ) (parents message file : List ℕ) (added : List Column) (d : Dataset) (why : SchemaErr)
        → vids_refusal (length d.cvd.versions) [] parents ≡ None → length d.cvd.versions < 65535 → schema_with d.cvd.schema added ≡ Err why
        → commit_deed w s name parents message added file (Some d) ≡ refuses s (schema_refusal why) }
    ensures rows { (w : World) (s : Session) (schema : Shape) (adds : Bool) (next : List Row → Deed) (rows : List Row) → 1000000 < length rows
        → with_rows w s schema adds next (Ok rows) ≡ refuses s no.TooManyRows }
    ensures keys { (w : World) (s : Session) (schema : Shape) (adds : Bool) (next : List Row → Deed) (rows : List Row) (refusal : Refusal) → length rows ≤ 1000000
        → repeated_key schema [] 1 rows ≡ Some refusal → with_rows w s schema adds next (Ok rows) ≡ refuses s refusal }
    ensures format { (w : World) (s : Session) (schema : Shape) (adds : Bool) (next : List Row → Deed) (rows : List Row) (refusal : Refusal) → length rows ≤ 1000000
        → repeated_key schema [] 1 rows ≡ None → format_one w.format adds rows ≡ Some refusal → with_rows w s schema adds next (Ok rows) ≡ refuses s refusal }
    ensures accepted { (w : World) (s : Session) (schema : Shape) (adds : Bool) (next : List Row → Deed) (rows : List Row) → length rows ≤ 1000000
        → repeated_key schema [] 1 rows ≡ None → format_one w.format adds rows ≡ None → with_rows w s schema adds next (Ok rows) ≡ next (in_key_order schema rows) }
    ensures records { (s : Session) (d : Dataset) (parents message : List ℕ) (added : List Column) (rows : List Row)
        → 2 ^ 31 < length (order_of (wide added d).cvd.versions) + fresh_of (wide added d) parents message rows
        → commit_rows s d parents message added rows ≡ refuses s (no.TooManyRecords (wide added d).cvd.name) }
    ensures made { (s : Session) (d : Dataset) (parents message : List ℕ) (added : List Column) (rows : List Row)
        → length (order_of (wide added d).cvd.versions) + fresh_of (wide added d) parents message rows ≤ 2 ^ 31
        → commit_rows s d parents message added rows ≡ does s (Commit d.cvd.number parents message added rows)
        (says.Commit d.cvd.name (length d.cvd.versions + 1) (length rows) (fresh_of (wide added d) parents message rows)) }
{}

/// A change of a dataset of the registry that is there is refused for 65,535 versions, then for over 1,000,000 rows, then for a NULL
/// in a store of format 1, and then for records past 2^31; the change is made exactly where none of these holds.
pub fn a_registry_keeps_to_the_limits()
    ensures versions { (w : World) (name : List ℕ) (rows : List Row) (d : Dataset) → 65535 ≤ length d.cvd.versions
        → change_refusal w name rows (Some d) ≡ Some (no.TooManyVersions name) }
    ensures rows { (w : World) (name : List ℕ) (rows : List Row) (d : Dataset) → length d.cvd.versions < 65535 → 1000000 < length rows
        → change_refusal w name rows (Some d) ≡ Some no.TooManyRows }
    ensures null { (w : World) (name : List ℕ) (rows : List Row) (d : Dataset) (refusal : Refusal) → length d.cvd.versions < 65535
        → length rows ≤ 1000000 → format_one w.format false rows ≡ Some refusal → change_refusal w name rows (Some d) ≡ Some refusal }
    ensures records { (w : World) (name : List ℕ) (rows : List Row) (d : Dataset) → length d.cvd.versions < 65535 → length rows ≤ 1000000
        → format_one w.format false rows ≡ None → 2 ^ 31 < length (order_of d.cvd.versions) + fresh_of d (last_alone d) (codes "stage") rows
        → change_refusal w name rows (Some d) ≡ Some (no.TooManyRecords d.cvd.name) }
    ensures none { (w : World) (name : List ℕ) (rows : List Row) (d : Dataset) → length d.cvd.versions < 65535 → length rows ≤ 1000000
        → format_one w.format false rows ≡ None → length (order_of d.cvd.versions) + fresh_of d (last_alone d) (codes "stage") rows ≤ 2 ^ 31
        → change_refusal w name rows (Some d) ≡ None }
    ensures refused { (w : World) (s t : Session) (name : List ℕ) (schema : Shape) (rows : List Row) (reply : Reply) (d : Dataset) (refusal : Refusal)
        → change_refusal w name (version_rows schema rows) (Some d) ≡ Some refusal → changes w s t name schema rows reply (Some d) ≡ refuses s refusal }
    ensures made { (w : World) (s t : Session) (name : List ℕ) (schema : Shape) (rows : List Row) (reply : Reply) (d : Dataset)
        → change_refusal w name (version_rows schema rows) (Some d) ≡ None
        → changes w s t name schema rows reply (Some d) ≡ does t (change_of name schema (version_rows schema rows) (Some d)) reply }
{}

/// A join whose names and kinds are in order is refused where more than 1,000,000 pairs match, before its WHERE is asked, and is
/// answered where no more do.
pub fn a_join_matches_a_million_pairs_at_most()
    ensures kinds { (s : Session) (join : AJoin) (left right : Cvd) (refusal : Refusal) → join_kinds join left.schema right.schema ≡ Err refusal
        → join_over s join (Ok left) (Ok right) ≡ refuses s refusal }
    ensures many { (s : Session) (join : AJoin) (left right : Cvd) (kinds : List Kind) → join_kinds join left.schema right.schema ≡ Ok kinds
        → 1000000 < length (joined_rows join left right) → join_over s join (Ok left) (Ok right) ≡ refuses s no.TooManyJoined }
    ensures few { (s : Session) (join : AJoin) (left right : Cvd) (kinds : List Kind) → join_kinds join left.schema right.schema ≡ Ok kinds
        → length (joined_rows join left right) ≤ 1000000
        → join_over s join (Ok left) (Ok right) ≡ told s kinds (join_answer join left.schema right.schema (joined_rows join left right)) }
{}
