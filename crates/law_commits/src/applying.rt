// The event of a commit applies where what was read agrees with the catalog's numbers.

ghost use Rattle.std.specs.Prelude.{◌≡◌, ◌+◌, ℕ, List, length, Some, None, IsTrue};
ghost use Rattle.ov_event.specs.declared.event.Event.TheVariants as says;
ghost use Rattle.ov_event.specs.declared.event.Placed.{Placed};
ghost use Rattle.ov_host.specs.declared.area.Extent.{Extent};
ghost use Rattle.ov_segment.specs.declared.numbered.Record.{Record};
ghost use Rattle.ov_value.specs.Shapes.{Shape};
ghost use Rattle.ov_value.specs.declared.column.Column.{Column};
ghost use Rattle.ov_model.specs.Assigned.{fresh_rows};
ghost use Rattle.ov_model.specs.Book.{Row};
ghost use Rattle.ov_records.specs.Records.{lists_of};
ghost use Rattle.ov_catalog.specs.Applying.{is_list, is_segment, commit_off, set_numbered, first_off};
ghost use Rattle.ov_catalog.specs.Numbers.{SetNumbers, Numbers};
ghost use Rattle.ov_catalog.specs.Raw.{adding, place_in};
ghost use Rattle.law_commits.specs.Agreeing.{AreRids, ParentsAgree};
ghost use Rattle.law_commits.specs.Committing.{MayAdd, MayCommit, JoinedAgrees, rids_for, edges_for, place_for, added_for};

/// Where what was read of a commit's parents agrees with the dataset's numbers, and what was read of the partition that it
/// joins too, no part of the commit's event is off; so the event applies, with columns that the dataset may get too. Nothing else is asked of the dataset's numbers: they
/// may be those of any image.
pub fn a_commit_that_agrees_applies()
    ensures dataset { (d : SetNumbers Extent Extent) (schema : Shape) (vids message : List ℕ) (rows : List Row) (parents : List (List Record)) (held : List ℕ)
        (place : Placed) (list segment : Extent) → MayCommit d schema vids message rows parents → ParentsAgree d vids parents → place_in place ≡ place_for d vids rows parents
        → JoinedAgrees d (place_in place) held → IsTrue (is_list (length rows) list)
        → IsTrue (is_segment (added_for (place_in place) rows (rids_for d rows parents) held) segment)
        → commit_off (length d.versions + 1) message (edges_for d vids rows parents) (length rows) (fresh_rows rows (lists_of parents)) (place_in place)
        (added_for (place_in place) rows (rids_for d rows parents) held) list segment d ≡ None }
    ensures event { (format : ℕ) (columns : List Column) (n : Numbers Extent Extent) (cvd : ℕ) (d : SetNumbers Extent Extent) (schema : Shape) (vids message : List ℕ) (rows : List Row)
        (parents : List (List Record)) (held : List ℕ) (place : Placed) (list segment : Extent) → set_numbered cvd n ≡ Some d
        → MayAdd format columns d → MayCommit d schema vids message rows parents → ParentsAgree d vids parents → place_in place ≡ place_for d vids rows parents
        → JoinedAgrees d (place_in place) held → IsTrue (is_list (length rows) list)
        → IsTrue (is_segment (added_for (place_in place) rows (rids_for d rows parents) held) segment)
        → first_off format (adding columns (says.Commit cvd (length d.versions + 1) message (edges_for d vids rows parents) (length rows) (fresh_rows rows (lists_of parents)) place
        (added_for (place_in place) rows (rids_for d rows parents) held) list segment)) n ≡ None }
{}

/// The rids of a commit's rows are different, and none is over the number of records that the dataset then has. So its list
/// agrees as well.
pub fn a_commit_gives_different_rids()
    ensures { (d : SetNumbers Extent Extent) (schema : Shape) (vids message : List ℕ) (rows : List Row) (parents : List (List Record))
        → MayCommit d schema vids message rows parents → ParentsAgree d vids parents
        → AreRids (length rows) (d.records + fresh_rows rows (lists_of parents)) (rids_for d rows parents) }
{}
