// Laws of records.
ghost use Rattle.std.specs.Prelude.{◌≡◌, ◌+◌, ℕ, List, [], ◌∷◌, ◌++◌, length, map};
ghost use Rattle.ov_value.specs.Shapes.{Shape};
ghost use Rattle.ov_model.specs.Book.{Row, Version};
ghost use Rattle.ov_graph.specs.Trees.{all_records};
ghost use Rattle.ov_value.specs.Rows.{key_cmp};
ghost use Rattle.ov_model.specs.Assigned.{assigned, fresh_rows, shared_with, stored, stored_parents};
ghost use Rattle.ov_model.specs.Lists.{IsIn, AllAreIn, Rises};
ghost use Rattle.ov_model.specs.Plans.{nodes_of_set};
ghost use Rattle.ov_model.specs.World.{Dataset, HasOneParentAtMost};
ghost use Rattle.ov_model.specs.Records.{Rec, recs, records_of, of_version, weight, fresh_in, order_of, rid_in, rows_at, counted, AllRise};

/// A version more gives the records that were there the rids that they had, and each record of each version has a rid.
pub fn versions_keep_earlier_rids()
    ensures known { (versions : List Version) → AllAreIn (recs versions []) (order_of versions) }
    ensures kept { (versions : List Version) (next : Version) (r : Rec) → IsIn (order_of versions) r
        → rid_in (order_of (versions ++ next ∷ [])) r ≡ rid_in (order_of versions) r }
{}

/// A version's own rows, with that version as the only parent, are no new records.
pub fn own_rows_are_no_new_records()
    ensures { (versions : List Version) (message : List ℕ) (vid : ℕ)
        → fresh_in (records_of (record { parents = vid ∷ []; message = message; rows = rows_at versions vid }) (recs versions []))
        (length versions + 1) ≡ [] }
{}

/// Rids are 1, 2, 3 and so on without a gap, in the order of origins and then of keys.
pub fn rids_have_no_gap()
    ensures { (schema : Shape) (versions : List Version) → AllRise schema versions
        → map (rid_in (order_of versions)) (order_of versions) ≡ counted 1 (length (order_of versions)) }
{}

/// The rids that a commit gives, from its parents' records as they are stored, are those of the new version's records; the
/// weight of its edge from a version is the number of them that this one has; and the fresh records are as many as have
/// new rids.
pub fn assignment_gives_the_rids()
    ensures rids { (schema : Shape) (versions : List Version) (v : Version) → Rises (key_cmp schema) v.rows
        → assigned v.rows (stored_parents v.parents (recs versions []) (order_of versions)) (length (order_of versions) + 1)
        ≡ map (rid_in (order_of (versions ++ v ∷ []))) (records_of v (recs versions [])) }
    ensures weights { (schema : Shape) (versions : List Version) (v : Version) (vid : ℕ) → Rises (key_cmp schema) v.rows
        → shared_with (assigned v.rows (stored_parents v.parents (recs versions []) (order_of versions)) (length (order_of versions) + 1))
        (stored (of_version (recs versions []) vid) (order_of versions))
        ≡ weight (records_of v (recs versions [])) (of_version (recs versions []) vid) }
    ensures fresh { (versions : List Version) (v : Version)
        → fresh_rows v.rows (stored_parents v.parents (recs versions []) (order_of versions))
        ≡ length (fresh_in (records_of v (recs versions [])) (length versions + 1)) }
{}

/// Where every version has at most one parent, T, the records that each version adds to its tree parent's, summed over all
/// versions, is the number of distinct records.
pub fn single_parents_count_records()
    ensures { (d : Dataset) → HasOneParentAtMost d.cvd.versions
        → all_records (nodes_of_set d) ≡ length (order_of d.cvd.versions) }
{}
