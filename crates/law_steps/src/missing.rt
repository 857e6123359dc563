// Laws of what is missing for the target whose turn it is.
ghost use Rattle.std.specs.Prelude.{◌≡◌, ◌≤◌, [], ℕ, List, Some, drop, length, map, take};
ghost use Rattle.std.specs.List.{list_any};
ghost use Rattle.ov_member.specs.Rids.{AreRids, has, left_out};
ghost use Rattle.ov_model.specs.Lists.{AreIn, IsIn, joined};
ghost use Rattle.ov_model.specs.Placed.{times};
ghost use Rattle.ov_model.specs.Plans.{current, missing as lacking, missing_of};
ghost use Rattle.ov_model.specs.Records.{Rec, of_version, order_of, recs};
ghost use Rattle.ov_model.specs.World.{Dataset, Part, Plan, World, held};
ghost use Rattle.ov_catalog.specs.Reached.{Reached};
ghost use Rattle.ov_catalog.specs.Shown.{kept_as, list_of, segment_of};
ghost use Rattle.ov_read.specs.OfWorld.{rids_in};
ghost use Rattle.law_steps.specs.Targets.{kept_rids, missing_rids, wanted_rids};

/// What was copied for a target are the first of the records that it lacked when its turn came, in the order of their rids. So
/// what is missing comes behind as many as were copied, whatever versions came since.
pub fn what_is_missing_comes_behind_what_was_copied()
    ensures dropped { (w : World) (d : Dataset) (plan : Plan) → Reached w → IsIn w.sets d → d.plan ≡ Some plan
        → lacking d plan ≡ drop (length (joined plan.copied)) (missing_of d (current plan) []) }
{}

/// The same by rids. Rids that are those of some versions' lists together are those of their records together. Of the rids that
/// a target wants, those that no kept piece has are as many as it lacked when its turn came; behind as many as were copied come
/// the missing ones. The first 256 of these are the next copy's; its records are the dataset's, and in its segment they stand in
/// that order.
pub fn what_is_missing_is_seen_by_rids()
    ensures wanted { (w : World) (d : Dataset) (vids wanted : List ℕ) → Reached w → IsIn w.sets d → AreRids wanted
        → ((rid : ℕ) → has wanted rid ≡ list_any (λ vid. has (rids_in d vid) rid) vids) → wanted ≡ wanted_rids d vids }
    ensures count { (w : World) (d : Dataset) (plan : Plan) (wanted kept : List ℕ) → Reached w → IsIn w.sets d → d.plan ≡ Some plan
        → wanted ≡ wanted_rids d (current plan).versions → ((rid : ℕ) → has kept rid ≡ has (kept_rids d (current plan)) rid)
        → length (left_out wanted kept) ≡ length (missing_of d (current plan) []) }
    ensures missing { (w : World) (d : Dataset) (plan : Plan) (wanted kept : List ℕ) → Reached w → IsIn w.sets d → d.plan ≡ Some plan
        → wanted ≡ wanted_rids d (current plan).versions → ((rid : ℕ) → has kept rid ≡ has (kept_rids d (current plan)) rid)
        → drop (length (joined plan.copied)) (left_out wanted kept) ≡ missing_rids d plan }
    ensures next { (w : World) (d : Dataset) (plan : Plan) → Reached w → IsIn w.sets d → d.plan ≡ Some plan
        → take 256 (missing_rids d plan) ≡ list_of (order_of d.cvd.versions) (take 256 (lacking d plan)) }
    ensures known { (d : Dataset) (plan : Plan) → AreIn (take 256 (lacking d plan)) (order_of d.cvd.versions) }
    ensures ordered { (w : World) (d : Dataset) (plan : Plan) → Reached w → IsIn w.sets d → d.plan ≡ Some plan
        → segment_of (order_of d.cvd.versions) (take 256 (lacking d plan)) ≡ map (kept_as (order_of d.cvd.versions)) (take 256 (lacking d plan)) }
{}

/// Where a version is one that a partition serves, the partition holds each record of the version. So a record that is missing
/// stands in each partition that serves a version which has it.
pub fn a_missing_record_is_in_each_of_its_partitions()
    ensures { (w : World) (d : Dataset) (vid : ℕ) (part : Part) (r : Rec) → Reached w → IsIn w.sets d → IsIn d.parts part → 1 ≤ times part.versions vid
        → IsIn (of_version (recs d.cvd.versions []) vid) r → IsIn (held part) r }
{}
