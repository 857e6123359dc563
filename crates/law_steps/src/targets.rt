// Laws of what is read of the target whose turn it is.
ghost use Rattle.std.specs.Prelude.{◌≡◌, ℕ, List, Some, length, map, true};
ghost use Rattle.ov_member.specs.Rids.{has};
ghost use Rattle.ov_model.specs.Plans.{current};
ghost use Rattle.ov_model.specs.World.{Dataset, Plan, World};
ghost use Rattle.ov_segment.specs.declared.numbered.Record.{Record};
ghost use Rattle.ov_catalog.specs.Shown.{shown_target};
ghost use Rattle.ov_fetch.specs.Extents.{rids_of};
ghost use Rattle.ov_fetch.specs.Rows.{AreSegments};
ghost use Rattle.ov_read.specs.Agreement.{AreTogether, Numbers};
ghost use Rattle.ov_read.specs.OfWorld.{IsSetOf};
ghost use Rattle.law_steps.specs.Targets.{kept_contents, kept_rids, kept_segments, wanted_rids};

/// The segments that the current target keeps have the records of its kept pieces and no others. They share no rid; their rids are
/// as many as the target says, and all of them are wanted; and as many are wanted as the target says.
pub fn the_current_target_is_seen()
    ensures read { (w : World) (area : List ℕ) (s : Numbers) (d : Dataset) (plan : Plan) → IsSetOf w d area s → d.plan ≡ Some plan
        → AreSegments s.schema area (kept_segments s (shown_target d (current plan))) (kept_contents d (current plan)) }
    ensures only { (w : World) (area : List ℕ) (s : Numbers) (d : Dataset) (plan : Plan) (contents : List (List Record)) → IsSetOf w d area s
        → d.plan ≡ Some plan → AreSegments s.schema area (kept_segments s (shown_target d (current plan))) contents
        → contents ≡ kept_contents d (current plan) }
    ensures together { (w : World) (area : List ℕ) (s : Numbers) (d : Dataset) (plan : Plan) → IsSetOf w d area s → d.plan ≡ Some plan
        → AreTogether (map rids_of (kept_contents d (current plan))) (kept_rids d (current plan)) }
    ensures count { (w : World) (area : List ℕ) (s : Numbers) (d : Dataset) (plan : Plan) → IsSetOf w d area s → d.plan ≡ Some plan
        → length (kept_rids d (current plan)) ≡ (shown_target d (current plan)).kept_records }
    ensures within { (w : World) (area : List ℕ) (s : Numbers) (d : Dataset) (plan : Plan) (rid : ℕ) → IsSetOf w d area s → d.plan ≡ Some plan
        → has (kept_rids d (current plan)) rid ≡ true → has (wanted_rids d (current plan).versions) rid ≡ true }
    ensures size { (d : Dataset) (plan : Plan) → length (wanted_rids d (current plan).versions) ≡ (shown_target d (current plan)).size }
{}
