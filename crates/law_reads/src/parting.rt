// What is read of a partition's segments.
ghost use Rattle.std.specs.Prelude.{◌≡◌, ℕ, List, length, map, true};
ghost use Rattle.ov_fetch.specs.Extents.{rids_of};
ghost use Rattle.ov_fetch.specs.Rows.{AreSegments};
ghost use Rattle.ov_host.specs.declared.area.Extent.{Extent};
ghost use Rattle.ov_segment.specs.declared.numbered.Record.{Record};
ghost use Rattle.ov_catalog.specs.Numbers.{PartNumbers};
ghost use Rattle.ov_catalog.specs.Shown.{held_by};
ghost use Rattle.ov_model.specs.Lists.{IsIn};
ghost use Rattle.ov_model.specs.World.{Dataset, World};
ghost use Rattle.ov_read.specs.Agreement.{IsThere, Numbers, PartAgrees, is_served};
ghost use Rattle.ov_read.specs.Partitions.{IsPartRead};
ghost use Rattle.law_reads.specs.Sights.{IsPartOf, contents_of, part_rids};
ghost use Rattle.ov_read.specs.OfWorld.{IsSetOf};

/// The segments of a partition have the records of its pieces and no others; they share no rid, and together they agree with
/// its numbers and are the records that the partition holds. Each version that is there is in a partition.
pub fn partitions_are_seen()
    ensures one { (w : World) (area : List ℕ) (s : Numbers) (d : Dataset) (part : PartNumbers Extent) → IsSetOf w d area s
        → IsIn s.parts part → IsPartOf d part }
    ensures read { (w : World) (area : List ℕ) (s : Numbers) (d : Dataset) (part : PartNumbers Extent) → IsSetOf w d area s
        → IsIn s.parts part → AreSegments s.schema area part.segments (contents_of d part.id) }
    ensures only { (w : World) (area : List ℕ) (s : Numbers) (d : Dataset) (part : PartNumbers Extent) (contents : List (List Record))
        → IsSetOf w d area s → IsIn s.parts part → AreSegments s.schema area part.segments contents → contents ≡ contents_of d part.id }
    ensures records { (w : World) (area : List ℕ) (s : Numbers) (d : Dataset) (part : PartNumbers Extent) → IsSetOf w d area s
        → IsIn s.parts part → part.records ≡ length (held_by d.parts part.id) }
    ensures agrees { (w : World) (area : List ℕ) (s : Numbers) (d : Dataset) (part : PartNumbers Extent) → IsSetOf w d area s
        → IsIn s.parts part → PartAgrees part.records s.records (map rids_of (contents_of d part.id)) }
    ensures rids { (w : World) (area : List ℕ) (s : Numbers) (d : Dataset) (part : PartNumbers Extent) (all : List ℕ) → IsSetOf w d area s
        → IsIn s.parts part → IsPartRead s.schema area part.segments all → all ≡ part_rids d part.id }
    ensures served { (w : World) (area : List ℕ) (s : Numbers) (d : Dataset) (vid : ℕ) → IsSetOf w d area s → IsThere s vid
        → is_served s vid ≡ true }
{}
