// What is damaged where bytes stand for a World, and where versions were scanned: nothing.
ghost use Rattle.std.specs.Prelude.{ℕ, List};
ghost use Rattle.std.specs.List.{All, AllZip};
ghost use Rattle.ov_catalog.specs.Numbers.{PartNumbers};
ghost use Rattle.ov_fetch.specs.declared.errors.FetchErr.{FetchErr};
ghost use Rattle.ov_host.specs.declared.area.Extent.{Extent};
ghost use Rattle.ov_segment.specs.declared.numbered.Record.{Record};
ghost use Rattle.ov_model.specs.Lists.{IsIn};
ghost use Rattle.ov_model.specs.World.{Dataset, World};
ghost use Rattle.ov_read.specs.Agreement.{IsThere, Numbers};
ghost use Rattle.ov_read.specs.Damages.{IsDamage, PartDisagrees, RefusesPart, RefusesScan};
ghost use Rattle.ov_read.specs.Found.{IsScanned};
ghost use Rattle.ov_read.specs.OfWorld.{IsSetOf, IsSpared};

/// Nothing of a dataset is damaged: no list and no segment that a scan of versions that are there reads, and no partition. So
/// what refuses such a scan, or the rids of a partition, says nothing of the bytes.
pub fn nothing_is_damaged()
    ensures damage { (w : World) (area : List ℕ) (s : Numbers) (d : Dataset) (vids : List ℕ) (page : ℕ) → IsSetOf w d area s
        → All (IsThere s) vids → IsDamage area s vids page → ⊥ }
    ensures scan { (w : World) (area : List ℕ) (s : Numbers) (d : Dataset) (vids : List ℕ) (e : FetchErr) → IsSetOf w d area s
        → All (IsThere s) vids → RefusesScan e area s vids → IsSpared e }
    ensures disagrees { (w : World) (area : List ℕ) (s : Numbers) (d : Dataset) (part : PartNumbers Extent) → IsSetOf w d area s
        → IsIn s.parts part → PartDisagrees s.schema area part.segments part.records s.records → ⊥ }
    ensures part { (w : World) (area : List ℕ) (s : Numbers) (d : Dataset) (part : PartNumbers Extent) (e : FetchErr) → IsSetOf w d area s
        → IsIn s.parts part → RefusesPart e s.schema area part.segments part.records s.records → IsSpared e }
{}

/// Over any bytes: where versions are scanned, no page names a damage of them. So a scan that is Ok found none.
pub fn a_scan_finds_no_damage()
    ensures { (area : List ℕ) (s : Numbers) (records : List Record) (vids : List ℕ) (picks : List (List ℕ)) (page : ℕ)
        → AllZip (IsScanned area s records) vids picks → IsDamage area s vids page → ⊥ }
{}
