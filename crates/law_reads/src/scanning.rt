// What a scan has of a version.
ghost use Rattle.std.specs.Prelude.{◌≡◌, ℕ, List, [], Some, map, slice_get};
ghost use Rattle.std.specs.List.{All, AllZip};
ghost use Rattle.ov_fetch.specs.Scans.{rows_at as picked_rows};
ghost use Rattle.ov_model.specs.Assigned.{stored, stored_parents};
ghost use Rattle.ov_model.specs.Records.{of_version, order_of, recs, rows_at};
ghost use Rattle.ov_model.specs.World.{Dataset, World};
ghost use Rattle.ov_records.specs.Records.{pairs_of};
ghost use Rattle.ov_segment.specs.declared.numbered.Record.{Record};
ghost use Rattle.ov_read.specs.Agreement.{IsThere, Numbers};
ghost use Rattle.ov_read.specs.Found.{IsScanned};
ghost use Rattle.ov_read.specs.OfWorld.{IsSetOf};

/// The records of a version in a scan are those of the version, each with its rid, in key order, and so its rows are the
/// version's. Of several versions they are what assignment asks of a new version's parents.
pub fn scans_are_seen()
    ensures stored { (w : World) (area : List ℕ) (s : Numbers) (d : Dataset) (records : List Record) (vid : ℕ) (pick : List ℕ) (found : List Record)
        → IsSetOf w d area s → IsThere s vid → IsScanned area s records vid pick → map (slice_get records) pick ≡ map Some found
        → pairs_of found ≡ stored (of_version (recs d.cvd.versions []) vid) (order_of d.cvd.versions) }
    ensures parents { (w : World) (area : List ℕ) (s : Numbers) (d : Dataset) (records : List Record) (vids : List ℕ) (picks : List (List ℕ)) (founds : List (List Record))
        → IsSetOf w d area s → All (IsThere s) vids → AllZip (IsScanned area s records) vids picks
        → map (λ pick. map (slice_get records) pick) picks ≡ map (λ found. map Some found) founds
        → map pairs_of founds ≡ stored_parents vids (recs d.cvd.versions []) (order_of d.cvd.versions) }
    ensures rows { (w : World) (area : List ℕ) (s : Numbers) (d : Dataset) (records : List Record) (vid : ℕ) (pick : List ℕ)
        → IsSetOf w d area s → IsThere s vid → IsScanned area s records vid pick → picked_rows records pick ≡ rows_at d.cvd.versions vid }
    ensures all_rows { (w : World) (area : List ℕ) (s : Numbers) (d : Dataset) (records : List Record) (vids : List ℕ) (picks : List (List ℕ))
        → IsSetOf w d area s → All (IsThere s) vids → AllZip (IsScanned area s records) vids picks
        → map (picked_rows records) picks ≡ map (rows_at d.cvd.versions) vids }
{}
