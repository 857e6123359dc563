//! What is read of bytes, each law the contract of a function that does nothing.

ghost use Rattle.std.specs.Prelude.{◌≡◌, ◌↔◌, ◌≤◌, ◌<◌, ℕ, List, [], ◌∷◌, map, Some, None};
ghost use Rattle.ov_host.specs.declared.area.Extent.{Extent};
ghost use Rattle.ov_member.specs.Lists.{Spells};
ghost use Rattle.ov_segment.specs.declared.numbered.Record.{Record as RecordValue};
ghost use Rattle.ov_segment.specs.Segments.{AreRecords, segment_spelling};
ghost use Rattle.ov_value.specs.Shapes.{Shape};
ghost use Rattle.ov_catalog.specs.Shown.{Records};
ghost use Rattle.ov_catalog.specs.Extents.{covers};
ghost use Rattle.law_image.specs.Lists.{list_in};
ghost use Rattle.law_image.specs.Pages.{IsWhole, extent_bytes, readings_of};
ghost use Rattle.law_image.specs.Segments.{AreKept, as_kept, segment_bytes, segment_in};

/// Rids are read exactly where the bytes are their list.
pub fn lists_are_read()
    ensures read { (bytes rids : List ℕ) → list_in bytes ≡ Some rids → Spells bytes rids }
    ensures all { (bytes rids : List ℕ) → Spells bytes rids → list_in bytes ≡ Some rids }
{}

/// Records are read exactly where the bytes are theirs, and so are those of a segment.
pub fn segments_are_read()
    ensures read { (bytes : List ℕ) (records : Records) → segment_in bytes ≡ Some records
        → AreKept 0 records × (bytes ≡ segment_bytes records) }
    ensures all { (bytes : List ℕ) (records : Records) → AreKept 0 records → bytes ≡ segment_bytes records
        → segment_in bytes ≡ Some records }
    ensures of_rows { (schema : Shape) (records : List RecordValue) → AreRecords schema 0 records
        → segment_in (segment_spelling records) ≡ Some (map as_kept records) }
{}

/// What is read of an extent is what its bytes are, where all of them are there.
pub fn extents_are_read()
    ensures list { (pages : List ℕ) (e : Extent) (rids : List ℕ)
        → (((readings_of pages).list e ≡ Some rids) ↔ (IsWhole pages e × Spells (extent_bytes pages e) rids)) }
    ensures segment { (schema : Shape) (pages : List ℕ) (e : Extent) (records : List RecordValue) → IsWhole pages e
        → AreRecords schema 0 records → extent_bytes pages e ≡ segment_spelling records
        → (readings_of pages).segment e ≡ Some (map as_kept records) }
    ensures short { (pages : List ℕ) (e : Extent) → (IsWhole pages e → ⊥)
        → ((readings_of pages).list e ≡ None) × ((readings_of pages).segment e ≡ None) }
    ensures pages { (pages : List ℕ) (e : Extent) → ((page : ℕ) → 1 ≤ covers (e ∷ []) page → page < (readings_of pages).pages)
        → IsWhole pages e }
{}
