//! What reserving and freeing keep true of the extents that are live. Each law is the contract of a function that
//! does nothing.

ghost use Rattle.std.specs.Prelude.{◌≡◌, ℕ, ◌+◌, ◌-◌, ◌<◌, List, [], ◌∷◌, ◌++◌, ◌==◌, if◌then◌else◌, length, slice_index_or, remove};
ghost use Rattle.ov_host.specs.declared.area.Extent.{Extent};
ghost use Rattle.ov_host.specs.Extent.{pages_of};
ghost use Rattle.ov_pages.specs.Sets.{Reserved, IsLowestRun, IsReservedRun, IsWithRun, IsWithoutRun};
ghost use Rattle.ov_pages.specs.Live.{AreReserved};

/// Where the reserved pages are those of live extents, each of these can be freed.
pub fn live_can_be_freed()
    ensures reserved { (live : List Extent) (r : Reserved) → AreReserved live r → (i : ℕ) (d : Extent) → i < length live → IsReservedRun r.pages (pages_of (slice_index_or live i d)) (slice_index_or live i d).page }
    ensures room { (live : List Extent) (r : Reserved) → AreReserved live r → (i : ℕ) (d : Extent) → i < length live → 0 < pages_of (slice_index_or live i d) → 0 < r.room }
{}

/// An extent in a run that was reserved is one live extent more.
pub fn reserved_is_live()
    ensures { (live : List Extent) (old new : Reserved) (e : Extent) → AreReserved live old → 0 < pages_of e → IsLowestRun old.pages (pages_of e) e.page → IsWithRun old.pages new.pages e.page (pages_of e) → new.room ≡ old.room + 1 → AreReserved (live ++ e ∷ []) new }
{}

/// An extent that was freed is no longer live.
pub fn freed_is_not_live()
    ensures { (live : List Extent) (old new : Reserved) (i : ℕ) (e : Extent) → AreReserved live old → i < length live → e ≡ slice_index_or live i e → IsWithoutRun old.pages new.pages e.page (pages_of e) → new.room ≡ (if pages_of e == 0 then old.room else old.room - 1) → AreReserved (remove live i) new }
{}
