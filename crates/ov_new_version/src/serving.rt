// The partition that a commit joins.

ghost use Rattle.std.specs.Prelude.{◌≡◌, ◌≢◌, ℕ, List, [], true, Option, Some, length};
ghost use Rattle.ov_host.specs.declared.area.Extent.{Extent};
ghost use Rattle.ov_catalog.specs.Numbers.{PartNumbers};
ghost use Rattle.ov_fetch.specs.declared.errors.FetchErr.TheVariants as fetch;
ghost use Rattle.ov_read.specs.Agreement.{Numbers};
ghost use Rattle.ov_read.specs.Sizes.{serves_one};
ghost use Rattle.ov_new_version.specs.Asked.{Asked};
ghost use Rattle.ov_new_version.specs.Joined.{IsReadOf, RefusesJoined, joined_of};

/// The partition that a version joins serves one of its parents, so it was read for their records.
pub fn a_joined_partition_serves_a_parent()
    ensures { (a : Asked) (part : PartNumbers Extent) → a.vids ≢ [] → length a.parents ≡ length a.vids
        → joined_of a ≡ Some part → serves_one a.vids part ≡ true }
{}

/// A partition that is read and bears out its numbers is not damaged: so what is committed joins none that is.
pub fn a_partition_that_is_read_is_whole()
    ensures { (s : Numbers) (area : List ℕ) (part : Option (PartNumbers Extent)) (rids : List ℕ) (page : ℕ)
        → IsReadOf s area part rids → RefusesJoined (fetch.Damaged page) s area part → ⊥ }
{}
