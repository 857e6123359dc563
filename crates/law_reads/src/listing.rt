// What is read of a version's list.
ghost use Rattle.std.specs.Prelude.{◌≡◌, ℕ, List};
ghost use Rattle.ov_fetch.specs.Extents.{IsList};
ghost use Rattle.ov_model.specs.World.{Dataset, World};
ghost use Rattle.ov_read.specs.Agreement.{Agrees, IsThere, Numbers, list_of};
ghost use Rattle.ov_read.specs.Damages.{IsBadList};
ghost use Rattle.ov_read.specs.OfWorld.{IsSetOf, rids_in};

/// The list of a version has the rids of the version's records and no others, and agrees with its numbers.
pub fn lists_are_seen()
    ensures list { (w : World) (area : List ℕ) (s : Numbers) (d : Dataset) (vid : ℕ) → IsSetOf w d area s → IsThere s vid
        → IsList area (list_of s vid) (rids_in d vid) }
    ensures agrees { (w : World) (area : List ℕ) (s : Numbers) (d : Dataset) (vid : ℕ) → IsSetOf w d area s → IsThere s vid
        → Agrees s vid (rids_in d vid) }
    ensures only { (w : World) (area : List ℕ) (s : Numbers) (d : Dataset) (vid : ℕ) (rids : List ℕ) → IsSetOf w d area s → IsThere s vid
        → IsList area (list_of s vid) rids → rids ≡ rids_in d vid }
    ensures not_bad { (w : World) (area : List ℕ) (s : Numbers) (d : Dataset) (vid : ℕ) → IsSetOf w d area s → IsThere s vid
        → IsBadList area s vid → ⊥ }
{}
