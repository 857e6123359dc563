//! Laws about sets of rids and their lists. Each is the contract of a function that does nothing.

ghost use Rattle.std.specs.Prelude.{◌≡◌, ℕ, ◌&&◌, not, List};
ghost use Rattle.ov_member.specs.Rids.{AreRids, has, shared, left_out};
ghost use Rattle.ov_member.specs.Lists.{Spells, spelling};

/// Bytes are the list of one set at most.
pub fn one_reading()
    ensures { (bytes xs ys : List ℕ) → Spells bytes xs → Spells bytes ys → xs ≡ ys }
{}

/// A set has one list, and nothing but a set has one.
pub fn one_spelling()
    ensures spelled { (rids : List ℕ) → AreRids rids → Spells (spelling rids) rids }
    ensures only { (bytes rids : List ℕ) → Spells bytes rids → AreRids rids × (bytes ≡ spelling rids) }
{}

/// A set is known by what is in it.
pub fn same_set()
    ensures { (xs ys : List ℕ) → AreRids xs → AreRids ys → ((rid : ℕ) → has xs rid ≡ has ys rid) → xs ≡ ys }
{}

/// What is in both of two sets, and what is in the first alone, are sets, and these are in them.
pub fn parts_of_set()
    ensures shared_set { (xs ys : List ℕ) → AreRids xs → AreRids (shared xs ys) }
    ensures left_out_set { (xs ys : List ℕ) → AreRids xs → AreRids (left_out xs ys) }
    ensures in_shared { (xs ys : List ℕ) (rid : ℕ) → has (shared xs ys) rid ≡ (has xs rid && has ys rid) }
    ensures in_left_out { (xs ys : List ℕ) (rid : ℕ) → has (left_out xs ys) rid ≡ (has xs rid && not (has ys rid)) }
{}
