//! Laws of what is written, each the contract of a function that does nothing.

ghost use Rattle.std.specs.Prelude.{◌≤◌, ◌^◌, ℕ, List, [], ◌∷◌, ◌++◌, length};
ghost use Rattle.ov_value.specs.Rows.{key_cmp};
ghost use Rattle.ov_value.specs.Shapes.{Shape};
ghost use Rattle.ov_model.specs.Book.{Version};
ghost use Rattle.ov_model.specs.Lists.{Rises};
ghost use Rattle.ov_model.specs.Records.{order_of};
ghost use Rattle.ov_records.specs.Committed.{AreRecords};
ghost use Rattle.ov_version_bytes.specs.Written.{AreGiven};

/// The rids of a version's records are as many as its rows, from 1 to 2^31 and none twice, where the dataset has at most 2^31
/// records. So a commit is refused by none of it.
pub fn records_are_given()
    ensures { (schema : Shape) (versions : List Version) (v : Version) (rids weights : List ℕ) (fresh : ℕ) → Rises (key_cmp schema) v.rows
        → length (order_of (versions ++ v ∷ [])) ≤ 2 ^ 31 → AreRecords versions v rids weights fresh → AreGiven rids v.rows }
{}
