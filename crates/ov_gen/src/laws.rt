//! Laws of the definitions: each is the contract of a function that does nothing.

ghost use Rattle.std.specs.Prelude.{◌≡◌, ◌≤◌, ◌<◌, ◌+◌, ℕ, List, [], None, length};
ghost use Rattle.std.specs.List.Sorted.{IsStrictlySortedBy};
ghost use Rattle.ov_value.specs.Rows.{key_cmp};
ghost use Rattle.ov_value.specs.Shapes.{Shape};
ghost use Rattle.ov_model.specs.Act.{null_row, repeated_key};
ghost use Rattle.ov_model.specs.Book.{Row};
ghost use Rattle.ov_model.specs.Merge.{in_key_order};
ghost use Rattle.ov_gen.specs.Versions.{IsGrown};

/// Rows as those of a version before one are as those of a version before each later one.
pub fn rows_stay_grown()
    ensures { (count vid later : ℕ) (rows : List Row) → vid ≤ later → IsGrown count vid rows → IsGrown count later rows }
{}

/// They are few, and none has NULL.
pub fn grown_rows_are_few_and_whole()
    ensures few { (count vid : ℕ) (rows : List Row) → 1 ≤ vid → IsGrown count vid rows → length rows < count + vid }
    ensures whole { (count vid : ℕ) (rows : List Row) → IsGrown count vid rows → null_row 1 rows ≡ None }
{}

/// Rows each of whose keys is below those after it are in key order, and no key is there twice.
pub fn ascending_rows_are_in_order()
    ensures order { (schema : Shape) (rows : List Row) → IsStrictlySortedBy (key_cmp schema) rows → in_key_order schema rows ≡ rows }
    ensures once { (schema : Shape) (rows : List Row) → IsStrictlySortedBy (key_cmp schema) rows → repeated_key schema [] 1 rows ≡ None }
{}
