// Laws of the merge.
ghost use Rattle.std.specs.Prelude.{◌≡◌, List, [], ◌∷◌};
ghost use Rattle.std.specs.List.{flat_map};
ghost use Rattle.ov_value.specs.Rows.{key_cmp};
ghost use Rattle.ov_value.specs.Shapes.{Shape};
ghost use Rattle.ov_model.specs.Book.{Row};
ghost use Rattle.ov_model.specs.Lists.{IsIn, Rises};
ghost use Rattle.ov_model.specs.Merge.{merged, IsFirst};

/// The merge stands in key order with no key twice. It has exactly those rows of the lists, one list after another, that no
/// row before them has the key of. Of one list in key order it is that list.
pub fn merge_takes_the_first_of_each_key()
    ensures order { (schema : Shape) (lists : List (List Row)) → Rises (key_cmp schema) (merged schema lists) }
    ensures first { (schema : Shape) (lists : List (List Row)) (row : Row)
        → IsIn (merged schema lists) row → IsFirst schema (flat_map (λ rows. rows) lists) row }
    ensures all { (schema : Shape) (lists : List (List Row)) (row : Row)
        → IsFirst schema (flat_map (λ rows. rows) lists) row → IsIn (merged schema lists) row }
    ensures alone { (schema : Shape) (rows : List Row) → Rises (key_cmp schema) rows → merged schema (rows ∷ []) ≡ rows }
{}
