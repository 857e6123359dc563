//! Laws of the definitions: each is the contract of a function that does nothing.

ghost use Rattle.std.specs.Prelude.{◌≡◌, ◌↔◌, ◌++◌, ◌∷◌, [], List};
ghost use Rattle.std.specs.Cmp.{IsTotalOrder};
ghost use Rattle.std.specs.declared.cmp.Ordering.TheVariants.{Equal};
ghost use Rattle.ov_value.specs.declared.value.Value.{Value as RowValue};
ghost use Rattle.ov_value.specs.declared.value.Value.TheVariants.{Null};
ghost use Rattle.ov_value.specs.Shapes.{Shape};
ghost use Rattle.ov_value.specs.Rows.{key_of, key_cmp};
ghost use Rattle.ov_value.specs.Spelling.{row_spelling, IsRow};

/// The order of rows by their keys is total up to ties, whatever the schema, so it serves a sort; and rows
/// tie exactly where they have the same key.
pub fn key_order()
    ensures total { (schema : Shape) → IsTotalOrder (key_cmp schema) }
    ensures ties { (schema : Shape) (a b : List RowValue)
        → (key_cmp schema a b ≡ Equal) ↔ (key_of schema a ≡ key_of schema b) }
{}

/// No bytes spell two rows of a schema.
pub fn one_row()
    ensures { (schema : Shape) (a b : List RowValue)
        → IsRow schema a → IsRow schema b → row_spelling a ≡ row_spelling b → a ≡ b }
{}

/// A row's bytes do not depend on a NULL at its end: so the bytes of a row are those of the row that an added
/// column makes of it.
pub fn null_at_the_end()
    ensures { (row : List RowValue) → row_spelling (row ++ Null ∷ []) ≡ row_spelling row }
{}
