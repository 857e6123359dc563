//! The refusals beside those of the model.

ghost use Rattle.std.specs.Prelude.{◌≡◌, ◌≢◌, ◌↔◌, ℕ, Bool, List, None, Some};
ghost use Rattle.std.specs.Option.{option_and_then};
ghost use Rattle.ov_value.specs.Shapes.{Shape};
ghost use Rattle.ov_model.specs.Act.{rows_refusal};
ghost use Rattle.ov_model.specs.Book.{Row};
ghost use Rattle.ov_model.specs.World.{World};
ghost use Rattle.ov_rows.specs.declared.rows_err.RowsErr.TheVariants.{Memory};
ghost use Rattle.ov_rows.specs.Refusing.{rows_off, refusal_of};

/// Rows are refused exactly where the model refuses them, with the same refusal, in every World of the format. Want of
/// memory is none of these.
pub fn rows_are_refused_as_in_the_model()
    ensures same { (w : World) (schema : Shape) (adds : Bool) (rows : List Row)
        → rows_refusal w schema adds rows ≡ option_and_then refusal_of (rows_off w.format schema adds rows) }
    ensures none { (w : World) (schema : Shape) (adds : Bool) (rows : List Row)
        → (rows_off w.format schema adds rows ≡ None) ↔ (rows_refusal w schema adds rows ≡ None) }
    ensures memory { (format : ℕ) (schema : Shape) (adds : Bool) (rows : List Row) → rows_off format schema adds rows ≢ Some Memory }
{}
