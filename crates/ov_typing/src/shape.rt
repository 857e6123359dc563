//! What columns rows have.

ghost use Rattle.std.specs.Prelude.{◌≡◌, []};

use ov_value::{Column, Schema};
use std::marker::Model;

/// What columns rows have: those of a dataset, or those of two side by side, of which there are up to 128.
#[derive(Drop)]
pub struct Shape<'a> {
    columns: &'a [Column],
    key: &'a [u8],
}

impl<'a> Model for Shape<'a> {
    ghost use Rattle.ov_value.specs.Shapes.{Shape as Columns};

    ghost Value = { Columns };

    ghost view = { λ s. record { columns = s.columns.now; key = s.key.now } };
}

impl<'a> Shape<'a> {
    /// The columns of a dataset.
    pub fn of(schema: &'a Schema) -> Shape<'a>
        ensures { result ≡ schema.now }
    {
        Shape {
            columns: schema.columns(),
            key: schema.key(),
        }
    }

    /// Columns without a key.
    pub fn without_key(columns: &'a [Column]) -> Shape<'a>
        ensures { result ≡ record { columns = columns.now; key = [] } }
    {
        Shape { columns, key: &[] }
    }

    /// The columns from the left.
    pub fn columns(&self) -> &'a [Column]
        ensures { result.now ≡ self.now.columns }
    {
        self.columns
    }
}
