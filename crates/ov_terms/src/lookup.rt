//! Where the value of a column is found.

ghost use Rattle.std.specs.Prelude.{◌≡◌, IsTrue};
ghost use Rattle.std.specs.List.{position_or_len};
ghost use Rattle.std.specs.Str.{bytes_eq};
ghost use Rattle.ov_terms.specs.Finding.{IsLookup, IsLookupOfRow, IsLookupOfVersion};

use ov_model::Col;
use ov_typing::Shape;
use ov_value::{Column, Txt};

/// Where the value of a column is found in a pair of a version and one of its rows.
#[derive(Clone, Copy, PartialEq, Eq)]
pub enum Lookup {
    /// It is the version's number.
    Vid,
    /// It is the row's value at this position; NULL where the row is shorter.
    Column(usize),
    /// It is NULL.
    Nowhere,
}

impl Lookup {
    /// Where a column is found. It is looked up by its name here, and at no row.
    pub fn of(shape: &Shape<'_>, col: &Col) -> Lookup
        ensures { IsLookup shape.now col.now result }
    {
        match col {
            Col::Vid => Lookup::Vid,
            Col::Name(name) => Lookup::Column(column_at(shape.columns(), name)),
            Col::Left(_) | Col::Right(_) => Lookup::Nowhere,
        }
    }

    /// Whether the row alone has the value.
    pub(crate) fn is_of_row(self) -> bool
        ensures { IsTrue result → IsLookupOfRow self }
    {
        match self {
            Lookup::Vid => false,
            Lookup::Column(_) | Lookup::Nowhere => true,
        }
    }

    /// Whether all rows of a version have the same value.
    pub(crate) fn is_of_version(self) -> bool
        ensures { IsTrue result → IsLookupOfVersion self }
    {
        match self {
            Lookup::Column(_) => false,
            Lookup::Vid | Lookup::Nowhere => true,
        }
    }
}

// The position of the first column with a name; the number of columns where there is none.
fn column_at(columns: &[Column], name: &Txt) -> usize
    ensures { result ≡ position_or_len (λ c. bytes_eq c.name name.now) columns.now }
{
    for (place, column) in columns.iter().enumerate() {
        if column.name == *name {
            return place;
        }
    }
    columns.len()
}
