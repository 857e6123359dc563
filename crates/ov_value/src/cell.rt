//! A value of a row, where it lies in the row's bytes.

ghost use Rattle.std.specs.Prelude.{◌≡◌};
ghost use Rattle.ov_value.specs.Rows.{value_cmp, rank as rank_of};
ghost use Rattle.ov_value.specs.Cells.{value_of};

use std::cmp::Ordering;

/// A value of a row, where it lies in the row's bytes. `value_of` says which value it is.
#[derive(Clone, Copy)]
pub enum CellRef<'a> {
    Int(i64),
    Text(&'a str),
    Flag(bool),
    Null,
}

impl<'a> CellRef<'a> {
    /// Compares two cells as values: ints by number, texts by their bytes, false before true, and values of unlike kinds
    /// as they are listed here.
    pub fn compare(self, other: CellRef<'_>) -> Ordering
        ensures { result ≡ value_cmp (value_of self.entry) (value_of other.entry) }
    {
        match (self, other) {
            (CellRef::Int(x), CellRef::Int(y)) => x.cmp(&y),
            (CellRef::Text(x), CellRef::Text(y)) => x.as_bytes().cmp(y.as_bytes()),
            (CellRef::Flag(x), CellRef::Flag(y)) => x.cmp(&y),
            _ => self.rank().cmp(&other.rank()),
        }
    }

    // Where it stands among values of unlike kinds.
    fn rank(self) -> u8
        ensures { result ≡ rank_of (value_of self.entry) }
    {
        match self {
            CellRef::Int(_) => 0,
            CellRef::Text(_) => 1,
            CellRef::Flag(_) => 2,
            CellRef::Null => 3,
        }
    }
}
