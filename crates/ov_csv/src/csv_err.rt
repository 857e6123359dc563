//! Why the bytes of a file are no rows of a schema.

use ov_value::{Kind, Txt};
use std::alloc::{AllocError, AllocFailed};

/// Why the bytes of a file are no rows of a schema. `TooLong` and `BadHeader` come before all others; of the others the
/// first row that has one counts, and within a row they come as they stand here. Rows are counted from 1, without the header.
#[derive(Drop)]
pub enum CsvErr {
    /// The file has over 67,108,864 bytes.
    TooLong,
    /// The first record is not the names of the columns in order, or there is none, or two marks of byte order stand in front.
    BadHeader,
    /// The row has not as many fields as there are columns, but `found`.
    Width { row: u64, found: u64 },
    /// A field of the row is not UTF-8.
    NotText { row: u64 },
    /// The first field of the row, from the left, that spells no value of its column: the column's name and kind.
    BadField { row: u64, column: Txt, kind: Kind },
    /// The first key column, from the left, that is NULL in the row.
    NullKey { row: u64, column: Txt },
    /// The row has over 65,536 bytes.
    LongRow { row: u64 },
    /// There was no memory for it.
    Memory,
}

impl From<AllocError> for CsvErr {
    ghost use Rattle.std.specs.Prelude.{◌≡◌};
    ghost use Rattle.ov_csv.specs.declared.csv_err.CsvErr.TheVariants as why;

    ghost from_gives = { λ _ made. made ≡ why.Memory };

    fn from(_error: AllocError) -> CsvErr {
        CsvErr::Memory
    }
}

impl<T: Drop> From<AllocFailed<T>> for CsvErr {
    ghost use Rattle.std.specs.Prelude.{◌≡◌};
    ghost use Rattle.ov_csv.specs.declared.csv_err.CsvErr.TheVariants as why;

    ghost from_gives = { λ _ made. made ≡ why.Memory };

    fn from(_failed: AllocFailed<T>) -> CsvErr {
        CsvErr::Memory
    }
}
