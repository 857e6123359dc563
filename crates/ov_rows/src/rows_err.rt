//! Why the rows of a file are not those of a version.

use std::alloc::{AllocError, AllocFailed};

/// Why the rows of a file are not those of a version. Of those that hold the first in this order is answered. Rows are
/// counted from 1, without the header.
#[derive(Clone, Copy, PartialEq, Eq)]
pub enum RowsErr {
    /// There are over 1,000,000 rows.
    TooManyRows,
    /// The first row that has the key of an earlier one.
    DuplicateKey { row: u32 },
    /// In a store of format 1, the first row with a NULL; 0 where there is none but columns are added.
    FormatOne { row: u32 },
    /// There was no memory for it.
    Memory,
}

impl From<AllocError> for RowsErr {
    ghost use Rattle.std.specs.Prelude.{◌≡◌};
    ghost use Rattle.ov_rows.specs.declared.rows_err.RowsErr.TheVariants as why;

    ghost from_gives = { λ _ made. made ≡ why.Memory };

    fn from(_error: AllocError) -> RowsErr {
        RowsErr::Memory
    }
}

impl<T: Drop> From<AllocFailed<T>> for RowsErr {
    ghost use Rattle.std.specs.Prelude.{◌≡◌};
    ghost use Rattle.ov_rows.specs.declared.rows_err.RowsErr.TheVariants as why;

    ghost from_gives = { λ _ made. made ≡ why.Memory };

    fn from(_failed: AllocFailed<T>) -> RowsErr {
        RowsErr::Memory
    }
}
