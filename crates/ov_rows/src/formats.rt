//! What a store of format 1 refuses.

ghost use Rattle.std.specs.Prelude.{◌≡◌, ◌≤◌, length};
ghost use Rattle.std.specs.List.{list_any};
ghost use Rattle.ov_value.specs.Cells.{value_of};
ghost use Rattle.ov_value.specs.Rows.{is_null as is_null_of};
ghost use Rattle.ov_model.specs.Act.{null_row};
ghost use Rattle.ov_rows.specs.Refusing.{format_off as format_off_of};

use crate::rows_err::RowsErr;
use ov_segment::{RowRef, RowTable};
use ov_value::CellRef;

/// Why these rows, or columns that are added with them, are refused in a store of this format.
pub(crate) fn format_off(format: u32, adds: bool, rows: &RowTable) -> Option<RowsErr>
    requires { length rows.now ≤ 1000000 }
    ensures { result ≡ format_off_of format adds rows.now }
{
    if format != 1 {
        return None;
    }
    match first_null(rows) {
        Some(row) => Some(RowsErr::FormatOne { row }),
        None if adds => Some(RowsErr::FormatOne { row: 0 }),
        None => None,
    }
}

// The first row that has a NULL, counted from 1.
fn first_null(rows: &RowTable) -> Option<u32>
    requires { length rows.now ≤ 1000000 }
    ensures { result ≡ null_row 1 rows.now }
{
    for i in 0..rows.len() {
        if has_null(&rows.row(i)) {
            return Some(i as u32 + 1);
        }
    }
    None
}

fn has_null(row: &RowRef<'_>) -> bool
    ensures { result ≡ list_any is_null_of row.now }
{
    let mut cells = row.cells();
    while let Some(cell) = cells.next() {
        if is_null(cell) {
            return true;
        }
    }
    false
}

fn is_null(cell: CellRef<'_>) -> bool
    ensures { result ≡ is_null_of (value_of cell.entry) }
{
    match cell {
        CellRef::Null => true,
        _ => false,
    }
}
