//! The line of a row, field by field from the bytes of the row.

ghost use Rattle.std.specs.Prelude.{◌≡◌, ◌++◌, ◌∷◌, IfOk, OnOk};
ghost use Rattle.csv.specs.Writing.{default_writer, field_text, next_sep, row_body, row_text};
ghost use Rattle.ov_value.specs.Cells.{value_of};
ghost use Rattle.ov_model.specs.Csv.{field_of, fields_of as row_fields, null_field as null_field_of, text_field};

use crate::field_line::{end_line, push_field};
use crate::fields::is_null_mark;
use crate::numbers::push_number;
use crate::room::take_text;
use ov_value::{CellRef, Cells, Column, Kind};
use std::alloc::AllocError;

/// Adds the line of a row, whose values stand in these columns. Each field goes into the text as it is read from the row's
/// bytes; memory is taken for the text alone, and for a text that gets a backslash more.
#[inline(always)]
pub(crate) fn push_row(
    text: &mut Vec<u8>,
    columns: &[Column],
    row: Cells<'_>,
) -> Result<(), AllocError>
    ensures { OnOk result (text.new.items ≡ text.old.items ++ row_text default_writer (row_fields columns.now row.entry)) }
{
    let start = text.len();
    push_cells(text, columns, row)?;
    end_line(text, start)
}

// Adds the fields of the values that are there, from the left, one a column.
fn push_cells(text: &mut Vec<u8>, columns: &[Column], row: Cells<'_>) -> Result<(), AllocError>
    ensures { OnOk result (text.new.items ≡ text.old.items ++ row_body default_writer (row_fields columns.now row.entry)) }
{
    let mut rest = row;
    for (place, column) in columns.iter().enumerate() {
        match rest.next() {
            Some(cell) => push_cell(text, place, column.kind, cell)?,
            None => return Ok(()),
        }
    }
    Ok(())
}

/// Adds what stands before the field at this place of a line, and the field of a value in a column of the kind.
#[inline(always)]
pub(crate) fn push_cell(
    text: &mut Vec<u8>,
    place: usize,
    kind: Kind,
    cell: CellRef<'_>,
) -> Result<(), AllocError>
    ensures { OnOk result (text.new.items ≡ text.old.items ++ (next_sep default_writer place ++ field_text default_writer (field_of kind (value_of cell.entry)))) }
{
    match cell {
        // No digit and no sign calls for quotes.
        CellRef::Int(number) => push_number(text, place, number),
        CellRef::Text(written) => push_text(text, place, written.as_bytes()),
        CellRef::Flag(flag) => push_field(text, place, if flag { b"true" } else { b"false" }),
        CellRef::Null => push_field(text, place, null_field(kind)),
    }
}

// The field of NULL in a column of the kind.
fn null_field(kind: Kind) -> &'static [u8]
    ensures { result.now ≡ null_field_of kind }
{
    match kind {
        Kind::Text => b"\\N",
        _ => b"",
    }
}

// A text that would be read as NULL, or as a text with a backslash less, gets a backslash more.
#[inline(always)]
fn push_text(text: &mut Vec<u8>, place: usize, written: &[u8]) -> Result<(), AllocError>
    ensures { OnOk result (text.new.items ≡ text.old.items ++ (next_sep default_writer place ++ field_text default_writer (text_field written.now))) }
{
    match written {
        [b'\\', rest @ ..] => push_escaped(text, place, written, rest),
        _ => push_field(text, place, written),
    }
}

#[inline(always)]
fn push_escaped(
    text: &mut Vec<u8>,
    place: usize,
    written: &[u8],
    rest: &[u8],
) -> Result<(), AllocError>
    requires { written.now ≡ 92 ∷ rest.now }
    ensures { OnOk result (text.new.items ≡ text.old.items ++ (next_sep default_writer place ++ field_text default_writer (text_field written.now))) }
{
    *text = with_escaped(take_text(text), place, written, rest)?;
    Ok(())
}

#[inline(never)]
fn with_escaped(
    text: Vec<u8>,
    place: usize,
    written: &[u8],
    rest: &[u8],
) -> Result<Vec<u8>, AllocError>
    requires { written.now ≡ 92 ∷ rest.now }
    ensures { IfOk result (λ made. made.items ≡ text.items ++ (next_sep default_writer place ++ field_text default_writer (text_field written.now))) }
{
    let mut made = text;
    if !is_null_mark(rest) {
        push_field(&mut made, place, written)?;
        return Ok(made);
    }
    let mut more = Vec::from_slice(*made.allocator(), b"\\")?;
    more.extend_from_slice(written)?;
    push_field(&mut made, place, more.as_slice())?;
    Ok(made)
}
