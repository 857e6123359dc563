//! The line of an answer's row.

ghost use Rattle.std.specs.Prelude.{◌≡◌, ◌++◌, OnOk};
ghost use Rattle.csv.specs.Writing.{default_writer, field_text, next_sep, row_body, row_text};
ghost use Rattle.std.specs.Fmt.{signed_decimal};
ghost use Rattle.ov_value.specs.Cells.{value_of};
ghost use Rattle.ov_model.specs.Answers.{cell_field, cell_fields as answer_fields};

use crate::field_line::{end_line, push_separator};
use crate::row_line::push_cell;
use itoa::Buffer;
use ov_model::Cell;
use ov_value::{CellRef, Kind, Value};
use std::alloc::AllocError;

/// Adds the line of the row's cells, each in the column of its kind.
pub(crate) fn push_answer(
    text: &mut Vec<u8>,
    kinds: &[Kind],
    cells: &[Cell],
) -> Result<(), AllocError>
    ensures { OnOk result (text.new.items ≡ text.old.items ++ row_text default_writer (answer_fields kinds.now cells.now)) }
{
    let start = text.len();
    push_fields(text, kinds, cells)?;
    end_line(text, start)
}

fn push_fields(text: &mut Vec<u8>, kinds: &[Kind], cells: &[Cell]) -> Result<(), AllocError>
    ensures { OnOk result (text.new.items ≡ text.old.items ++ row_body default_writer (answer_fields kinds.now cells.now)) }
{
    for (place, kind) in kinds.iter().enumerate() {
        match cells.get(place) {
            Some(cell) => push_one(text, place, *kind, cell)?,
            None => return Ok(()),
        }
    }
    Ok(())
}

fn push_one(text: &mut Vec<u8>, place: usize, kind: Kind, cell: &Cell) -> Result<(), AllocError>
    ensures { OnOk result (text.new.items ≡ text.old.items ++ (next_sep default_writer place ++ field_text default_writer (cell_field kind cell.now))) }
{
    match cell {
        Cell::Value(value) => push_cell(text, place, kind, cell_of(value)),
        Cell::Sum(sum) => push_sum(text, place, *sum),
        Cell::Nothing => push_separator(text, place),
    }
}

// No digit and no sign calls for quotes.
fn push_sum(text: &mut Vec<u8>, place: usize, sum: i128) -> Result<(), AllocError>
    ensures { OnOk result (text.new.items ≡ text.old.items ++ (next_sep default_writer place ++ signed_decimal sum)) }
{
    push_separator(text, place)?;
    text.extend_from_slice(Buffer::new().format(sum).as_bytes())
}

fn cell_of(value: &Value) -> CellRef<'_>
    ensures { value_of result ≡ value.now }
{
    match value {
        Value::Int(number) => CellRef::Int(*number),
        Value::Text(text) => CellRef::Text(text.as_str()),
        Value::Flag(flag) => CellRef::Flag(*flag),
        Value::Null => CellRef::Null,
    }
}
