//! The line of the columns' names.

ghost use Rattle.std.specs.Prelude.{◌≡◌, ◌++◌, OnOk};
ghost use Rattle.csv.specs.Writing.{default_writer, row_body, row_text};
ghost use Rattle.ov_value.specs.Shapes.{names};

use crate::field_line::{end_line, push_field};
use ov_value::Column;
use std::alloc::AllocError;

/// Adds the line of the columns' names.
pub(crate) fn push_header(text: &mut Vec<u8>, columns: &[Column]) -> Result<(), AllocError>
    ensures { OnOk result (text.new.items ≡ text.old.items ++ row_text default_writer (names columns.now)) }
{
    let start = text.len();
    push_names(text, columns)?;
    end_line(text, start)
}

fn push_names(text: &mut Vec<u8>, columns: &[Column]) -> Result<(), AllocError>
    ensures { OnOk result (text.new.items ≡ text.old.items ++ row_body default_writer (names columns.now)) }
{
    for (place, column) in columns.iter().enumerate() {
        push_field(text, place, column.name.as_bytes())?;
    }
    Ok(())
}
