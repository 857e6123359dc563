//! The text of an answer.

ghost use Rattle.std.specs.Prelude.{◌≡◌, IfOk};
ghost use Rattle.ov_model.specs.Answers.{answer_text};

use crate::csv_text::CsvText;
use ov_model::Answer;
use std::alloc::{AllocError, Global};

/// The text of an answer: a line for each row and no header, in time linear in the text. A value is written as in a file, a sum
/// in decimal, and nothing as an empty field.
pub fn write_answer(alloc: Global, answer: &Answer) -> Result<Vec<u8>, AllocError>
    ensures { IfOk result (λ text. text.items ≡ answer_text answer.now.kinds answer.now.rows) }
{
    let kinds = answer.kinds.as_slice();
    let rows = answer.rows.as_slice();
    let mut text = CsvText::new(alloc);
    for cells in rows {
        text.cells(kinds, cells.as_slice())?;
    }
    text.finish()
}
