//! The text of rows.

ghost use Rattle.std.specs.Prelude.{◌≡◌, [], Some, None, IfOk, OnOk, OnErr, is_some, true};
ghost use Rattle.csv.specs.Writing.{default_writer, row_text};
ghost use Rattle.ov_value.specs.Shapes.{names};
ghost use Rattle.ov_model.specs.Answers.{cell_fields};
ghost use Rattle.ov_model.specs.Csv.{fields_of as row_fields, text_of};
ghost use Rattle.ov_csv.specs.Growing.{Grows};

use crate::answer_line::push_answer;
use crate::header_line::push_header;
use crate::room::take_text;
use crate::row_line::push_row;
use ov_model::Cell;
use ov_segment::RowTable;
use ov_value::{Cells, Column, Kind, Schema};
use std::alloc::{AllocError, Global};
use std::marker::Model;

/// A text of CSV that grows by a line at a time, as the `csv` crate writes it by default. Contracts see its bytes so far, or
/// `None` once memory was wanting: from then on each call answers so.
#[derive(Drop)]
pub struct CsvText {
    text: Vec<u8>,
    failed: bool,
}

impl Model for CsvText {
    ghost use Rattle.std.specs.Prelude.{List, ℕ, Option, Some};
    ghost use Rattle.ov_csv.specs.Growing.{text_unless};

    ghost Value = { Option (List ℕ) };

    ghost view = { λ t. text_unless t.failed (Some t.text.items) };
}

impl CsvText {
    /// The empty text.
    pub fn new(alloc: Global) -> CsvText
        ensures { result ≡ Some [] }
    {
        CsvText {
            text: Vec::new(alloc),
            failed: false,
        }
    }

    /// The same, with memory for so many bytes.
    pub fn with_room(alloc: Global, bytes: usize) -> Result<CsvText, AllocError>
        ensures { IfOk result (λ text. text ≡ Some []) }
    {
        Ok(CsvText {
            text: Vec::with_capacity(alloc, bytes)?,
            failed: false,
        })
    }

    /// Adds the line of the columns' names.
    pub fn header(&mut self, columns: &[Column]) -> Result<(), AllocError>
        ensures ok { OnOk result (Grows self.old (row_text default_writer (names columns.now)) self.new) }
        ensures err { OnErr result (self.new ≡ None) }
    {
        if self.failed {
            return Err(AllocError);
        }
        self.failed = true;
        push_header(&mut self.text, columns)?;
        self.failed = false;
        Ok(())
    }

    /// Adds the line of a row, whose values stand in these columns. No row is made of them.
    pub fn row(&mut self, columns: &[Column], row: Cells<'_>) -> Result<(), AllocError>
        ensures ok { OnOk result (Grows self.old (row_text default_writer (row_fields columns.now row.entry)) self.new) }
        ensures err { OnErr result (self.new ≡ None) }
    {
        if self.failed {
            return Err(AllocError);
        }
        self.failed = true;
        let mut text = take_text(&mut self.text);
        push_row(&mut text, columns, row)?;
        self.text = text;
        self.failed = false;
        Ok(())
    }

    /// Adds the line of an answer's row, whose cells stand in columns of these kinds.
    pub fn cells(&mut self, kinds: &[Kind], cells: &[Cell]) -> Result<(), AllocError>
        ensures ok { OnOk result (Grows self.old (row_text default_writer (cell_fields kinds.now cells.now)) self.new) }
        ensures err { OnErr result (self.new ≡ None) }
    {
        if self.failed {
            return Err(AllocError);
        }
        self.failed = true;
        push_answer(&mut self.text, kinds, cells)?;
        self.failed = false;
        Ok(())
    }

    /// The bytes so far, for a caller who passes a long text on in pieces.
    pub fn bytes(&self) -> &[u8]
        requires { is_some self.now ≡ true }
        ensures { self.now ≡ Some result.now }
    {
        &self.text
    }

    /// Lets the bytes so far go, and keeps their memory for those to come: the bytes that were passed on, piece by piece, and then
    /// those that are there are the whole text.
    pub fn clear(&mut self)
        requires { is_some self.old ≡ true }
        ensures { self.new ≡ Some [] }
    {
        self.text.clear();
    }

    /// The bytes of the text.
    pub fn finish(self) -> Result<Vec<u8>, AllocError>
        ensures { IfOk result (λ text. self ≡ Some text.items) }
    {
        let CsvText { text, failed } = self;
        if failed { Err(AllocError) } else { Ok(text) }
    }
}

/// The text of the rows: a header of the schema's column names, and a line for each row, in time linear in the text.
#[inline(never)]
pub fn write_rows(alloc: Global, schema: &Schema, rows: &RowTable) -> Result<Vec<u8>, AllocError>
    ensures { IfOk result (λ text. text.items ≡ text_of schema.now rows.now) }
{
    let columns = schema.columns();
    let mut text = CsvText::new(alloc);
    text.header(columns)?;
    for place in 0..rows.len() {
        text.row(columns, rows.row(place).cells())?;
    }
    text.finish()
}
