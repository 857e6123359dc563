//! The lines of rows, a piece at a time, in a file that is being written.

ghost use Rattle.std.specs.Prelude.{◌≡◌, [], true, Some, OnOk, is_some};
ghost use Rattle.std.specs.List.{flat_map};
ghost use Rattle.csv.specs.Writing.{default_writer, row_text};
ghost use Rattle.ov_model.specs.Csv.{fields_of};
ghost use Rattle.ov_fetch.specs.Scans.{AllStand, rows_at};
ghost use Rattle.ov_csv.specs.Growing.{Grows};
ghost use Rattle.ov_checkout.specs.Given.{KeepsOpen, behind};

use ov_csv::{CsvText, cells_at};
use ov_files::FileErr;
use ov_host::Stage;
use ov_segment::RecordTable;
use ov_value::{Cells, Column};

/// From so many bytes on a piece goes to the stage.
const PIECE: usize = 65_536;

/// The memory of a piece and of the longest line behind it: a row of 65,536 bytes has at most three for each of them and six more
/// for each of its 64 columns.
pub(crate) const ROOM: usize = 263_168;

/// Writes the piece and the lines of the rows at these positions.
pub(crate) fn put_rows<T: Stage>(
    stage: &mut T,
    columns: &[Column],
    records: &RecordTable,
    places: &[usize],
    text: &mut CsvText,
) -> Result<(), FileErr>
    requires open { (T.staged stage.old).writing ≡ true }
    requires text { is_some text.old ≡ true }
    requires stand { AllStand records.now places.now }
    ensures keeps { KeepsOpen result (T.staged stage.old) (T.staged stage.new) }
    ensures written { (T.staged stage.old).tells ≡ true → OnOk result
        (Grows (behind (T.staged stage.old) text.old)
        (flat_map (λ row. row_text default_writer (fields_of columns.now row)) (rows_at records.now places.now))
        (Some (T.staged stage.new).written)) }
{
    for place in places {
        put_row(stage, columns, cells_at(records, *place), text)?;
    }
    pass_on(stage, text)
}

// Adds the line of a row, and passes the piece on where it is full.
fn put_row<T: Stage>(
    stage: &mut T,
    columns: &[Column],
    row: Cells<'_>,
    text: &mut CsvText,
) -> Result<(), FileErr>
    requires open { (T.staged stage.old).writing ≡ true }
    requires text { is_some text.old ≡ true }
    ensures keeps { KeepsOpen result (T.staged stage.old) (T.staged stage.new) }
    ensures text { OnOk result (is_some text.new ≡ true) }
    ensures written { (T.staged stage.old).tells ≡ true → OnOk result
        (Grows (behind (T.staged stage.old) text.old) (row_text default_writer (fields_of columns.now row.entry)) (behind (T.staged stage.new) text.new)) }
{
    text.row(columns, row)?;
    if text.bytes().len() >= PIECE {
        pass_on(stage, text)?;
    }
    Ok(())
}

// Gives the piece to the stage.
fn pass_on<T: Stage>(stage: &mut T, text: &mut CsvText) -> Result<(), FileErr>
    requires open { (T.staged stage.old).writing ≡ true }
    requires text { is_some text.old ≡ true }
    ensures keeps { KeepsOpen result (T.staged stage.old) (T.staged stage.new) }
    ensures text { OnOk result (is_some text.new ≡ true) }
    ensures written { (T.staged stage.old).tells ≡ true → OnOk result
        (behind (T.staged stage.new) text.new ≡ behind (T.staged stage.old) text.old) }
    ensures none { OnOk result (text.new ≡ Some []) }
{
    stage.write(text.bytes())?;
    text.clear();
    Ok(())
}
