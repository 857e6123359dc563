//! The text of rows of a scan.

ghost use Rattle.std.specs.Prelude.{◌≡◌, ◌<◌, IfOk, length};
ghost use Rattle.ov_model.specs.Csv.{text_of};
ghost use Rattle.ov_fetch.specs.Scans.{IsSound, AllStand, row_at, rows_at};

use crate::csv_text::CsvText;
use ov_fetch::Scan;
use ov_segment::RecordTable;
use ov_value::{Cells, Schema};
use std::alloc::{AllocError, Global};

/// The text of the rows at these positions in the records of a scan: a header of the schema's column names, and a line for
/// each position, in time linear in the text. The scan is sound for the schema, and the positions exist.
#[inline(never)]
pub fn write_csv(
    alloc: Global,
    schema: &Schema,
    scan: &Scan,
    picks: &[usize],
) -> Result<Vec<u8>, AllocError>
    requires sound { IsSound schema.now scan.now }
    requires stand { AllStand scan.now.records picks.now }
    ensures { IfOk result (λ text. text.items ≡ text_of schema.now (rows_at scan.now.records picks.now)) }
{
    let columns = schema.columns();
    let mut text = CsvText::new(alloc);
    text.header(columns)?;
    for place in picks {
        text.row(columns, cells_at(&scan.records, *place))?;
    }
    text.finish()
}

/// The values of the record at a position.
pub fn cells_at(records: &RecordTable, place: usize) -> Cells<'_>
    requires { place < length records.now }
    ensures { result ≡ row_at records.now place }
{
    records.cells(place)
}
