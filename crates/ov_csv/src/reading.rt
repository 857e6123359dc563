//! From the bytes of a file to its rows.

ghost use Rattle.std.specs.Prelude.{◌≡◌, ◌≤◌, Ok, Err, IfOk, IfErr, IfSome, length, map};
ghost use Rattle.std.specs.List.{All};
ghost use Rattle.csv.specs.Reading.{strip_bom};
ghost use Rattle.ov_value.specs.Spelling.{IsRow, row_spelling};
ghost use Rattle.ov_model.specs.Csv.{begins_with_mark as begins_with_mark_of, rows_from, rows_of};
ghost use Rattle.ov_csv.specs.Refusing.{refusal_of};

use crate::csv_err::CsvErr;
use crate::line::Line;
use crate::lines::Lines;
use crate::names::are_names;
use crate::records::keep_row;
use ov_segment::{RowDraft, RowTable, Table};
use ov_value::Schema;
use std::alloc::Global;

/// The greatest number of bytes of a file.
const MOST_BYTES: usize = ov_model::FILE_BYTES;

/// The rows of a file in file order, or its first fault, in time linear in its bytes. Beside the rows it keeps one record at
/// a time and one row in the making, each in the memory of the one before.
///
/// The file is CSV as the `csv` crate reads it by default, with the names of the columns as its first record, and perhaps a
/// mark of byte order in front.
pub fn read_csv(alloc: Global, schema: &Schema, bytes: &[u8]) -> Result<RowTable, CsvErr>
    ensures ok { IfOk result (λ rows. rows_of schema.now bytes.now ≡ Ok rows) }
    // Each error but want of memory is the refusal that it stands for.
    ensures err { IfErr result (λ why. IfSome (refusal_of schema.now why) (λ refusal. rows_of schema.now bytes.now ≡ Err refusal)) }
    // So each row is one of the schema, and no row is too long to be kept.
    ensures rows { IfOk result (λ rows. All (IsRow schema.now) rows) }
    ensures short { IfOk result (λ rows. All (λ row. length (row_spelling row).bytes ≤ 65536) rows) }
{
    if bytes.len() > MOST_BYTES {
        return Err(CsvErr::TooLong);
    }
    if has_two_marks(bytes) {
        return Err(CsvErr::BadHeader);
    }
    let mut lines = Lines::new(alloc, bytes);
    let mut line = Line::new(alloc);
    if !lines.next(&mut line)? || !are_names(&line, schema.columns()) {
        return Err(CsvErr::BadHeader);
    }
    let table = read_rows(alloc, schema, &mut lines, &mut line)?;
    Ok(RowTable::new(table))
}

// The rows of the records that are left, all in the memory of one record.
fn read_rows<'a>(
    alloc: Global,
    schema: &Schema,
    lines: &mut Lines<'a>,
    line: &mut Line<'a>,
) -> Result<Table, CsvErr>
    ensures ok { IfOk result (λ table. rows_from schema.now 1 lines.old ≡ Ok (map (λ r. r.row) table.records)) }
    ensures err { IfErr result (λ why. IfSome (refusal_of schema.now why) (λ refusal. rows_from schema.now 1 lines.old ≡ Err refusal)) }
{
    let mut table = Table::new(alloc, schema)?;
    let mut draft = RowDraft::new(alloc);
    while lines.next(line)? {
        let row = table.len() as u64 + 1;
        keep_row(alloc, schema, row, line, &mut draft, &mut table)?;
    }
    Ok(table)
}

// Whether two marks of byte order stand in front.
#[tactic(auto, unfolding(csv::specs::Reading::strip_bom))]
fn has_two_marks(bytes: &[u8]) -> bool
    ensures { result ≡ begins_with_mark_of (strip_bom bytes.now) }
{
    match bytes {
        [0xEF, 0xBB, 0xBF, rest @ ..] => begins_with_mark(rest),
        _ => begins_with_mark(bytes),
    }
}

fn begins_with_mark(bytes: &[u8]) -> bool
    ensures { result ≡ begins_with_mark_of bytes.now }
{
    bytes.starts_with(b"\xEF\xBB\xBF")
}
