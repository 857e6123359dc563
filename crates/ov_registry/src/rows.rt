// Rows of a scan with values of their own, and whether they rise by their keys.

ghost use Rattle.std.specs.Prelude.{◌≡◌, ◌<◌, ◌↔◌, [], IsTrue, IfOk, length, slice_index_or};
ghost use Rattle.std.specs.Ordering.{is_lt};
ghost use Rattle.ov_fetch.specs.Scans.{AllStand, row_at, rows_at};
ghost use Rattle.ov_model.specs.Lists.{Rises};
ghost use Rattle.ov_value.specs.Cells.{value_of};
ghost use Rattle.ov_value.specs.Rows.{key_cmp};

use ov_segment::RecordTable;
use ov_value::{CellRef, Cells, Row, Schema, Txt, Value};
use std::alloc::{AllocError, Global};
use std::cmp::Ordering;

// A value of its own.
fn own_value(alloc: Global, cell: CellRef<'_>) -> Result<Value, AllocError>
    ensures { IfOk result (λ value. value ≡ value_of cell.entry) }
{
    match cell {
        CellRef::Int(number) => Ok(Value::Int(number)),
        CellRef::Text(text) => Ok(Value::Text(Txt::new(alloc, text)?)),
        CellRef::Flag(flag) => Ok(Value::Flag(flag)),
        CellRef::Null => Ok(Value::Null),
    }
}

// A row with values of its own.
fn own_row(alloc: Global, cells: Cells<'_>) -> Result<Row, AllocError>
    ensures { IfOk result (λ row. row ≡ cells.entry) }
{
    let mut left = cells;
    let mut values = Vec::new(alloc);
    while let Some(cell) = left.next() {
        values.push(own_value(alloc, cell)?)?;
    }
    Ok(Row::new(values))
}

// The row at a position, with values of its own.
fn row_from(alloc: Global, records: &RecordTable, place: usize) -> Result<Row, AllocError>
    requires { place < length records.now }
    ensures { IfOk result (λ row. row ≡ row_at records.now place) }
{
    let row = own_row(alloc, records.cells(place))?;
    Ok(row)
}

/// Copies of the rows at these positions.
pub(crate) fn copied_rows(
    alloc: Global,
    records: &RecordTable,
    pick: &[usize],
) -> Result<Vec<Row>, AllocError>
    requires { AllStand records.now pick.now }
    ensures { IfOk result (λ rows. rows.items ≡ rows_at records.now pick.now) }
{
    let mut rows = Vec::with_capacity(alloc, pick.len())?;
    for place in pick {
        rows.push(row_from(alloc, records, *place)?)?;
    }
    Ok(rows)
}

fn is_below(schema: &Schema, rows: &[Row], a: usize, b: usize) -> bool
    requires first { a < length rows.now }
    requires second { b < length rows.now }
    ensures { result ≡ is_lt (key_cmp schema.now (slice_index_or rows.now a []) (slice_index_or rows.now b [])) }
{
    schema.cmp_key(&rows[a], &rows[b]) == Ordering::Less
}

/// Whether each row's key is above that of the row before it.
pub(crate) fn are_rising(schema: &Schema, rows: &[Row]) -> bool
    ensures { IsTrue result ↔ Rises (key_cmp schema.now) rows.now }
{
    for i in 1..rows.len() {
        if !is_below(schema, rows, i - 1, i) {
            return false;
        }
    }
    true
}
