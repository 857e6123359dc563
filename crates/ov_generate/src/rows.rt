// Rows as they are read back: whether they are those of a version that was generated.

ghost use Rattle.std.specs.Prelude.{◌≡◌, ◌≤◌, ◌<◌, ◌+◌, ◌^◌, ◌↔◌, ℕ, IsTrue, IfOk, MatchOption, pos, length};
ghost use Rattle.ov_value.specs.declared.value.Value.TheVariants.{Int};
ghost use Rattle.ov_value.specs.Cells.{value_of};
ghost use Rattle.ov_fetch.specs.Scans.{AllStand, row_at, rows_at};
ghost use Rattle.ov_gen.specs.Versions.{IsGrown};
ghost use Rattle.ov_generate.specs.Rows.{IsLabel, IsLabelled, IsNextRow};

use ov_segment::RecordTable;
use ov_value::{CellRef, Cells, Row, Txt, Value};
use std::alloc::{AllocError, Global};

fn is_short_label(letter: u8, digit: u8) -> bool
    ensures { IsTrue result ↔ (letter ≡ 116) × (48 ≤ digit) × (digit ≤ 57) }
{
    letter == b't' && digit >= b'0' && digit <= b'9'
}

fn is_long_label(letter: u8, high: u8, low: u8) -> bool
    ensures { IsTrue result ↔ (letter ≡ 116) × (49 ≤ high) × (high ≤ 57) × (48 ≤ low) × (low ≤ 57) }
{
    letter == b't' && high >= b'1' && high <= b'9' && low >= b'0' && low <= b'9'
}

// Whether the bytes are the letter and a number below 100.
fn is_label(bytes: &[u8]) -> bool
    ensures { IsTrue result ↔ IsLabel bytes.now }
{
    if bytes.len() == 2 {
        return is_short_label(bytes[0], bytes[1]);
    }
    if bytes.len() == 3 {
        return is_long_label(bytes[0], bytes[1], bytes[2]);
    }
    false
}

fn is_labelled(value: &Value) -> bool
    ensures { IsTrue result ↔ IsLabelled value.now }
{
    match value {
        Value::Text(text) => is_label(text.as_str().as_bytes()),
        _ => false,
    }
}

// The number, where it is one and isn't negative.
fn whole(value: &Value) -> Option<u64>
    ensures none { MatchOption result ((n : ℕ) → value.now ≡ Int (pos n) → ⊥) (λ n. value.now ≡ Int (pos n)) }
    ensures small { MatchOption result (1 ≤ 1) (λ n. n < 2 ^ 63) }
{
    match value {
        Value::Int(n) if *n >= 0 => Some(*n as u64),
        _ => None,
    }
}

// The id of a row that may come next.
fn next_id(row: &Row, count: u64, next: u64, end: u64) -> Option<u64>
    ensures { MatchOption result ((id : ℕ) → IsNextRow count next end id row.now → ⊥) (λ id. IsNextRow count next end id row.now) }
{
    let values = row.values();
    if values.len() != 3 {
        return None;
    }
    let id = whole(&values[0])?;
    let number = whole(&values[1])?;
    if number >= 1000 || !is_labelled(&values[2]) {
        return None;
    }
    if id < next || id >= end || (next <= count && id != next) {
        return None;
    }
    Some(id)
}

/// Whether the rows are those of a version before `vid`, where the first version has `count` rows.
pub(crate) fn are_grown(rows: &[Row], count: u32, vid: u32) -> bool
    requires later { 1 ≤ vid }
    ensures { IsTrue result ↔ IsGrown count vid rows.now }
{
    let count = u64::from(count);
    let end = count + u64::from(vid);
    let mut next = 1;
    for row in rows {
        match next_id(row, count, next, end) {
            Some(id) => next = id + 1,
            None => return false,
        }
    }
    next > count
}

// A value of its own.
fn own_value(alloc: Global, cell: CellRef<'_>) -> Result<Value, AllocError>
    ensures { IfOk result (λ value. value ≡ value_of cell.entry) }
{
    match cell {
        CellRef::Int(number) => Ok(Value::Int(number)),
        CellRef::Text(text) => Ok(Value::Text(Txt::new(alloc, text)?)),
        CellRef::Flag(flag) => Ok(Value::Flag(flag)),
        CellRef::Null => Ok(Value::Null),
    }
}

// A row with values of its own.
fn own_row(alloc: Global, cells: Cells<'_>) -> Result<Row, AllocError>
    ensures { IfOk result (λ row. row ≡ cells.entry) }
{
    let mut left = cells;
    let mut values = Vec::new(alloc);
    while let Some(cell) = left.next() {
        values.push(own_value(alloc, cell)?)?;
    }
    Ok(Row::new(values))
}

// The row at a position, with values of its own.
fn row_from(alloc: Global, records: &RecordTable, place: usize) -> Result<Row, AllocError>
    requires { place < length records.now }
    ensures { IfOk result (λ row. row ≡ row_at records.now place) }
{
    let row = own_row(alloc, records.cells(place))?;
    Ok(row)
}

/// Copies of the rows at these positions.
pub(crate) fn copied_rows(
    alloc: Global,
    records: &RecordTable,
    pick: &[usize],
) -> Result<Vec<Row>, AllocError>
    requires { AllStand records.now pick.now }
    ensures { IfOk result (λ rows. rows.items ≡ rows_at records.now pick.now) }
{
    let mut rows = Vec::with_capacity(alloc, pick.len())?;
    for place in pick {
        rows.push(row_from(alloc, records, *place)?)?;
    }
    Ok(rows)
}
