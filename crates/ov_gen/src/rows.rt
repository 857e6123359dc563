//! Rows, made and changed.

ghost use Rattle.std.specs.Prelude.{◌≡◌, ◌≤◌, ◌<◌, ◌^◌, ◌++◌, IfOk, OnOk, length, codes, pos, slice_set};
ghost use Rattle.std.specs.Fmt.{decimal};
ghost use Rattle.ov_value.specs.declared.value.Value.TheVariants.{Int};
ghost use Rattle.ov_model.specs.Generator.{fresh_row as fresh_row_of, fresh_rows as fresh_rows_of};

use crate::drawing::draw;
use itoa::Buffer;
use ov_value::{Row, Txt, Value};
use std::alloc::{AllocError, Global};
use std::mem;

/// A row with this id: its number is drawn, and then the number in its text.
pub(crate) fn fresh_row(alloc: Global, state: &mut u64, id: u64) -> Result<Row, AllocError>
    requires small { id < 2 ^ 63 }
    ensures row { IfOk result (λ made. made ≡ (fresh_row_of id state.old).is) }
    ensures state { OnOk result (state.new ≡ (fresh_row_of id state.old).state) }
{
    let number = draw(state, 1000);
    let label = draw(state, 100);
    let mut values = Vec::with_capacity(alloc, 3)?;
    values.push(Value::Int(id as i64))?;
    values.push(Value::Int(number as i64))?;
    values.push(Value::Text(labelled(alloc, label)?))?;
    Ok(Row::new(values))
}

// The text of a number, behind a letter.
fn labelled(alloc: Global, number: u64) -> Result<Txt, AllocError>
    ensures { IfOk result (λ made. made ≡ codes "t" ++ decimal number) }
{
    let mut digits = Buffer::new();
    let mut text = String::with_capacity(alloc, 3)?;
    text.push_str("t")?;
    text.push_str(digits.format(number))?;
    Txt::from_string(text)
}

/// So many rows, with the ids 1, 2, 3 and so on.
pub(crate) fn fresh_rows(alloc: Global, state: &mut u64, count: u32) -> Result<Vec<Row>, AllocError>
    ensures rows { IfOk result (λ made. made.items ≡ (fresh_rows_of count 1 state.old).is) }
    ensures state { OnOk result (state.new ≡ (fresh_rows_of count 1 state.old).state) }
{
    let mut rows = Vec::with_capacity(alloc, count as usize)?;
    for before in 0..count {
        rows.push(fresh_row(alloc, state, 1 + u64::from(before))?)?;
    }
    Ok(rows)
}

/// Gives the row this number, in place.
pub(crate) fn renumber(alloc: Global, row: &mut Row, number: u64)
    requires two { 2 ≤ length row.old }
    requires small { number < 2 ^ 63 }
    ensures { row.new ≡ slice_set row.old 1 (Int (pos number)) }
{
    let old = mem::replace(row, Row::new(Vec::new(alloc)));
    let mut values = old.into_values();
    values[1] = Value::Int(number as i64);
    *row = Row::new(values);
}
