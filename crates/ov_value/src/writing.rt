//! From a row to its bytes.

ghost use Rattle.std.specs.Prelude.{◌≡◌, ◌≤◌, ◌+◌, ◌/◌, ◌++◌, ◌∷◌, OnOk, IfOk, length, min, take};
ghost use Rattle.std.specs.List.{All, list_any, flat_map};
ghost use Rattle.ov_value.specs.Rows.{Fits, is_null};
ghost use Rattle.ov_value.specs.Spelling.{value_bytes, low_bytes, mark_bytes, IsShort, row_spelling};

use crate::kept::{has_null, kept, marks_of};
use crate::row::Row;
use crate::schema::Schema;
use crate::spelled::{Bytes, RowBytes};
use crate::value::Value;
use std::alloc::{AllocError, Global};

/// A row has so many bytes at most.
pub const LONGEST_ROW: usize = 65_536;

/// The one spelling of a row that fits the schema. It takes memory once, as much as it has bytes.
pub fn row_bytes(alloc: Global, schema: &Schema, row: &Row) -> Result<RowBytes, AllocError>
    requires fits { Fits schema.now row.now }
    requires short { All IsShort row.now }
    ensures { IfOk result (λ made. made ≡ row_spelling row.now) }
{
    let mut bytes = Vec::with_capacity(alloc, row_len(row))?;
    let marked = append_row(&mut bytes, schema, row)?;
    Ok(RowBytes {
        marked,
        bytes: Bytes::new(bytes),
    })
}

/// Appends the bytes of a row that fits the schema, and answers whether they begin with marks. After an error
/// any bytes may stand behind the old ones.
pub fn append_row(bytes: &mut Vec<u8>, schema: &Schema, row: &Row) -> Result<bool, AllocError>
    requires fits { Fits schema.now row.now }
    requires short { All IsShort row.now }
    ensures marked { IfOk result (λ marked. marked ≡ (row_spelling row.now).marked) }
    ensures bytes { OnOk result (bytes.new.items ≡ bytes.old.items ++ (row_spelling row.now).bytes) }
    ensures front { take (length bytes.old.items) bytes.new.items ≡ bytes.old.items }
{
    let _columns = schema.columns();
    let values = kept(row.values());
    let marked = push_marks(bytes, values)?;
    push_values(bytes, values)?;
    Ok(marked)
}

/// The number of a row's bytes, or 2^64 - 1 where there are more.
pub fn row_len(row: &Row) -> usize
    ensures { result ≡ min (length (row_spelling row.now).bytes) usize.MAX }
{
    let values = kept(row.values());
    len_of(values).saturating_add(marks_len(values))
}

/// Whether a row's bytes begin with marks: a NULL stands before another value.
pub fn is_marked(row: &Row) -> bool
    ensures { result ≡ (row_spelling row.now).marked }
{
    has_null(kept(row.values()))
}

// The number of bytes of the marks.
fn marks_len(values: &[Value]) -> usize
    ensures { result ≡ length (mark_bytes values.now) }
{
    if has_null(values) {
        1 + (values.len() + 7) / 8
    } else {
        0
    }
}

// The number of bytes of the values, or the greatest number where it would pass that.
fn len_of(values: &[Value]) -> usize
    ensures { result ≡ min (length (flat_map value_bytes values.now)) usize.MAX }
{
    let mut len = 0usize;
    for value in values {
        let more = match value {
            Value::Int(_) => 8,
            Value::Text(text) => text.len().saturating_add(4),
            Value::Flag(_) => 1,
            Value::Null => 0,
        };
        len = len.saturating_add(more);
    }
    len
}

// Appends the marks where one of the values is NULL, and answers whether one is.
fn push_marks(bytes: &mut Vec<u8>, values: &[Value]) -> Result<bool, AllocError>
    requires { length values.now ≤ 64 }
    ensures marked { IfOk result (λ marked. marked ≡ list_any is_null values.now) }
    ensures bytes { OnOk result (bytes.new.items ≡ bytes.old.items ++ mark_bytes values.now) }
    ensures front { take (length bytes.old.items) bytes.new.items ≡ bytes.old.items }
{
    if !has_null(values) {
        return Ok(false);
    }
    bytes.push(values.len() as u8)?;
    push_low_bytes(bytes, (values.len() + 7) / 8, marks_of(values))?;
    Ok(true)
}

fn push_low_bytes(bytes: &mut Vec<u8>, count: usize, number: u64) -> Result<(), AllocError>
    ensures bytes { OnOk result (bytes.new.items ≡ bytes.old.items ++ low_bytes count number) }
    ensures front { take (length bytes.old.items) bytes.new.items ≡ bytes.old.items }
{
    let mut rest = number;
    for _ in 0..count {
        bytes.push((rest % 256) as u8)?;
        rest /= 256;
    }
    Ok(())
}

fn push_values(bytes: &mut Vec<u8>, values: &[Value]) -> Result<(), AllocError>
    requires { All IsShort values.now }
    ensures bytes { OnOk result (bytes.new.items ≡ bytes.old.items ++ flat_map value_bytes values.now) }
    ensures front { take (length bytes.old.items) bytes.new.items ≡ bytes.old.items }
{
    for value in values {
        push_value(bytes, value)?;
    }
    Ok(())
}

fn push_value(bytes: &mut Vec<u8>, value: &Value) -> Result<(), AllocError>
    requires { IsShort value.now }
    ensures bytes { OnOk result (bytes.new.items ≡ bytes.old.items ++ value_bytes value.now) }
    ensures front { take (length bytes.old.items) bytes.new.items ≡ bytes.old.items }
{
    match value {
        Value::Int(number) => bytes.extend_from_slice(&number.cast_unsigned().to_be_bytes()),
        Value::Text(text) => {
            bytes.extend_from_slice(&(text.len() as u32).to_be_bytes())?;
            bytes.extend_from_slice(text.as_bytes())
        }
        Value::Flag(flag) => {
            bytes.push(u8::from(*flag))?;
            Ok(())
        }
        Value::Null => Ok(()),
    }
}
