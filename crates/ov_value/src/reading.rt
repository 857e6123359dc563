//! From bytes to the row that they spell.

ghost use Rattle.std.specs.Prelude.{◌≡◌, ◌≤◌, List, length, IfOk, IfSome, IsSomeAnd, Some, false};
ghost use Rattle.ov_value.specs.declared.value.Value.{Value as RowValue};
ghost use Rattle.ov_value.specs.Spelling.{IsSpelling, IsRow};
ghost use Rattle.ov_value.specs.Reading.{Spelled};

use crate::column::Column;
use crate::marked::read_marked;
use crate::plain::read_values;
use crate::row::Row;
use crate::schema::Schema;
use crate::spelled::RowBytes;
use crate::value::Value;
use std::alloc::{AllocError, Global};

/// The row of the schema that all of the bytes spell, or `None` where they spell none. It takes memory for
/// the row alone: a length that passes the bytes takes none.
pub fn read_row(alloc: Global, schema: &Schema, bytes: &RowBytes) -> Result<Option<Row>, AllocError>
    // What is read is a row of the schema, and is spelled so.
    ensures found { IfOk result (λ read. IfSome read (λ row. IsRow schema.now row × IsSpelling row bytes.now.marked bytes.now.bytes)) }

    // What is spelled so is read.
    ensures only { (row : List RowValue) → IsRow schema.now row → IsSpelling row bytes.now.marked bytes.now.bytes
        → IfOk result (λ read. read ≡ Some row) }
{
    read_row_slice(alloc, schema, bytes.marked, bytes.bytes.as_slice())
}

/// As `read_row`, of a slice of bytes and whether they begin with marks.
pub fn read_row_slice(
    alloc: Global,
    schema: &Schema,
    marked: bool,
    bytes: &[u8],
) -> Result<Option<Row>, AllocError>
    ensures found { IfOk result (λ read. IfSome read (λ row. IsRow schema.now row × IsSpelling row marked bytes.now)) }
    ensures only { (row : List RowValue) → IsRow schema.now row → IsSpelling row marked bytes.now
        → IfOk result (λ read. read ≡ Some row) }
{
    match read_spelled(alloc, schema.columns(), marked, bytes)? {
        None => Ok(None),
        Some(values) => {
            let row = Row::new(values);
            if schema.has_key(&row) {
                Ok(Some(row))
            } else {
                Ok(None)
            }
        }
    }
}

fn read_spelled(
    alloc: Global,
    columns: &[Column],
    marked: bool,
    bytes: &[u8],
) -> Result<Option<Vec<Value>>, AllocError>
    requires { length columns.now ≤ 64 }
    ensures found { IfOk result (λ read. IfSome read (λ values. Spelled columns.now marked bytes.now values.items)) }
    ensures only { (row : List RowValue) → Spelled columns.now marked bytes.now row
        → IfOk result (λ read. IsSomeAnd read (λ values. values.items ≡ row)) }
{
    if marked {
        read_marked(alloc, columns, bytes)
    } else {
        read_plain(alloc, columns, bytes)
    }
}

fn read_plain(
    alloc: Global,
    columns: &[Column],
    bytes: &[u8],
) -> Result<Option<Vec<Value>>, AllocError>
    ensures found { IfOk result (λ read. IfSome read (λ values. Spelled columns.now false bytes.now values.items)) }
    ensures only { (row : List RowValue) → Spelled columns.now false bytes.now row
        → IfOk result (λ read. IsSomeAnd read (λ values. values.items ≡ row)) }
{
    read_values(alloc, columns, 0, bytes)
}
