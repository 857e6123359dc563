// Rows in one buffer, and in the order of their keys.

ghost use Rattle.std.specs.Prelude.{◌≡◌, [], None, IsTrue, IfOk};
ghost use Rattle.std.specs.List.{All};
ghost use Rattle.ov_model.specs.Act.{repeated_key};
ghost use Rattle.ov_store.specs.Beginning.{IsShort};
ghost use Rattle.ov_value.specs.Spelling.{IsRow, IsShort as IsShortValue, IsTyped};
ghost use Rattle.ov_registry.specs.Changing.{IsOrdered};

use ov_rows::version_rows;
use ov_segment::{RowTable, Table};
use ov_value::{LONGEST_ROW, Row, Schema, Value, row_len};
use std::alloc::{AllocError, Global};

/// The most rows of a version.
const MOST_ROWS: usize = ov_model::MOST_ROWS as usize;

// Whether a value has a spelling in a row.
fn is_spelled(value: &Value) -> bool
    ensures { IsTrue result → IsTyped value.now × IsShortValue value.now }
{
    match value {
        Value::Int(number) => {
            let _number = *number;
            true
        }
        Value::Text(text) => text.as_str().len() <= LONGEST_ROW,
        Value::Flag(_) => true,
        Value::Null => true,
    }
}

// Whether each value of a row has a spelling.
fn are_spelled(row: &Row) -> bool
    ensures typed { IsTrue result → All IsTyped row.now }
    ensures short { IsTrue result → All IsShortValue row.now }
{
    let values = row.values();
    for value in values {
        if !is_spelled(value) {
            return false;
        }
    }
    true
}

// Whether a row may be stored under the schema.
fn is_whole(schema: &Schema, row: &Row) -> bool
    ensures row { IsTrue result → IsRow schema.now row.now }
    ensures short { IsTrue result → IsShort row.now }
{
    schema.fits(row) && are_spelled(row) && row_len(row) <= LONGEST_ROW
}

/// These rows in one buffer. Rows of a store, and those of users and tables, can be stored; others are no more than memory that
/// isn't there.
pub(crate) fn table_of(alloc: Global, schema: &Schema, rows: &[Row]) -> Result<RowTable, AllocError>
    ensures rows { IfOk result (λ made. made ≡ rows.now) }
    ensures fit { IfOk result (λ made. All (IsRow schema.now) made) }
    ensures short { IfOk result (λ made. All IsShort made) }
{
    let mut table = Table::new(alloc, schema)?;
    for row in rows {
        if !is_whole(schema, row) {
            return Err(AllocError);
        }
        table.push_row(schema, 0, row)?;
    }
    Ok(RowTable::new(table))
}

/// The rows in the order of their keys; more than a version may have stay as they are, since no store takes them.
pub(crate) fn in_order(
    alloc: Global,
    schema: &Schema,
    rows: RowTable,
) -> Result<RowTable, AllocError>
    requires once { repeated_key schema.now [] 1 rows ≡ None }
    ensures { IfOk result (IsOrdered schema.now rows) }
{
    if rows.len() > MOST_ROWS {
        return Ok(rows);
    }
    match version_rows(alloc, schema, 2, false, rows) {
        Ok(made) => Ok(made),
        Err(_) => Err(AllocError),
    }
}
