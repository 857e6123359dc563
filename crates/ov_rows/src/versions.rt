//! The rows of a version, from those of a file.

ghost use Rattle.std.specs.Prelude.{◌≡◌, ◌≢◌, ◌≤◌, IfOk, IfErr, None, Some, [], length};
ghost use Rattle.std.specs.Result.{MatchResult};
ghost use Rattle.std.specs.Option.{option_map};
ghost use Rattle.std.specs.List.Sorted.{IsPermutation};
ghost use Rattle.ov_value.specs.Rows.{key_cmp};
ghost use Rattle.ov_model.specs.Lists.{Rises};
ghost use Rattle.ov_model.specs.Merge.{in_key_order as in_key_order_of};
ghost use Rattle.ov_rows.specs.Refusing.{first_repeat, rows_off, IsWhy};

use crate::file_rows::sorted_positions;
use crate::formats::format_off;
use crate::repeats::keys_rise;
use crate::rows_err::RowsErr;
use ov_segment::RowTable;
use ov_value::Schema;
use std::alloc::Global;

// The most rows of a version.
const MOST_ROWS: usize = ov_model::MOST_ROWS as usize;

/// The rows in key order, for a store of this format; `adds` tells whether columns are added with them.
///
/// Rows that stand in key order already are given back as they are, after one pass and without memory. Else the time is that
/// of n log n comparisons of keys for n rows, and memory is asked for their positions, the sort, and their new places. No row's
/// bytes are copied.
///
/// # Errors
///
/// The first that holds of `TooManyRows`, `DuplicateKey` and `FormatOne`. `Memory` where memory is wanting, which it never is
/// where there are too many rows or the rows stand in key order.
pub fn version_rows(
    alloc: Global,
    schema: &Schema,
    format: u32,
    adds: bool,
    rows: RowTable,
) -> Result<RowTable, RowsErr>
    ensures rows { IfOk result (λ made. made ≡ in_key_order_of schema.now rows) }
    ensures answer { MatchResult result
        (λ _. rows_off format schema.now adds rows ≡ None)
        (IsWhy format schema.now adds rows) }
    ensures memory { IfErr result (λ why. why ≡ RowsErr.Memory → length rows ≤ 1000000) }
    ensures in_order { Rises (key_cmp schema.now) rows → IfErr result (λ why. why ≢ RowsErr.Memory) }
    ensures rise { IfOk result (λ made. Rises (key_cmp schema.now) made) }
    ensures kept { IfOk result (λ made. IsPermutation rows made) }
    ensures count { IfOk result (λ made. length made ≡ length rows) }
    ensures few { IfOk result (λ made. length made ≤ 1000000) }
{
    if rows.len() > MOST_ROWS {
        return Err(RowsErr::TooManyRows);
    }
    let off = format_off(format, adds, &rows);
    let made = in_key_order(alloc, schema, rows)?;
    match off {
        Some(why) => Err(why),
        None => Ok(made),
    }
}

// The rows in key order, where no key stands twice.
fn in_key_order(alloc: Global, schema: &Schema, rows: RowTable) -> Result<RowTable, RowsErr>
    requires { length rows ≤ 1000000 }
    ensures answer { MatchResult result
        (λ _. first_repeat schema.now [] 1 rows ≡ None)
        (λ why. why ≢ RowsErr.Memory → option_map RowsErr.DuplicateKey (first_repeat schema.now [] 1 rows) ≡ Some why) }
    ensures rows { IfOk result (λ made. made ≡ in_key_order_of schema.now rows) }
    ensures in_order { Rises (key_cmp schema.now) rows → IfErr result (λ why. why ≢ RowsErr.Memory) }
    ensures rise { IfOk result (λ made. Rises (key_cmp schema.now) made) }
    ensures kept { IfOk result (λ made. IsPermutation rows made) }
{
    if keys_rise(schema, &rows) {
        return Ok(rows);
    }
    let order = sorted_positions(alloc, schema, &rows)?;
    Ok(rows.at(order.as_slice())?)
}
