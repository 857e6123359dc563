//! The rows of a file by their keys: which stands where.

ghost use Rattle.std.specs.Prelude.{◌≡◌, ◌≢◌, ◌<◌, ◌≤◌, IfOk, IfErr, None, Some, [], length};
ghost use Rattle.std.specs.Option.{option_map};
ghost use Rattle.std.specs.List.{All};
ghost use Rattle.std.specs.List.Sorted.{IsPermutation};
ghost use Rattle.ov_model.specs.Lists.{Rises};
ghost use Rattle.ov_rows.specs.FileRows.{numbered, file_row_cmp, least_repeat as least_repeat_of, lines_at};
ghost use Rattle.ov_rows.specs.Refusing.{first_repeat};

use crate::keyed::{keyed_of, places_of, sort_by_fronts, sort_by_keys};
use crate::repeats::{are_rising, least_repeat};
use crate::rows_err::RowsErr;
use ov_segment::RowTable;
use ov_value::Schema;
use std::alloc::Global;

/// The positions of the rows by their keys, where no key stands twice.
pub(crate) fn sorted_positions(
    alloc: Global,
    schema: &Schema,
    rows: &RowTable,
) -> Result<Vec<usize>, RowsErr>
    requires some { 0 < length rows.now }
    requires few { length rows.now ≤ 1000000 }
    ensures within { IfOk result (λ order. All (λ i. i < length rows.now) order.items) }
    ensures moved { IfOk result (λ order. IsPermutation (numbered 1 rows.now) (lines_at rows.now order.items)) }
    ensures rise { IfOk result (λ order. Rises (file_row_cmp schema.now) (lines_at rows.now order.items)) }
    ensures apart { IfOk result (λ order. least_repeat_of schema.now None (lines_at rows.now order.items) ≡ None) }
    ensures repeated { IfErr result (λ why. why ≢ RowsErr.Memory
        → option_map RowsErr.DuplicateKey (first_repeat schema.now [] 1 rows.now) ≡ Some why) }
{
    let mut keyed = keyed_of(alloc, schema, rows)?;
    sort_by_fronts(&mut keyed)?;
    if are_rising(schema, rows, keyed.as_slice()) {
        return Ok(places_of(alloc, keyed.as_slice())?);
    }
    sort_by_keys(schema, rows, &mut keyed)?;
    let order = places_of(alloc, keyed.as_slice())?;
    match least_repeat(schema, rows, order.as_slice()) {
        Some(row) => Err(RowsErr::DuplicateKey { row }),
        None => Ok(order),
    }
}
