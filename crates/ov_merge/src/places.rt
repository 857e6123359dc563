//! Positions of rows.

ghost use Rattle.std.specs.Prelude.{◌≡◌, ◌<◌, length};
ghost use Rattle.ov_merge.specs.Places.{place_cmp};
ghost use Rattle.ov_fetch.specs.Scans.{row_at as row_at_place};

use ov_segment::{RecordTable, RowRef};
use ov_value::Schema;
use std::cmp::Ordering;

fn row_at(records: &RecordTable, place: usize) -> RowRef<'_>
    requires { place < length records.now }
    ensures { result ≡ row_at_place records.now place }
{
    records.row(place)
}

/// Compares the keys of the rows at two positions.
pub(crate) fn cmp_places(schema: &Schema, records: &RecordTable, a: usize, b: usize) -> Ordering
    requires first { a < length records.now }
    requires second { b < length records.now }
    ensures { result ≡ place_cmp schema.now records.now a b }
{
    row_at(records, a).cmp_key(schema, &row_at(records, b))
}
