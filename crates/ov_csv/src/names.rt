//! The fields of a record, and whether they are the names of the columns.

ghost use Rattle.std.specs.Prelude.{◌≡◌, [], nat_eq, slice_index_or};
ghost use Rattle.std.specs.Cmp.Lexicographic.{pointwise};
ghost use Rattle.csv.specs.Records.{fields_of};
ghost use Rattle.ov_value.specs.Shapes.{names};

use crate::line::Line;
use csv::ByteRecord;
use ov_value::Column;

/// The field at a place, or no bytes where there is none.
pub(crate) fn field(line: &ByteRecord, place: usize) -> &[u8]
    ensures { result.now ≡ slice_index_or (fields_of line.now) place [] }
{
    match line.get(place) {
        Some(field) => field,
        None => &[],
    }
}

/// Whether the fields are the names of the columns in order.
pub(crate) fn are_names(line: &Line<'_>, columns: &[Column]) -> bool
    ensures { result ≡ pointwise (pointwise nat_eq) line.now (names columns.now) }
{
    if line.len() != columns.len() {
        return false;
    }
    for (place, column) in columns.iter().enumerate() {
        if line.at(place) != column.name.as_bytes() {
            return false;
        }
    }
    true
}
