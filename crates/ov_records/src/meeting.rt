//! A row beside a parent's list in key order.

ghost use Rattle.std.specs.Prelude.{◌≡◌, ◌≤◌, List, false, length, take};
ghost use Rattle.ov_value.specs.declared.column.Column.{Column as RowColumn};
ghost use Rattle.ov_value.specs.Rows.{Fits, HasKinds};
ghost use Rattle.ov_model.specs.Assigned.{rid_of_row};
ghost use Rattle.ov_model.specs.Records.{first_of, is_same_row};
ghost use Rattle.ov_records.specs.Records.{pairs_of, InKeyOrder, RowsFit};
ghost use Rattle.ov_records.specs.Found.{has_found, leaves_to};
ghost use Rattle.ov_records.specs.Passing.{AreBelow, AreNotAbove};

use ov_segment::{RecordTable, RowRef};
use ov_value::Schema;
use std::cmp::Ordering;

/// What a parent's list says of a row.
#[derive(Clone, Copy)]
pub(crate) struct Met {
    /// How many records no later row has to be compared with.
    pub passed: usize,
    /// The rid that was found before, or else the one that this parent gives.
    pub rid: Option<u32>,
    /// Whether the parent has the row with this rid.
    pub shared: bool,
}

/// Looks for the row from the first record on that isn't passed, and no further than to the first greater key. Where
/// the next record is the row, its bytes are compared and no keys.
pub(crate) fn meet(
    schema: &Schema,
    parent: &RecordTable,
    passed: usize,
    row: &RowRef<'_>,
    found: Option<u32>,
) -> Met
    requires order { InKeyOrder schema.now parent.now }
    requires fit { RowsFit schema.now parent.now }
    requires row { Fits schema.now row.now }
    requires within { passed ≤ length parent.now }
    requires below { AreBelow schema.now (take passed parent.now) row.now }
    ensures rid { result.rid ≡ first_of found (rid_of_row (pairs_of parent.now) row.now) }
    ensures shared { result.shared ≡ has_found (pairs_of parent.now) result.rid row.now }
    ensures within { result.passed ≤ length parent.now }
    ensures passed { AreNotAbove schema.now (take result.passed parent.now) row.now }
{
    for place in passed..parent.len() {
        let record = parent.row(place);
        if is_same(row, &record) {
            let rid = parent.rid(place);
            if is_or_none(found, rid) {
                return Met {
                    passed: place + 1,
                    rid: Some(rid),
                    shared: true,
                };
            }
        } else if record.cmp_key(schema, row) == Ordering::Greater {
            return missed(place, found);
        }
    }
    missed(parent.len(), found)
}

fn missed(passed: usize, found: Option<u32>) -> Met
    ensures passed { result.passed ≡ passed }
    ensures rid { result.rid ≡ found }
    ensures shared { result.shared ≡ false }
{
    Met {
        passed,
        rid: found,
        shared: false,
    }
}

// A row of a schema has one spelling.
fn is_same(a: &RowRef<'_>, b: &RowRef<'_>) -> bool
    requires { (columns : List RowColumn) × HasKinds a.now columns × HasKinds b.now columns }
    ensures { result ≡ is_same_row a.now b.now }
{
    a.same(b)
}

fn is_or_none(found: Option<u32>, rid: u32) -> bool
    ensures { result ≡ leaves_to found rid }
{
    match found {
        None => true,
        Some(other) => rid == other,
    }
}
