//! Two merged lists as one.

ghost use Rattle.std.specs.Prelude.{◌≡◌, IfOk};
ghost use Rattle.ov_fetch.specs.Scans.{AllStand};
ghost use Rattle.ov_merge.specs.Places.{place_cmp};
ghost use Rattle.ov_merge.specs.Walks.{both as both_of};

use crate::places::cmp_places;
use ov_segment::RecordTable;
use ov_value::Schema;
use std::alloc::{AllocError, Global};
use std::cmp::Ordering;

/// The positions of both lists in key order; where both have a key, that of the first.
pub(crate) fn both(
    alloc: Global,
    schema: &Schema,
    records: &RecordTable,
    first: &[usize],
    second: &[usize],
) -> Result<Vec<usize>, AllocError>
    requires first { AllStand records.now first.now }
    requires second { AllStand records.now second.now }
    ensures { IfOk result (λ made. made.items ≡ both_of (place_cmp schema.now records.now) first.now second.now) }
{
    let mut made = Vec::with_capacity(alloc, first.len())?;
    let mut i = 0;
    let mut j = 0;
    while i < first.len() && j < second.len() {
        match cmp_places(schema, records, first[i], second[j]) {
            Ordering::Less => {
                made.push(first[i])?;
                i += 1;
            }
            Ordering::Equal => {
                made.push(first[i])?;
                i += 1;
                j += 1;
            }
            Ordering::Greater => {
                made.push(second[j])?;
                j += 1;
            }
        }
    }
    made.extend_from_slice(&first[i..])?;
    made.extend_from_slice(&second[j..])?;
    Ok(made)
}
