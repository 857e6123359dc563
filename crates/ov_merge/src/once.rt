//! One version's rows, each key once.

ghost use Rattle.std.specs.Prelude.{◌≡◌, IfOk};
ghost use Rattle.ov_fetch.specs.Scans.{AllFit, AllStand};
ghost use Rattle.ov_merge.specs.Places.{place_cmp};
ghost use Rattle.ov_merge.specs.Walks.{once as once_of};

use crate::places::cmp_places;
use ov_order::do_keys_rise;
use ov_segment::RecordTable;
use ov_value::Schema;
use std::alloc::{AllocError, Global};
use std::cmp::Ordering;

/// The first position of each run of equal keys. Where keys rise, as they do in each version that a store keeps, these are all.
pub(crate) fn once(
    alloc: Global,
    schema: &Schema,
    records: &RecordTable,
    places: &[usize],
) -> Result<Vec<usize>, AllocError>
    requires fit { AllFit schema.now records.now }
    requires stand { AllStand records.now places.now }
    ensures { IfOk result (λ made. made.items ≡ once_of (place_cmp schema.now records.now) places.now) }
{
    if do_keys_rise(schema, records.table(), places) {
        return Vec::from_slice(alloc, places);
    }
    first_of_each(alloc, schema, records, places)
}

fn first_of_each(
    alloc: Global,
    schema: &Schema,
    records: &RecordTable,
    places: &[usize],
) -> Result<Vec<usize>, AllocError>
    requires { AllStand records.now places.now }
    ensures { IfOk result (λ made. made.items ≡ once_of (place_cmp schema.now records.now) places.now) }
{
    let mut made = Vec::with_capacity(alloc, places.len())?;
    if places.is_empty() {
        return Ok(made);
    }
    let mut last = places[0];
    made.push(last)?;
    for i in 1..places.len() {
        if cmp_places(schema, records, last, places[i]) != Ordering::Equal {
            last = places[i];
            made.push(last)?;
        }
    }
    Ok(made)
}
