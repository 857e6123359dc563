//! Where the rows of one version stand.

ghost use Rattle.std.specs.Prelude.{◌≡◌, IfOk};
ghost use Rattle.ov_segment.specs.Segments.{Ascend};
ghost use Rattle.ov_fetch.specs.Extents.{rids_of};
ghost use Rattle.ov_fetch.specs.Scans.{AllFit, AllStand};
ghost use Rattle.ov_read.specs.Picking.{IsPick, places_of as places_of_rids};

use ov_fetch::Pick;
use ov_member::Members;
use ov_order::in_key_order;
use ov_segment::Table;
use ov_value::Schema;
use std::alloc::{AllocError, Global};

/// The positions of the records that have one of these rids, in the order of their rows' keys.
pub(crate) fn pick_of(
    alloc: Global,
    schema: &Schema,
    records: &Table,
    rids: &Members,
) -> Result<Pick, AllocError>
    requires ascend { Ascend 0 (rids_of records.now.records) }
    requires fit { AllFit schema.now records.now.records }
    ensures pick { IfOk result (IsPick schema.now records.now.records rids.now) }
    ensures stand { IfOk result (AllStand records.now.records) }
{
    let places = places_of(alloc, records, rids)?;
    let order = in_key_order(alloc, schema, records, &places)?;
    Ok(Pick::new(order))
}

// The positions of the records that have one of these rids. Both ascend, and are walked side by side.
fn places_of(alloc: Global, records: &Table, rids: &Members) -> Result<Vec<usize>, AllocError>
    requires { Ascend 0 (rids_of records.now.records) }
    ensures places { IfOk result (λ found. found.items ≡ places_of_rids records.now.records rids.now) }
    ensures stand { IfOk result (λ found. AllStand records.now.records found.items) }
{
    let mut places = Vec::with_capacity(alloc, records.len().min(rids.len() as usize))?;
    let mut ahead = rids.ahead();
    for place in 0..records.len() {
        ahead = ahead.at(records.rid(place));
        if ahead.is_inside() {
            places.push(place)?;
        }
    }
    Ok(places)
}
