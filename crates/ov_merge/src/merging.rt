//! The merge of a scan.

ghost use Rattle.std.specs.Prelude.{◌≡◌, ℕ, List, map, IfOk};
ghost use Rattle.std.specs.List.{All};
ghost use Rattle.ov_model.specs.Lists.{IsIn};
ghost use Rattle.ov_model.specs.Merge.{merged};
ghost use Rattle.ov_fetch.specs.Scans.{IsSound, AllFit, AllStand, InKeyOrder, rows_at};
ghost use Rattle.ov_merge.specs.Places.{IsMerge, IsFirstPlace, place_cmp};
ghost use Rattle.ov_model.specs.Lists.{joined};

use crate::both::both;
use crate::once::once;
use ov_fetch::{Pick, Scan};
use ov_segment::RecordTable;
use ov_value::Schema;
use std::alloc::{AllocError, Global};

/// The positions, among the scan's records, of the merge of its versions in the order in which they stand: the
/// rows in key order that no row before them, in their own version or in an earlier one, has the key of.
pub fn merge(alloc: Global, schema: &Schema, scan: &Scan) -> Result<Pick, AllocError>
    requires { IsSound schema.now scan.now }
    ensures rows { IfOk result (λ places. rows_at scan.now.records places ≡ merged schema.now (map (rows_at scan.now.records) scan.now.picks)) }
    ensures first { IfOk result (λ places. (place : ℕ) → IsIn places place
        → IsFirstPlace schema.now scan.now.records (joined scan.now.picks) place) }
{
    let places = merge_picks(alloc, schema, &scan.records, scan.picks.as_slice())?;
    Ok(Pick::new(places))
}

// The first half of the versions and the second half, each merged, and then as one.
fn merge_picks(
    alloc: Global,
    schema: &Schema,
    records: &RecordTable,
    picks: &[Pick],
) -> Result<Vec<usize>, AllocError>
    requires fit { AllFit schema.now records.now }
    requires stand { All (AllStand records.now) picks.now }
    requires ordered { All (λ pick. InKeyOrder schema.now (rows_at records.now pick)) picks.now }
    ensures stand { IfOk result (λ places. AllStand records.now places.items) }
    ensures merge { IfOk result (λ places. IsMerge (place_cmp schema.now records.now) (joined picks.now) places.items) }
{
    match picks {
        [] => Ok(Vec::new(alloc)),
        [pick] => once(alloc, schema, records, pick.as_slice()),
        _ => {
            let (front, back) = picks.split_at(picks.len() / 2);
            let first = merge_picks(alloc, schema, records, front)?;
            let second = merge_picks(alloc, schema, records, back)?;
            both(alloc, schema, records, first.as_slice(), second.as_slice())
        }
    }
}
