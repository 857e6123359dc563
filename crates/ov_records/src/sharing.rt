//! What parents give of rows: rids, and how many rows they have under the rids that the rows get.

ghost use Rattle.std.specs.Prelude.{◌≡◌, ◌<◌, ◌^◌, List, ℕ, length, map, IfOk};
ghost use Rattle.std.specs.List.{All, zip};
ghost use Rattle.ov_value.specs.Rows.{Fits, key_cmp};
ghost use Rattle.ov_model.specs.Assigned.{assigned, rid_by};
ghost use Rattle.ov_model.specs.Lists.{Rises};
ghost use Rattle.ov_records.specs.Records.{pairs_of, lists_of, shared, InKeyOrder, RowsFit};
ghost use Rattle.ov_records.specs.Found.{or_found, shared_found};

use crate::meeting::meet;
use ov_segment::{RecordTable, RowTable};
use ov_value::Schema;
use std::alloc::{AllocError, Global};

/// What parents give of rows.
#[derive(Drop)]
pub(crate) struct Shares {
    /// For each row the rid that the first parent with an equal row gives it, or none.
    pub found: Vec<Option<u32>>,
    /// For each parent how many of the rows it has under the rids that they get.
    pub weights: Vec<u32>,
}

/// Each parent's list is walked once, beside the rows.
pub(crate) fn shares_of(
    alloc: Global,
    schema: &Schema,
    parents: &[RecordTable],
    rows: &RowTable,
) -> Result<Shares, AllocError>
    requires few { length rows.now < 2 ^ 32 }
    requires rows { Rises (key_cmp schema.now) rows.now }
    requires parents { All (InKeyOrder schema.now) parents.now }
    requires rows_fit { All (Fits schema.now) rows.now }
    requires parents_fit { All (RowsFit schema.now) parents.now }
    ensures found { IfOk result (λ shares. shares.found.items ≡ map (rid_by (lists_of parents.now)) rows.now) }
    ensures weights { IfOk result (λ shares. (next : ℕ)
        → shares.weights.items ≡ map (shared (zip (assigned rows.now (lists_of parents.now) next) rows.now)) (lists_of parents.now)) }
{
    let mut found = vec![in alloc; None; rows.len()]?;
    let mut weights = Vec::with_capacity(alloc, parents.len())?;
    for parent in parents {
        weights.push(share(schema, parent, rows, found.as_mut_slice()))?;
    }
    Ok(Shares { found, weights })
}

// Where no rid was found yet, the one that this parent gives; and how many rows it has with the rids found then.
fn share(schema: &Schema, parent: &RecordTable, rows: &RowTable, found: &mut [Option<u32>]) -> u32
    requires few { length rows.now < 2 ^ 32 }
    requires rows { Rises (key_cmp schema.now) rows.now }
    requires parent { InKeyOrder schema.now parent.now }
    requires rows_fit { All (Fits schema.now) rows.now }
    requires parent_fits { RowsFit schema.now parent.now }
    requires found { length found.old ≡ length rows.now }
    ensures found { found.new ≡ or_found found.old rows.now (pairs_of parent.now) }
    ensures weight { result ≡ shared_found (pairs_of parent.now) found.new rows.now }
{
    let mut passed = 0;
    let mut weight = 0;
    for i in 0..rows.len() {
        let met = meet(schema, parent, passed, &rows.row(i), found[i]);
        passed = met.passed;
        found[i] = met.rid;
        if met.shared {
            weight += 1;
        }
    }
    weight
}
