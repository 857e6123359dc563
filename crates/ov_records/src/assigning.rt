//! The rids of a commit's rows.

ghost use Rattle.std.specs.Prelude.{◌≡◌, ◌<◌, ◌^◌, ◌+◌, List, [], length, map, IfOk, OnOk, IfErr};
ghost use Rattle.std.specs.List.{All, zip};
ghost use Rattle.ov_value.specs.Rows.{Fits, key_cmp};
ghost use Rattle.ov_model.specs.Assigned.{assigned, fresh_rows, stored_parents};
ghost use Rattle.ov_model.specs.Book.{Version};
ghost use Rattle.ov_model.specs.Lists.{Rises};
ghost use Rattle.ov_model.specs.Records.{recs, order_of};
ghost use Rattle.ov_records.specs.Committed.{AreRecords};
ghost use Rattle.ov_records.specs.Records.{lists_of, shared, InKeyOrder, RowsFit, WouldPass};

use crate::numbering::{count_new, number, would_pass};
use crate::numbers::Numbers;
use crate::outcome::{AssignErr, Assigned};
use crate::sharing::shares_of;
use ov_segment::{RecordTable, RowTable};
use ov_value::Schema;
use std::alloc::Global;

/// The rids of a new version's rows, from its parents' records in the order in which the parents were listed:
/// that of the first equal row of the first parent that has one, or else the next number, from `next` on, in the
/// order of the rows.
///
/// A weight is the number of the version's records, each a rid with its row, that the parent's list has. So a
/// parent's equal row under another rid doesn't count, nor does a rid that stands there at another row, as in
/// no list of a version's records. `TooManyRecords` comes exactly where a new rid would pass 2^31.
pub fn assign(
    alloc: Global,
    schema: &Schema,
    parents: &[RecordTable],
    rows: &RowTable,
    next: u32,
) -> Result<Assigned, AssignErr>
    requires few { length rows.now < 2 ^ 32 }
    requires rows { Rises (key_cmp schema.now) rows.now }
    requires parents { All (InKeyOrder schema.now) parents.now }
    requires rows_fit { All (Fits schema.now) rows.now }
    requires parents_fit { All (RowsFit schema.now) parents.now }
    ensures rids { IfOk result (λ made. made.rids ≡ assigned rows.now (lists_of parents.now) next) }
    ensures weights { IfOk result (λ made. made.weights ≡ map (shared (zip made.rids rows.now)) (lists_of parents.now)) }
    ensures fresh { IfOk result (λ made. made.fresh ≡ fresh_rows rows.now (lists_of parents.now)) }
    ensures records { IfOk result (λ made. (versions : List Version) (v : Version) → v.rows ≡ rows.now
        → lists_of parents.now ≡ stored_parents v.parents (recs versions []) (order_of versions)
        → next ≡ length (order_of versions) + 1
        → AreRecords versions v made.rids made.weights made.fresh) }
    ensures room { OnOk result (¬ WouldPass next (fresh_rows rows.now (lists_of parents.now))) }
    ensures cause { IfErr result (λ why. why ≡ AssignErr.TooManyRecords → WouldPass next (fresh_rows rows.now (lists_of parents.now))) }
{
    let shares = shares_of(alloc, schema, parents, rows)?;
    let fresh = count_new(shares.found.as_slice());
    if would_pass(next, fresh) {
        return Err(AssignErr::TooManyRecords);
    }
    let rids = number(alloc, shares.found.as_slice(), next)?;
    Ok(Assigned {
        rids: Numbers::new(rids),
        weights: Numbers::new(shares.weights),
        fresh,
    })
}
