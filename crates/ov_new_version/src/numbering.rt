// The rids of a commit's rows, and where its version goes.

ghost use Rattle.std.specs.Prelude.{◌≡◌, ◌≤◌, ◌<◌, ◌+◌, ◌^◌, ◌⊎◌, List, IfOk, OnOk, IfErr, [], length, map};
ghost use Rattle.std.specs.List.{All, zip};
ghost use Rattle.ov_graph.specs.Versions.{heaviest};
ghost use Rattle.ov_place.specs.Placement.{placed};
ghost use Rattle.ov_model.specs.Assigned.{fresh_rows, stored_parents};
ghost use Rattle.ov_model.specs.Book.{Version};
ghost use Rattle.ov_model.specs.Records.{recs, order_of};
ghost use Rattle.ov_records.specs.Committed.{AreRecords};
ghost use Rattle.ov_records.specs.Records.{InKeyOrder, RowsFit, lists_of, shared};
ghost use Rattle.ov_catalog.specs.Applying.{facts_of};
ghost use Rattle.ov_catalog.specs.Reached.{AreRows};
ghost use Rattle.ov_catalog.specs.Ready.{IsSet};
ghost use Rattle.ov_catalog.specs.Sets.{set_in};
ghost use Rattle.law_commits.specs.Committing.{rids_for};
ghost use Rattle.ov_new_version.specs.declared.errors.CommitErr.TheVariants as why;

use crate::errors::CommitErr;
use ov_catalog::{Cvd, next_place};
use ov_place::Place;
use ov_records::{Assigned, assign};
use ov_segment::{RecordTable, RowTable};
use ov_value::Schema;
use std::alloc::{AllocError, Global};

/// The rids of these rows of a schema, from these parents' records; the new ones come after those of the dataset's records.
/// `TooManyRecords` exactly where one of them would pass 2^31.
pub(crate) fn made_for(
    alloc: Global,
    d: &Cvd,
    schema: &Schema,
    parents: &[RecordTable],
    rows: &RowTable,
) -> Result<Assigned, CommitErr>
    requires most { d.now.records ≤ 2 ^ 31 }
    requires rows { AreRows schema.now rows.now }
    requires order { All (InKeyOrder schema.now) parents.now }
    requires fit { All (RowsFit schema.now) parents.now }
    ensures rids { IfOk result (λ made. made.rids ≡ rids_for (set_in d.now) rows.now parents.now) }
    ensures weights { IfOk result (λ made. made.weights ≡ map (shared (zip made.rids rows.now)) (lists_of parents.now)) }
    ensures fresh { IfOk result (λ made. made.fresh ≡ fresh_rows rows.now (lists_of parents.now)) }
    ensures records { IfOk result (λ made. (versions : List Version) (v : Version) → v.rows ≡ rows.now
        → lists_of parents.now ≡ stored_parents v.parents (recs versions []) (order_of versions)
        → d.now.records ≡ length (order_of versions)
        → AreRecords versions v made.rids made.weights made.fresh) }
    ensures room { OnOk result (d.now.records + fresh_rows rows.now (lists_of parents.now) ≤ 2 ^ 31) }
    ensures cause { IfErr result (λ e. (e ≡ why.Memory) ⊎ ((e ≡ why.TooManyRecords) × (2 ^ 31 < d.now.records + fresh_rows rows.now (lists_of parents.now)))) }
{
    Ok(assign(alloc, schema, parents, rows, d.records + 1)?)
}

/// Where the version with these parents goes, by the weights of their edges.
pub(crate) fn place_of(
    alloc: Global,
    d: &Cvd,
    vids: &[u32],
    weights: &[u32],
) -> Result<Place, AllocError>
    requires { IsSet d.now }
    ensures { IfOk result (λ place. place ≡ placed (facts_of (set_in d.now) (heaviest (zip vids.now weights.now)))) }
{
    let edges = edges_of(alloc, vids, weights)?;
    Ok(next_place(d, &edges))
}

// The parents with the weights of their edges.
fn edges_of(alloc: Global, vids: &[u32], weights: &[u32]) -> Result<Vec<(u32, u32)>, AllocError>
    ensures { IfOk result (λ edges. edges.items ≡ zip vids.now weights.now) }
{
    let count = vids.len().min(weights.len());
    let mut edges = Vec::with_capacity(alloc, count)?;
    for at in 0..count {
        edges.push((vids[at], weights[at]))?;
    }
    Ok(edges)
}
