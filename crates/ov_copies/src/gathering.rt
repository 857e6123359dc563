// The records of rids, partition after partition.

ghost use Rattle.std.specs.Prelude.{◌≡◌, ◌≤◌, ◌+◌, ℕ, true, [], All, IfOk, OnOk, IfErr, IsErrOf, MatchResult, length};
ghost use Rattle.std.specs.List.{AllByRecursion};
ghost use Rattle.ov_host.specs.Host.{Rose};
ghost use Rattle.ov_catalog.specs.Ready.{IsSet};
ghost use Rattle.ov_catalog.specs.Sets.{set_in};
ghost use Rattle.ov_member.specs.Rids.{has};
ghost use Rattle.ov_model.specs.Placed.{times};
ghost use Rattle.ov_fetch.specs.Extents.{Looked, page_bytes};
ghost use Rattle.ov_fetch.specs.Firsts.{IsFetchedFirst, RefusesFirstRows};
ghost use Rattle.ov_fetch.specs.Gathering.{IsRecord};
ghost use Rattle.ov_fetch.specs.Rows.{is_asked};
ghost use Rattle.ov_read.specs.Agreement.{IsThere};
ghost use Rattle.ov_read.specs.Sizes.{segment_bytes_for};
ghost use Rattle.ov_copies.specs.Copies.{IsFetchedFew, RefusesCopy};
ghost use Rattle.ov_copies.specs.Gathering.{AreGathered, IsAdded, bytes_if};

use crate::asking::{Asked, asked_of};
use crate::places::places_of;
use ov_catalog::Cvd;
use ov_fetch::{FetchErr, first_rows_of};
use ov_host::{Extent, Host};
use ov_member::Members;
use ov_segment::Table;
use ov_value::Schema;
use std::alloc::Global;

/// The records of these rids, each out of the first partition that serves a version with it, one partition after another. A
/// partition that serves no version with one of the rids isn't read, and of another one only as many of the first segments
/// as it takes.
pub(crate) fn gather<H: Host>(
    alloc: Global,
    host: &mut H,
    d: &Cvd,
    versions: &[u32],
    lists: &[Members],
    rids: &Members,
) -> Result<Table, FetchErr>
    requires sound { IsSet d.now }
    requires there { All (IsThere (set_in d.now)) versions.now }
    requires once { (vid : ℕ) → times versions.now vid ≤ 1 }
    requires paired { length lists.now ≡ length versions.now }
    requires listed { (rid : ℕ) → has rids.now rid ≡ true → is_asked lists.now rid ≡ true }
    ensures looked { Looked (H.state host.old) (H.state host.new) }
    ensures cause { IsErrOf result FetchErr.Host → Rose (H.state host.old).faults (H.state host.new).faults }
    ensures fetched { (H.state host.new).fetched ≤ (H.state host.old).fetched + segment_bytes_for (set_in d.now) versions.now }
    ensures no_more { IsFetchedFew (H.state host.old) (H.state host.new) (set_in d.now) versions.now lists.now rids.now }
    ensures are { IfOk result (λ found. AllByRecursion (IsRecord d.now.schema) found.records) }
    ensures answer { (H.state host.old).tells ≡ true → MatchResult result
        (λ found. AreGathered (page_bytes (H.state host.old)) (set_in d.now) versions.now lists.now rids.now found.records)
        (λ e. RefusesCopy e (page_bytes (H.state host.old)) (set_in d.now) versions.now lists.now rids.now) }
{
    let places = places_of(alloc, versions, d.versions.len())?;
    let mut left = rids.copy(alloc)?;
    let mut found = Table::new(alloc, &d.schema)?;
    let parts = d.layout.parts();
    for part in parts {
        let served = part.versions.as_slice();
        let asked = asked_of(alloc, d, served, &places, versions, lists, &mut left)?;
        let segments = part.segments.as_slice();
        add_part(alloc, host, &d.schema, segments, &asked, &mut found)?;
    }
    Ok(found)
}

// Adds the records that are asked for out of the segments of a partition, of which no more are read than it takes.
fn add_part<H: Host>(
    alloc: Global,
    host: &mut H,
    schema: &Schema,
    segments: &[Extent],
    asked: &Asked,
    found: &mut Table,
) -> Result<(), FetchErr>
    requires paired { length asked.now.lists.items ≡ length asked.now.sets.items }
    requires columns { found.old.columns ≡ schema.now.columns }
    ensures looked { Looked (H.state host.old) (H.state host.new) }
    ensures cause { IsErrOf result FetchErr.Host → Rose (H.state host.old).faults (H.state host.new).faults }
    ensures fetched { (H.state host.new).fetched ≤ (H.state host.old).fetched + bytes_if asked.now.sets.items segments.now }
    ensures no_more { IsFetchedFirst schema.now (H.state host.old) (H.state host.new) segments.now (is_asked asked.now.sets.items) }
    ensures still { asked.now.sets.items ≡ [] → H.state host.new ≡ H.state host.old }
    ensures columns { OnOk result (found.new.columns ≡ found.old.columns) }
    ensures added { OnOk result (IsAdded schema.now (H.state host.old) segments.now asked.now.sets.items found.old.records found.new.records) }
    ensures err { (H.state host.old).tells ≡ true
        → IfErr result (λ e. RefusesFirstRows e schema.now (page_bytes (H.state host.old)) segments.now asked.now.lists.items asked.now.sets.items) }
{
    if asked.sets.is_empty() {
        return Ok(());
    }
    let records = first_rows_of(alloc, host, schema, segments, &asked.lists, &asked.sets)?;
    found.append(&records)?;
    Ok(())
}
