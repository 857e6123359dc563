// Rows of versions, partition after partition.

ghost use Rattle.std.specs.Prelude.{◌≡◌, ◌≤◌, ◌<◌, ◌+◌, ℕ, true, [], All, IfOk, OnOk, IfErr, IsErrOf, length, map};
ghost use Rattle.std.specs.List.{AllZip};
ghost use Rattle.ov_host.specs.Host.{Rose};
ghost use Rattle.ov_catalog.specs.Sets.{set_in};
ghost use Rattle.ov_model.specs.Placed.{times};
ghost use Rattle.ov_fetch.specs.Extents.{Looked, page_bytes, IsList};
ghost use Rattle.ov_fetch.specs.Rows.{HaveRids, RefusesRows};
ghost use Rattle.ov_fetch.specs.Scans.{AllFit};
ghost use Rattle.ov_segment.specs.Tables.{joined};
ghost use Rattle.ov_read.specs.Agreement.{IsThere, list_of};
ghost use Rattle.ov_read.specs.Damages.{RefusesScan};
ghost use Rattle.ov_read.specs.Gathering.{IsAdded, IsGroup, bytes_if, numbers_at, sets_at};
ghost use Rattle.ov_read.specs.Gathered.{AreGathered};
ghost use Rattle.ov_read.specs.Partitions.{AreHeld};
ghost use Rattle.ov_read.specs.Sizes.{segment_bytes_for};

use crate::grouping::{copies_at, extents_of, places_of, served, vids_at};
use crate::held::PartRids;
use crate::picking::{PartRead, put, scan_part};
use ov_catalog::Cvd;
use ov_fetch::{FetchErr, Pick};
use ov_host::Host;
use ov_layout::Part;
use ov_member::Members;
use ov_segment::Table;
use ov_value::Schema;
use std::alloc::{AllocError, Global};

/// Records, and for each version that was asked for the positions of its rows among them, where they were found already.
#[derive(Drop)]
pub(crate) struct Gathered {
    pub records: Table,
    pub picks: Vec<Pick>,
}

/// What was read of a dataset's partitions.
#[derive(Drop)]
pub(crate) struct PartsRead {
    pub found: Gathered,
    /// For each partition the rids of each of its segments, where it was read.
    pub held: Vec<PartRids>,
}

/// The rows of these versions, whose lists these are. Each partition that serves one of them is read once.
pub(crate) fn gather<H: Host>(
    alloc: Global,
    host: &mut H,
    d: &Cvd,
    vids: &[u32],
    lists: &[Members],
) -> Result<PartsRead, FetchErr>
    requires there { All (IsThere (set_in d.now)) vids.now }
    requires once { (vid : ℕ) → times vids.now vid ≤ 1 }
    requires paired { length lists.now ≡ length vids.now }
    requires lists { (H.state host.old).tells ≡ true → AllZip (λ vid. IsList (page_bytes (H.state host.old)) (list_of (set_in d.now) vid)) vids.now lists.now }
    ensures looked { Looked (H.state host.old) (H.state host.new) }
    ensures cause { IsErrOf result FetchErr.Host → Rose (H.state host.old).faults (H.state host.new).faults }
    ensures fetched { (H.state host.new).fetched ≤ (H.state host.old).fetched + segment_bytes_for (set_in d.now) vids.now }
    ensures still { vids.now ≡ [] → H.state host.new ≡ H.state host.old }
    ensures idle { vids.now ≡ [] → IfErr result (λ e. e ≡ FetchErr.Memory) }
    ensures gathered { IfOk result (λ read. AreGathered (H.state host.old) (set_in d.now) vids.now lists.now read.found) }
    ensures held { IfOk result (λ read. AreHeld (H.state host.old).tells (page_bytes (H.state host.old)) (set_in d.now) vids.now read.held.items) }
    ensures err { (H.state host.old).tells ≡ true → IfErr result (λ e. RefusesScan e (page_bytes (H.state host.old)) (set_in d.now) vids.now) }
{
    let places = places_of(alloc, vids, d.versions.len())?;
    let mut found = nothing(alloc, &d.schema, vids.len())?;
    let parts = d.layout.parts();
    let mut held = Vec::with_capacity(alloc, parts.len())?;
    for part in parts {
        let group = served(alloc, part, &places)?;
        let rids = add_group(alloc, host, d, part, vids, lists, &group, &mut found)?;
        held.push(PartRids::new(rids))?;
    }
    Ok(PartsRead { found, held })
}

// No record, and no position for so many versions.
fn nothing(alloc: Global, schema: &Schema, count: usize) -> Result<Gathered, AllocError>
    ensures columns { IfOk result (λ found. found.records.columns ≡ schema.now.columns) }
    ensures records { IfOk result (λ found. found.records.records ≡ []) }
    ensures picks { IfOk result (λ found. length found.picks.items ≡ count) }
{
    let mut picks = Vec::with_capacity(alloc, count)?;
    while picks.len() < count {
        picks.push(Pick::new(Vec::new(alloc)))?;
    }
    let records = Table::new(alloc, schema)?;
    Ok(Gathered { records, picks })
}

// Adds the rows of the versions at these places, which are those that the partition serves, and gives the rids of each of its
// segments. Where there are none of these versions it isn't read.
fn add_group<H: Host>(
    alloc: Global,
    host: &mut H,
    d: &Cvd,
    part: &Part,
    vids: &[u32],
    lists: &[Members],
    group: &[usize],
    found: &mut Gathered,
) -> Result<Vec<Members>, FetchErr>
    requires there { All (IsThere (set_in d.now)) vids.now }
    requires paired { length lists.now ≡ length vids.now }
    requires picks { length found.old.picks.items ≡ length vids.now }
    requires group { IsGroup vids.now part.now.versions group.now }
    requires columns { found.old.records.columns ≡ d.now.schema.columns }
    ensures looked { Looked (H.state host.old) (H.state host.new) }
    ensures cause { IsErrOf result FetchErr.Host → Rose (H.state host.old).faults (H.state host.new).faults }
    ensures fetched { (H.state host.new).fetched ≤ (H.state host.old).fetched + bytes_if group.now part.now.segments }
    ensures still { group.now ≡ [] → H.state host.new ≡ H.state host.old }
    ensures idle { group.now ≡ [] → IfErr result (λ e. e ≡ FetchErr.Memory) }
    ensures columns { OnOk result (found.new.records.columns ≡ found.old.records.columns) }
    ensures added { OnOk result (IsAdded d.now.schema (H.state host.old) part.now vids.now lists.now found.old found.new) }
    ensures rids { (H.state host.old).tells ≡ true → 0 < length group.now
        → IfOk result (λ rids. HaveRids d.now.schema (page_bytes (H.state host.old)) part.now.segments rids.items) }
    ensures err { (H.state host.old).tells ≡ true
        → IfErr result (λ e. (0 < length group.now) × RefusesRows e d.now.schema (page_bytes (H.state host.old)) part.now.segments
        (map (list_of (set_in d.now)) (numbers_at vids.now group.now)) (sets_at lists.now group.now)) }
{
    if group.is_empty() {
        return Ok(Vec::new(alloc));
    }
    let served = vids_at(alloc, vids, group)?;
    let extents = extents_of(alloc, d, &served)?;
    let members = copies_at(alloc, lists, group)?;
    let segments = part.segments.as_slice();
    let PartRead {
        records,
        picks,
        rids,
    } = scan_part(alloc, host, &d.schema, segments, &extents, &members)?;
    let base = found.records.len();
    put(alloc, &mut found.picks, group, &picks, base)?;
    join(&mut found.records, records)?;
    Ok(rids)
}

// Puts these records behind those that are there. Where there are none yet, no row is copied.
fn join(records: &mut Table, more: Table) -> Result<(), AllocError>
    requires { records.old.columns ≡ more.columns }
    ensures { OnOk result (records.new ≡ joined records.old more) }
{
    if records.len() == 0 {
        *records = more;
        Ok(())
    } else {
        records.append(&more)
    }
}
