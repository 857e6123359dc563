// The records of versions, of which none has a rid with another row than an earlier one, and what their partitions hold.

ghost use Rattle.std.specs.Prelude.{◌≡◌, ◌≤◌, ◌+◌, ℕ, true, All, IfOk, IsErrOf, MatchResult};
ghost use Rattle.std.specs.List.{AllZip};
ghost use Rattle.ov_host.specs.Host.{Rose};
ghost use Rattle.ov_catalog.specs.Sets.{set_in};
ghost use Rattle.ov_model.specs.Placed.{times};
ghost use Rattle.ov_fetch.specs.Extents.{Looked, page_bytes};
ghost use Rattle.ov_fetch.specs.Scans.{AllFit};
ghost use Rattle.ov_records.specs.Records.{InKeyOrder};
ghost use Rattle.law_commits.specs.Agreeing.{EachAgrees, ParentsAgree};
ghost use Rattle.ov_read.specs.Agreement.{IsThere, is_served, list_of};
ghost use Rattle.ov_read.specs.Damages.{RefusesScan};
ghost use Rattle.ov_read.specs.Partitions.{AreHeld};
ghost use Rattle.ov_read.specs.Sizes.{bytes_for};
ghost use Rattle.ov_parents.specs.Parents.{IsCounted, IsParent, RefusesParents};

use crate::disagreeing::first_disagreeing;
use crate::taking::tables_of;
use ov_catalog::Cvd;
use ov_fetch::FetchErr;
use ov_host::Host;
use ov_read::{PartRids, VersionsRead, read_versions};
use ov_segment::RecordTable;
use std::alloc::Global;

/// What was read of a commit's parents.
#[derive(Drop)]
pub struct ParentsRead {
    /// The records of each parent, in key order.
    pub records: Vec<RecordTable>,
    /// For each partition of the dataset, in their order, the rids of each of its segments, where it serves a parent.
    pub held: Vec<PartRids>,
}

/// The records of these versions, each version's in key order, and the rids that their partitions hold. Each version is
/// asked for once and is in a partition.
///
/// `Damaged` where a scan of the versions finds a damage, or else where some rid has different rows among their records.
/// The page is that of the damage, or the first one of the list of the first version that has a rid with another row
/// than an earlier one has it with.
///
/// Each list is read once, and so is each partition that serves one of the versions. Time beside that: what a scan
/// takes, and n log n for n records of all versions together. Records are copied as bytes where there are several
/// versions, and those of a single one aren't copied.
pub fn parents_of<H: Host>(
    alloc: Global,
    host: &mut H,
    d: &Cvd,
    vids: &[u32],
) -> Result<ParentsRead, FetchErr>
    requires there { All (IsThere (set_in d.now)) vids.now }
    requires once { (vid : ℕ) → times vids.now vid ≤ 1 }
    requires placed { All (λ vid. is_served (set_in d.now) vid ≡ true) vids.now }
    requires counted { IsCounted (set_in d.now) }
    ensures looked { Looked (H.state host.old) (H.state host.new) }
    ensures cause { IsErrOf result FetchErr.Host → Rose (H.state host.old).faults (H.state host.new).faults }
    ensures fetched { (H.state host.new).fetched ≤ (H.state host.old).fetched + bytes_for (set_in d.now) vids.now }

    // On every host the records agree with the numbers and with each other, stand in key order and fit the schema.
    ensures agree { IfOk result (λ read. ParentsAgree (set_in d.now) vids.now read.records.items) }
    ensures order { IfOk result (λ read. All (InKeyOrder d.now.schema) read.records.items) }
    ensures fit { IfOk result (λ read. All (AllFit d.now.schema) read.records.items) }
    ensures held { IfOk result (λ read. AreHeld (H.state host.old).tells (page_bytes (H.state host.old)) (set_in d.now) vids.now read.held.items) }
    ensures answer { (H.state host.old).tells ≡ true → MatchResult result
        (λ read. AllZip (IsParent (page_bytes (H.state host.old)) (set_in d.now)) vids.now read.records.items)
        (λ e. RefusesParents e (page_bytes (H.state host.old)) (set_in d.now) vids.now) }
{
    let parents = read_parents(alloc, host, d, vids)?;
    if let Some(place) = first_disagreeing(alloc, &parents.records)? {
        let page = list_page(d, vids[place]);
        return Err(FetchErr::Damaged { page });
    }
    Ok(parents)
}

// The first page of a version's list.
fn list_page(d: &Cvd, vid: u32) -> u32
    requires { IsThere (set_in d.now) vid }
    ensures { result ≡ (list_of (set_in d.now) vid).page }
{
    d.versions[vid as usize - 1].list.page
}

// The records of these versions, whether they agree with each other or not.
fn read_parents<H: Host>(
    alloc: Global,
    host: &mut H,
    d: &Cvd,
    vids: &[u32],
) -> Result<ParentsRead, FetchErr>
    requires there { All (IsThere (set_in d.now)) vids.now }
    requires once { (vid : ℕ) → times vids.now vid ≤ 1 }
    requires placed { All (λ vid. is_served (set_in d.now) vid ≡ true) vids.now }
    requires counted { IsCounted (set_in d.now) }
    ensures looked { Looked (H.state host.old) (H.state host.new) }
    ensures cause { IsErrOf result FetchErr.Host → Rose (H.state host.old).faults (H.state host.new).faults }
    ensures fetched { (H.state host.new).fetched ≤ (H.state host.old).fetched + bytes_for (set_in d.now) vids.now }
    ensures each { IfOk result (λ read. EachAgrees (set_in d.now) vids.now read.records.items) }
    ensures order { IfOk result (λ read. All (InKeyOrder d.now.schema) read.records.items) }
    ensures fit { IfOk result (λ read. All (AllFit d.now.schema) read.records.items) }
    ensures held { IfOk result (λ read. AreHeld (H.state host.old).tells (page_bytes (H.state host.old)) (set_in d.now) vids.now read.held.items) }
    ensures answer { (H.state host.old).tells ≡ true → MatchResult result
        (λ read. AllZip (IsParent (page_bytes (H.state host.old)) (set_in d.now)) vids.now read.records.items)
        (λ e. RefusesScan e (page_bytes (H.state host.old)) (set_in d.now) vids.now) }
{
    let wanted = Vec::from_slice(alloc, vids)?;
    let VersionsRead { scan, held } = read_versions(alloc, host, d, wanted)?;
    let records = tables_of(alloc, scan)?;
    Ok(ParentsRead { records, held })
}
