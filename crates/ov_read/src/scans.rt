// The rows of versions.

ghost use Rattle.std.specs.Prelude.{◌≡◌, ◌≤◌, ◌+◌, ℕ, true, [], All, IfOk, IfErr, IsErrOf, MatchResult};
ghost use Rattle.std.specs.List.{AllZip};
ghost use Rattle.ov_host.specs.Host.{Rose};
ghost use Rattle.ov_catalog.specs.Sets.{set_in};
ghost use Rattle.ov_model.specs.Placed.{times};
ghost use Rattle.ov_fetch.specs.Extents.{Looked, page_bytes};
ghost use Rattle.ov_fetch.specs.Scans.{IsSound};
ghost use Rattle.ov_read.specs.Agreement.{IsThere, is_served};
ghost use Rattle.ov_read.specs.Damages.{RefusesScan};
ghost use Rattle.ov_read.specs.Found.{HasRows, IsListed, IsScanned};
ghost use Rattle.ov_read.specs.Partitions.{AreHeld};
ghost use Rattle.ov_read.specs.Sizes.{bytes_for};

use crate::gathering::{Gathered, PartsRead, gather};
use crate::held::PartRids;
use crate::lists::lists_of;
use ov_catalog::Cvd;
use ov_fetch::{FetchErr, Picks, Scan, Vids};
use ov_host::Host;
use ov_segment::RecordTable;
use std::alloc::Global;

/// The rows of these versions, each once among them and in a partition. A version's rows are those that its own partition
/// has for its list, whatever other partitions have.
///
/// `Damaged` exactly where one of the versions' lists is short, off its grammar, or doesn't agree; where a segment of one
/// of their partitions is short or off its grammar; or where a member of a list has no record in its version's
/// partition. The page is that of one such damage: the first one of the list or the segment.
///
/// Each list is read once, and so is each partition that serves one of the versions; for no versions no call of the host is
/// made, and nothing but memory can be wanting. Time beside that: one step for each version of the dataset and each partition, and for each version asked for one look at each record that is read of its
/// partition and the sorting of its rows.
pub fn scan_versions<H: Host>(
    alloc: Global,
    host: &mut H,
    d: &Cvd,
    vids: Vec<u32>,
) -> Result<Scan, FetchErr>
    requires there { All (IsThere (set_in d.now)) vids.items }
    requires once { (vid : ℕ) → times vids.items vid ≤ 1 }
    requires placed { All (λ vid. is_served (set_in d.now) vid ≡ true) vids.items }
    ensures looked { Looked (H.state host.old) (H.state host.new) }
    ensures cause { IsErrOf result FetchErr.Host → Rose (H.state host.old).faults (H.state host.new).faults }
    ensures fetched { (H.state host.new).fetched ≤ (H.state host.old).fetched + bytes_for (set_in d.now) vids.items }
    ensures still { vids.items ≡ [] → H.state host.new ≡ H.state host.old }
    ensures idle { vids.items ≡ [] → IfErr result (λ e. e ≡ FetchErr.Memory) }
    ensures vids { IfOk result (λ scan. scan.vids ≡ vids.items) }
    ensures sound { IfOk result (IsSound d.now.schema) }

    // On every host each version has as many rows as the catalog says.
    ensures rows { IfOk result (λ scan. AllZip (HasRows (set_in d.now)) vids.items scan.picks) }
    ensures answer { (H.state host.old).tells ≡ true → MatchResult result
        (λ scan. AllZip (IsScanned (page_bytes (H.state host.old)) (set_in d.now) scan.records) vids.items scan.picks)
        (λ e. RefusesScan e (page_bytes (H.state host.old)) (set_in d.now) vids.items) }
{
    Ok(read_versions(alloc, host, d, vids)?.scan)
}

/// What was read for versions.
#[derive(Drop)]
pub struct VersionsRead {
    pub scan: Scan,
    /// For each partition of the dataset, in their order, the rids of each of its segments. Those of a partition that serves
    /// none of the versions are left out, since it wasn't read.
    pub held: Vec<PartRids>,
}

/// The rows of these versions, as [`scan_versions`] gives them, and what the partitions hold that were read for them.
pub fn read_versions<H: Host>(
    alloc: Global,
    host: &mut H,
    d: &Cvd,
    vids: Vec<u32>,
) -> Result<VersionsRead, FetchErr>
    requires there { All (IsThere (set_in d.now)) vids.items }
    requires once { (vid : ℕ) → times vids.items vid ≤ 1 }
    requires placed { All (λ vid. is_served (set_in d.now) vid ≡ true) vids.items }
    ensures looked { Looked (H.state host.old) (H.state host.new) }
    ensures cause { IsErrOf result FetchErr.Host → Rose (H.state host.old).faults (H.state host.new).faults }
    ensures fetched { (H.state host.new).fetched ≤ (H.state host.old).fetched + bytes_for (set_in d.now) vids.items }
    ensures still { vids.items ≡ [] → H.state host.new ≡ H.state host.old }
    ensures idle { vids.items ≡ [] → IfErr result (λ e. e ≡ FetchErr.Memory) }
    ensures vids { IfOk result (λ read. read.scan.vids ≡ vids.items) }
    ensures sound { IfOk result (λ read. IsSound d.now.schema read.scan) }
    ensures rows { IfOk result (λ read. AllZip (HasRows (set_in d.now)) vids.items read.scan.picks) }
    // So no version has a rid twice, on any host, nor one that came later.
    ensures distinct { IfOk result (λ read. AllZip (IsListed (set_in d.now) read.scan.records) vids.items read.scan.picks) }
    ensures held { IfOk result (λ read. AreHeld (H.state host.old).tells (page_bytes (H.state host.old)) (set_in d.now) vids.items read.held.items) }
    ensures answer { (H.state host.old).tells ≡ true → MatchResult result
        (λ read. AllZip (IsScanned (page_bytes (H.state host.old)) (set_in d.now) read.scan.records) vids.items read.scan.picks)
        (λ e. RefusesScan e (page_bytes (H.state host.old)) (set_in d.now) vids.items) }
{
    let lists = lists_of(alloc, host, d, &vids)?;
    let PartsRead { found, held } = gather(alloc, host, d, &vids, &lists)?;
    let Gathered { records, picks } = found;
    let scan = Scan {
        vids: Vids::new(vids),
        records: RecordTable::new(records),
        picks: Picks::new(picks),
    };
    Ok(VersionsRead { scan, held })
}
