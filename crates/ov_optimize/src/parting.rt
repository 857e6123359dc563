//! The partitions with the rids of their segments.

ghost use Rattle.std.specs.Prelude.{◌≡◌, ◌≤◌, ◌+◌, ◌*◌, true, map, IsErrOf, IfOk, MatchResult};
ghost use Rattle.std.specs.List.{AllZip};
ghost use Rattle.ov_host.specs.Host.{Rose};
ghost use Rattle.ov_catalog.specs.Ready.{IsSet};
ghost use Rattle.ov_catalog.specs.Sets.{part_in, set_in};
ghost use Rattle.ov_fetch.specs.Extents.{Looked, page_bytes};
ghost use Rattle.ov_read.specs.Sizes.{pages_in, segment_bytes_for};
ghost use Rattle.ov_optimize.specs.Damages.{RefusesPartition, RefusesParts};
ghost use Rattle.ov_optimize.specs.Reading.{IsPartitionAt, IsPartitionOf, all_vids};

use crate::segments::{are_borne_out, first_page, sets_of};
use ov_catalog::Cvd;
use ov_fetch::FetchErr;
use ov_host::Host;
use ov_layout::Part;
use ov_targets::Partition;
use std::alloc::Global;

/// A partition with the rids of its segments, each read once. `Damaged` where a segment is short or off its grammar, or where they
/// disagree with the partition's numbers, or one has no record.
fn partition_of<H: Host>(
    alloc: Global,
    host: &mut H,
    d: &Cvd,
    part: &Part,
) -> Result<Partition, FetchErr>
    ensures looked { Looked (H.state host.old) (H.state host.new) }
    ensures cause { IsErrOf result FetchErr.Host → Rose (H.state host.old).faults (H.state host.new).faults }
    ensures fetched { (H.state host.new).fetched ≤ (H.state host.old).fetched + 4096 * pages_in part.now.segments }
    ensures is { IfOk result (IsPartitionOf d.now.records (part_in part.now)) }
    ensures answer { (H.state host.old).tells ≡ true → MatchResult result
        (IsPartitionAt (page_bytes (H.state host.old)) (set_in d.now) (part_in part.now))
        (λ e. RefusesPartition e (page_bytes (H.state host.old)) (set_in d.now) (part_in part.now)) }
{
    let segments = part.segments.as_slice();
    let sets = sets_of(alloc, host, &d.schema, segments)?;
    if !are_borne_out(alloc, &sets, part.records, d.records)? {
        return Err(FetchErr::Damaged {
            page: first_page(segments),
        });
    }
    let versions = Vec::from_slice(alloc, part.versions.as_slice())?;
    Ok(Partition {
        id: part.id,
        versions,
        segments: sets,
    })
}

/// The partitions of a dataset, in the order of their numbers, with the rids of their segments, each read once.
pub(crate) fn all_partitions<H: Host>(
    alloc: Global,
    host: &mut H,
    d: &Cvd,
) -> Result<Vec<Partition>, FetchErr>
    requires { IsSet d.now }
    ensures looked { Looked (H.state host.old) (H.state host.new) }
    ensures cause { IsErrOf result FetchErr.Host → Rose (H.state host.old).faults (H.state host.new).faults }
    ensures fetched { (H.state host.new).fetched ≤ (H.state host.old).fetched + segment_bytes_for (set_in d.now) (all_vids (set_in d.now)) }
    ensures parted { IfOk result (λ partitions. AllZip (IsPartitionOf d.now.records) (map part_in d.now.layout.parts) partitions.items) }
    ensures answer { (H.state host.old).tells ≡ true → MatchResult result
        (λ partitions. AllZip (IsPartitionAt (page_bytes (H.state host.old)) (set_in d.now)) (map part_in d.now.layout.parts) partitions.items)
        (λ e. RefusesParts e (page_bytes (H.state host.old)) (set_in d.now)) }
{
    let parts = d.layout.parts();
    let mut partitions = Vec::with_capacity(alloc, parts.len())?;
    for part in parts {
        partitions.push(partition_of(alloc, host, d, part)?)?;
    }
    Ok(partitions)
}
