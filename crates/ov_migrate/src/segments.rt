// The rids of segments.

ghost use Rattle.std.specs.Prelude.{◌≡◌, ◌≤◌, true, IsErrOf, MatchResult};
ghost use Rattle.ov_host.specs.Host.{Rose};
ghost use Rattle.ov_fetch.specs.Extents.{Looked, page_bytes};
ghost use Rattle.ov_fetch.specs.Gathering.{RefusesSegments};
ghost use Rattle.ov_fetch.specs.Rows.{HaveRids};

use ov_fetch::{FetchErr, rids_of};
use ov_host::{Extent, Host};
use ov_member::Members;
use ov_value::Schema;
use std::alloc::Global;

/// The rids of each of these segments, of which no row is kept. `Damaged` with the first page of one that is short or off
/// its grammar. Each segment is read once.
pub(crate) fn rids_each<H: Host>(
    alloc: Global,
    host: &mut H,
    schema: &Schema,
    segments: &[Extent],
) -> Result<Vec<Members>, FetchErr>
    ensures looked { Looked (H.state host.old) (H.state host.new) }
    ensures cause { IsErrOf result FetchErr.Host → Rose (H.state host.old).faults (H.state host.new).faults }
    ensures answer { (H.state host.old).tells ≡ true → MatchResult result
        (λ sets. HaveRids schema.now (page_bytes (H.state host.old)) segments.now sets.items)
        (λ e. RefusesSegments e schema.now (page_bytes (H.state host.old)) segments.now) }
{
    let mut sets = Vec::with_capacity(alloc, segments.len())?;
    for segment in segments {
        sets.push(rids_of(alloc, host, schema, *segment)?)?;
    }
    Ok(sets)
}
