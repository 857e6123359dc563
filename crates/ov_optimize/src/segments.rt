//! The rids of segments.

ghost use Rattle.std.specs.Prelude.{◌≡◌, ◌≤◌, ◌+◌, ◌*◌, ◌↔◌, true, length, IsTrue, IsErrOf, IfOk, MatchResult, All};
ghost use Rattle.ov_host.specs.Host.{Rose};
ghost use Rattle.ov_member.specs.Rids.{AreRids};
ghost use Rattle.ov_fetch.specs.Extents.{Looked, page_bytes};
ghost use Rattle.ov_fetch.specs.Gathering.{RefusesSegments};
ghost use Rattle.ov_fetch.specs.Rows.{HaveRids};
ghost use Rattle.ov_match.specs.Matching.{AreSegments};
ghost use Rattle.ov_read.specs.Agreement.{PartAgrees};
ghost use Rattle.ov_read.specs.Damages.{first_page as first_page_of};
ghost use Rattle.ov_read.specs.Sizes.{pages_in};
ghost use Rattle.ov_optimize.specs.Reading.{AreFilled};

use ov_fetch::{FetchErr, rids_of};
use ov_host::{Extent, Host};
use ov_member::Members;
use ov_read::rids_together;
use ov_value::Schema;
use std::alloc::{AllocError, Global};

/// The rids of each of these segments, each read once.
pub(crate) fn sets_of<H: Host>(
    alloc: Global,
    host: &mut H,
    schema: &Schema,
    segments: &[Extent],
) -> Result<Vec<Members>, FetchErr>
    ensures looked { Looked (H.state host.old) (H.state host.new) }
    ensures cause { IsErrOf result FetchErr.Host → Rose (H.state host.old).faults (H.state host.new).faults }
    ensures fetched { (H.state host.new).fetched ≤ (H.state host.old).fetched + 4096 * pages_in segments.now }
    ensures count { IfOk result (λ sets. length sets.items ≡ length segments.now) }
    ensures sets { IfOk result (λ sets. All AreRids sets.items) }
    ensures answer { (H.state host.old).tells ≡ true → MatchResult result
        (λ sets. HaveRids schema.now (page_bytes (H.state host.old)) segments.now sets.items)
        (λ e. RefusesSegments e schema.now (page_bytes (H.state host.old)) segments.now) }
{
    let mut sets = Vec::with_capacity(alloc, segments.len())?;
    for segment in segments {
        sets.push(rids_of(alloc, host, schema, *segment)?)?;
    }
    Ok(sets)
}

/// Whether each of these sets has a rid.
fn are_filled(sets: &[Members]) -> bool
    ensures { IsTrue result ↔ AreFilled sets.now }
{
    for rids in sets {
        if rids.len() == 0 {
            return false;
        }
    }
    true
}

/// Whether these rids of segments are those of a partition of `count` records, in a dataset that has so many as `last`, and each
/// segment has one.
pub(crate) fn are_borne_out(
    alloc: Global,
    sets: &[Members],
    count: u32,
    last: u32,
) -> Result<bool, AllocError>
    ensures tested { IfOk result (λ are. IsTrue are ↔ (AreFilled sets.now × PartAgrees count last sets.now)) }
    ensures sound { All AreRids sets.now → IfOk result (λ are. IsTrue are → AreSegments sets.now) }
{
    if !are_filled(sets) {
        return Ok(false);
    }
    let together = rids_together(alloc, sets, count, last)?;
    Ok(together.is_some())
}

/// The first page of the first one of these segments; 0 where there is none.
pub(crate) fn first_page(segments: &[Extent]) -> u32
    ensures { result ≡ first_page_of segments.now }
{
    match segments {
        [] => 0,
        [segment, ..] => segment.page,
    }
}
