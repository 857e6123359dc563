// A plan's target: the lists of its versions, the segments that it keeps, and what it lacks.

ghost use Rattle.std.specs.Prelude.{◌≡◌, true, All, IfOk, IsErrOf, MatchOption, MatchResult};
ghost use Rattle.ov_host.specs.Host.{Rose};
ghost use Rattle.ov_catalog.specs.Sets.{set_in, target_in};
ghost use Rattle.ov_fetch.specs.Extents.{Looked, page_bytes};
ghost use Rattle.ov_read.specs.Agreement.{IsThere};
ghost use Rattle.ov_migrate.specs.Targets.{IsLacking, IsOff, IsRead, IsSized, RefusesTarget, first_page as first_page_of};

use crate::keeping::kept_segments;
use crate::segments::rids_each;
use crate::uniting::union_of;
use ov_catalog::{Cvd, Target};
use ov_fetch::FetchErr;
use ov_host::Host;
use ov_member::{LAST_RID, Members};
use ov_read::{lists_of, rids_together};
use std::alloc::{AllocError, Global};

/// What a target lacks, with the rids of each of its versions.
#[derive(Drop)]
pub(crate) struct Lacking {
    pub lists: Vec<Members>,
    pub rids: Members,
}

/// Reads and tests a target of a plan. `Damaged` with the first page of a list that is short, off its grammar or doesn't agree,
/// of a kept segment that is short or off its grammar, or, where all of these are whole and don't bear out the target's numbers,
/// of the list of its least version.
///
/// It reads the lists of the target's versions and the segments that it keeps, each once, and keeps no row.
pub(crate) fn lacking_of<H: Host>(
    alloc: Global,
    host: &mut H,
    d: &Cvd,
    target: &Target,
) -> Result<Lacking, FetchErr>
    requires there { All (IsThere (set_in d.now)) target.now.versions }
    ensures looked { Looked (H.state host.old) (H.state host.new) }
    ensures cause { IsErrOf result FetchErr.Host → Rose (H.state host.old).faults (H.state host.new).faults }
    ensures sized { IfOk result (λ l. IsSized (target_in target.now) l.lists.items l.rids) }
    ensures answer { (H.state host.old).tells ≡ true → MatchResult result
        (λ l. IsRead (page_bytes (H.state host.old)) (set_in d.now) (target_in target.now) l.lists.items l.rids)
        (λ e. RefusesTarget e (page_bytes (H.state host.old)) (set_in d.now) (target_in target.now)) }
{
    let lists = lists_of(alloc, host, d, target.versions.as_slice())?;
    let segments = kept_segments(alloc, d.layout.parts(), target)?;
    let sets = rids_each(alloc, host, &d.schema, &segments)?;
    match lacking_in(alloc, target, &lists, &sets)? {
        Some(rids) => Ok(Lacking { lists, rids }),
        None => Err(FetchErr::Damaged {
            page: first_page(d, target),
        }),
    }
}

// The rids that a target lacks, by those of its versions and of its kept segments; nothing where these don't bear out its
// numbers.
fn lacking_in(
    alloc: Global,
    target: &Target,
    lists: &[Members],
    sets: &[Members],
) -> Result<Option<Members>, AllocError>
    ensures { IfOk result (λ found. MatchOption found
        (IsOff (target_in target.now) lists.now sets.now) (IsLacking (target_in target.now) lists.now sets.now)) }
{
    let wanted = union_of(alloc, lists)?;
    if wanted.len() != target.size {
        return Ok(None);
    }
    let Some(kept) = rids_together(alloc, sets, target.kept_records, LAST_RID)? else {
        return Ok(None);
    };
    let others = kept.without(alloc, &wanted)?;
    if others.len() > 0 {
        return Ok(None);
    }
    Ok(Some(wanted.without(alloc, &kept)?))
}

// The first page of the list of a target's least version.
fn first_page(d: &Cvd, target: &Target) -> u32
    requires { All (IsThere (set_in d.now)) target.now.versions }
    ensures { result ≡ first_page_of (set_in d.now) target.now.versions }
{
    match target.versions.as_slice() {
        [] => 0,
        [vid, ..] => d.versions[*vid as usize - 1].list.page,
    }
}
