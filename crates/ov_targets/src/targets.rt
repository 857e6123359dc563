//! The targets of a plan.

ghost use Rattle.std.specs.Prelude.{◌≡◌, ◌<◌, ◌+◌, length, map, All, IfOk};
ghost use Rattle.ov_match.specs.Matching.{AllSound, NumbersAscend};
ghost use Rattle.ov_targets.specs.Emptying.{IsBegun};
ghost use Rattle.ov_targets.specs.Targets.{AreTargets, AreVids, candidate_in, versions_in};

use crate::candidates::{Partition, candidates_of};
use crate::lasts::lasts_of;
use crate::wanted::wanted_of;
use ov_event::{Items, PlanTarget};
use ov_match::{Candidate, choose};
use ov_member::Members;
use std::alloc::{AllocError, Global};

/// What is said of the target of these versions, which empties these partitions.
fn target_of(
    alloc: Global,
    lists: &[Members],
    versions: &[u32],
    candidates: &[Candidate],
) -> Result<PlanTarget, AllocError>
    requires versions { AreVids (length lists.now) versions.now }
    requires numbers { NumbersAscend 0 candidates.now }
    requires segments { AllSound candidates.now }
    ensures { IfOk result (IsBegun lists.now versions.now candidates.now) }
{
    let wanted = wanted_of(alloc, lists, versions)?;
    let size = wanted.len();
    match choose(alloc, &wanted, candidates)? {
        None => Ok(PlanTarget {
            size,
            source: 0,
            kept: Items::new(Vec::new(alloc)),
            kept_records: 0,
        }),
        Some(choice) => Ok(PlanTarget {
            size,
            source: choice.part,
            kept: Items::new(choice.kept),
            kept_records: choice.records,
        }),
    }
}

/// The targets of a plan whose parts these are, in order, as the plan's event says them: of each how many records it has, the
/// partition that it begins with, which of that one's segments it keeps, and how many records those have. `lists` has the rids of
/// each version, the first version's first; a version stands in it by its number less 1.
///
/// The last target of each version is found once, so which target empties a partition is seen from its versions alone, and each
/// partition is compared with at most one target. Its segments move to that one; nothing of them is copied.
pub fn targets_of(
    alloc: Global,
    lists: &[Members],
    partitions: Vec<Partition>,
    parts: &[Vec<u32>],
) -> Result<Vec<PlanTarget>, AllocError>
    requires parts { All (λ part. AreVids (length lists.now) part.items) parts.now }
    requires versions { All (λ partition. AreVids (length lists.now) partition.versions.items) partitions.items }
    requires numbers { NumbersAscend 0 (map candidate_in partitions.items) }
    requires segments { AllSound (map candidate_in partitions.items) }
    ensures { IfOk result (λ targets. AreTargets lists.now partitions.items (map versions_in parts.now) targets.items) }
{
    let lasts = lasts_of(alloc, lists.len() + 1, parts)?;
    let emptied = candidates_of(alloc, &lasts, parts.len(), partitions)?;
    let mut targets = Vec::with_capacity(alloc, parts.len())?;
    for at in 0..parts.len() {
        targets.push(target_of(alloc, lists, &parts[at], &emptied[at])?)?;
    }
    Ok(targets)
}
