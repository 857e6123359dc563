//! Which partitions a target empties.

ghost use Rattle.std.specs.Prelude.{◌≡◌, ◌≤◌, ◌<◌, ℕ, [], length, map, filter, slice_index_or, All, IfOk};
ghost use Rattle.ov_targets.specs.Emptying.{candidates_in, emptied_at, place_in};
ghost use Rattle.ov_targets.specs.Targets.{AreBelow};

use crate::lasts::greatest_of;
use ov_match::Candidate;
use ov_member::Members;
use std::alloc::{AllocError, Global};

/// A partition that is there: its number, its versions, and the rids of each of its segments.
#[derive(Drop)]
pub struct Partition {
    pub id: u32,
    pub versions: Vec<u32>,
    pub segments: Vec<Members>,
}

/// So many empty lists.
fn empty_lists(alloc: Global, count: usize) -> Result<Vec<Vec<Candidate>>, AllocError>
    ensures long { IfOk result (λ lists. length lists.items ≡ count) }
    ensures empty { IfOk result (λ lists. All (λ list. list.items ≡ []) lists.items) }
{
    let mut lists = Vec::with_capacity(alloc, count)?;
    for _ in 0..count {
        lists.push(Vec::new(alloc))?;
    }
    Ok(lists)
}

/// For each of so many targets the partitions that it empties, in their order. A partition is emptied by the last target that has
/// one of its versions; its segments move there, and none is copied.
pub(crate) fn candidates_of(
    alloc: Global,
    lasts: &[usize],
    count: usize,
    partitions: Vec<Partition>,
) -> Result<Vec<Vec<Candidate>>, AllocError>
    requires within { All (λ partition. AreBelow (length lasts.now) partition.versions.items) partitions.items }
    requires places { (vid : ℕ) → place_in lasts.now vid ≤ count }
    ensures long { IfOk result (λ emptied. length emptied.items ≡ count) }
    ensures emptied { IfOk result (λ emptied. (at : ℕ) → at < count
        → slice_index_or (map candidates_in emptied.items) at [] ≡ emptied_at (place_in lasts.now) at partitions.items) }
{
    let mut emptied = empty_lists(alloc, count)?;
    for partition in partitions {
        let place = greatest_of(lasts, &partition.versions);
        if place > 0 {
            let Partition { id, segments, .. } = partition;
            emptied[place - 1].push(Candidate { part: id, segments })?;
        }
    }
    Ok(emptied)
}
