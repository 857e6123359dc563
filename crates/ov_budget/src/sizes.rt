//! What tight partitions keep: of each part of a split, how many records its versions have together.

ghost use Rattle.std.specs.Prelude.{◌≡◌, ◌<◌, length, map, get_or, All, IfOk, IfSome};
ghost use Rattle.ov_lyre.specs.Parts.{lists_of};
ghost use Rattle.ov_budget.specs.Sizes.{AreVids, IsTogether, IsSized, part_of};
ghost use Rattle.ov_budget.specs.Tables.{rids_in};

use ov_member::Members;
use std::alloc::{AllocError, Global};

/// A part of a split with the number of records that its versions have together.
#[derive(Drop)]
pub(crate) struct Sized {
    pub part: Vec<u32>,
    pub size: u32,
}

/// The rids of these versions together. It unites halves, so that its time is that of the ranges of all lists times the logarithm
/// of their number.
fn rids_of(alloc: Global, lists: &[Members], vids: &[u32]) -> Result<Members, AllocError>
    requires { AreVids (length lists.now) vids.now }
    ensures { IfOk result (IsTogether lists.now vids.now) }
{
    match vids {
        [] => Ok(Members::empty(alloc)),
        [vid] => {
            let copy = lists[*vid as usize - 1].copy(alloc)?;
            Ok(copy)
        }
        _ => {
            let (left, right) = vids.split_at(vids.len() / 2);
            let left = rids_of(alloc, lists, left)?;
            let right = rids_of(alloc, lists, right)?;
            let both = left.union(alloc, &right)?;
            Ok(both)
        }
    }
}

fn first_vid(part: &[u32]) -> u32 {
    part.first().copied().unwrap_or(0)
}

/// Where a part stands among these, if it does. They stand by their least vids, and no two have the same one.
fn place_of(sized: &[Sized], part: &[u32]) -> Option<usize>
    ensures { IfSome result (λ at. (at < length sized.now) × ((other : _) → (get_or sized.now at other).part.items ≡ part.now)) }
{
    let first = first_vid(part);
    let at = sized.partition_point(|one| first_vid(&one.part) < first);
    if at < sized.len() && sized[at].part.as_slice() == part {
        return Some(at);
    }
    None
}

/// How many records these versions have together. Where they are a part whose size was found before, that one serves.
fn size_of(
    alloc: Global,
    lists: &[Members],
    part: &[u32],
    before: &[Sized],
) -> Result<u32, AllocError>
    requires there { AreVids (length lists.now) part.now }
    requires before { All (IsSized lists.now) before.now }
    ensures { IfOk result (λ size. size ≡ length (rids_in lists.now part.now)) }
{
    match place_of(before, part) {
        Some(at) => Ok(before[at].size),
        None => {
            let rids = rids_of(alloc, lists, part)?;
            Ok(rids.len())
        }
    }
}

/// These parts with their sizes. What was found before of the same parts isn't found again.
pub(crate) fn all_sized(
    alloc: Global,
    lists: &[Members],
    parts: Vec<Vec<u32>>,
    before: &[Sized],
) -> Result<Vec<Sized>, AllocError>
    requires there { All (λ part. AreVids (length lists.now) part.items) parts.items }
    requires before { All (IsSized lists.now) before.now }
    ensures parts { IfOk result (λ sized. map part_of sized.items ≡ lists_of parts.items) }
    ensures sizes { IfOk result (λ sized. All (IsSized lists.now) sized.items) }
{
    let mut sized = Vec::with_capacity(alloc, parts.len())?;
    for part in parts {
        let size = size_of(alloc, lists, &part, before)?;
        sized.push(Sized { part, size })?;
    }
    Ok(sized)
}
