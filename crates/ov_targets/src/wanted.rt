//! The rids of several versions together.

ghost use Rattle.std.specs.Prelude.{length, IfOk};
ghost use Rattle.ov_targets.specs.Targets.{AreVids, IsWanted};

use ov_member::Members;
use std::alloc::{AllocError, Global};

/// The rids of these versions together. It unites halves, so that its time is that of the ranges of all lists times the logarithm
/// of their number.
pub(crate) fn wanted_of(
    alloc: Global,
    lists: &[Members],
    vids: &[u32],
) -> Result<Members, AllocError>
    requires { AreVids (length lists.now) vids.now }
    ensures { IfOk result (IsWanted lists.now vids.now) }
{
    match vids {
        [] => Ok(Members::empty(alloc)),
        [vid] => {
            let copy = lists[*vid as usize - 1].copy(alloc)?;
            Ok(copy)
        }
        _ => {
            let (left, right) = vids.split_at(vids.len() / 2);
            let left = wanted_of(alloc, lists, left)?;
            let right = wanted_of(alloc, lists, right)?;
            left.union(alloc, &right)
        }
    }
}
