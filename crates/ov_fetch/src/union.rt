//! The union of many sets of rids.

ghost use Rattle.std.specs.Prelude.{◌≡◌, [], false, true, length, IfOk, IfSome, MatchOption, ℕ, ◌<◌};
ghost use Rattle.ov_member.specs.Rids.{has};
ghost use Rattle.ov_fetch.specs.Rows.{is_asked};
ghost use Rattle.ov_fetch.specs.Gathering.{IsAskedSet, SharesAt};

use ov_member::Members;
use std::alloc::{AllocError, Global};

/// All rids that are in one of the sets. It unites halves, so that its time is that of the ranges of all sets times
/// the logarithm of their number.
pub(crate) fn union_of(alloc: Global, members: &[Members]) -> Result<Members, AllocError>
    ensures { IfOk result (IsAskedSet members.now) }
{
    match members {
        [] => Ok(Members::empty(alloc)),
        [one] => {
            let copy = one.copy(alloc)?;
            Ok(copy)
        }
        _ => {
            let (left, right) = members.split_at(members.len() / 2);
            let left = union_of(alloc, left)?;
            let right = union_of(alloc, right)?;
            left.union(alloc, &right)
        }
    }
}

/// The place of the first set that has a rid of the missing ones.
pub(crate) fn place_lacking(members: &[Members], missing: &Members) -> Option<usize>
    ensures within { IfSome result (λ place. place < length members.now) }
    ensures found { MatchOption result ((rid : ℕ) → is_asked members.now rid ≡ true → has missing.now rid ≡ false)
        (SharesAt members.now missing.now) }
{
    for (place, rids) in members.iter().enumerate() {
        if rids.common(missing) > 0 {
            return Some(place);
        }
    }
    None
}
