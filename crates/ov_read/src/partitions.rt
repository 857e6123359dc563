// The rids of a partition.

ghost use Rattle.std.specs.Prelude.{◌≡◌, ◌<◌, ℕ, List, length, IfOk, MatchOption};
ghost use Rattle.ov_member.specs.Rids.{IsUnion, shared};
ghost use Rattle.ov_read.specs.Agreement.{AreTogether, IsBorneOut, PartAgrees};

use crate::agreeing::is_borne_out;
use ov_member::Members;
use std::alloc::{AllocError, Global};

/// All rids of a partition's segments, from those of each of them: nothing where two segments share one, where together they
/// are others than so many, or where one is over the last one. For a partition these are its number of records and the
/// dataset's.
pub fn rids_together(
    alloc: Global,
    sets: &[Members],
    count: u32,
    last: u32,
) -> Result<Option<Members>, AllocError>
    ensures { IfOk result (λ found. MatchOption found (PartAgrees count last sets.now → ⊥)
        (λ all. AreTogether sets.now all × IsBorneOut count last all)) }
{
    match together(alloc, sets)? {
        Some(all) => {
            if is_borne_out(&all, count, last) {
                Ok(Some(all))
            } else {
                Ok(None)
            }
        }
        None => Ok(None),
    }
}

// All rids of these sets, where no two of them share one. It unites halves, so that its time is that of the ranges of
// all sets times the logarithm of their number.
fn together(alloc: Global, sets: &[Members]) -> Result<Option<Members>, AllocError>
    ensures { IfOk result (λ found. MatchOption found ((all : List ℕ) → AreTogether sets.now all → ⊥) (AreTogether sets.now)) }
{
    match sets {
        [] => Ok(Some(Members::empty(alloc))),
        [one] => Ok(Some(one.copy(alloc)?)),
        _ => {
            let (left, right) = sets.split_at(sets.len() / 2);
            match together(alloc, left)? {
                None => Ok(None),
                Some(left) => match together(alloc, right)? {
                    None => Ok(None),
                    Some(right) => united(alloc, &left, &right),
                },
            }
        }
    }
}

// The rids of both sets, where they share none.
fn united(alloc: Global, left: &Members, right: &Members) -> Result<Option<Members>, AllocError>
    ensures { IfOk result (λ found. MatchOption found (0 < length (shared left.now right.now))
        (λ all. (length (shared left.now right.now) ≡ 0) × IsUnion left.now right.now all)) }
{
    if left.common(right) > 0 {
        return Ok(None);
    }
    Ok(Some(left.union(alloc, right)?))
}
