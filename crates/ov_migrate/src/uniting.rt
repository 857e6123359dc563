// The rids of several sets together.

ghost use Rattle.std.specs.Prelude.{length, IfOk};
ghost use Rattle.ov_migrate.specs.Picked.{IsUnionOf};

use ov_member::Members;
use std::alloc::{AllocError, Global};

/// All rids that are in one of these sets. It unites halves, so that its time is that of the ranges of all sets times the
/// logarithm of their number.
pub(crate) fn union_of(alloc: Global, sets: &[Members]) -> Result<Members, AllocError>
    ensures { IfOk result (IsUnionOf sets.now) }
{
    match sets {
        [] => Ok(Members::empty(alloc)),
        [one] => {
            let copy = one.copy(alloc)?;
            Ok(copy)
        }
        _ => {
            let (left, right) = sets.split_at(sets.len() / 2);
            let left = union_of(alloc, left)?;
            let right = union_of(alloc, right)?;
            left.union(alloc, &right)
        }
    }
}
