//! Counts as they are printed.

ghost use Rattle.std.specs.Prelude.{◌≡◌, IfOk};

use std::alloc::AllocError;

/// A count of versions, or the number of one. A dataset has at most 65,535 of them, so that each fits; a list of more than
/// 2^32 of them is one that there is no memory for.
pub(crate) fn count_of(count: usize) -> Result<u32, AllocError>
    ensures { IfOk result (λ n. n ≡ count) }
{
    match u32::try_from(count) {
        Ok(n) => Ok(n),
        Err(_) => Err(AllocError),
    }
}
