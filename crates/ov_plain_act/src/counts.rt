//! Counts in the numbers of a reply. Where one doesn't fit, that is answered as want of memory.

ghost use Rattle.std.specs.Prelude.{◌≡◌, ◌+◌, ◌*◌, IfOk};

use std::alloc::AllocError;

/// A count, in 32 bits.
pub fn count_of(count: usize) -> Result<u32, AllocError>
    ensures { IfOk result (λ n. n ≡ count) }
{
    match u32::try_from(count) {
        Ok(n) => Ok(n),
        Err(_) => Err(AllocError),
    }
}

/// A sum, in 64 bits.
pub fn sum_of(sum: u128) -> Result<u64, AllocError>
    ensures { IfOk result (λ n. n ≡ sum) }
{
    match u64::try_from(sum) {
        Ok(n) => Ok(n),
        Err(_) => Err(AllocError),
    }
}

/// The sum of two counts.
pub fn added(a: u64, b: u64) -> Result<u64, AllocError>
    ensures { IfOk result (λ n. n ≡ a + b) }
{
    sum_of(a as u128 + b as u128)
}

/// The product of two counts.
pub fn times(a: u64, b: u64) -> Result<u64, AllocError>
    ensures { IfOk result (λ n. n ≡ a * b) }
{
    sum_of(a as u128 * b as u128)
}
