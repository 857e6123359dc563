//! A value many times.

ghost use Rattle.std.specs.Prelude.{◌≡◌, IfOk, length};
ghost use Rattle.std.specs.List.{All};

use std::alloc::{AllocError, Global};

/// So many copies of a value.
pub fn repeated<T: Copy>(alloc: Global, count: usize, value: T) -> Result<Vec<T>, AllocError>
    ensures count { IfOk result (λ made. length made.items ≡ count) }
    ensures all { IfOk result (λ made. All (λ item. item ≡ value) made.items) }
{
    let mut made = Vec::with_capacity(alloc, count)?;
    while made.len() < count {
        made.push(value)?;
    }
    Ok(made)
}
