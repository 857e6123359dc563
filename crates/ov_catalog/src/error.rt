//! Why an event doesn't apply.

use crate::field::Field;
use std::alloc::AllocError;

/// Why an event wasn't applied.
#[derive(Clone, Copy, Debug, PartialEq, Eq)]
pub enum ApplyErr {
    /// It can't follow what the catalog has: the first part of it that is off.
    NotNext { field: Field },
    /// There was no memory for it.
    Memory,
}

impl From<AllocError> for ApplyErr {
    ghost use Rattle.std.specs.Prelude.{◌≡◌};
    ghost use Rattle.ov_catalog.specs.declared.error.ApplyErr.TheVariants as why;

    ghost from_gives = { λ _ made. made ≡ why.Memory };

    fn from(_error: AllocError) -> ApplyErr {
        ApplyErr::Memory
    }
}
