//! Why a join has no answer.

ghost use Rattle.std.specs.Prelude.{◌≡◌};
ghost use Rattle.ov_join.specs.declared.join_err.JoinErr.TheVariants.{Memory};

use std::alloc::{AllocError, AllocFailed};

/// Why a join has no answer.
#[derive(Drop)]
pub enum JoinErr {
    /// More than 1,000,000 pairs match, before WHERE is asked.
    TooMany,
    /// Memory was wanting.
    Memory,
}

impl From<AllocError> for JoinErr {
    ghost from_gives = { λ _ e. e ≡ Memory };

    fn from(_e: AllocError) -> JoinErr {
        JoinErr::Memory
    }
}

impl<T: Drop> From<AllocFailed<T>> for JoinErr {
    ghost from_gives = { λ _ e. e ≡ Memory };

    fn from(_e: AllocFailed<T>) -> JoinErr {
        JoinErr::Memory
    }
}
