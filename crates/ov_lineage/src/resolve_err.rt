//! Why lineages of a query don't stand for lists.

ghost use Rattle.std.specs.Prelude.{◌≡◌};
ghost use Rattle.ov_lineage.specs.declared.resolve_err.ResolveErr.TheVariants.{Memory};

use std::alloc::{AllocError, AllocFailed};

/// Why a query's lineages were not made into lists.
#[derive(Drop)]
pub enum ResolveErr {
    /// There is no version with this number.
    NoVersion { vid: u64 },
    /// Memory was wanting.
    Memory,
}

impl From<AllocError> for ResolveErr {
    ghost from_gives = { λ _ e. e ≡ Memory };

    fn from(_e: AllocError) -> ResolveErr {
        ResolveErr::Memory
    }
}

impl<T: Drop> From<AllocFailed<T>> for ResolveErr {
    ghost from_gives = { λ _ e. e ≡ Memory };

    fn from(_e: AllocFailed<T>) -> ResolveErr {
        ResolveErr::Memory
    }
}
