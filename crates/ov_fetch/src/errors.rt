//! Why rows were not fetched.

ghost use Rattle.std.specs.Prelude.{◌≡◌};
ghost use Rattle.ov_fetch.specs.declared.errors.FetchErr.TheVariants as why;

use ov_host::Failed;
use std::alloc::{AllocError, AllocFailed};

/// Why rows were not fetched.
#[derive(Clone, Copy, Debug, PartialEq, Eq)]
pub enum FetchErr {
    /// The host failed.
    Host,
    /// There was no memory.
    Memory,
    /// What was read is damaged. The page is the first one of an extent that is short or whose bytes are off their
    /// grammar, or of a list with a member that has no record.
    Damaged { page: u32 },
}

impl From<Failed> for FetchErr {
    ghost from_gives = { λ _ e. e ≡ why.Host };

    fn from(_: Failed) -> FetchErr {
        FetchErr::Host
    }
}

impl From<AllocError> for FetchErr {
    ghost from_gives = { λ _ e. e ≡ why.Memory };

    fn from(_: AllocError) -> FetchErr {
        FetchErr::Memory
    }
}

impl<T: Drop> From<AllocFailed<T>> for FetchErr {
    ghost from_gives = { λ _ e. e ≡ why.Memory };

    fn from(_: AllocFailed<T>) -> FetchErr {
        FetchErr::Memory
    }
}
