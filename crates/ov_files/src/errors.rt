//! Why a file wasn't read.

ghost use Rattle.std.specs.Prelude.{◌≡◌};
ghost use Rattle.ov_files.specs.declared.errors.FileErr.TheVariants as why;

use ov_host::Failed;
use std::alloc::{AllocError, AllocFailed};

/// Why a file wasn't read.
#[derive(Clone, Copy, Debug, PartialEq, Eq)]
pub enum FileErr {
    /// The stage failed.
    Stage,
    /// There was no memory.
    Memory,
}

impl From<Failed> for FileErr {
    ghost from_gives = { λ _ made. made ≡ why.Stage };

    fn from(_failed: Failed) -> FileErr {
        FileErr::Stage
    }
}

impl From<AllocError> for FileErr {
    ghost from_gives = { λ _ made. made ≡ why.Memory };

    fn from(_error: AllocError) -> FileErr {
        FileErr::Memory
    }
}

impl<T: Drop> From<AllocFailed<T>> for FileErr {
    ghost from_gives = { λ _ made. made ≡ why.Memory };

    fn from(_failed: AllocFailed<T>) -> FileErr {
        FileErr::Memory
    }
}
