//! Why a version isn't written.

use std::alloc::AllocError;

/// Why a version's list and segment aren't written.
#[derive(Clone, Copy, PartialEq, Eq)]
pub enum WriteErr {
    /// There was no memory.
    Memory,
    /// The segment has 2^20 pages or more, so that no run may take it. The list's run is asked for before the segment's, so both
    /// numbers of pages are told.
    TooLong { list_pages: u32, segment_pages: u32 },
}

impl From<AllocError> for WriteErr {
    ghost use Rattle.std.specs.Prelude.{◌≡◌};
    ghost use Rattle.ov_version_bytes.specs.declared.write_err.WriteErr.TheVariants as why;

    ghost from_gives = { λ _ made. made ≡ why.Memory };

    fn from(_error: AllocError) -> WriteErr {
        WriteErr::Memory
    }
}
