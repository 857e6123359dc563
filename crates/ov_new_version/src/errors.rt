//! Why a version isn't committed.

ghost use Rattle.std.specs.Prelude.{◌≡◌};
ghost use Rattle.ov_new_version.specs.declared.errors.CommitErr.TheVariants as why;
ghost use Rattle.ov_new_version.specs.Errors.{of_assign, of_write};

use ov_records::AssignErr;
use ov_version_bytes::WriteErr;
use std::alloc::AllocError;

/// Why a version isn't committed.
#[derive(Clone, Copy, PartialEq, Eq)]
pub enum CommitErr {
    /// There was no memory.
    Memory,
    /// The segments of the partition that the version joins don't bear out the catalog's numbers. The page is the first one of
    /// the first of them.
    Damaged { page: u32 },
    /// The dataset would have over 2^31 records.
    TooManyRecords,
    /// The segment has 2^20 pages or more, so that no run may take it. The list's run is asked for before the segment's, so
    /// both numbers of pages are told.
    TooLong { list_pages: u32, segment_pages: u32 },
}

impl From<AllocError> for CommitErr {
    ghost from_gives = { λ _ made. made ≡ why.Memory };

    fn from(_error: AllocError) -> CommitErr {
        CommitErr::Memory
    }
}

impl From<AssignErr> for CommitErr {
    ghost from_gives = { λ off made. made ≡ of_assign off };

    fn from(error: AssignErr) -> CommitErr {
        match error {
            AssignErr::TooManyRecords => CommitErr::TooManyRecords,
            AssignErr::Memory => CommitErr::Memory,
        }
    }
}

impl From<WriteErr> for CommitErr {
    ghost from_gives = { λ off made. made ≡ of_write off };

    fn from(error: WriteErr) -> CommitErr {
        match error {
            WriteErr::Memory => CommitErr::Memory,
            WriteErr::TooLong {
                list_pages,
                segment_pages,
            } => CommitErr::TooLong {
                list_pages,
                segment_pages,
            },
        }
    }
}
