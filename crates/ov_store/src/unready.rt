// Why nothing is brought to be stored.

ghost use Rattle.std.specs.Prelude.{◌≡◌};
ghost use Rattle.ov_store.specs.Errors.{of_commit, of_fetch, of_rows, unready_of};
ghost use Rattle.ov_store.specs.declared.errors.StoreErr.TheVariants as why;
ghost use Rattle.ov_store.specs.declared.unready.Unready.TheVariants as unready;

use crate::errors::StoreErr;
use ov_fetch::FetchErr;
use ov_host::Area;
use ov_new_version::CommitErr;
use ov_rows::RowsErr;
use ov_version_bytes::WriteErr;
use std::alloc::AllocError;

/// Why a version has no event, list and segment.
#[derive(Clone, Copy, PartialEq, Eq)]
pub(crate) enum Unready {
    /// It is refused, or memory is wanting.
    Off(StoreErr),
    /// Its segment has 2^20 pages or more, which no run has; and so many pages its list has.
    TooLong { list_pages: u32, segment_pages: u32 },
}

impl From<StoreErr> for Unready {
    ghost from_gives = { λ off made. made ≡ unready.Off off };

    fn from(error: StoreErr) -> Unready {
        Unready::Off(error)
    }
}

impl From<AllocError> for Unready {
    ghost from_gives = { λ _ made. made ≡ unready.Off why.Memory };

    fn from(_error: AllocError) -> Unready {
        Unready::Off(StoreErr::Memory)
    }
}

impl From<RowsErr> for Unready {
    ghost from_gives = { λ off made. made ≡ unready.Off (of_rows off) };

    fn from(error: RowsErr) -> Unready {
        Unready::Off(StoreErr::from(error))
    }
}

impl From<WriteErr> for Unready {
    ghost from_gives = { λ off made. made ≡ unready_of off };

    fn from(error: WriteErr) -> Unready {
        match error {
            WriteErr::Memory => Unready::Off(StoreErr::Memory),
            WriteErr::TooLong {
                list_pages,
                segment_pages,
            } => Unready::TooLong {
                list_pages,
                segment_pages,
            },
        }
    }
}

impl From<FetchErr> for Unready {
    ghost from_gives = { λ off made. made ≡ unready.Off (of_fetch off) };

    fn from(error: FetchErr) -> Unready {
        Unready::Off(StoreErr::from(error))
    }
}

impl From<CommitErr> for Unready {
    ghost from_gives = { λ off made. made ≡ of_commit off };

    fn from(error: CommitErr) -> Unready {
        match error {
            CommitErr::Memory => Unready::Off(StoreErr::Memory),
            CommitErr::Damaged { page } => Unready::Off(StoreErr::Damaged {
                area: Area::Pages,
                at: u64::from(page),
            }),
            CommitErr::TooManyRecords => Unready::Off(StoreErr::TooManyRecords),
            CommitErr::TooLong {
                list_pages,
                segment_pages,
            } => Unready::TooLong {
                list_pages,
                segment_pages,
            },
        }
    }
}
