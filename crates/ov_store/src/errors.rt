// Why a call isn't done.

ghost use Rattle.std.specs.Prelude.{◌≡◌};
ghost use Rattle.ov_store.specs.declared.errors.StoreErr.TheVariants as why;
ghost use Rattle.ov_store.specs.Errors.{of_change, of_fetch, of_rows};

use ov_core::ChangeErr;
use ov_fetch::FetchErr;
use ov_host::Area;
use ov_rows::RowsErr;
use std::alloc::{AllocError, AllocFailed};

/// Why a store's call wasn't done. After each of these but `Host` the store is as it was.
#[derive(Clone, Copy, PartialEq, Eq)]
pub enum StoreErr {
    /// The host failed. After a call that writes the store isn't usable, and is opened again.
    Host,
    /// There was no memory.
    Memory,
    /// What was read of the pages is off its grammar, or doesn't bear out the numbers of the events. The place is a page.
    Damaged { area: Area, at: u64 },
    /// 4: no run of so many pages is free, or it has 2^20 pages or more.
    Full { pages: u32 },
    /// 5: the journal has no room for the record.
    JournalFull,
    /// 10: no live dataset has the name.
    NoCvd,
    /// 11: a live dataset has the name.
    CvdExists,
    /// 12: the dataset has no such version.
    NoVersion { vid: u64 },
    /// 13: the version is listed twice.
    RepeatedVersion { vid: u64 },
    /// 14: the row, counted from 1, has the key of an earlier one.
    DuplicateKey { row: u32 },
    /// 15: the dataset has 65,535 versions.
    TooManyVersions,
    /// 16: the dataset would have over 2^31 records.
    TooManyRecords,
    /// 19: there are over 1,000,000 rows.
    TooManyRows,
    /// 20: 1,024 datasets are live.
    TooManyCvds,
    /// 22: there is no number left for a dataset.
    NoNumbers,
    /// 23: the row, counted from 1, has NULL in a store of format 1.
    FormatOne { row: u32 },
}

impl From<AllocError> for StoreErr {
    ghost from_gives = { λ _ made. made ≡ why.Memory };

    fn from(_error: AllocError) -> StoreErr {
        StoreErr::Memory
    }
}

impl<T: Drop> From<AllocFailed<T>> for StoreErr {
    ghost from_gives = { λ _ made. made ≡ why.Memory };

    fn from(_failed: AllocFailed<T>) -> StoreErr {
        StoreErr::Memory
    }
}

impl From<RowsErr> for StoreErr {
    ghost from_gives = { λ off made. made ≡ of_rows off };

    fn from(error: RowsErr) -> StoreErr {
        match error {
            RowsErr::TooManyRows => StoreErr::TooManyRows,
            RowsErr::DuplicateKey { row } => StoreErr::DuplicateKey { row },
            RowsErr::FormatOne { row } => StoreErr::FormatOne { row },
            RowsErr::Memory => StoreErr::Memory,
        }
    }
}

impl From<ChangeErr> for StoreErr {
    ghost from_gives = { λ off made. made ≡ of_change off };

    fn from(error: ChangeErr) -> StoreErr {
        match error {
            ChangeErr::Host => StoreErr::Host,
            ChangeErr::Memory => StoreErr::Memory,
            ChangeErr::Full { pages } => StoreErr::Full { pages },
            ChangeErr::JournalFull => StoreErr::JournalFull,
        }
    }
}

impl From<FetchErr> for StoreErr {
    ghost from_gives = { λ off made. made ≡ of_fetch off };

    fn from(error: FetchErr) -> StoreErr {
        match error {
            FetchErr::Host => StoreErr::Host,
            FetchErr::Memory => StoreErr::Memory,
            FetchErr::Damaged { page } => StoreErr::Damaged {
                area: Area::Pages,
                at: u64::from(page),
            },
        }
    }
}
