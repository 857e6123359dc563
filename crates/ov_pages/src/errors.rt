//! Why pages were refused.

ghost use Rattle.std.specs.Prelude.{◌≡◌};
ghost use Rattle.ov_pages.specs.declared.errors.PagesErr.TheVariants.{Memory as PagesMemory};
ghost use Rattle.ov_pages.specs.declared.errors.PageErr.TheVariants.{Memory as PageMemory};

use std::alloc::{AllocError, AllocFailed};

/// Why extents can't be the live ones.
#[derive(Clone, Copy, Debug, PartialEq, Eq)]
pub enum PagesErr {
    /// An extent passes page 2^22: the first page of the first that does.
    TooHigh { page: u32 },
    /// A page is covered twice: the least such page.
    Overlap { page: u32 },
    Memory,
}

/// Why no pages were reserved.
#[derive(Clone, Copy, Debug, PartialEq, Eq)]
pub enum PageErr {
    /// No run of so many pages is free, or its bytes would not fit an extent.
    Full,
    Memory,
}

impl From<AllocError> for PagesErr {
    ghost from_gives = { λ _ e. e ≡ PagesMemory };

    fn from(_e: AllocError) -> PagesErr {
        PagesErr::Memory
    }
}

impl<T: Drop> From<AllocFailed<T>> for PagesErr {
    ghost from_gives = { λ _ e. e ≡ PagesMemory };

    fn from(_e: AllocFailed<T>) -> PagesErr {
        PagesErr::Memory
    }
}

impl From<AllocError> for PageErr {
    ghost from_gives = { λ _ e. e ≡ PageMemory };

    fn from(_e: AllocError) -> PageErr {
        PageErr::Memory
    }
}
