// Why a store isn't opened.

ghost use Rattle.std.specs.Prelude.{◌≡◌};
ghost use Rattle.ov_open.specs.Building.{of_journal, of_pages};
ghost use Rattle.ov_open.specs.declared.errors.OpenErr.TheVariants as why;

use ov_host::{Area, Failed};
use ov_journal::JournalErr;
use ov_pages::PagesErr;
use std::alloc::AllocError;

/// Why a store was not opened. Only at `Host` and `Memory` anything was written: at most the header of a new journal.
#[derive(Clone, Copy, PartialEq, Eq)]
pub enum OpenErr {
    /// The host failed.
    Host,
    /// There was no memory.
    Memory,
    /// The journal's bytes are no store's, or there are pages and no journal was made yet.
    NotAStore,
    /// The format number of the live slot, which isn't known.
    Format { found: u32 },
    /// The first place that is off. In the journal: that of the live slot, whose start is out of range, or of the gate of the
    /// first record that passes the journal's end, or else of the first whose payload spells no event that can follow those
    /// before it. In the pages: the number of the least page that two live extents cover, or else of the least page of a
    /// live extent that doesn't stand whole.
    Damaged { area: Area, at: u64 },
}

impl From<JournalErr> for OpenErr {
    ghost from_gives = { λ error made. made ≡ of_journal error };

    fn from(error: JournalErr) -> OpenErr {
        match error {
            JournalErr::Host => OpenErr::Host,
            JournalErr::Memory => OpenErr::Memory,
            JournalErr::NotAStore => OpenErr::NotAStore,
            JournalErr::Format { found } => OpenErr::Format { found },
            JournalErr::Damaged { at } => OpenErr::Damaged {
                area: Area::Journal,
                at,
            },
        }
    }
}

impl From<PagesErr> for OpenErr {
    ghost from_gives = { λ error made. made ≡ of_pages error };

    fn from(error: PagesErr) -> OpenErr {
        match error {
            PagesErr::TooHigh { page } | PagesErr::Overlap { page } => OpenErr::Damaged {
                area: Area::Pages,
                at: u64::from(page),
            },
            PagesErr::Memory => OpenErr::Memory,
        }
    }
}

impl From<Failed> for OpenErr {
    ghost from_gives = { λ _ made. made ≡ why.Host };

    fn from(_error: Failed) -> OpenErr {
        OpenErr::Host
    }
}

impl From<AllocError> for OpenErr {
    ghost from_gives = { λ _ made. made ≡ why.Memory };

    fn from(_error: AllocError) -> OpenErr {
        OpenErr::Memory
    }
}
