// Why a call of the journal didn't do its work.
ghost use Rattle.ov_journal.specs.declared.errors.AppendErr.TheVariants as appending;
ghost use Rattle.ov_journal.specs.declared.errors.JournalErr.TheVariants as opening;
ghost use Rattle.std.specs.Prelude.{◌≡◌};

use ov_host::Failed;
use std::alloc::{AllocError, AllocFailed};

/// Why a record was not appended.
#[derive(Clone, Copy, PartialEq, Eq)]
pub enum AppendErr {
    /// The journal would pass 2^28 bytes. Nothing was written.
    JournalFull,
    /// The host failed. The journal isn't used again.
    Host,
}

impl From<Failed> for AppendErr {
    ghost from_gives = { λ _ e. e ≡ appending.Host };

    fn from(_: Failed) -> Self {
        AppendErr::Host
    }
}

/// Why a journal was not opened.
#[derive(Clone, Copy, PartialEq, Eq)]
pub enum JournalErr {
    /// The host failed.
    Host,
    /// There was no memory. Nothing was written.
    Memory,
    /// The bytes are no journal of a store, or none was made yet and the page area isn't empty. Nothing was written.
    NotAStore,
    /// The live slot's format number, which isn't known. Nothing was written.
    Format { found: u32 },
    /// The place of the slot whose start is out of range, or of the gate of the first record that passes the journal's
    /// end, itself or with the gate behind it. Nothing was written.
    Damaged { at: u64 },
}

impl From<Failed> for JournalErr {
    ghost from_gives = { λ _ e. e ≡ opening.Host };

    fn from(_: Failed) -> Self {
        JournalErr::Host
    }
}

impl From<AllocError> for JournalErr {
    ghost from_gives = { λ _ e. e ≡ opening.Memory };

    fn from(_: AllocError) -> Self {
        JournalErr::Memory
    }
}

impl<T: Drop> From<AllocFailed<T>> for JournalErr {
    ghost from_gives = { λ _ e. e ≡ opening.Memory };

    fn from(_: AllocFailed<T>) -> Self {
        JournalErr::Memory
    }
}
