// Why a change isn't made.

use ov_journal::AppendErr;
use std::alloc::AllocError;

/// Why a change wasn't made. After any of these but `Host` all is as it was.
#[derive(Clone, Copy, PartialEq, Eq)]
pub enum ChangeErr {
    /// The host failed. What a stop leaves is the state before the change or the one after it, and the store is opened again.
    Host,
    /// There was no memory.
    Memory,
    /// No run of so many pages is free, or the run has 2^20 pages or more.
    Full { pages: u32 },
    /// The journal has no room for the record.
    JournalFull,
}

impl From<AllocError> for ChangeErr {
    ghost use Rattle.std.specs.Prelude.{◌≡◌};
    ghost use Rattle.ov_core.specs.declared.errors.ChangeErr.TheVariants as why;

    ghost from_gives = { λ _ made. made ≡ why.Memory };

    fn from(_error: AllocError) -> ChangeErr {
        ChangeErr::Memory
    }
}

impl From<AppendErr> for ChangeErr {
    ghost use Rattle.std.specs.Prelude.{◌≡◌};
    ghost use Rattle.ov_core.specs.Errors.{change_for};

    ghost from_gives = { λ error made. made ≡ change_for error };

    fn from(error: AppendErr) -> ChangeErr {
        match error {
            AppendErr::JournalFull => ChangeErr::JournalFull,
            AppendErr::Host => ChangeErr::Host,
        }
    }
}
