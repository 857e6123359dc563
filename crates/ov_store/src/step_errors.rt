// Why no step was taken.

ghost use Rattle.std.specs.Prelude.{◌≡◌};
ghost use Rattle.ov_store.specs.Stepping.{of_looking, of_making};

use ov_core::ChangeErr;
use ov_fetch::FetchErr;
use ov_host::Area;

/// Why no migration step was taken. After each of these but `Host` the store is as it was.
#[derive(Clone, Copy, PartialEq, Eq)]
pub enum StepErr {
    /// The host failed. The store isn't usable, and is opened again.
    Host,
    /// There was no memory.
    Memory,
    /// What was read of the pages is off its grammar, or doesn't bear out the numbers of the events. The place is a page.
    Damaged { area: Area, at: u64 },
    /// 4: no run of so many pages is free for the segment of a copy.
    Full { pages: u32 },
    /// 5: the journal has no room for the record.
    JournalFull,
}

impl From<FetchErr> for StepErr {
    ghost from_gives = { λ off made. made ≡ of_looking off };

    fn from(error: FetchErr) -> StepErr {
        match error {
            FetchErr::Host => StepErr::Host,
            FetchErr::Memory => StepErr::Memory,
            FetchErr::Damaged { page } => StepErr::Damaged {
                area: Area::Pages,
                at: u64::from(page),
            },
        }
    }
}

impl From<ChangeErr> for StepErr {
    ghost from_gives = { λ off made. made ≡ of_making off };

    fn from(error: ChangeErr) -> StepErr {
        match error {
            ChangeErr::Host => StepErr::Host,
            ChangeErr::Memory => StepErr::Memory,
            ChangeErr::Full { pages } => StepErr::Full { pages },
            ChangeErr::JournalFull => StepErr::JournalFull,
        }
    }
}
