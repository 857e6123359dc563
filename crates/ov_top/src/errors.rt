// Why a run ended before its script did.
ghost use Rattle.std.specs.Prelude.{◌≡◌};
ghost use Rattle.ov_top.specs.Errors.{by_reading, by_serving};
ghost use Rattle.ov_top.specs.declared.errors.RunErr.TheVariants as running;

use ov_host::Area;
use ov_script::ReadErr;
use ov_session::EndErr;
use std::alloc::AllocError;

// Why the lines of a script weren't all served.
#[derive(Clone, Copy, PartialEq, Eq)]
pub enum RunErr {
    // The host failed.
    Host,
    // The source or the stage failed.
    Input,
    // There was no memory.
    Memory,
    // What was read of the store is damaged.
    Damaged { area: Area, at: u64 },
    // 2^32 bytes of script were taken, and its end wasn't seen.
    TooLong,
}

impl From<AllocError> for RunErr {
    ghost from_gives = { λ _ e. e ≡ running.Memory };

    fn from(_: AllocError) -> Self {
        RunErr::Memory
    }
}

impl From<ReadErr> for RunErr {
    ghost from_gives = { λ e r. r ≡ by_reading e };

    fn from(e: ReadErr) -> Self {
        match e {
            ReadErr::Input => RunErr::Input,
            ReadErr::Memory => RunErr::Memory,
            ReadErr::TooLong => RunErr::TooLong,
        }
    }
}

impl From<EndErr> for RunErr {
    ghost from_gives = { λ e r. r ≡ by_serving e };

    fn from(e: EndErr) -> Self {
        match e {
            EndErr::Host => RunErr::Host,
            EndErr::Stage => RunErr::Input,
            EndErr::Memory => RunErr::Memory,
            EndErr::Damaged { area, at } => RunErr::Damaged { area, at },
        }
    }
}
