// How a run ends the program.
ghost use Rattle.std.specs.Prelude.{◌≡◌};
ghost use Rattle.orpheus.specs.Exits.{exit_of, fault_of};

use crate::file_host::file_name;
use ov_host::Area;
use ov_top::Status;
use thiserror::Error;

/// What kept a run from reading its script to the end. Its text is what the program says of it.
#[derive(Debug, Drop, Error)]
pub enum Fault {
    #[error("usage: orpheus <folder> [--steps N]")]
    Usage,
    #[error("store fault")]
    Store,
    #[error("input fault")]
    Input,
    #[error("out of memory")]
    Memory,
    #[error("not a store")]
    NotAStore,
    #[error("damaged store: {} {at}", file_name(*.area))]
    Damaged { area: Area, at: u64 },
    #[error("unknown format {found}")]
    Format { found: u32 },
    #[error("script too long")]
    ScriptTooLong,
}

impl Fault {
    /// The fault that ended a run, where it was not read to its end.
    pub fn of(status: Status) -> Option<Fault>
        ensures { result ≡ fault_of status }
    {
        Some(match status {
            Status::Done | Status::Refused => return None,
            Status::Usage => Fault::Usage,
            Status::HostFault => Fault::Store,
            Status::InputFault => Fault::Input,
            Status::Memory => Fault::Memory,
            Status::NotAStore => Fault::NotAStore,
            Status::Damaged { area, at } => Fault::Damaged { area, at },
            Status::Format { found } => Fault::Format { found },
            Status::ScriptTooLong => Fault::ScriptTooLong,
        })
    }
}

/// The exit status of the program after a run.
pub fn exit_status(status: Status) -> u8
    ensures { result ≡ exit_of status }
{
    match status {
        Status::Done => 0,
        Status::Refused => 1,
        Status::Usage => 2,
        Status::HostFault => 3,
        Status::InputFault => 4,
        Status::Memory => 5,
        Status::NotAStore | Status::Damaged { .. } | Status::Format { .. } => 6,
        Status::ScriptTooLong => 7,
    }
}

#[cfg(test)]
mod tests {
    use super::*;
    use std::test::Fail;

    // What a status ends the program with, and the line after `orpheus: `.
    const ENDINGS: [(Status, u8, &str); 9] = [
        (Status::Usage, 2, "usage: orpheus <folder> [--steps N]"),
        (Status::HostFault, 3, "store fault"),
        (Status::InputFault, 4, "input fault"),
        (Status::Memory, 5, "out of memory"),
        (Status::NotAStore, 6, "not a store"),
        (
            Status::Damaged {
                area: Area::Pages,
                at: 4096,
            },
            6,
            "damaged store: pages 4096",
        ),
        (
            Status::Damaged {
                area: Area::Journal,
                at: u64::MAX,
            },
            6,
            "damaged store: journal 18446744073709551615",
        ),
        (Status::Format { found: 3 }, 6, "unknown format 3"),
        (Status::ScriptTooLong, 7, "script too long"),
    ];

    #[test]
    fn a_run_ends_the_program(rt: HostRuntime) -> Result<(), Fail> {
        assert_eq!(rt; exit_status(Status::Done), 0);
        assert_eq!(rt; exit_status(Status::Refused), 1);
        for (status, exit, line) in ENDINGS {
            assert_eq!(rt; exit_status(status), exit, "at {line}");
            let fault = Fault::of(status).ok_or("no fault")?;
            assert_eq!(rt; format!(in rt.alloc(); "{fault}")?.as_str(), line);
        }
        Ok(())
    }
}
