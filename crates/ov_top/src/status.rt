// How a run ended.
use ov_host::Area;

/// How a run of the program ended.
#[derive(Clone, Copy, Debug, PartialEq, Eq)]
pub enum Status {
    /// The script was read to its end, and no reply is an error.
    Done,
    /// The script was read to its end, and at least one reply is an error.
    Refused,
    /// The words aren't of the form. No end was called.
    Usage,
    /// The host failed.
    HostFault,
    /// The source or the stage failed.
    InputFault,
    /// There was no memory.
    Memory,
    /// The areas hold something, and it isn't this format's.
    NotAStore,
    /// The store's bytes are off the format, or don't bear out its numbers.
    Damaged { area: Area, at: u64 },
    /// The store has a format number that isn't known.
    Format { found: u32 },
    /// 2^32 bytes of script were taken, and its end wasn't seen.
    ScriptTooLong,
}
