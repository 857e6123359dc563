//! Why a command ends without a reply, and what an answer of the store comes to.

ghost use Rattle.std.specs.Prelude.{◌≡◌, true, Some, IfOk, IfErr, is_some};
ghost use Rattle.ov_store.specs.Refusals.{refusal_of};
ghost use Rattle.ov_staging.specs.Errors.{end_of, reply_of};
ghost use Rattle.ov_staging.specs.declared.errors.StagingErr.TheVariants as ending;

use ov_host::Area;
use ov_model::{Refusal, Reply};
use ov_store::StoreErr;
use ov_value::Txt;
use std::alloc::AllocError;

/// Why a command of the registry has no reply.
#[derive(Clone, Copy, PartialEq, Eq)]
pub enum StagingErr {
    /// The host failed.
    Host,
    /// There was no memory.
    Memory,
    /// What was read of the registry is off its grammar, doesn't bear out the store's numbers, or has a key twice. The place is a
    /// page.
    Damaged { area: Area, at: u64 },
}

impl From<AllocError> for StagingErr {
    ghost from_gives = { λ _ e. e ≡ ending.Memory };

    fn from(_error: AllocError) -> StagingErr {
        StagingErr::Memory
    }
}

/// Why a command ends, by an answer of the store that is no refusal.
pub(crate) fn end(off: StoreErr) -> StagingErr
    requires { is_some (end_of off) ≡ true }
    ensures { end_of off ≡ Some result }
{
    match off {
        StoreErr::Host => StagingErr::Host,
        StoreErr::Memory => StagingErr::Memory,
        StoreErr::Damaged { area, at } => StagingErr::Damaged { area, at },
        _ => unreachable!(),
    }
}

/// The refusal of the store, or why the command ends. The dataset is named by `name`.
pub(crate) fn refusal_in(off: StoreErr, name: Txt) -> Result<Refusal, StagingErr>
    ensures refusal { IfOk result (λ refusal. refusal_of name off ≡ Some refusal) }
    ensures end { IfErr result (λ e. end_of off ≡ Some e) }
{
    match off {
        StoreErr::Host => Err(StagingErr::Host),
        StoreErr::Memory => Err(StagingErr::Memory),
        StoreErr::Damaged { area, at } => Err(StagingErr::Damaged { area, at }),
        StoreErr::Full { pages } => Ok(Refusal::NoRun {
            pages: u64::from(pages),
            steps: None,
        }),
        StoreErr::JournalFull => Ok(Refusal::JournalFull { steps: None }),
        StoreErr::NoCvd => Ok(Refusal::NoCvd { cvd: name }),
        StoreErr::CvdExists => Ok(Refusal::CvdExists { cvd: name }),
        StoreErr::NoVersion { vid } => Ok(Refusal::NoVersion { vid }),
        StoreErr::RepeatedVersion { vid } => Ok(Refusal::RepeatedVersion { vid }),
        StoreErr::DuplicateKey { row } => Ok(Refusal::DuplicateKey {
            row: u64::from(row),
        }),
        StoreErr::TooManyVersions => Ok(Refusal::TooManyVersions { cvd: name }),
        StoreErr::TooManyRecords => Ok(Refusal::TooManyRecords { cvd: name }),
        StoreErr::TooManyRows => Ok(Refusal::TooManyRows),
        StoreErr::TooManyCvds => Ok(Refusal::TooManyCvds),
        StoreErr::NoNumbers => Ok(Refusal::NoNumbers { cvd: name }),
        StoreErr::FormatOne { row } => Ok(Refusal::FormatOne {
            row: u64::from(row),
        }),
    }
}

/// The reply to a change that the store refused, or why the command ends. The dataset is named by `name`.
pub(crate) fn refused(off: StoreErr, name: Txt) -> Result<Reply, StagingErr>
    ensures reply { IfOk result (λ reply. reply_of name off ≡ Some reply) }
    ensures end { IfErr result (λ e. end_of off ≡ Some e) }
{
    match refusal_in(off, name) {
        Ok(refusal) => Ok(Reply::Refused(refusal)),
        Err(why) => Err(why),
    }
}
