// Why a line ends the run, and what an error of the store comes to.
ghost use Rattle.std.specs.Prelude.{◌≡◌, true, [], Some, IfOk, IfErr, is_some};
ghost use Rattle.ov_model.specs.Forms.{schema_refusal};
ghost use Rattle.ov_value.specs.declared.schema_err.SchemaErr.TheVariants as schema;
ghost use Rattle.ov_session.specs.declared.errors.EndErr.TheVariants as ending;
ghost use Rattle.ov_session.specs.Errors.{by_file, by_staging, choose_end, choose_reply, end_of, is_nameless, plan_end, plan_reply, reply_of};

use ov_choose::ChooseErr;
use ov_files::FileErr;
use ov_host::Area;
use ov_model::{Refusal, Reply};
use ov_staging::StagingErr;
use ov_store::{PlanErr, StoreErr};
use ov_value::{SchemaErr, Txt};
use std::alloc::AllocError;

/// Why a line ends the run.
#[derive(Clone, Copy, PartialEq, Eq)]
pub enum EndErr {
    /// The host failed.
    Host,
    /// The stage failed.
    Stage,
    /// There was no memory.
    Memory,
    /// What was read of the store is off its grammar, or doesn't bear out its numbers. The place is a page, or a byte of the
    /// journal.
    Damaged { area: Area, at: u64 },
}

impl From<AllocError> for EndErr {
    ghost from_gives = { λ _ e. e ≡ ending.Memory };

    fn from(_error: AllocError) -> EndErr {
        EndErr::Memory
    }
}

impl From<FileErr> for EndErr {
    ghost from_gives = { λ off e. e ≡ by_file off };

    fn from(error: FileErr) -> EndErr {
        match error {
            FileErr::Stage => EndErr::Stage,
            FileErr::Memory => EndErr::Memory,
        }
    }
}

/// The reply to a command of the registry, or why the run ends there.
pub fn ended(made: Result<Reply, StagingErr>) -> Result<Reply, EndErr>
    ensures { result ≡ by_staging made }
{
    match made {
        Ok(reply) => Ok(reply),
        Err(StagingErr::Host) => Err(EndErr::Host),
        Err(StagingErr::Memory) => Err(EndErr::Memory),
        Err(StagingErr::Damaged { area, at }) => Err(EndErr::Damaged { area, at }),
    }
}

/// Why the run ends, by an error of the store that is no refusal.
pub fn end(off: StoreErr) -> EndErr
    requires { is_some (end_of off) ≡ true }
    ensures { end_of off ≡ Some result }
{
    match off {
        StoreErr::Host => EndErr::Host,
        StoreErr::Memory => EndErr::Memory,
        StoreErr::Damaged { area, at } => EndErr::Damaged { area, at },
        _ => unreachable!(),
    }
}

/// The reply to a command that the store refused, or why the run ends there. A dataset that is named is named by `name`.
pub fn refused(off: StoreErr, name: Txt) -> Result<Reply, EndErr>
    ensures reply { IfOk result (λ reply. reply_of name off ≡ Some reply) }
    ensures end { IfErr result (λ why. end_of off ≡ Some why) }
{
    let refusal = match off {
        StoreErr::Host => return Err(EndErr::Host),
        StoreErr::Memory => return Err(EndErr::Memory),
        StoreErr::Damaged { area, at } => return Err(EndErr::Damaged { area, at }),
        StoreErr::Full { pages } => Refusal::NoRun {
            pages: u64::from(pages),
            steps: None,
        },
        StoreErr::JournalFull => Refusal::JournalFull { steps: None },
        StoreErr::NoCvd => Refusal::NoCvd { cvd: name },
        StoreErr::CvdExists => Refusal::CvdExists { cvd: name },
        StoreErr::NoVersion { vid } => Refusal::NoVersion { vid },
        StoreErr::RepeatedVersion { vid } => Refusal::RepeatedVersion { vid },
        StoreErr::DuplicateKey { row } => Refusal::DuplicateKey {
            row: u64::from(row),
        },
        StoreErr::TooManyVersions => Refusal::TooManyVersions { cvd: name },
        StoreErr::TooManyRecords => Refusal::TooManyRecords { cvd: name },
        StoreErr::TooManyRows => Refusal::TooManyRows,
        StoreErr::TooManyCvds => Refusal::TooManyCvds,
        StoreErr::NoNumbers => Refusal::NoNumbers { cvd: name },
        StoreErr::FormatOne { row } => Refusal::FormatOne {
            row: u64::from(row),
        },
    };
    Ok(Reply::Refused(refusal))
}

/// The refusal of columns that are added; want of memory is none.
pub fn schema_refused(off: SchemaErr) -> Result<Refusal, EndErr>
    ensures refusal { IfOk result (λ refusal. refusal ≡ schema_refusal off) }
    ensures some { IfOk result (λ refusal. off ≡ schema.Memory → ⊥) }
    ensures memory { IfErr result (λ why. why ≡ EndErr.Memory) }
{
    Ok(match off {
        SchemaErr::NoColumns => Refusal::NoColumns,
        SchemaErr::TooManyColumns => Refusal::TooManyColumns,
        SchemaErr::BadName { name } => Refusal::BadName { name },
        SchemaErr::RepeatedName { name } => Refusal::RepeatedName { name },
        SchemaErr::NoKey => Refusal::NoKey,
        SchemaErr::UnknownKey { name } => Refusal::UnknownKey { name },
        SchemaErr::RepeatedKey { name } => Refusal::RepeatedKey { name },
        SchemaErr::Memory => return Err(EndErr::Memory),
    })
}

/// The reply to a checkpoint that wasn't taken, or why the run ends there. No dataset is named by it.
pub fn untaken(off: StoreErr) -> Result<Reply, EndErr>
    requires { is_nameless off ≡ true }
    ensures reply { IfOk result (λ reply. reply_of [] off ≡ Some reply) }
    ensures end { IfErr result (λ why. end_of off ≡ Some why) }
{
    match off {
        StoreErr::Host => Err(EndErr::Host),
        StoreErr::Memory => Err(EndErr::Memory),
        StoreErr::JournalFull => Ok(Reply::Refused(Refusal::JournalFull { steps: None })),
        _ => unreachable!(),
    }
}

/// The reply to an optimize that began no plan, or why the run ends there. The dataset is named by `name`.
pub fn plan_refused(off: PlanErr, name: Txt) -> Result<Reply, EndErr>
    ensures reply { IfOk result (λ reply. plan_reply name off ≡ Some reply) }
    ensures end { IfErr result (λ why. plan_end off ≡ Some why) }
{
    let refusal = match off {
        PlanErr::Host => return Err(EndErr::Host),
        PlanErr::Memory => return Err(EndErr::Memory),
        PlanErr::Damaged { area, at } => return Err(EndErr::Damaged { area, at }),
        PlanErr::JournalFull => Refusal::JournalFull { steps: None },
        PlanErr::NoCvd => Refusal::NoCvd { cvd: name },
        PlanErr::BadThreshold => Refusal::BadThreshold,
        PlanErr::Migrating => Refusal::Migrating { cvd: name },
        PlanErr::NoNumbers => Refusal::NoNumbers { cvd: name },
    };
    Ok(Reply::Refused(refusal))
}

/// The reply to a command within a budget that nothing was chosen for, or why the run ends there. The dataset is named by `name`.
pub fn choose_refused(off: ChooseErr, name: Txt, budget: u64) -> Result<Reply, EndErr>
    ensures reply { IfOk result (λ reply. choose_reply name budget off ≡ Some reply) }
    ensures end { IfErr result (λ why. choose_end off ≡ Some why) }
{
    let refusal = match off {
        ChooseErr::Host => return Err(EndErr::Host),
        ChooseErr::Memory => return Err(EndErr::Memory),
        ChooseErr::Damaged { area, at } => return Err(EndErr::Damaged { area, at }),
        ChooseErr::JournalFull => Refusal::JournalFull { steps: None },
        ChooseErr::NoCvd => Refusal::NoCvd { cvd: name },
        ChooseErr::BadThreshold => Refusal::BadThreshold,
        ChooseErr::Migrating => Refusal::Migrating { cvd: name },
        ChooseErr::NoThreshold { least } => Refusal::NoThreshold { budget, least },
        ChooseErr::NoNumbers => Refusal::NoNumbers { cvd: name },
    };
    Ok(Reply::Refused(refusal))
}
