//! What a line that is no command is answered.

use anyhow::{Result, bail};
use ov_cmd::LineErr;
use ov_model::{Refusal, Reply};

/// The refusal of a line; want of memory is none.
fn refusal(off: LineErr) -> Result<Refusal> {
    Ok(match off {
        LineErr::UnknownCommand => Refusal::UnknownCommand,
        LineErr::Missing { what } => Refusal::Missing { what },
        LineErr::UnexpectedWord { nth } => Refusal::UnexpectedWord { nth },
        LineErr::BadNumber => Refusal::BadNumber,
        LineErr::LongLine => Refusal::LongLine,
        LineErr::BadKind { column } => Refusal::BadKind { column },
        LineErr::NotUtf8 => Refusal::NotUtf8,
        LineErr::OpenQuote => Refusal::OpenQuote,
        LineErr::NoColumns => Refusal::NoColumns,
        LineErr::TooManyColumns => Refusal::TooManyColumns,
        LineErr::BadName { name } => Refusal::BadName { name },
        LineErr::RepeatedName { name } => Refusal::RepeatedName { name },
        LineErr::NoKey => Refusal::NoKey,
        LineErr::UnknownKey { name } => Refusal::UnknownKey { name },
        LineErr::RepeatedKey { name } => Refusal::RepeatedKey { name },
        LineErr::Memory => bail!("out of memory"),
    })
}

/// The reply to a line that is no command.
pub fn reply_to(off: LineErr) -> Result<Reply> {
    Ok(Reply::Refused(refusal(off)?))
}
