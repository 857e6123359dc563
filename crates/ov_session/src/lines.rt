// What a user's line asks.
ghost use Rattle.std.specs.Prelude.{◌≡◌, IfOk, IfErr};
ghost use Rattle.ov_cmd.specs.Asked.{AsksAny};
ghost use Rattle.ov_cmd.specs.Errors.{refusal_of};
ghost use Rattle.ov_cmd.specs.Said.{said};
ghost use Rattle.ov_cmd.specs.declared.line_err.LineErr.TheVariants as why;
ghost use Rattle.ov_session.specs.Asking.{IsUnasked, line_asked, refusal_to};
ghost use Rattle.ov_session.specs.declared.errors.EndErr.TheVariants as ending;
ghost use Rattle.ov_session.specs.declared.lines.Unasked.TheVariants as unasked;

use crate::errors::EndErr;
use ov_cmd::{LineErr, read_line};
use ov_model::{Command, Refusal};
use ov_users::{Denied, permit};
use ov_value::Txt;
use std::alloc::Global;

/// Why a line asks for nothing.
#[derive(Drop)]
pub enum Unasked {
    /// It is refused.
    Line(LineErr),
    /// A rule denies its command to the user.
    Denied(Denied),
}

/// What a user's line asks: nothing where it is a comment, or a command that no rule denies.
pub fn asked(alloc: Global, line: &[u8], user: &Txt) -> Result<Option<Command>, Unasked>
    ensures ok { IfOk result (λ c. line_asked user.now line.now ≡ said c) }
    ensures asked { IfOk result AsksAny }
    ensures err { IfErr result (IsUnasked (line_asked user.now line.now)) }
{
    match read_line(alloc, line) {
        Ok(None) => Ok(None),
        Ok(Some(command)) => match permit(user.as_str(), &command) {
            Ok(()) => Ok(Some(command)),
            Err(denied) => Err(Unasked::Denied(denied)),
        },
        Err(off) => Err(Unasked::Line(off)),
    }
}

/// The refusal; want of memory is none.
pub fn refusal(off: Unasked) -> Result<Refusal, EndErr>
    ensures refusal { IfOk result (λ refusal. refusal ≡ refusal_to off) }
    ensures some { IfOk result (λ refusal. off ≡ unasked.Line why.Memory → ⊥) }
    ensures memory { IfErr result (λ e. e ≡ ending.Memory) }
{
    match off {
        Unasked::Line(off) => refusal_of_line(off),
        Unasked::Denied(denied) => Ok(Refusal::Denied {
            rule: u64::from(denied.rule),
        }),
    }
}

// The refusal of a line; want of memory is none.
fn refusal_of_line(off: LineErr) -> Result<Refusal, EndErr>
    ensures refusal { IfOk result (λ refusal. refusal ≡ refusal_of off) }
    ensures some { IfOk result (λ refusal. off ≡ why.Memory → ⊥) }
    ensures memory { IfErr result (λ e. e ≡ ending.Memory) }
{
    Ok(match off {
        LineErr::UnknownCommand => Refusal::UnknownCommand,
        LineErr::Missing { what } => Refusal::Missing { what },
        LineErr::UnexpectedWord { nth } => Refusal::UnexpectedWord { nth },
        LineErr::BadNumber => Refusal::BadNumber,
        LineErr::LongLine => Refusal::LongLine,
        LineErr::BadKind { column } => Refusal::BadKind { column },
        LineErr::NotUtf8 => Refusal::NotUtf8,
        LineErr::OpenQuote => Refusal::OpenQuote,
        LineErr::NoColumns => Refusal::NoColumns,
        LineErr::TooManyColumns => Refusal::TooManyColumns,
        LineErr::BadName { name } => Refusal::BadName { name },
        LineErr::RepeatedName { name } => Refusal::RepeatedName { name },
        LineErr::NoKey => Refusal::NoKey,
        LineErr::UnknownKey { name } => Refusal::UnknownKey { name },
        LineErr::RepeatedKey { name } => Refusal::RepeatedKey { name },
        LineErr::Memory => return Err(EndErr::Memory),
    })
}
