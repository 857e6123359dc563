//! Why a line asks for nothing.

use ov_value::{SchemaErr, Txt};
use std::alloc::{AllocError, AllocFailed};

/// Why a line is refused, with the values of its text, or that there was no memory for reading it.
#[derive(Drop)]
pub enum LineErr {
    /// 51: the first word is no command.
    UnknownCommand,
    /// 52: the line ends before this word, this option or its value.
    Missing { what: Txt },
    /// 53: the word, the command being word 1, stands in an option's place and may not, or is no file name, message or table.
    UnexpectedWord { nth: u64 },
    /// 54: a number, or numbers, that don't read or pass their bound.
    BadNumber,
    /// 55: over 65,536 bytes.
    LongLine,
    /// 56: the schema item, counted from 1, has no colon or another kind.
    BadKind { column: u64 },
    /// 57: no UTF-8.
    NotUtf8,
    /// 58: a quoted word isn't closed.
    OpenQuote,
    /// 61: there are no columns.
    NoColumns,
    /// 62: there are over 64 columns.
    TooManyColumns,
    /// 63: a dataset's or a column's name is no name.
    BadName { name: Txt },
    /// 64: a column has the name of one before it.
    RepeatedName { name: Txt },
    /// 65: no key column is named.
    NoKey,
    /// 66: a key column is named that is none of the columns.
    UnknownKey { name: Txt },
    /// 67: a key column is named twice.
    RepeatedKey { name: Txt },
    /// There was no memory.
    Memory,
}

impl From<AllocError> for LineErr {
    ghost use Rattle.std.specs.Prelude.{◌≡◌};
    ghost use Rattle.ov_cmd.specs.declared.line_err.LineErr.TheVariants as why;

    ghost from_gives = { λ _ made. made ≡ why.Memory };

    fn from(_error: AllocError) -> LineErr {
        LineErr::Memory
    }
}

impl<T: Drop> From<AllocFailed<T>> for LineErr {
    ghost use Rattle.std.specs.Prelude.{◌≡◌};
    ghost use Rattle.ov_cmd.specs.declared.line_err.LineErr.TheVariants as why;

    ghost from_gives = { λ _ made. made ≡ why.Memory };

    fn from(_error: AllocFailed<T>) -> LineErr {
        LineErr::Memory
    }
}

impl From<SchemaErr> for LineErr {
    ghost use Rattle.std.specs.Prelude.{◌≡◌};
    ghost use Rattle.ov_cmd.specs.Errors.{schema_err};

    ghost from_gives = { λ e made. made ≡ schema_err e };

    fn from(error: SchemaErr) -> LineErr {
        match error {
            SchemaErr::NoColumns => LineErr::NoColumns,
            SchemaErr::TooManyColumns => LineErr::TooManyColumns,
            SchemaErr::BadName { name } => LineErr::BadName { name },
            SchemaErr::RepeatedName { name } => LineErr::RepeatedName { name },
            SchemaErr::NoKey => LineErr::NoKey,
            SchemaErr::UnknownKey { name } => LineErr::UnknownKey { name },
            SchemaErr::RepeatedKey { name } => LineErr::RepeatedKey { name },
            SchemaErr::Memory => LineErr::Memory,
        }
    }
}
