//! Columns and schemas in bytes.

ghost use Rattle.std.specs.Prelude.{◌≡◌, ◌++◌, length, OnOk};
ghost use Rattle.ov_event.specs.Fields.{u8};
ghost use Rattle.ov_event.specs.Spelling.{column, schema, kind_code, IsColumn, IsSchema};
ghost use Rattle.ov_event.specs.Fitting.{ColumnFits, SchemaFits};
ghost use Rattle.ov_event.specs.Reading.{Gives};
ghost use Rattle.ov_event.specs.Records.{column_at, kind_at, schema_at};

use crate::event::RawSchema;
use crate::field::Field;
use crate::list::{few_of, write_few};
use crate::stop::Stop;
use ov_value::{Column, Kind, Txt};
use std::alloc::{AllocError, Global};

#[tactic(auto, unfolding(crate::specs::Records::kind_at))]
fn kind_of(bytes: &[u8]) -> Result<(Kind, &[u8]), Stop>
    ensures { Gives (λ x. (x.0, x.1.now)) result (kind_at bytes.now) }
{
    match bytes {
        [1, rest @ ..] => Ok((Kind::Int, rest)),
        [2, rest @ ..] => Ok((Kind::Text, rest)),
        [3, rest @ ..] => Ok((Kind::Flag, rest)),
        _ => Err(Stop::Unspelled),
    }
}

fn code_of(kind: Kind) -> u8
    ensures { result ≡ kind_code kind }
{
    match kind {
        Kind::Int => 1,
        Kind::Text => 2,
        Kind::Flag => 3,
    }
}

impl Field for Column {
    ghost at = { column_at };

    ghost spelled = { column };

    ghost fits = { ColumnFits };

    ghost is = { IsColumn };

    #[tactic(auto, unfolding(crate::specs::Records::column_at))]
    fn read(alloc: Global, bytes: &[u8]) -> Result<(Column, &[u8]), Stop> {
        let (name, rest) = Txt::read(alloc, bytes)?;
        let (kind, rest) = kind_of(rest)?;
        Ok((Column { name, kind }, rest))
    }

    #[tactic(auto, unfolding(crate::specs::Spelling::column))]
    fn write(&self, out: &mut Vec<u8>) -> Result<(), AllocError> {
        self.name.write(out)?;
        code_of(self.kind).write(out)
    }
}

impl Field for RawSchema {
    ghost at = { schema_at };

    ghost spelled = { schema };

    ghost fits = { SchemaFits };

    ghost is = { IsSchema };

    #[tactic(auto, unfolding(crate::specs::Records::schema_at))]
    fn read(alloc: Global, bytes: &[u8]) -> Result<(RawSchema, &[u8]), Stop> {
        let (columns, rest) = few_of(alloc, bytes)?;
        let (key, rest) = few_of(alloc, rest)?;
        Ok((RawSchema { columns, key }, rest))
    }

    #[tactic(auto, unfolding(crate::specs::Spelling::schema))]
    fn write(&self, out: &mut Vec<u8>) -> Result<(), AllocError> {
        write_few(self.columns.as_slice(), out)?;
        write_few(self.key.as_slice(), out)
    }
}
