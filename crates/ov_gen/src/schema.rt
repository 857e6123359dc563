//! The schema of what is generated.

ghost use Rattle.std.specs.Prelude.{◌≡◌, IfOk};
ghost use Rattle.ov_model.specs.Generator.{generated_schema};

use ov_value::{Column, Kind, Schema, Txt};
use std::alloc::{AllocError, Global};

/// The schema of each generated dataset: `id`, its key, an int `a` and a text `b`.
pub fn generate_schema(alloc: Global) -> Result<Schema, AllocError>
    ensures { IfOk result (λ made. made ≡ generated_schema) }
{
    let mut columns = Vec::with_capacity(alloc, 3)?;
    columns.push(column(alloc, "id", Kind::Int)?)?;
    columns.push(column(alloc, "a", Kind::Int)?)?;
    columns.push(column(alloc, "b", Kind::Text)?)?;
    let mut key = Vec::with_capacity(alloc, 1)?;
    key.push(Txt::new(alloc, "id")?)?;
    match Schema::new(alloc, columns, key) {
        Ok(schema) => Ok(schema),
        Err(_) => Err(AllocError),
    }
}

fn column(alloc: Global, name: &str, kind: Kind) -> Result<Column, AllocError>
    ensures { IfOk result (λ made. made ≡ record { name = name.now; kind = kind }) }
{
    Ok(Column {
        name: Txt::new(alloc, name)?,
        kind,
    })
}
