// The schemas of the two datasets, and whether a schema is one of them.

ghost use Rattle.std.specs.Prelude.{◌≡◌, IfOk};
ghost use Rattle.std.specs.Cmp.Lexicographic.{pointwise};
ghost use Rattle.ov_model.specs.Kinds.{is_same_kind as is_same_kind_of};
ghost use Rattle.ov_model.specs.Registry.{is_same_column as is_same_column_of, is_same_schema as is_same_schema_of, stage_schema as stage_schema_of, users_schema as users_schema_of};

use ov_value::{Column, Kind, Schema, Txt};
use std::alloc::{AllocError, Global};

fn column(alloc: Global, name: &str, kind: Kind) -> Result<Column, AllocError>
    ensures { IfOk result (λ made. made ≡ record { name = name.now; kind = kind }) }
{
    Ok(Column {
        name: Txt::new(alloc, name)?,
        kind,
    })
}

/// The schema of the users.
pub(crate) fn users_schema(alloc: Global) -> Result<Schema, AllocError>
    ensures { IfOk result (λ made. made ≡ users_schema_of) }
{
    let mut columns = Vec::with_capacity(alloc, 1)?;
    columns.push(column(alloc, "name", Kind::Text)?)?;
    let mut key = Vec::with_capacity(alloc, 1)?;
    key.push(Txt::new(alloc, "name")?)?;
    match Schema::new(alloc, columns, key) {
        Ok(schema) => Ok(schema),
        Err(_) => Err(AllocError),
    }
}

/// The schema of the staged tables.
pub(crate) fn stage_schema(alloc: Global) -> Result<Schema, AllocError>
    ensures { IfOk result (λ made. made ≡ stage_schema_of) }
{
    let mut columns = Vec::with_capacity(alloc, 5)?;
    columns.push(column(alloc, "owner", Kind::Text)?)?;
    columns.push(column(alloc, "name", Kind::Text)?)?;
    columns.push(column(alloc, "cvd", Kind::Text)?)?;
    columns.push(column(alloc, "made", Kind::Int)?)?;
    columns.push(column(alloc, "vids", Kind::Text)?)?;
    let mut key = Vec::with_capacity(alloc, 2)?;
    key.push(Txt::new(alloc, "owner")?)?;
    key.push(Txt::new(alloc, "name")?)?;
    match Schema::new(alloc, columns, key) {
        Ok(schema) => Ok(schema),
        Err(_) => Err(AllocError),
    }
}

fn is_same_kind(a: Kind, b: Kind) -> bool
    ensures { result ≡ is_same_kind_of a b }
{
    match (a, b) {
        (Kind::Int, Kind::Int) => true,
        (Kind::Text, Kind::Text) => true,
        (Kind::Flag, Kind::Flag) => true,
        _ => false,
    }
}

fn is_same_column(a: &Column, b: &Column) -> bool
    ensures { result ≡ is_same_column_of a.now b.now }
{
    a.name.as_str() == b.name.as_str() && is_same_kind(a.kind, b.kind)
}

fn are_same_columns(a: &[Column], b: &[Column]) -> bool
    ensures { result ≡ pointwise is_same_column_of a.now b.now }
{
    match (a, b) {
        ([], []) => true,
        ([x, xs @ ..], [y, ys @ ..]) => is_same_column(x, y) && are_same_columns(xs, ys),
        _ => false,
    }
}

/// Whether two schemas are the same.
pub(crate) fn is_same_schema(a: &Schema, b: &Schema) -> bool
    ensures { result ≡ is_same_schema_of a.now b.now }
{
    are_same_columns(a.columns(), b.columns()) && a.key() == b.key()
}
