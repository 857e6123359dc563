//! A schema as an event spells it, and with columns added.

ghost use Rattle.std.specs.Prelude.{◌≡◌, true, map, is_ok, IfOk, Ok};
ghost use Rattle.ov_catalog.specs.declared.field.Field.TheVariants as off;
ghost use Rattle.ov_catalog.specs.Answers.{Answers};
ghost use Rattle.ov_catalog.specs.Applying.{off_unless, are_places as are_places_by, is_schema, name_at};
ghost use Rattle.ov_catalog.specs.Raw.{shape_in};
ghost use Rattle.ov_model.specs.Moves.{wide_schema};
ghost use Rattle.ov_value.specs.Making.{schema_of, widened as widened_by};
ghost use Rattle.ov_value.specs.Shapes.{IsSound};

use crate::error::ApplyErr;
use crate::field::Field;
use crate::refusing::unless;
use ov_event::{Items, RawSchema};
use ov_value::{Column, Schema, SchemaErr, Txt};
use std::alloc::{AllocError, Global};

fn are_places(columns: &[Column], key: &[u8]) -> bool
    ensures { result ≡ are_places_by columns.now key.now }
{
    key.iter().all(|place| (*place as usize) < columns.len())
}

fn names_at(alloc: Global, columns: &[Column], key: &[u8]) -> Result<Vec<Txt>, AllocError>
    requires { are_places_by columns.now key.now ≡ true }
    ensures { IfOk result (λ names. names.items ≡ map (name_at columns.now) key.now) }
{
    let mut names = Vec::new(alloc);
    for place in key {
        names.push(columns[*place as usize].name.copy(alloc)?)?;
    }
    Ok(names)
}

fn copies_of(alloc: Global, columns: &[Column]) -> Result<Vec<Column>, AllocError>
    ensures { IfOk result (λ copies. copies.items ≡ columns.now) }
{
    let mut copies = Vec::new(alloc);
    for column in columns {
        copies.push(column.copy(alloc)?)?;
    }
    Ok(copies)
}

fn made_of(alloc: Global, columns: Vec<Column>, names: Vec<Txt>) -> Result<Schema, ApplyErr>
    ensures answer { Answers result (off_unless (is_ok (schema_of columns.items names.items)) off.Schema) }
    ensures made { IfOk result (λ made. schema_of columns.items names.items ≡ Ok made) }
    ensures sound { IfOk result IsSound }
{
    match Schema::new(alloc, columns, names) {
        Ok(schema) => {
            let _ = schema.columns();
            Ok(schema)
        }
        Err(SchemaErr::Memory) => Err(ApplyErr::Memory),
        Err(_) => Err(ApplyErr::NotNext {
            field: Field::Schema,
        }),
    }
}

/// The schema that an event spells.
pub fn schema_from(alloc: Global, raw: &RawSchema) -> Result<Schema, ApplyErr>
    ensures answer { Answers result (off_unless (is_schema raw.now) off.Schema) }
    ensures made { IfOk result (λ made. made ≡ shape_in raw.now) }
{
    let columns = raw.columns.as_slice();
    let key = raw.key.as_slice();
    unless(are_places(columns, key), Field::Schema)?;
    let names = names_at(alloc, columns, key)?;
    let made = made_of(alloc, copies_of(alloc, columns)?, names)?;
    Ok(made)
}

/// The schema with these columns added at the right.
pub fn widened(alloc: Global, schema: &Schema, added: &[Column]) -> Result<Schema, ApplyErr>
    ensures answer { Answers result (off_unless (is_ok (widened_by schema.now added.now)) off.Schema) }
    ensures made { IfOk result (λ made. made ≡ wide_schema schema.now added.now) }
{
    match schema.widen(alloc, added) {
        Ok(wide) => Ok(wide),
        Err(SchemaErr::Memory) => Err(ApplyErr::Memory),
        Err(_) => Err(ApplyErr::NotNext {
            field: Field::Schema,
        }),
    }
}

/// A schema as an event spells it.
pub fn spelled(alloc: Global, schema: &Schema) -> Result<RawSchema, AllocError>
    ensures { IfOk result (λ said. shape_in said ≡ schema.now) }
{
    Ok(RawSchema {
        columns: Items::new(copies_of(alloc, schema.columns())?),
        key: Items::new(Vec::from_slice(alloc, schema.key())?),
    })
}
