//! A schema: the columns of a dataset and which of them are its key.

ghost use Rattle.std.specs.Prelude.{◌≡◌, ◌≢◌, ◌↔◌, ◌≤◌, IsTrue, IfOk, OnOk, IfErr, length, None, Some, map, Ok, Err, [], ◌++◌};
ghost use Rattle.std.specs.List.{All};
ghost use Rattle.ov_value.specs.Naming.{is_column_name as is_column_name_of};
ghost use Rattle.ov_value.specs.Plans.{plan_of};
ghost use Rattle.ov_value.specs.Shapes.{IsSound, names};
ghost use Rattle.ov_value.specs.Making.{schema_of, widened, column_refusal, key_refusal, place_of as place_named, name_refusal, is_among};
ghost use Rattle.ov_value.specs.Rows.{Fits, HasKinds, key_of, key_cmp, value_at, value_cmp};

use crate::column::Column;
use crate::names::is_column_name;
use crate::plan::RowPlan;
use crate::row::Row;
use crate::schema_err::SchemaErr;
use crate::txt::Txt;
use crate::value::Value;
use std::alloc::{AllocError, Global};
use std::cmp::Ordering;
use std::marker::Model;

/// The columns of a dataset, 1 to 64 with names that differ, and the positions of its key columns, at least
/// one and each once.
#[derive(Drop)]
pub struct Schema {
    columns: Vec<Column>,
    key: Vec<u8>,
    // Where the values of most rows stand in their bytes.
    plan: RowPlan,
}

impl Model for Schema {
    ghost use Rattle.std.specs.Prelude.{◌≡◌};
    ghost use Rattle.ov_value.specs.Plans.{plan_of};
    ghost use Rattle.ov_value.specs.Shapes.{Shape, IsSound};

    ghost Value = { Shape };

    ghost view = { λ s. record { columns = s.columns.items; key = s.key.items } };

    ghost invariant = { λ s. IsSound (record { columns = s.columns.items; key = s.key.items }) × (s.plan ≡ plan_of s.columns.items) };
}

impl Schema {
    /// The schema of these columns, whose key columns are those with these names, in this order. Each error
    /// but want of memory is the first refusal.
    pub fn new(alloc: Global, columns: Vec<Column>, key: Vec<Txt>) -> Result<Schema, SchemaErr>
        ensures ok { IfOk result (λ made. schema_of columns.items key.items ≡ Ok made) }
        ensures err { IfErr result (λ why. why ≢ SchemaErr.Memory → schema_of columns.items key.items ≡ Err why) }
    {
        check_columns(alloc, columns.as_slice())?;
        check_key(alloc, columns.as_slice(), key.as_slice())?;
        let places = places_of(alloc, columns.as_slice(), key.as_slice())?;
        let plan = RowPlan::of(alloc, columns.as_slice())?;
        Ok(Schema {
            columns,
            key: places,
            plan,
        })
    }

    /// The schema with these columns appended at the right and the same key. Each error but want of memory is
    /// the first refusal.
    pub fn widen(&self, alloc: Global, added: &[Column]) -> Result<Schema, SchemaErr>
        ensures ok { IfOk result (λ made. widened self.now added.now ≡ Ok made) }
        ensures err { IfErr result (λ why. why ≢ SchemaErr.Memory → widened self.now added.now ≡ Err why) }
    {
        if added.is_empty() {
            return Err(SchemaErr::NoColumns);
        }
        let mut columns = copies_of(alloc, self.columns.as_slice())?;
        append_copies(alloc, &mut columns, added)?;
        check_columns(alloc, columns.as_slice())?;
        let plan = RowPlan::of(alloc, columns.as_slice())?;
        Ok(Schema {
            columns,
            key: Vec::from_slice(alloc, self.key.as_slice())?,
            plan,
        })
    }

    /// A copy of it.
    pub fn copy(&self, alloc: Global) -> Result<Schema, AllocError>
        ensures ok { IfOk result (λ made. made ≡ self.now) }
    {
        Ok(Schema {
            columns: copies_of(alloc, self.columns.as_slice())?,
            key: Vec::from_slice(alloc, self.key.as_slice())?,
            plan: RowPlan::of(alloc, self.columns.as_slice())?,
        })
    }

    /// The columns from the left.
    pub fn columns(&self) -> &[Column]
        ensures columns { result.now ≡ self.now.columns }
        ensures sound { IsSound self.now }
    {
        self.columns.as_slice()
    }

    /// The positions of the key columns, counted from 0, in the order in which they compare.
    pub fn key(&self) -> &[u8]
        ensures key { result.now ≡ self.now.key }
        ensures sound { IsSound self.now }
    {
        self.key.as_slice()
    }

    /// Where the values of a row without NULLs stand in its bytes.
    pub(crate) fn plan(&self) -> &RowPlan
        ensures plan { result.now ≡ plan_of self.now.columns }
        ensures sound { IsSound self.now }
    {
        &self.plan
    }

    /// Whether the row has one value a column, each NULL or of its column's kind, and none at a key column is
    /// NULL.
    pub fn fits(&self, row: &Row) -> bool
        ensures { IsTrue result ↔ Fits self.now row.now }
    {
        have_kinds(row.values(), self.columns.as_slice()) && self.has_key(row)
    }

    // Whether none of its values at a key column is NULL.
    pub(crate) fn has_key(&self, row: &Row) -> bool
        ensures { IsTrue result ↔ All (λ place. value_at row.now place ≢ Value.Null) self.now.key }
    {
        self.key
            .iter()
            .all(|place| has_value_at(row.values(), *place))
    }

    /// Compares two rows by their keys from the left: ints by number, texts by bytes, false before true. A row
    /// without a value at a key position, as no row that fits is, is read as having NULL there.
    pub fn cmp_key(&self, a: &Row, b: &Row) -> Ordering
        ensures { result ≡ key_cmp self.now a.now b.now }
    {
        for place in &self.key {
            let order = cmp_at(a.values(), b.values(), *place);
            if order != Ordering::Equal {
                return order;
            }
        }
        Ordering::Equal
    }
}

fn have_kinds(values: &[Value], columns: &[Column]) -> bool
    ensures { IsTrue result ↔ HasKinds values.now columns.now }
{
    if values.len() != columns.len() {
        return false;
    }
    for (i, column) in columns.iter().enumerate() {
        if !column.kind.takes(&values[i]) {
            return false;
        }
    }
    true
}

fn has_value_at(values: &[Value], place: u8) -> bool
    ensures { IsTrue result ↔ (value_at values.now place ≢ Value.Null) }
{
    match values.get(place as usize) {
        Some(value) => !value.is_null(),
        None => false,
    }
}

fn cmp_at(a: &[Value], b: &[Value], place: u8) -> Ordering
    ensures { result ≡ value_cmp (value_at a.now place) (value_at b.now place) }
{
    let missing = Value::Null;
    let x = a.get(place as usize).unwrap_or(&missing);
    let y = b.get(place as usize).unwrap_or(&missing);
    x.cmp(y)
}

fn copies_of(alloc: Global, columns: &[Column]) -> Result<Vec<Column>, AllocError>
    ensures { IfOk result (λ copies. copies.items ≡ columns.now) }
{
    let mut copies = Vec::with_capacity(alloc, columns.len())?;
    append_copies(alloc, &mut copies, columns)?;
    Ok(copies)
}

fn append_copies(
    alloc: Global,
    copies: &mut Vec<Column>,
    columns: &[Column],
) -> Result<(), AllocError>
    ensures { OnOk result (copies.new.items ≡ copies.old.items ++ columns.now) }
{
    for column in columns {
        copies.push(column.copy(alloc)?)?;
    }
    Ok(())
}

#[tactic(auto, unfolding(crate::specs::Making::column_refusal))]
fn check_columns(alloc: Global, columns: &[Column]) -> Result<(), SchemaErr>
    ensures ok { OnOk result (column_refusal columns.now ≡ None) }
    ensures err { IfErr result (λ why. why ≢ SchemaErr.Memory → column_refusal columns.now ≡ Some why) }
{
    if columns.is_empty() {
        return Err(SchemaErr::NoColumns);
    }
    if columns.len() > 64 {
        return Err(SchemaErr::TooManyColumns);
    }
    check_names(alloc, columns)
}

#[tactic(auto, unfolding(crate::specs::Making::name_refusal))]
fn check_names(alloc: Global, columns: &[Column]) -> Result<(), SchemaErr>
    ensures ok { OnOk result (name_refusal is_column_name_of SchemaErr.BadName SchemaErr.RepeatedName [] (names columns.now) ≡ None) }
    ensures err { IfErr result (λ why. why ≢ SchemaErr.Memory → name_refusal is_column_name_of SchemaErr.BadName SchemaErr.RepeatedName [] (names columns.now) ≡ Some why) }
{
    for (i, column) in columns.iter().enumerate() {
        if !is_column_name(column.name.as_str()) {
            return Err(SchemaErr::BadName {
                name: column.name.copy(alloc)?,
            });
        }
        if has_name(&columns[..i], &column.name) {
            return Err(SchemaErr::RepeatedName {
                name: column.name.copy(alloc)?,
            });
        }
    }
    Ok(())
}

fn has_name(columns: &[Column], name: &Txt) -> bool
    ensures { result ≡ is_among name.now (names columns.now) }
{
    for column in columns {
        if *name == column.name {
            return true;
        }
    }
    false
}

#[tactic(auto, unfolding(crate::specs::Making::key_refusal, crate::specs::Making::name_refusal))]
fn check_key(alloc: Global, columns: &[Column], key: &[Txt]) -> Result<(), SchemaErr>
    ensures ok { OnOk result (key_refusal columns.now key.now ≡ None) }
    ensures err { IfErr result (λ why. why ≢ SchemaErr.Memory → key_refusal columns.now key.now ≡ Some why) }
{
    if key.is_empty() {
        return Err(SchemaErr::NoKey);
    }
    for (i, name) in key.iter().enumerate() {
        if !has_name(columns, name) {
            return Err(SchemaErr::UnknownKey {
                name: name.copy(alloc)?,
            });
        }
        if stands_in(&key[..i], name) {
            return Err(SchemaErr::RepeatedKey {
                name: name.copy(alloc)?,
            });
        }
    }
    Ok(())
}

fn stands_in(names: &[Txt], name: &Txt) -> bool
    ensures { result ≡ is_among name.now names.now }
{
    for other in names {
        if *name == *other {
            return true;
        }
    }
    false
}

fn places_of(alloc: Global, columns: &[Column], key: &[Txt]) -> Result<Vec<u8>, AllocError>
    requires { length columns.now ≤ 64 }
    ensures { IfOk result (λ places. places.items ≡ map (place_named columns.now) key.now) }
{
    let mut places = Vec::with_capacity(alloc, key.len())?;
    for name in key {
        places.push(place_of(columns, name))?;
    }
    Ok(places)
}

fn place_of(columns: &[Column], name: &Txt) -> u8
    requires { length columns.now ≤ 64 }
    ensures { result ≡ place_named columns.now name.now }
{
    for (i, column) in columns.iter().enumerate() {
        if *name == column.name {
            return i as u8;
        }
    }
    columns.len() as u8
}
