//! From rows to the text of a file.

ghost use Rattle.std.specs.Prelude.{◌≡◌, ◌++◌, if◌then◌else◌, codes, IfOk, OnOk};
ghost use Rattle.std.specs.List.{flat_map};
ghost use Rattle.csv.specs.Writing.{default_writer, needs_byte, needs_quotes, escaped, field_text, fields_text, is_blank, row_body, row_text};
ghost use Rattle.ov_value.specs.Shapes.{names};
ghost use Rattle.ov_model.specs.Csv.{text_field, null_field, field_of, fields_of, text_of};

use crate::fields::is_null_mark;
use itoa::Buffer;
use ov_value::{Column, Kind, Row, Schema, Value};
use sqlite_items::Items;
use std::alloc::{AllocError, Global};

/// Whether a byte of a field calls for quotes.
fn needs_byte(byte: u8) -> bool
    ensures { result ≡ needs_byte default_writer byte }
{
    match byte {
        b',' | b'"' | b'\r' | b'\n' => true,
        _ => false,
    }
}

/// Whether a field calls for quotes.
fn needs_quotes(field: &[u8]) -> bool
    ensures { result ≡ needs_quotes default_writer field.now }
{
    match field {
        [] => false,
        [first, rest @ ..] => needs_byte(*first) || needs_quotes(rest),
    }
}

/// Adds the bytes of a field as they stand between quotes, each quote twice.
#[tactic(auto, unfolding(csv::specs::Writing::escaped))]
fn add_escaped(field: &[u8], text: &mut Items<u8>) -> Result<(), AllocError>
    ensures { OnOk result (text.new ≡ text.old ++ escaped default_writer field.now) }
{
    match field {
        [] => Ok(()),
        [b'"', rest @ ..] => {
            text.push(b'"')?;
            text.push(b'"')?;
            add_escaped(rest, text)
        }
        [first, rest @ ..] => {
            text.push(*first)?;
            add_escaped(rest, text)
        }
    }
}

/// Adds these bytes.
fn add_bytes(bytes: &[u8], text: &mut Items<u8>) -> Result<(), AllocError>
    ensures { OnOk result (text.new ≡ text.old ++ bytes.now) }
{
    match bytes {
        [] => Ok(()),
        [first, rest @ ..] => {
            text.push(*first)?;
            add_bytes(rest, text)
        }
    }
}

/// Adds the text of a field, in quotes where it calls for them.
fn add_field(field: &[u8], text: &mut Items<u8>) -> Result<(), AllocError>
    ensures { OnOk result (text.new ≡ text.old ++ field_text default_writer field.now) }
{
    if needs_quotes(field) {
        text.push(b'"')?;
        add_escaped(field, text)?;
        text.push(b'"')
    } else {
        add_bytes(field, text)
    }
}

/// Adds these fields, each behind a comma.
#[tactic(auto, unfolding(csv::specs::Writing::fields_text))]
fn add_fields(fields: &[Items<u8>], text: &mut Items<u8>) -> Result<(), AllocError>
    ensures { OnOk result (text.new ≡ text.old ++ fields_text default_writer fields.now) }
{
    match fields {
        [] => Ok(()),
        [first, rest @ ..] => {
            text.push(b',')?;
            add_field(first.as_slice(), text)?;
            add_fields(rest, text)
        }
    }
}

/// Whether a record shows no byte: it has no field, or one that is empty.
#[tactic(auto, unfolding(csv::specs::Writing::is_blank))]
fn is_blank(fields: &[Items<u8>]) -> bool
    ensures { result ≡ is_blank default_writer fields.now }
{
    match fields {
        [] => true,
        [first] => first.is_empty(),
        [_, _, ..] => false,
    }
}

/// Adds the fields of a record with commas between them.
fn add_body(fields: &[Items<u8>], text: &mut Items<u8>) -> Result<(), AllocError>
    ensures { OnOk result (text.new ≡ text.old ++ row_body default_writer fields.now) }
{
    match fields {
        [] => Ok(()),
        [first, rest @ ..] => {
            add_field(first.as_slice(), text)?;
            add_fields(rest, text)
        }
    }
}

/// Adds the line of a record; where it shows no byte, two quotes stand for its empty field.
fn add_line(fields: &[Items<u8>], text: &mut Items<u8>) -> Result<(), AllocError>
    ensures { OnOk result (text.new ≡ text.old ++ row_text default_writer fields.now) }
{
    add_body(fields, text)?;
    if is_blank(fields) {
        add_bytes(b"\"\"\n", text)
    } else {
        text.push(b'\n')
    }
}

/// Adds the names of these columns.
fn add_names(
    alloc: Global,
    columns: &[Column],
    fields: &mut Items<Items<u8>>,
) -> Result<(), AllocError>
    ensures { OnOk result (fields.new ≡ fields.old ++ names columns.now) }
{
    match columns {
        [] => Ok(()),
        [column, rest @ ..] => {
            fields.push(Items::from_slice(alloc, column.name.as_bytes())?)?;
            add_names(alloc, rest, fields)
        }
    }
}

/// A text as a field: one that is a mark of NULL, or such a mark behind backslashes, gets a backslash more.
fn text_field(alloc: Global, text: &[u8]) -> Result<Items<u8>, AllocError>
    ensures { IfOk result (λ field. field ≡ text_field text.now) }
{
    let mut field = Items::new(alloc);
    match text {
        [b'\\', rest @ ..] if is_null_mark(rest) => {
            field.push(b'\\')?;
            add_bytes(text, &mut field)?;
            Ok(field)
        }
        _ => {
            add_bytes(text, &mut field)?;
            Ok(field)
        }
    }
}

/// The field of NULL.
fn null_field(kind: Kind) -> &'static [u8]
    ensures { result.now ≡ null_field kind }
{
    match kind {
        Kind::Text => b"\\N",
        Kind::Int | Kind::Flag => b"",
    }
}

/// The field of a flag.
fn flag_field(flag: bool) -> &'static [u8]
    ensures { result.now ≡ (if flag then codes "true" else codes "false") }
{
    if flag { b"true" } else { b"false" }
}

/// The field of a value in a column of a kind.
fn field_of(alloc: Global, kind: Kind, value: &Value) -> Result<Items<u8>, AllocError>
    ensures { IfOk result (λ field. field ≡ field_of kind value.now) }
{
    match value {
        Value::Int(number) => { Items::from_slice(alloc, Buffer::new().format(*number).as_bytes()) }
        Value::Text(text) => text_field(alloc, text.as_bytes()),
        Value::Flag(flag) => Items::from_slice(alloc, flag_field(*flag)),
        Value::Null => Items::from_slice(alloc, null_field(kind)),
    }
}

/// Adds the fields of these values, each in its column.
fn add_values(
    alloc: Global,
    columns: &[Column],
    values: &[Value],
    fields: &mut Items<Items<u8>>,
) -> Result<(), AllocError>
    ensures { OnOk result (fields.new ≡ fields.old ++ fields_of columns.now values.now) }
{
    match columns {
        [] => Ok(()),
        [column, columns @ ..] => match values {
            [] => Ok(()),
            [value, values @ ..] => {
                fields.push(field_of(alloc, column.kind, value)?)?;
                add_values(alloc, columns, values, fields)
            }
        },
    }
}

/// Adds a line for each row.
fn add_rows(
    alloc: Global,
    columns: &[Column],
    rows: &[Row],
    text: &mut Items<u8>,
) -> Result<(), AllocError>
    ensures { OnOk result (text.new ≡ text.old ++ flat_map (λ row. row_text default_writer (fields_of columns.now row)) rows.now) }
{
    match rows {
        [] => Ok(()),
        [row, rest @ ..] => {
            let mut fields = Items::new(alloc);
            add_values(alloc, columns, row.values(), &mut fields)?;
            add_line(fields.as_slice(), text)?;
            add_rows(alloc, columns, rest, text)
        }
    }
}

/// The text of these rows: a line of the columns' names, and a line for each row.
pub fn text_of(alloc: Global, schema: &Schema, rows: &[Row]) -> Result<Items<u8>, AllocError>
    ensures { IfOk result (λ text. text ≡ text_of schema.now rows.now) }
{
    let mut header = Items::new(alloc);
    add_names(alloc, schema.columns(), &mut header)?;
    let mut text = Items::new(alloc);
    add_line(header.as_slice(), &mut text)?;
    add_rows(alloc, schema.columns(), rows, &mut text)?;
    Ok(text)
}
