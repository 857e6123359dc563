//! From the records of a file to its rows.

ghost use Rattle.std.specs.Prelude.{◌≡◌, ◌+◌, ◌^◌, ◌<◌, ◌≤◌, [], ◌∷◌, ◌++◌, IsTrue, nat_eq, if◌then◌else◌, length, Some, None, IfOk, OnOk};
ghost use Rattle.std.specs.Cmp.Lexicographic.{pointwise};
ghost use Rattle.std.specs.List.{list_all, list_any};
ghost use Rattle.std.specs.Str.{is_utf8};
ghost use Rattle.csv.specs.Reading.{strip_bom};
ghost use Rattle.ov_value.specs.Shapes.{names};
ghost use Rattle.ov_model.specs.Csv.{row_in, bad_field, null_key, long_row, row_refusal, onto, rows_from, table_of, begins_with_mark, rows_of};
ghost use Rattle.ov_plain_csv.specs.Reading.{or_refusal, value_refusal, text_refusal};

use crate::csv_records::records_in;
use crate::fields::field_value;
use ov_model::Refusal;
use ov_value::{Column, LONGEST_ROW, Row, Schema, Txt, Value, row_len};
use sqlite_items::Items;
use std::alloc::{AllocError, Global};
use std::str;

/// Whether the fields are the names of the columns in order.
fn are_names(fields: &[Items<u8>], columns: &[Column]) -> bool
    ensures { result ≡ pointwise (pointwise nat_eq) fields.now (names columns.now) }
{
    match fields {
        [] => columns.is_empty(),
        [field, fields @ ..] => match columns {
            [] => false,
            [column, columns @ ..] => {
                field.as_slice() == column.name.as_bytes() && are_names(fields, columns)
            }
        },
    }
}

/// A field as a text, or `None` where it is not UTF-8.
fn text_of(alloc: Global, field: &[u8]) -> Result<Option<Txt>, AllocError>
    ensures { IfOk result (λ text. text ≡ (if is_utf8 field.now then Some field.now else None)) }
{
    match str::from_utf8(field) {
        Ok(text) => Ok(Some(Txt::new(alloc, text)?)),
        Err(_) => Ok(None),
    }
}

/// Adds the fields as texts, and answers whether each is UTF-8. Where one isn't, those before it are added.
fn add_texts(
    alloc: Global,
    fields: &[Items<u8>],
    texts: &mut Items<Txt>,
) -> Result<bool, AllocError>
    ensures are { IfOk result (λ are. are ≡ list_all is_utf8 fields.now) }
    ensures texts { IfOk result (λ are. IsTrue are → texts.new ≡ texts.old ++ fields.now) }
{
    match fields {
        [] => Ok(true),
        [field, rest @ ..] => match text_of(alloc, field.as_slice())? {
            None => Ok(false),
            Some(text) => {
                texts.push(text)?;
                add_texts(alloc, rest, texts)
            }
        },
    }
}

/// The first field, from the left, that spells no value of its column.
fn bad_field(
    alloc: Global,
    nth: u64,
    columns: &[Column],
    fields: &[Txt],
) -> Result<Option<Refusal>, AllocError>
    ensures { IfOk result (λ refusal. refusal ≡ bad_field nth columns.now fields.now) }
{
    match columns {
        [] => Ok(None),
        [column, columns @ ..] => match fields {
            [] => Ok(None),
            [field, fields @ ..] => match field_value(alloc, column.kind, field)? {
                None => Ok(Some(Refusal::BadField {
                    row: nth,
                    column: column.name.copy(alloc)?,
                    kind: column.kind,
                })),
                Some(_) => bad_field(alloc, nth, columns, fields),
            },
        },
    }
}

/// Adds the values of the fields, each in its column; NULL where a field spells none.
fn add_values(
    alloc: Global,
    columns: &[Column],
    fields: &[Txt],
    values: &mut Vec<Value>,
) -> Result<(), AllocError>
    ensures { OnOk result (values.new.items ≡ values.old.items ++ row_in columns.now fields.now) }
{
    match columns {
        [] => Ok(()),
        [column, columns @ ..] => match fields {
            [] => Ok(()),
            [field, fields @ ..] => {
                values.push(value_of(alloc, column, field)?)?;
                add_values(alloc, columns, fields, values)
            }
        },
    }
}

/// The value of a field, NULL where it spells none.
fn value_of(alloc: Global, column: &Column, field: &Txt) -> Result<Value, AllocError>
    ensures { IfOk result (λ value. value ∷ [] ≡ row_in (column.now ∷ []) (field.now ∷ [])) }
{
    match field_value(alloc, column.kind, field)? {
        None => Ok(Value::Null),
        Some(value) => Ok(value),
    }
}

/// Whether a column is one of these key columns.
fn is_key(key: &[u8], place: usize) -> bool
    ensures { result ≡ list_any (nat_eq place) key.now }
{
    match key {
        [] => false,
        [first, rest @ ..] => place == *first as usize || is_key(rest, place),
    }
}

/// The first column, from the left, that is a key column and NULL; columns are counted from `place` on.
fn null_key(
    alloc: Global,
    schema: &Schema,
    nth: u64,
    place: usize,
    columns: &[Column],
    values: &[Value],
) -> Result<Option<Refusal>, AllocError>
    requires { place + length columns.now ≤ 64 }
    ensures { IfOk result (λ refusal. refusal ≡ null_key schema.now nth place columns.now values.now) }
{
    match columns {
        [] => Ok(None),
        [column, columns @ ..] => match values {
            [] => Ok(None),
            [value, values @ ..] => {
                if value.is_null() && is_key(schema.key(), place) {
                    return Ok(Some(Refusal::NullKey {
                        row: nth,
                        column: column.name.copy(alloc)?,
                    }));
                }
                null_key(alloc, schema, nth, place + 1, columns, values)
            }
        },
    }
}

/// Whether a row has too many bytes.
fn long_row(nth: u64, row: &Row) -> Option<Refusal>
    ensures { result ≡ long_row nth row.now }
{
    if row_len(row) > LONGEST_ROW {
        Some(Refusal::LongRow { row: nth })
    } else {
        None
    }
}

/// The row, or why its values are none of the schema.
fn row_of_values(
    alloc: Global,
    schema: &Schema,
    nth: u64,
    row: Row,
) -> Result<Result<Row, Refusal>, AllocError>
    ensures { IfOk result (λ answer. answer ≡ or_refusal (value_refusal schema.now nth row) row) }
{
    match null_key(alloc, schema, nth, 0, schema.columns(), row.values())? {
        Some(refusal) => Ok(Err(refusal)),
        None => match long_row(nth, &row) {
            Some(refusal) => Ok(Err(refusal)),
            None => Ok(Ok(row)),
        },
    }
}

/// The row that these texts spell, one a column, or why they spell none.
fn row_of_texts(
    alloc: Global,
    schema: &Schema,
    nth: u64,
    texts: &[Txt],
) -> Result<Result<Row, Refusal>, AllocError>
    ensures { IfOk result (λ answer. answer ≡ or_refusal (text_refusal schema.now nth texts.now) (row_in schema.now.columns texts.now)) }
{
    match bad_field(alloc, nth, schema.columns(), texts)? {
        Some(refusal) => Ok(Err(refusal)),
        None => {
            let mut values = Vec::new(alloc);
            add_values(alloc, schema.columns(), texts, &mut values)?;
            row_of_values(alloc, schema, nth, Row::new(values))
        }
    }
}

/// The row that a record spells, which is the `nth` after the header, or the refusal.
fn row_of(
    alloc: Global,
    schema: &Schema,
    nth: u64,
    fields: &[Items<u8>],
) -> Result<Result<Row, Refusal>, AllocError>
    ensures { IfOk result (λ answer. answer ≡ or_refusal (row_refusal schema.now nth fields.now) (row_in schema.now.columns fields.now)) }
{
    if fields.len() != schema.columns().len() {
        return Ok(Err(Refusal::Width {
            row: nth,
            found: fields.len() as u64,
            columns: schema.columns().len() as u64,
        }));
    }
    let mut texts = Items::new(alloc);
    if add_texts(alloc, fields, &mut texts)? {
        row_of_texts(alloc, schema, nth, texts.as_slice())
    } else {
        Ok(Err(Refusal::NotText { row: nth }))
    }
}

/// The row, and these behind it.
fn onto(
    alloc: Global,
    row: Row,
    rows: Result<Items<Row>, Refusal>,
) -> Result<Result<Items<Row>, Refusal>, AllocError>
    ensures { IfOk result (λ all. all ≡ onto row rows) }
{
    match rows {
        Err(refusal) => Ok(Err(refusal)),
        Ok(rows) => {
            let mut all = Items::new(alloc);
            all.push(row)?;
            all.append(rows)?;
            Ok(Ok(all))
        }
    }
}

/// The rows of these records, numbered from `nth` on, or the first refusal.
fn rows_from(
    alloc: Global,
    schema: &Schema,
    nth: u64,
    records: &[Items<Items<u8>>],
) -> Result<Result<Items<Row>, Refusal>, AllocError>
    requires { nth + length records.now < 2 ^ 64 }
    ensures { IfOk result (λ answer. answer ≡ rows_from schema.now nth records.now) }
{
    match records {
        [] => Ok(Ok(Items::new(alloc))),
        [fields, rest @ ..] => match row_of(alloc, schema, nth, fields.as_slice())? {
            Err(refusal) => Ok(Err(refusal)),
            Ok(row) => {
                let later = rows_from(alloc, schema, nth + 1, rest)?;
                onto(alloc, row, later)
            }
        },
    }
}

/// The rows of these records, of which the first one has the column names in order.
pub fn table_of(
    alloc: Global,
    schema: &Schema,
    records: &[Items<Items<u8>>],
) -> Result<Result<Items<Row>, Refusal>, AllocError>
    requires { length records.now < 2 ^ 64 }
    ensures { IfOk result (λ answer. answer ≡ table_of schema.now records.now) }
{
    match records {
        [] => Ok(Err(Refusal::BadHeader)),
        [header, rest @ ..] => {
            if are_names(header.as_slice(), schema.columns()) {
                rows_from(alloc, schema, 1, rest)
            } else {
                Ok(Err(Refusal::BadHeader))
            }
        }
    }
}

/// The bytes without the mark of byte order that may stand in front.
#[tactic(auto, unfolding(csv::specs::Reading::strip_bom))]
fn without_mark(bytes: &[u8]) -> &[u8]
    ensures { result.now ≡ strip_bom bytes.now }
{
    match bytes {
        [0xEF, 0xBB, 0xBF, rest @ ..] => rest,
        _ => bytes,
    }
}

/// Whether a mark of byte order stands in front.
fn begins_with_mark(bytes: &[u8]) -> bool
    ensures { result ≡ begins_with_mark bytes.now }
{
    bytes.starts_with(b"\xEF\xBB\xBF")
}

/// The rows of a file in file order, or the one refusal that counts: the file is over 67,108,864 bytes, its header is none of
/// the schema, or one of its records is no row.
pub fn rows_of(
    alloc: Global,
    schema: &Schema,
    bytes: &[u8],
) -> Result<Result<Items<Row>, Refusal>, AllocError>
    ensures { IfOk result (λ answer. answer ≡ rows_of schema.now bytes.now) }
{
    if bytes.len() > 67_108_864 {
        return Ok(Err(Refusal::LongFile));
    }
    let text = without_mark(bytes);
    if begins_with_mark(text) {
        return Ok(Err(Refusal::BadHeader));
    }
    let found = records_in(alloc, text)?;
    table_of(alloc, schema, found.as_slice())
}
