//! Rows that are read whole and spelled again, their order by key, and columns that are added to a schema.

use ov_value::*;
use std::alloc::{AllocError, Global};
use std::test::*;

/// A column's name and kind.
type Named = (&'static str, Kind);

/// The columns id, sure and note; the key is id.
const NOTES: &[Named] = &[
    ("id", Kind::Int),
    ("sure", Kind::Flag),
    ("note", Kind::Text),
];

fn columns(alloc: Global, named: &[Named]) -> Result<Vec<Column>, AllocError> {
    let mut columns = Vec::new(alloc);
    for (name, kind) in named {
        let name = Txt::new(alloc, name)?;
        columns.push(Column { name, kind: *kind })?;
    }
    Ok(columns)
}

fn id(alloc: Global) -> Result<Vec<Txt>, AllocError> {
    let mut key = Vec::new(alloc);
    key.push(Txt::new(alloc, "id")?)?;
    Ok(key)
}

pub fn notes(alloc: Global) -> Result<Schema, SchemaErr> {
    Schema::new(alloc, columns(alloc, NOTES)?, id(alloc)?)
}

// Whether the row has these bytes.
fn is_spelled(
    alloc: Global,
    schema: &Schema,
    row: &Row,
    marked: bool,
    bytes: &[u8],
) -> Result<bool, AllocError> {
    if !schema.fits(row) || !row.has_short_texts() {
        return Ok(false);
    }
    let spelled = row_bytes(alloc, schema, row)?;
    Ok(spelled.marked == marked && spelled.bytes.as_slice() == bytes)
}

// Whether the bytes are read as a row that has them.
fn come_back(
    alloc: Global,
    schema: &Schema,
    marked: bool,
    bytes: &[u8],
) -> Result<bool, AllocError> {
    match read_row_slice(alloc, schema, marked, bytes)? {
        None => Ok(false),
        Some(row) => is_spelled(alloc, schema, &row, marked, bytes),
    }
}

// Whether they are marked, bytes, and whether these are a row.
const ROWS_OR_NOT: [(bool, &[u8], bool); 12] = [
    (false, b"\0\0\0\0\0\0\0\x01\x01\0\0\0\x01a", true),
    (false, b"\xff\xff\xff\xff\xff\xff\xff\xff\x01", true),
    (true, b"\x03\x02\0\0\0\0\0\0\0\x01\0\0\0\x01a", true),
    // a flag of 2, a text that passes the end, a byte behind the last value, a text that isn't UTF-8
    (false, b"\0\0\0\0\0\0\0\x01\x02", false),
    (false, b"\0\0\0\0\0\0\0\x01\x01\xff\xff\xff\xff", false),
    (false, b"\0\0\0\0\0\0\0\x01\x01\0\0\0\x01a\0", false),
    (false, b"\0\0\0\0\0\0\0\x01\x01\0\0\0\x01\xff", false),
    // no bytes: the key is NULL
    (false, b"", false),
    // marks without a NULL, with a spare bit, of too many columns, with a NULL at the end
    (true, b"\x03\0\0\0\0\0\0\0\0\x01\x01\0\0\0\x01a", false),
    (true, b"\x03\x0a\0\0\0\0\0\0\0\x01\0\0\0\x01a", false),
    (true, b"\x04\x02\0\0\0\0\0\0\0\x01\0\0\0\x01a", false),
    (true, b"\x03\x06\0\0\0\0\0\0\0\x01", false),
];

#[test]
fn bytes_are_a_row_or_none(rt: HostRuntime) -> Result<(), Fail> {
    let alloc = rt.alloc();
    let schema = notes(alloc)?;
    for (marked, bytes, want) in ROWS_OR_NOT {
        assert_eq!(rt;
            come_back(alloc, &schema, marked, bytes)?,
            want,
            "{bytes:?}"
        );
    }
    Ok(())
}

// Rows in the order of their keys.
const IN_ORDER: [&[u8]; 3] = [
    b"\xff\xff\xff\xff\xff\xff\xff\xff\x01",
    b"\0\0\0\0\0\0\0\x02\x01\0\0\0\x01b",
    b"\0\0\0\0\0\0\0\x0a\0\0\0\0\x01a",
];

fn rows(alloc: Global, schema: &Schema, all: &[&[u8]]) -> Result<Vec<Row>, Fail> {
    let mut rows = Vec::new(alloc);
    for bytes in all {
        let row = read_row_slice(alloc, schema, false, bytes)?;
        rows.push(row.ok_or("the bytes are a row")?)?;
    }
    Ok(rows)
}

#[test]
fn rows_are_sorted_by_their_keys(rt: HostRuntime) -> Result<(), Fail> {
    let alloc = rt.alloc();
    let schema = notes(alloc)?;
    let mut turned = rows(alloc, &schema, &IN_ORDER)?;
    turned.reverse();
    sort_by_key(&schema, &mut turned)?;
    assert!(rt; turned == rows(alloc, &schema, &IN_ORDER)?);
    Ok(())
}

fn widened(alloc: Global, added: &[Named]) -> Result<Schema, SchemaErr> {
    let added = columns(alloc, added)?;
    notes(alloc)?.widen(alloc, &added)
}

#[test]
fn added_columns_are_null_in_rows_from_before(rt: HostRuntime) -> Result<(), Fail> {
    let alloc = rt.alloc();
    // No columns, and ones that are there, don't widen a schema.
    assert!(rt; widened(alloc, &[]).is_err());
    assert!(rt; widened(alloc, NOTES).is_err());
    let wide = widened(alloc, &[("team", Kind::Text)])?;
    assert_eq!(rt; wide.columns().len(), 4);
    for (marked, bytes, want) in ROWS_OR_NOT {
        if want {
            assert!(rt; come_back(alloc, &wide, marked, bytes)?, "{bytes:?}");
        }
    }
    Ok(())
}
