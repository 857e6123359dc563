//! Why a command is refused: of versions that are listed, and of the rows of a file.

ghost use Rattle.std.specs.Prelude.{◌≡◌, ◌+◌, ◌^◌, ◌<◌, length, IfOk};
ghost use Rattle.std.specs.List.{list_any};
ghost use Rattle.ov_value.specs.Rows.{is_null};
ghost use Rattle.ov_model.specs.Act.{vids_refusal, repeated_key, null_row, format_refusal, format_one, rows_refusal};
ghost use Rattle.ov_model.specs.World.{World, is_one};

use ov_model::{Refusal, Seq};
use ov_plain::{has_key, onto, with_first};
use ov_value::{Row, Schema, Value};
use std::alloc::{AllocError, Global};

/// Whether a number is one of these.
fn is_listed(vids: &[u64], vid: u64) -> bool
    ensures { result ≡ is_one vids.now vid }
{
    match vids {
        [] => false,
        [first, rest @ ..] => *first == vid || is_listed(rest, vid),
    }
}

/// Why versions of so many can't be listed so: one isn't there, or stands twice. `before` are those listed before them.
pub fn vids_refusal(
    alloc: Global,
    count: u64,
    before: &[u64],
    vids: &[u64],
) -> Result<Option<Refusal>, AllocError>
    ensures { IfOk result (λ refusal. refusal ≡ vids_refusal count before.now vids.now) }
{
    match vids {
        [] => Ok(None),
        [vid, rest @ ..] => {
            if *vid == 0 || count < *vid {
                return Ok(Some(Refusal::NoVersion { vid: *vid }));
            }
            if is_listed(before, *vid) {
                return Ok(Some(Refusal::RepeatedVersion { vid: *vid }));
            }
            let seen = onto(alloc, *vid, Seq::from_slice(alloc, before)?)?;
            vids_refusal(alloc, count, seen.as_slice(), rest)
        }
    }
}

/// The refusal of the first of these rows, numbered from `nth` on, that has the key of an earlier one; `before` are those before
/// them.
fn repeated_key(
    alloc: Global,
    schema: &Schema,
    before: Seq<Row>,
    nth: u64,
    rows: &[Row],
) -> Result<Option<Refusal>, AllocError>
    requires { nth + length rows.now < 2 ^ 64 }
    ensures { IfOk result (λ refusal. refusal ≡ repeated_key schema.now before nth rows.now) }
{
    match rows {
        [] => Ok(None),
        [row, rest @ ..] => {
            if has_key(schema, before.as_slice(), row) {
                return Ok(Some(Refusal::DuplicateKey { row: nth }));
            }
            let seen = with_first(alloc, row, before)?;
            repeated_key(alloc, schema, seen, nth + 1, rest)
        }
    }
}

/// Whether one of these values is NULL.
fn have_null(values: &[Value]) -> bool
    ensures { result ≡ list_any is_null values.now }
{
    match values {
        [] => false,
        [value, rest @ ..] => value.is_null() || have_null(rest),
    }
}

/// The number of the first of these rows that has NULL.
fn null_row(nth: u64, rows: &[Row]) -> Option<u64>
    requires { nth + length rows.now < 2 ^ 64 }
    ensures { result ≡ null_row nth rows.now }
{
    match rows {
        [] => None,
        [row, rest @ ..] => {
            if have_null(row.values()) {
                Some(nth)
            } else {
                null_row(nth + 1, rest)
            }
        }
    }
}

/// Why a store of format 1 doesn't take rows or columns.
fn format_refusal(row: Option<u64>, adds: bool) -> Option<Refusal>
    ensures { result ≡ format_refusal row adds }
{
    match row {
        Some(row) => Some(Refusal::FormatOne { row }),
        None => {
            if adds {
                Some(Refusal::FormatOne { row: 0 })
            } else {
                None
            }
        }
    }
}

/// Why a store of a format doesn't take these rows, or the columns that are added with them.
pub fn format_one(format: u32, adds: bool, rows: &[Row]) -> Option<Refusal>
    requires { length rows.now + 1 < 2 ^ 64 }
    ensures { result ≡ format_one format adds rows.now }
{
    if format == 1 {
        format_refusal(null_row(1, rows), adds)
    } else {
        None
    }
}

/// Why rows are no version's in a store of a format: they are too many, two have one key, or the store takes no NULL and no
/// columns.
pub fn rows_refusal(
    alloc: Global,
    format: u32,
    schema: &Schema,
    adds: bool,
    rows: &[Row],
) -> Result<Option<Refusal>, AllocError>
    ensures { IfOk result (λ refusal. (w : World) → w.format ≡ format → refusal ≡ rows_refusal w schema.now adds rows.now) }
{
    if rows.len() > 1_000_000 {
        return Ok(Some(Refusal::TooManyRows));
    }
    match repeated_key(alloc, schema, Seq::new(alloc), 1, rows)? {
        Some(refusal) => Ok(Some(refusal)),
        None => Ok(format_one(format, adds, rows)),
    }
}
