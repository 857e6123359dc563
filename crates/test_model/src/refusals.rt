//! Refusals of rows that no line can meet yet: those of a commit that adds columns.

use crate::people::{TWO, rows, schema};
use ov_answers::rows_refusal;
use ov_model::Refusal;
use ov_value::Schema;
use std::alloc::Global;
use std::test::*;

const TWICE: &[u8] = b"id,name,score\n2,bob,\n2,bob,21\n";

const NULL: &[u8] = b"id,name,score\n1,ann,10\n2,\\N,20\n";

// The store's format, whether columns are added, and the file of the rows; the number of the refusal and the row that it names,
// or zeros. A key that comes again is refused before NULL is; with added columns each row has NULL.
const ROWS: [(u32, bool, &[u8], (u32, u64)); 6] = [
    (2, false, TWO, (0, 0)),
    (1, false, TWO, (0, 0)),
    (1, true, TWO, (23, 0)),
    (1, false, TWICE, (14, 2)),
    (1, true, NULL, (23, 2)),
    (2, true, NULL, (0, 0)),
];

/// What is said of the rows of a file.
fn said(
    alloc: Global,
    schema: &Schema,
    format: u32,
    adds: bool,
    file: &[u8],
) -> Result<(u32, u64), Fail> {
    let rows = rows(alloc, schema, file)?;
    match rows_refusal(alloc, format, schema, adds, rows.as_slice())? {
        None => Ok((0, 0)),
        Some(Refusal::DuplicateKey { row }) => Ok((14, row)),
        Some(Refusal::FormatOne { row }) => Ok((23, row)),
        Some(_) => Err("another refusal")?,
    }
}

#[test]
fn rows_have_keys_of_their_own(rt: HostRuntime) -> Result<(), Fail> {
    let schema = schema(rt.alloc())?;
    for (format, adds, file, wanted) in ROWS {
        assert_eq!(rt; said(rt.alloc(), &schema, format, adds, file)?, wanted);
    }
    Ok(())
}
