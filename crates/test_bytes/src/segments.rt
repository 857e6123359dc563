//! Segments that are read whole and written again, and readers that are fed in pieces.

use crate::rows::notes;
use ov_segment::*;
use ov_value::{Bytes, Schema};
use std::alloc::{AllocError, Global};
use std::test::Fail;

// The records 1 and 2 of a text `a` and of none.
const TWO: &[u8] = b"\0\0\0\x01\0\0\0\x0e\0\0\0\0\0\0\0\x01\x01\0\0\0\x01a\
    \0\0\0\x02\0\0\0\x0d\0\0\0\0\0\0\0\x02\0\0\0\0\0";

// The second rid is that of the first one.
const TWICE: &[u8] = b"\0\0\0\x01\0\0\0\x0e\0\0\0\0\0\0\0\x01\x01\0\0\0\x01a\
    \0\0\0\x01\0\0\0\x0d\0\0\0\0\0\0\0\x02\0\0\0\0\0";

// A record whose length leaves a byte.
const LEFT: &[u8] = b"\0\0\0\x01\0\0\0\x0d\0\0\0\0\0\0\0\x01\x01\0\0\0\x01a";

// Reads a segment and writes its records again.
fn written_again(
    alloc: Global,
    schema: &Schema,
    bytes: &[u8],
) -> Result<Option<Bytes>, AllocError> {
    let Some(records) = read_segment(alloc, schema, bytes)? else {
        return Ok(None);
    };
    let again = segment_bytes(alloc, schema, records.as_slice())?;
    Ok(Some(again))
}

// Whether the bytes are read as records that have them.
fn come_back(alloc: Global, schema: &Schema, bytes: &[u8]) -> Result<bool, AllocError> {
    match written_again(alloc, schema, bytes)? {
        None => Ok(false),
        Some(again) => Ok(again.as_slice() == bytes),
    }
}

#[test]
fn bytes_are_a_segment_or_none(rt: HostRuntime) -> Result<(), Fail> {
    let alloc = rt.alloc();
    let schema = notes(alloc)?;
    for (bytes, want) in [
        (b"".as_slice(), true),
        (TWO, true),
        (TWICE, false),
        (LEFT, false),
    ] {
        assert_eq!(rt; come_back(alloc, &schema, bytes)?, want, "{bytes:?}");
    }
    Ok(())
}

// How many records a reader gives that is fed the bytes in pieces of this size, and whether it ends with Bad
// and with bytes held.
fn in_pieces(
    alloc: Global,
    schema: &Schema,
    bytes: &[u8],
    size: usize,
) -> Result<(u32, bool, usize), AllocError> {
    let mut reader = SegmentReader::new(alloc)?;
    let mut records = 0u32;
    let mut bad = false;
    for piece in bytes.chunks(size.max(1)) {
        let _taken = reader.feed(piece);
        for _ in 0..4 {
            match reader.next(schema)? {
                Next::Record(_one) => records = records.saturating_add(1),
                Next::More => {}
                Next::Bad => bad = true,
            }
        }
    }
    Ok((records, bad, reader.held()))
}

#[test]
fn a_segment_is_read_in_pieces_of_any_size(rt: HostRuntime) -> Result<(), Fail> {
    let alloc = rt.alloc();
    let schema = notes(alloc)?;
    for size in 1..45usize {
        assert_eq!(rt; in_pieces(alloc, &schema, TWO, size)?, (2, false, 0));
        let (records, bad, _held) = in_pieces(alloc, &schema, TWICE, size)?;
        assert_eq!(rt; (records, bad), (1, true));
    }
    // A byte of the second record is wanting.
    assert_eq!(rt; in_pieces(alloc, &schema, &TWO[..42], 7)?, (1, false, 20));
    Ok(())
}
