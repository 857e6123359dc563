//! The record at the front of bytes.

ghost use Rattle.std.specs.Prelude.{◌≡◌, ◌≤◌, IfOk, length};
ghost use Rattle.ov_segment.specs.Reading.{Reads, rid_at, number_at};

use crate::next::Next;
use crate::numbered::Record;
use ov_value::{Schema, read_row_slice};
use std::alloc::{AllocError, Global};

// The bit of a record's length that says that the row's bytes begin with marks.
pub(crate) const MARK: u32 = 0x8000_0000;

// The greatest record id.
pub(crate) const GREATEST: u32 = ov_member::LAST_RID;

// The most bytes of a row.
pub(crate) const LONGEST: u32 = ov_value::LONGEST_ROW as u32;

/// The record at the front of the bytes, whose rid is above the last one, and how many bytes it takes.
pub(crate) fn record_at(
    alloc: Global,
    schema: &Schema,
    last: u32,
    bytes: &[u8],
) -> Result<(Next, usize), AllocError>
    ensures { IfOk result (λ x. Reads schema.now last bytes.now x.0 x.1) }
{
    if bytes.len() < 8 {
        return Ok((Next::More, 0));
    }
    let rid = rid_of(bytes);
    let number = number_of(bytes);
    let len = number % MARK;
    if rid <= last || rid > GREATEST || len > LONGEST {
        return Ok((Next::Bad, 0));
    }
    let end = 8 + len as usize;
    if bytes.len() < end {
        return Ok((Next::More, 0));
    }
    match read_row_slice(alloc, schema, number >= MARK, &bytes[8..end])? {
        None => Ok((Next::Bad, 0)),
        Some(row) => Ok((Next::Record(Record { rid, row }), end)),
    }
}

pub(crate) fn rid_of(bytes: &[u8]) -> u32
    requires { 8 ≤ length bytes.now }
    ensures { result ≡ rid_at bytes.now }
{
    u32::from_be_bytes([bytes[0], bytes[1], bytes[2], bytes[3]])
}

pub(crate) fn number_of(bytes: &[u8]) -> u32
    requires { 8 ≤ length bytes.now }
    ensures { result ≡ number_at bytes.now }
{
    u32::from_be_bytes([bytes[4], bytes[5], bytes[6], bytes[7]])
}
