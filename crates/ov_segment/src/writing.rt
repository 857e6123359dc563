//! From records to the bytes of a segment.

ghost use Rattle.std.specs.Prelude.{◌≡◌, ◌≤◌, ◌++◌, IfOk, OnOk, length, map, min};
ghost use Rattle.std.specs.List.{All};
ghost use Rattle.ov_value.specs.Rows.{Fits};
ghost use Rattle.ov_value.specs.Spelling.{row_spelling};
ghost use Rattle.ov_segment.specs.Segments.{Ascend, segment_spelling, record_bytes};

use crate::numbered::Record;
use crate::row_ref::RowRef;
use ov_value::{Bytes, Schema, append_row, is_marked, row_len};
use std::alloc::{AllocError, Global};

/// The bytes of a segment of these records.
pub fn segment_bytes(
    alloc: Global,
    schema: &Schema,
    records: &[Record],
) -> Result<Bytes, AllocError>
    requires rids { Ascend 0 (map (λ r. r.rid) records.now) }
    requires fit { All (λ r. Fits schema.now r.row) records.now }
    requires small { All (λ r. length (row_spelling r.row).bytes ≤ 65536) records.now }
    ensures { IfOk result (λ bytes. bytes ≡ segment_spelling records.now) }
{
    let mut bytes = Vec::with_capacity(alloc, len_of(records))?;
    for one in records {
        append_one(&mut bytes, schema, one)?;
    }
    Ok(Bytes::new(bytes))
}

/// Appends the record with this rid and row. The row's bytes are copied, and not read.
pub fn append_record(bytes: &mut Vec<u8>, rid: u32, row: &RowRef<'_>) -> Result<(), AllocError>
    requires { length (row_spelling row.now).bytes ≤ 65536 }
    ensures { OnOk result (bytes.new.items ≡ bytes.old.items ++ record_bytes (record { rid = rid; row = row.now })) }
{
    let spelled = row.bytes();
    let mark = if row.is_marked() { 0x8000_0000 } else { 0 };
    let len = spelled.len() as u32 + mark;
    bytes.extend_from_slice(&rid.to_be_bytes())?;
    bytes.extend_from_slice(&len.to_be_bytes())?;
    bytes.extend_from_slice(spelled)?;
    Ok(())
}

fn append_one(bytes: &mut Vec<u8>, schema: &Schema, one: &Record) -> Result<(), AllocError>
    requires fit { Fits schema.now one.now.row }
    requires small { length (row_spelling one.now.row).bytes ≤ 65536 }
    ensures { OnOk result (bytes.new.items ≡ bytes.old.items ++ record_bytes one.now) }
{
    let mark = if is_marked(&one.row) { 0x8000_0000 } else { 0 };
    let len = row_len(&one.row) as u32 + mark;
    bytes.extend_from_slice(&one.rid.to_be_bytes())?;
    bytes.extend_from_slice(&len.to_be_bytes())?;
    append_row(bytes, schema, &one.row)?;
    Ok(())
}

// The number of bytes of the records, or the greatest number where it would pass that.
fn len_of(records: &[Record]) -> usize
    ensures { result ≡ min (length (segment_spelling records.now)) usize.MAX }
{
    let mut len = 0usize;
    for one in records {
        len = len.saturating_add(record_len(one));
    }
    len
}

fn record_len(one: &Record) -> usize
    ensures { result ≡ min (length (record_bytes one.now)) usize.MAX }
{
    row_len(&one.row).saturating_add(8)
}
