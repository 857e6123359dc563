//! From the bytes of a segment to its records.

ghost use Rattle.std.specs.Prelude.{◌≡◌, List, IfOk, IfSome, Some};
ghost use Rattle.ov_segment.specs.declared.numbered.Record.{Record as RecordValue};
ghost use Rattle.ov_segment.specs.Segments.{AreRecords, segment_spelling};

use crate::at::record_at;
use crate::next::Next;
use crate::records::Records;
use ov_value::Schema;
use std::alloc::{AllocError, Global};

/// The records that all of the bytes spell, or `None` where they are no segment of the schema.
pub fn read_segment(
    alloc: Global,
    schema: &Schema,
    bytes: &[u8],
) -> Result<Option<Records>, AllocError>
    // What is read is a segment, and is spelled so.
    ensures found { IfOk result (λ read. IfSome read (λ records. AreRecords schema.now 0 records × (bytes.now ≡ segment_spelling records))) }

    // What is spelled so is read.
    ensures only { (records : List RecordValue) → AreRecords schema.now 0 records → bytes.now ≡ segment_spelling records
        → IfOk result (λ read. read ≡ Some records) }
{
    let mut records = Vec::new(alloc);
    let mut last = 0;
    let mut rest = bytes;
    while !rest.is_empty() {
        let (next, len) = record_at(alloc, schema, last, rest)?;
        match next {
            Next::Record(one) => {
                last = one.rid;
                records.push(one)?;
                rest = &rest[len..];
            }
            Next::More | Next::Bad => return Ok(None),
        }
    }
    Ok(Some(Records::new(records)))
}
