// A table of records as a segment.

ghost use Rattle.std.specs.Prelude.{◌≡◌, ◌↔◌, ◌<◌, ◌≤◌, ◌^◌, IfOk, IsTrue, length};
ghost use Rattle.std.specs.List.{All};
ghost use Rattle.ov_member.specs.Rids.{AreRids};
ghost use Rattle.ov_value.specs.Spelling.{row_spelling};
ghost use Rattle.ov_segment.specs.Segments.{segment_spelling};
ghost use Rattle.ov_core.specs.Brought.{extent_at};
ghost use Rattle.ov_fetch.specs.Extents.{rids_of};

use ov_host::Extent;
use ov_member::Members;
use ov_segment::{Table, append_record};
use std::alloc::{AllocError, Global};

/// Whether the records have these rids, in their order.
pub(crate) fn has_rids(alloc: Global, records: &Table, rids: &Members) -> Result<bool, AllocError>
    requires { AreRids rids.now }
    ensures { IfOk result (λ same. IsTrue same ↔ (rids_of records.now.records ≡ rids.now)) }
{
    let listed = rids_in(alloc, records)?;
    match Members::of(alloc, &listed)? {
        Some(found) => {
            let more = found.without(alloc, rids)?;
            let fewer = rids.without(alloc, &found)?;
            Ok(more.len() == 0 && fewer.len() == 0)
        }
        None => Ok(false),
    }
}

// The rids of a table's records.
fn rids_in(alloc: Global, records: &Table) -> Result<Vec<u32>, AllocError>
    ensures { IfOk result (λ rids. rids.items ≡ rids_of records.now.records) }
{
    let mut rids = Vec::with_capacity(alloc, records.len())?;
    for i in 0..records.len() {
        rids.push(records.rid(i))?;
    }
    Ok(rids)
}

/// The bytes of the segment of these records. The rows' bytes are copied, and not read.
pub(crate) fn segment_of(alloc: Global, records: &Table) -> Result<Vec<u8>, AllocError>
    requires { All (λ r. length (row_spelling r.row).bytes ≤ 65536) records.now.records }
    ensures { IfOk result (λ bytes. bytes.items ≡ segment_spelling records.now.records) }
{
    let mut bytes = Vec::new(alloc);
    for i in 0..records.len() {
        append_record(&mut bytes, records.rid(i), &records.row(i))?;
    }
    Ok(bytes)
}

/// The extent of these bytes, not placed yet.
pub(crate) fn unplaced(bytes: &[u8]) -> Extent
    requires { length bytes.now < 2 ^ 32 }
    ensures { result ≡ extent_at 0 bytes.now }
{
    Extent {
        page: 0,
        bytes: bytes.len() as u32,
    }
}
