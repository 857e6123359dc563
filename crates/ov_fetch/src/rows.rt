//! The rows of sets of rids.

ghost use Rattle.std.specs.Prelude.{◌≡◌, ◌+◌, ◌≤◌, true, length, IfOk, IsErrOf, MatchResult};
ghost use Rattle.std.specs.List.{sum_by};
ghost use Rattle.ov_host.specs.Host.{Rose};
ghost use Rattle.ov_segment.specs.Segments.{AreRecords, Ascend};
ghost use Rattle.ov_fetch.specs.Extents.{Looked, page_bytes, rids_of};
ghost use Rattle.ov_fetch.specs.Rows.{AreRows, HaveRids, RefusesRows};

use crate::errors::FetchErr;
use crate::segments::{Gathered, gather, members_of};
use crate::union::{place_lacking, union_of};
use ov_host::{Extent, Host};
use ov_member::Members;
use ov_segment::{RecordTable, Table};
use ov_value::Schema;
use std::alloc::{AllocError, Global};

/// The records of all `members` together, each once, in the order of their rids. Where several segments have a rid, the
/// first of them gives its record. `lists` are the extents of the lists that `members` are; they are not read.
///
/// `Damaged` exactly where a segment is short or its bytes are no segment of the schema, with the first page of one such
/// segment; or else where a member has no record, with the first page of a list that has such a member.
///
/// Each segment is read once, in pieces of at most 65,536 bytes, and only the records that are asked for are kept.
pub fn rows_of<H: Host>(
    alloc: Global,
    host: &mut H,
    schema: &Schema,
    segments: &[Extent],
    lists: &[Extent],
    members: &[Members],
) -> Result<RecordTable, FetchErr>
    requires { length lists.now ≡ length members.now }
    ensures looked { Looked (H.state host.old) (H.state host.new) }
    ensures cause { IsErrOf result FetchErr.Host → Rose (H.state host.old).faults (H.state host.new).faults }
    ensures fetched { (H.state host.new).fetched ≤ (H.state host.old).fetched + sum_by (λ e. e.bytes) segments.now }

    // On every host the rids ascend strictly, the rows fit the schema, and none has over 65,536 bytes.
    ensures records { IfOk result (AreRecords schema.now 0) }
    ensures answer { (H.state host.old).tells ≡ true → MatchResult result
        (AreRows schema.now (page_bytes (H.state host.old)) segments.now members.now)
        (λ e. RefusesRows e schema.now (page_bytes (H.state host.old)) segments.now lists.now members.now) }
{
    let read = rows_and_rids_of(alloc, host, schema, segments, lists, members)?;
    Ok(RecordTable::new(read.records))
}

/// What was read of segments.
#[derive(Drop)]
pub struct SegmentsRead {
    /// The records that were asked for, each once, in the order of their rids.
    pub records: Table,
    /// The rids of all records of each segment, asked for or not.
    pub rids: Vec<Members>,
}

/// The records that [`rows_of`] gives, and the rids of each segment, by one reading. The rids are kept as ranges.
pub fn rows_and_rids_of<H: Host>(
    alloc: Global,
    host: &mut H,
    schema: &Schema,
    segments: &[Extent],
    lists: &[Extent],
    members: &[Members],
) -> Result<SegmentsRead, FetchErr>
    requires { length lists.now ≡ length members.now }
    ensures looked { Looked (H.state host.old) (H.state host.new) }
    ensures cause { IsErrOf result FetchErr.Host → Rose (H.state host.old).faults (H.state host.new).faults }
    ensures fetched { (H.state host.new).fetched ≤ (H.state host.old).fetched + sum_by (λ e. e.bytes) segments.now }
    ensures columns { IfOk result (λ read. read.records.columns ≡ schema.now.columns) }
    ensures records { IfOk result (λ read. AreRecords schema.now 0 read.records.records) }
    ensures rids { (H.state host.old).tells ≡ true
        → IfOk result (λ read. HaveRids schema.now (page_bytes (H.state host.old)) segments.now read.rids.items) }
    ensures answer { (H.state host.old).tells ≡ true → MatchResult result
        (λ read. AreRows schema.now (page_bytes (H.state host.old)) segments.now members.now read.records.records)
        (λ e. RefusesRows e schema.now (page_bytes (H.state host.old)) segments.now lists.now members.now) }
{
    let wanted = union_of(alloc, members)?;
    let Gathered { kept, rids } = gather(alloc, host, schema, segments, &wanted)?;
    let mut records = kept;
    records.sort_by_rid()?;
    records.drop_repeats();
    if records.len() == wanted.len() as usize {
        return Ok(SegmentsRead { records, rids });
    }
    let found = rids_in(alloc, &records)?;
    let missing = wanted.without(alloc, &found)?;
    match place_lacking(members, &missing) {
        None => Ok(SegmentsRead { records, rids }),
        Some(place) => Err(FetchErr::Damaged {
            page: lists[place].page,
        }),
    }
}

// The rids of a table's records.
fn rids_in(alloc: Global, records: &Table) -> Result<Members, AllocError>
    requires { Ascend 0 (rids_of records.now.records) }
    ensures { IfOk result (λ found. found ≡ rids_of records.now.records) }
{
    let mut rids = Vec::with_capacity(alloc, records.len())?;
    for i in 0..records.len() {
        rids.push(records.rid(i))?;
    }
    members_of(alloc, &rids)
}
