//! The records of segments, from their extents.

ghost use Rattle.std.specs.Prelude.{◌≡◌, ◌+◌, ◌≤◌, true, [], length, vec_len, IfOk, IfErr, IsErrOf, MatchResult, OnOk, OnErr};
ghost use Rattle.std.specs.List.{sum_by, AllByRecursion};
ghost use Rattle.ov_host.specs.Host.{Rose};
ghost use Rattle.ov_member.specs.Rids.{AreRids};
ghost use Rattle.ov_segment.specs.Segments.{Ascend};
ghost use Rattle.ov_fetch.specs.Extents.{Looked, page_bytes, HasRids, RefusesSegment};
ghost use Rattle.ov_fetch.specs.Gathering.{IsRecord, HasKept, AreWanted, RefusesSegments};
ghost use Rattle.ov_fetch.specs.Rows.{HaveRids};

use crate::cursor::{Cursor, PIECE_BYTES};
use crate::errors::FetchErr;
use crate::lists::room;
use ov_host::{Extent, Host};
use ov_member::Members;
use ov_segment::Table;
use ov_value::Schema;
use std::alloc::{AllocError, Global};

/// The rids of a segment. `Damaged` with the segment's first page exactly where the segment is short, as the page area
/// ends before it, or its bytes are no segment of the schema. It is read in pieces of at most 65,536 bytes, and no row is
/// kept.
pub fn rids_of<H: Host>(
    alloc: Global,
    host: &mut H,
    schema: &Schema,
    segment: Extent,
) -> Result<Members, FetchErr>
    ensures looked { Looked (H.state host.old) (H.state host.new) }
    ensures cause { IsErrOf result FetchErr.Host → Rose (H.state host.old).faults (H.state host.new).faults }
    ensures fetched { (H.state host.new).fetched ≤ (H.state host.old).fetched + segment.bytes }
    ensures set { IfOk result AreRids }
    ensures answer { (H.state host.old).tells ≡ true → MatchResult result
        (HasRids schema.now (page_bytes (H.state host.old)) segment)
        (λ e. RefusesSegment e schema.now (page_bytes (H.state host.old)) segment) }
{
    let nothing = Members::empty(alloc);
    let mut kept = Table::new(alloc, schema)?;
    let mut piece = room(alloc, PIECE_BYTES)?;
    let mut cursor = Cursor::new(alloc, segment)?;
    cursor.keep_wanted(alloc, host, schema, &nothing, &mut piece, &mut kept)
}

/// The set of rids that ascend strictly.
pub(crate) fn members_of(alloc: Global, rids: &[u32]) -> Result<Members, AllocError>
    requires { Ascend 0 rids.now }
    ensures members { IfOk result (λ members. members ≡ rids.now) }
    ensures set { IfOk result AreRids }
{
    match Members::of(alloc, rids)? {
        Some(members) => Ok(members),
        None => unreachable!(),
    }
}

/// What is kept of segments: the records that were wanted, and the rids of each segment.
#[derive(Drop)]
pub(crate) struct Gathered {
    pub kept: Table,
    pub rids: Vec<Members>,
}

/// The records of the segments whose rids are wanted, one segment after the other, and the rids of each of the segments.
/// Each segment is read once.
pub(crate) fn gather<H: Host>(
    alloc: Global,
    host: &mut H,
    schema: &Schema,
    segments: &[Extent],
    wanted: &Members,
) -> Result<Gathered, FetchErr>
    ensures looked { Looked (H.state host.old) (H.state host.new) }
    ensures cause { IsErrOf result FetchErr.Host → Rose (H.state host.old).faults (H.state host.new).faults }
    ensures fetched { (H.state host.new).fetched ≤ (H.state host.old).fetched + sum_by (λ e. e.bytes) segments.now }
    ensures columns { IfOk result (λ found. found.kept.columns ≡ schema.now.columns) }
    ensures records { IfOk result (λ found. AllByRecursion (IsRecord schema.now) found.kept.records) }
    ensures rids { (H.state host.old).tells ≡ true
        → IfOk result (λ found. HaveRids schema.now (page_bytes (H.state host.old)) segments.now found.rids.items) }
    ensures answer { (H.state host.old).tells ≡ true → MatchResult result
        (λ found. AreWanted schema.now (page_bytes (H.state host.old)) segments.now wanted.now found.kept.records)
        (λ e. RefusesSegments e schema.now (page_bytes (H.state host.old)) segments.now) }
{
    let mut kept = Table::with_room(alloc, schema, most_kept(segments, wanted))?;
    let mut rids = Vec::with_capacity(alloc, segments.len())?;
    let mut piece = room(alloc, PIECE_BYTES)?;
    let mut cursor = Cursor::new(alloc, Extent { page: 0, bytes: 0 })?;
    for segment in segments {
        cursor.begin(*segment);
        rids.push(cursor.keep_wanted(alloc, host, schema, wanted, &mut piece, &mut kept)?)?;
    }
    Ok(Gathered { kept, rids })
}

// How many records are kept at most: each that is wanted is there once, and each takes more than eight bytes.
fn most_kept(segments: &[Extent], wanted: &Members) -> usize {
    let mut bytes = 0usize;
    for segment in segments {
        bytes = bytes.saturating_add(segment.bytes as usize);
    }
    (bytes / 8).min(wanted.len() as usize)
}
