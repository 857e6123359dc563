//! The rows of sets of rids, out of the first of some segments: as many as it takes.

ghost use Rattle.std.specs.Prelude.{◌≡◌, ◌+◌, ◌≤◌, true, length, IfOk, IsErrOf, MatchResult};
ghost use Rattle.std.specs.List.{sum_by, AllByRecursion};
ghost use Rattle.ov_host.specs.Host.{Rose};
ghost use Rattle.ov_member.specs.Rids.{has};
ghost use Rattle.ov_segment.specs.Segments.{AreRecords};
ghost use Rattle.ov_fetch.specs.Extents.{Looked, page_bytes};
ghost use Rattle.ov_fetch.specs.Gathering.{IsRecord};
ghost use Rattle.ov_fetch.specs.Rows.{is_asked};
ghost use Rattle.ov_fetch.specs.Firsts.{AreFirstRows, AreFirstWanted, IsFetchedFirst, RefusesFirstRows, RefusesFirstWanted};

use crate::cursor::{Cursor, PIECE_BYTES};
use crate::errors::FetchErr;
use crate::lists::room;
use crate::union::{place_lacking, union_of};
use ov_host::{Extent, Host};
use ov_member::Members;
use ov_segment::Table;
use ov_value::Schema;
use std::alloc::Global;

/// The records of all `members` together, as [`crate::rows_of`] gives them, but the segments are read one after another, and only until
/// each member has its record. What is damaged behind them isn't met. `lists` are the extents of the lists that `members`
/// are; they are not read.
///
/// `Damaged` exactly where a segment is short or its bytes are no segment of the schema, before each member has its record,
/// with the first page of the first such segment; or else where a member has no record in all the segments, with the first
/// page of a list that has such a member.
pub fn first_rows_of<H: Host>(
    alloc: Global,
    host: &mut H,
    schema: &Schema,
    segments: &[Extent],
    lists: &[Extent],
    members: &[Members],
) -> Result<Table, FetchErr>
    requires { length lists.now ≡ length members.now }
    ensures looked { Looked (H.state host.old) (H.state host.new) }
    ensures cause { IsErrOf result FetchErr.Host → Rose (H.state host.old).faults (H.state host.new).faults }
    ensures fetched { (H.state host.new).fetched ≤ (H.state host.old).fetched + sum_by (λ e. e.bytes) segments.now }
    ensures no_more { IsFetchedFirst schema.now (H.state host.old) (H.state host.new) segments.now (is_asked members.now) }

    // On every host the rids ascend strictly, the rows fit the schema, and none has over 65,536 bytes.
    ensures columns { IfOk result (λ found. found.columns ≡ schema.now.columns) }
    ensures records { IfOk result (λ found. AreRecords schema.now 0 found.records) }
    ensures answer { (H.state host.old).tells ≡ true → MatchResult result
        (λ found. AreFirstRows schema.now (page_bytes (H.state host.old)) segments.now members.now found.records)
        (λ e. RefusesFirstRows e schema.now (page_bytes (H.state host.old)) segments.now lists.now members.now) }
{
    let wanted = union_of(alloc, members)?;
    let FirstKept { kept, left } = gather_firsts(alloc, host, schema, segments, &wanted)?;
    let mut records = kept;
    records.sort_by_rid()?;
    records.drop_repeats();
    match place_lacking(members, &left) {
        None => Ok(records),
        Some(place) => Err(FetchErr::Damaged {
            page: lists[place].page,
        }),
    }
}

// What is kept of the first segments: the records that were wanted, and the wanted rids that have none.
#[derive(Drop)]
struct FirstKept {
    kept: Table,
    left: Members,
}

// The records of the segments whose rids are wanted, one segment after the other, until each of these rids has one.
fn gather_firsts<H: Host>(
    alloc: Global,
    host: &mut H,
    schema: &Schema,
    segments: &[Extent],
    wanted: &Members,
) -> Result<FirstKept, FetchErr>
    ensures looked { Looked (H.state host.old) (H.state host.new) }
    ensures cause { IsErrOf result FetchErr.Host → Rose (H.state host.old).faults (H.state host.new).faults }
    ensures fetched { (H.state host.new).fetched ≤ (H.state host.old).fetched + sum_by (λ e. e.bytes) segments.now }
    ensures no_more { IsFetchedFirst schema.now (H.state host.old) (H.state host.new) segments.now (has wanted.now) }
    ensures columns { IfOk result (λ found. found.kept.columns ≡ schema.now.columns) }
    ensures records { IfOk result (λ found. AllByRecursion (IsRecord schema.now) found.kept.records) }
    ensures answer { (H.state host.old).tells ≡ true → MatchResult result
        (λ found. AreFirstWanted schema.now (page_bytes (H.state host.old)) segments.now wanted.now found.kept.records found.left)
        (λ e. RefusesFirstWanted e schema.now (page_bytes (H.state host.old)) segments.now wanted.now) }
{
    let mut kept = Table::new(alloc, schema)?;
    let mut left = wanted.copy(alloc)?;
    let mut piece = room(alloc, PIECE_BYTES)?;
    let mut cursor = Cursor::new(alloc, Extent { page: 0, bytes: 0 })?;
    for segment in segments {
        if left.len() == 0 {
            return Ok(FirstKept { kept, left });
        }
        cursor.begin(*segment);
        let rids = cursor.keep_wanted(alloc, host, schema, wanted, &mut piece, &mut kept)?;
        left = left.without(alloc, &rids)?;
    }
    Ok(FirstKept { kept, left })
}
