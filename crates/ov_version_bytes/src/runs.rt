//! The list and the segment of a version.

ghost use Rattle.std.specs.Prelude.{◌≡◌, ◌<◌, ◌≤◌, ◌^◌, length, map, min, IfOk, IfErr};
ghost use Rattle.std.specs.List.{All};
ghost use Rattle.std.specs.List.Sorted.{IsNonDecreasingBy};
ghost use Rattle.ov_value.specs.Shapes.{Shape};
ghost use Rattle.ov_value.specs.Spelling.{row_spelling};
ghost use Rattle.ov_member.specs.Lists.{spelling};
ghost use Rattle.ov_member.specs.Rids.{AreRids};
ghost use Rattle.ov_segment.specs.Segments.{record_bytes, segment_spelling};
ghost use Rattle.ov_catalog.specs.Reached.{AreRows};
ghost use Rattle.ov_core.specs.Brought.{extent_at};
ghost use Rattle.ov_core.specs.Rooms.{pages_for};
ghost use Rattle.ov_version_bytes.specs.Positions.{left_of, record_at, records_at};
ghost use Rattle.ov_version_bytes.specs.Written.{AreGiven, IsWhy, list_written, segment_written, not_held, numbered};

use crate::order::{Listed, by_rid, rids_of};
use crate::write_err::WriteErr;
use ov_host::Extent;
use ov_member::Members;
use ov_segment::{RowTable, append_record};
use std::alloc::{AllocError, Global};

/// A page has so many bytes.
const PAGE_BYTES: usize = ov_host::PAGE_BYTES as usize;

/// No run has so many pages.
const TOO_MANY_PAGES: u32 = ov_host::RUN_LIMIT;

/// A version's list, its segment, and how many records are in it.
#[derive(Drop)]
pub(crate) struct Runs {
    pub(crate) list: Vec<u8>,
    pub(crate) segment: Vec<u8>,
    pub(crate) added: u32,
}

/// The list of these rids, and the segment of the rows whose rids aren't held. The rows' bytes are copied once, into the segment.
pub(crate) fn runs_of(
    alloc: Global,
    rids: &[u32],
    rows: &RowTable,
    held: &Members,
) -> Result<Runs, WriteErr>
    requires rows { (schema : Shape) × AreRows schema rows.now }
    requires given { AreGiven rids.now rows.now }
    ensures list { IfOk result (λ runs. runs.list.items ≡ list_written rids.now) }
    ensures segment { IfOk result (λ runs. runs.segment.items ≡ segment_written held.now rids.now rows.now) }
    ensures added { IfOk result (λ runs. runs.added ≡ length (not_held held.now (numbered rids.now rows.now))) }
    ensures short { IfOk result (λ runs. pages_for runs.segment.items < 2 ^ 20) }
    ensures cause { IfErr result (λ why. IsWhy why held.now rids.now rows.now) }
{
    let records = by_rid(alloc, rids)?;
    let list = list_of(alloc, records.as_slice())?;
    let left = unheld(alloc, records.as_slice(), held)?;
    let added = left.len() as u32;
    let segment = segment_of(alloc, rows, left.as_slice())?;
    let segment_pages = pages_of(segment.as_slice());
    if segment_pages >= TOO_MANY_PAGES {
        return Err(WriteErr::TooLong {
            list_pages: pages_of(list.as_slice()),
            segment_pages,
        });
    }
    Ok(Runs {
        list,
        segment,
        added,
    })
}

// The bytes of the list of these records.
fn list_of(alloc: Global, records: &[Listed]) -> Result<Vec<u8>, AllocError>
    requires { AreRids (map (λ r. r.rid) records.now) }
    ensures { IfOk result (λ bytes. bytes.items ≡ spelling (map (λ r. r.rid) records.now)) }
{
    let rids = rids_of(alloc, records)?;
    match Members::of(alloc, rids.as_slice())? {
        Some(members) => Ok(members.list_bytes(alloc)?.into_vec()),
        None => unreachable!(),
    }
}

// Those that aren't held, in one walk beside the set.
fn unheld(alloc: Global, records: &[Listed], held: &Members) -> Result<Vec<Listed>, AllocError>
    requires { IsNonDecreasingBy (λ r. r.rid) records.now }
    ensures { IfOk result (λ left. left.items ≡ left_of held.now records.now) }
{
    let mut left = Vec::new(alloc);
    let mut ahead = held.ahead();
    for one in records {
        ahead = ahead.at(one.rid);
        if !ahead.is_inside() {
            left.push(*one)?;
        }
    }
    Ok(left)
}

// The bytes of the segment of these records.
fn segment_of(alloc: Global, rows: &RowTable, records: &[Listed]) -> Result<Vec<u8>, AllocError>
    requires there { All (λ r. r.row < length rows.now) records.now }
    requires small { All (λ row. length (row_spelling row).bytes ≤ 65536) rows.now }
    ensures { IfOk result (λ bytes. bytes.items ≡ segment_spelling (records_at rows.now records.now)) }
{
    let mut bytes = Vec::with_capacity(alloc, len_of(rows, records))?;
    for one in records {
        append_record(&mut bytes, one.rid, &rows.row(one.row as usize))?;
    }
    Ok(bytes)
}

// The number of these bytes, or the greatest number where it would pass that.
fn len_of(rows: &RowTable, records: &[Listed]) -> usize
    requires { All (λ r. r.row < length rows.now) records.now }
    ensures { result ≡ min (length (segment_spelling (records_at rows.now records.now))) usize.MAX }
{
    let mut len = 0usize;
    for one in records {
        len = len.saturating_add(record_len(rows, one));
    }
    len
}

fn record_len(rows: &RowTable, one: &Listed) -> usize
    requires { one.now.row < length rows.now }
    ensures { result ≡ min (length (record_bytes (record_at rows.now one.now))) usize.MAX }
{
    rows.row(one.row as usize).bytes().len().saturating_add(8)
}

// How many pages the bytes take.
fn pages_of(bytes: &[u8]) -> u32
    requires { length bytes.now < 2 ^ 43 }
    ensures { result ≡ pages_for bytes.now }
{
    bytes.len().div_ceil(PAGE_BYTES) as u32
}

/// The extent of these bytes, not placed yet.
pub(crate) fn unplaced(bytes: &[u8]) -> Extent
    requires { length bytes.now < 2 ^ 32 }
    ensures { result ≡ extent_at 0 bytes.now }
{
    Extent {
        page: 0,
        bytes: bytes.len() as u32,
    }
}
