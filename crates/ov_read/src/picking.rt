// The rows of some versions out of the segments of one partition.

ghost use Rattle.std.specs.Prelude.{◌≡◌, ◌≤◌, ◌<◌, ◌+◌, ◌^◌, ℕ, true, All, IfOk, OnOk, IfErr, IsErrOf, MatchOption, length};
ghost use Rattle.std.specs.List.{AllZip, sum_by};
ghost use Rattle.ov_host.specs.Host.{Rose};
ghost use Rattle.ov_fetch.specs.Extents.{Looked, page_bytes};
ghost use Rattle.ov_fetch.specs.Rows.{HaveRids, RefusesRows};
ghost use Rattle.ov_fetch.specs.Scans.{AllFit, AllStand};
ghost use Rattle.ov_read.specs.Gathering.{AreFull, ArePut, IsNotFull, IsRowsOf, moved};

use crate::scanning::picks_of;
use ov_fetch::{FetchErr, Pick, SegmentsRead, rows_and_rids_of};
use ov_host::{Extent, Host};
use ov_member::Members;
use ov_segment::Table;
use ov_value::Schema;
use std::alloc::{AllocError, Global};

/// The records of some versions out of the segments of one partition, for each version the positions of its rows among
/// them, and the rids of each segment.
#[derive(Drop)]
pub(crate) struct PartRead {
    pub records: Table,
    pub picks: Vec<Pick>,
    pub rids: Vec<Members>,
}

/// The rows of versions whose lists are these members, out of these segments.
pub(crate) fn scan_part<H: Host>(
    alloc: Global,
    host: &mut H,
    schema: &Schema,
    segments: &[Extent],
    lists: &[Extent],
    members: &[Members],
) -> Result<PartRead, FetchErr>
    requires { length lists.now ≡ length members.now }
    ensures looked { Looked (H.state host.old) (H.state host.new) }
    ensures cause { IsErrOf result FetchErr.Host → Rose (H.state host.old).faults (H.state host.new).faults }
    ensures fetched { (H.state host.new).fetched ≤ (H.state host.old).fetched + sum_by (λ e. e.bytes) segments.now }
    ensures columns { IfOk result (λ read. read.records.columns ≡ schema.now.columns) }
    ensures fit { IfOk result (λ read. AllFit schema.now read.records.records) }
    ensures stand { IfOk result (λ read. All (AllStand read.records.records) read.picks.items) }
    ensures rows { IfOk result (λ read. AllZip (IsRowsOf schema.now (H.state host.old) segments.now read.records.records) members.now read.picks.items) }
    ensures rids { (H.state host.old).tells ≡ true
        → IfOk result (λ read. HaveRids schema.now (page_bytes (H.state host.old)) segments.now read.rids.items) }
    ensures err { (H.state host.old).tells ≡ true
        → IfErr result (λ e. RefusesRows e schema.now (page_bytes (H.state host.old)) segments.now lists.now members.now) }
{
    let SegmentsRead { records, rids } = rows_and_rids_of(
        alloc, host, schema, segments, lists, members,
    )?;
    let picks = picks_of(alloc, schema, &records, members)?;
    // Each member has its record, or the reading had refused; so no pick is short.
    match place_short(&picks, members) {
        None => Ok(PartRead {
            records,
            picks,
            rids,
        }),
        Some(place) => Err(FetchErr::Damaged {
            page: lists[place].page,
        }),
    }
}

// The place of the first pick that doesn't have as many positions as there are members.
fn place_short(picks: &[Pick], members: &[Members]) -> Option<usize>
    requires { length picks.now ≡ length members.now }
    ensures { MatchOption result (AreFull (length members.now) picks.now members.now) (IsNotFull picks.now members.now) }
{
    for (place, rids) in members.iter().enumerate() {
        if picks[place].as_slice().len() != rids.len() as usize {
            return Some(place);
        }
    }
    None
}

/// Puts the picks at their places, moved behind so many records.
pub(crate) fn put(
    alloc: Global,
    picks: &mut Vec<Pick>,
    group: &[usize],
    more: &[Pick],
    base: usize,
) -> Result<(), AllocError>
    requires paired { length more.now ≡ length group.now }
    requires there { All (λ place. place < length picks.old.items) group.now }
    requires fit { All (All (λ place. base + place < 2 ^ 64)) more.now }
    ensures { OnOk result (ArePut (length group.now) base group.now more.now picks.old.items picks.new.items) }
{
    for (k, place) in group.iter().enumerate() {
        picks[*place] = moved_pick(alloc, more[k].as_slice(), base)?;
    }
    Ok(())
}

fn moved_pick(alloc: Global, pick: &[usize], base: usize) -> Result<Pick, AllocError>
    requires { All (λ place. base + place < 2 ^ 64) pick.now }
    ensures { IfOk result (λ new. new ≡ moved base pick.now) }
{
    let mut places = Vec::with_capacity(alloc, pick.len())?;
    for place in pick {
        places.push(base + *place)?;
    }
    Ok(Pick::new(places))
}
