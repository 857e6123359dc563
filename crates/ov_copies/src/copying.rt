//! The records of a copy.

ghost use Rattle.std.specs.Prelude.{◌≡◌, ◌≤◌, ◌<◌, ◌^◌, ◌+◌, ℕ, true, not, ◌&&◌, ◌==◌, IsTrue, List, [], ◌∷◌, All, IfOk, IsErrOf, MatchResult, Some, length, map};
ghost use Rattle.ov_host.specs.Host.{Rose};
ghost use Rattle.ov_event.specs.Spelling.{IsEvent};
ghost use Rattle.ov_event.specs.declared.event.Event.TheVariants as says;
ghost use Rattle.ov_member.specs.Rids.{AreRids, has};
ghost use Rattle.ov_segment.specs.Segments.{AreRecords};
ghost use Rattle.ov_model.specs.Lists.{AreIn};
ghost use Rattle.ov_model.specs.Placed.{times};
ghost use Rattle.ov_model.specs.Records.{Rec, order_of};
ghost use Rattle.ov_model.specs.World.{Dataset, World};
ghost use Rattle.ov_catalog.specs.Ready.{IsSet};
ghost use Rattle.ov_catalog.specs.Sets.{set_in};
ghost use Rattle.ov_catalog.specs.Shown.{list_of as rids_listed, segment_of as segment_for};
ghost use Rattle.ov_catalog.specs.Testing.{is_extent};
ghost use Rattle.ov_core.specs.Brought.{IsUnplaced, extent_at, segments_in};
ghost use Rattle.ov_fetch.specs.Extents.{Looked, page_bytes, rids_of};
ghost use Rattle.ov_fetch.specs.Rows.{is_asked};
ghost use Rattle.ov_read.specs.Agreement.{IsThere};
ghost use Rattle.ov_read.specs.OfWorld.{IsSetOf, IsSpared, rids_in};
ghost use Rattle.ov_read.specs.Sizes.{segment_bytes_for};
ghost use Rattle.ov_copies.specs.Copies.{AreCopied, IsCopied, IsFetchedFew, IsSegmentOf, RefusesCopy};

use crate::gathering::gather;
use crate::places::first_page;
use crate::segment::{has_rids, segment_of, unplaced};
use ov_catalog::Cvd;
use ov_core::Brought;
use ov_event::Event;
use ov_fetch::FetchErr;
use ov_host::Host;
use ov_member::Members;
use ov_segment::Table;
use std::alloc::Global;

/// The records that a copy brings, and where they may be taken from.
pub struct Wanted<'a> {
    /// Numbers of versions, none twice.
    pub versions: &'a [u32],
    /// The rids of each of these versions.
    pub lists: &'a [Members],
    /// The rids of the records: one at least and 256 at most, each on one of the lists.
    pub rids: &'a Members,
}

/// What a copy of these records brings: its event, and their segment, in the order of the rids. The event's extent isn't
/// placed. Each record is the one that the partition of a version that has it keeps.
///
/// `Damaged` only where a partition serves a version with one of the rids, and the first of its segments have no record of it and
/// the next one is short or off its grammar, with that segment's first page; or where all its segments have no record of it, with
/// the first page of the list of a version that has it.
///
/// The segments of a partition are read in their order, and only until each rid that is asked of it has its record. A partition
/// that serves no version with a rid that none before it had isn't read at all. Time beside that: one step for each version of the dataset and each range of a list, and at each of these versions one
/// for each rid that is left; and the sorting and copying of the records.
pub fn copy_of<H: Host>(
    alloc: Global,
    host: &mut H,
    d: &Cvd,
    wanted: Wanted<'_>,
) -> Result<Brought, FetchErr>
    requires sound { IsSet d.now }
    requires there { All (IsThere (set_in d.now)) wanted.versions.now }
    requires once { (vid : ℕ) → times wanted.versions.now vid ≤ 1 }
    requires paired { length wanted.lists.now ≡ length wanted.versions.now }
    requires some { 1 ≤ length wanted.rids.now }
    requires few { length wanted.rids.now ≤ 256 }
    requires listed { (rid : ℕ) → has wanted.rids.now rid ≡ true → is_asked wanted.lists.now rid ≡ true }
    ensures looked { Looked (H.state host.old) (H.state host.new) }
    ensures cause { IsErrOf result FetchErr.Host → Rose (H.state host.old).faults (H.state host.new).faults }
    ensures fetched { (H.state host.new).fetched ≤ (H.state host.old).fetched + segment_bytes_for (set_in d.now) wanted.entry.versions.now }
    ensures no_more { IsFetchedFew (H.state host.old) (H.state host.new) (set_in d.now) wanted.entry.versions.now wanted.entry.lists.now wanted.entry.rids.now }

    // On every host.
    ensures unplaced { IfOk result IsUnplaced }
    ensures event { IfOk result (λ b. IsEvent b.event) }
    ensures is { IfOk result (λ b. (b.event ≡ says.Copy d.now.number (length wanted.entry.rids.now) (extent_at 0 b.segment.items)) × (b.list.items ≡ []) × (0 < length b.segment.items)) }
    ensures segment { IfOk result (λ b. IsSegmentOf d.now.schema wanted.entry.rids.now b.segment.items) }
    ensures may_be_placed { IfOk result (λ b. IsTrue (not ((extent_at 0 b.segment.items).bytes == 0) && is_extent (extent_at 0 b.segment.items))) }

    // Where the host tells its bytes.
    ensures answer { (H.state host.old).tells ≡ true → MatchResult result
        (λ b. IsCopied (page_bytes (H.state host.old)) (set_in d.now) wanted.entry.versions.now wanted.entry.lists.now wanted.entry.rids.now b.segment.items)
        (λ e. RefusesCopy e (page_bytes (H.state host.old)) (set_in d.now) wanted.entry.versions.now wanted.entry.lists.now wanted.entry.rids.now) }

    // Where these bytes stand for a World.
    ensures world { (H.state host.old).tells ≡ true → (w : World) (ds : Dataset) (piece : List Rec)
        → IsSetOf w ds (page_bytes (H.state host.old)) (set_in d.now)
        → wanted.entry.lists.now ≡ map (rids_in ds) wanted.entry.versions.now
        → wanted.entry.rids.now ≡ rids_listed (order_of ds.cvd.versions) piece
        → AreIn piece (order_of ds.cvd.versions)
        → MatchResult result (λ b. segments_in b.segment.items ≡ Some (segment_for (order_of ds.cvd.versions) piece) ∷ []) IsSpared }
{
    let Wanted {
        versions,
        lists,
        rids,
    } = wanted;
    let count = rids.len();
    let records = records_of(alloc, host, d, versions, lists, rids)?;
    let segment = segment_of(alloc, &records)?;
    Ok(Brought {
        event: copy_event(d.number, count, &segment),
        list: Vec::new(alloc),
        segment,
    })
}

// The records of these rids, in their order.
fn records_of<H: Host>(
    alloc: Global,
    host: &mut H,
    d: &Cvd,
    versions: &[u32],
    lists: &[Members],
    rids: &Members,
) -> Result<Table, FetchErr>
    requires sound { IsSet d.now }
    requires there { All (IsThere (set_in d.now)) versions.now }
    requires once { (vid : ℕ) → times versions.now vid ≤ 1 }
    requires paired { length lists.now ≡ length versions.now }
    requires set { AreRids rids.now }
    requires some { 1 ≤ length rids.now }
    requires listed { (rid : ℕ) → has rids.now rid ≡ true → is_asked lists.now rid ≡ true }
    ensures looked { Looked (H.state host.old) (H.state host.new) }
    ensures cause { IsErrOf result FetchErr.Host → Rose (H.state host.old).faults (H.state host.new).faults }
    ensures fetched { (H.state host.new).fetched ≤ (H.state host.old).fetched + segment_bytes_for (set_in d.now) versions.now }
    ensures no_more { IsFetchedFew (H.state host.old) (H.state host.new) (set_in d.now) versions.now lists.now rids.now }
    ensures are { IfOk result (λ found. AreRecords d.now.schema 0 found.records) }
    ensures rids { IfOk result (λ found. rids_of found.records ≡ rids.now) }
    ensures answer { (H.state host.old).tells ≡ true → MatchResult result
        (λ found. AreCopied (page_bytes (H.state host.old)) (set_in d.now) versions.now lists.now rids.now found.records)
        (λ e. RefusesCopy e (page_bytes (H.state host.old)) (set_in d.now) versions.now lists.now rids.now) }
{
    let mut records = gather(alloc, host, d, versions, lists, rids)?;
    records.sort_by_rid()?;
    // Of a host that doesn't tell its bytes no clause says which records it gives, so that is tested.
    if !has_rids(alloc, &records, rids)? {
        return Err(FetchErr::Damaged {
            page: first_page(d, versions),
        });
    }
    Ok(records)
}

// The event of a copy of so many records, whose segment has these bytes.
fn copy_event(cvd: u32, count: u32, segment: &[u8]) -> Event
    requires { length segment.now < 2 ^ 32 }
    ensures made { result ≡ says.Copy cvd count (extent_at 0 segment.now) }
    ensures event { IsEvent result }
{
    Event::Copy {
        cvd,
        count,
        segment: unplaced(segment),
    }
}
