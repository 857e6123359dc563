// The lists of versions.

ghost use Rattle.std.specs.Prelude.{◌≡◌, ◌≤◌, ◌+◌, ◌^◌, true, [], map, All, IfOk, IfErr, IsErrOf, MatchResult};
ghost use Rattle.std.specs.List.{AllZip};
ghost use Rattle.ov_host.specs.Host.{Rose};
ghost use Rattle.ov_catalog.specs.Sets.{set_in};
ghost use Rattle.ov_fetch.specs.Extents.{Looked, page_bytes, IsList};
ghost use Rattle.ov_read.specs.Agreement.{IsThere, list_of, records_after, Agrees, IsBorneOut};
ghost use Rattle.ov_read.specs.Counting.{AreCounts, RefusesTested, capped};
ghost use Rattle.ov_read.specs.Damages.{RefusesList, RefusesLists};
ghost use Rattle.ov_model.specs.World.{Dataset, World};
ghost use Rattle.ov_read.specs.OfWorld.{IsSetOf, IsSpared, rids_in};
ghost use Rattle.ov_read.specs.Sizes.{list_bytes_for};

use crate::agreeing::is_borne_out;
use ov_catalog::{Cvd, Version};
use ov_fetch::{FetchErr, list_of};
use ov_host::{Extent, Host};
use ov_member::{LAST_RID, Members};
use std::alloc::{AllocError, Global};

/// The lists of these versions, each tested against the numbers of its version. `Damaged` exactly where one of them is
/// short, off its grammar, or doesn't agree, with the first page of one such list.
///
/// Each list is read once. Time beside that: one step for each version of the dataset.
pub fn lists_of<H: Host>(
    alloc: Global,
    host: &mut H,
    d: &Cvd,
    vids: &[u32],
) -> Result<Vec<Members>, FetchErr>
    requires { All (IsThere (set_in d.now)) vids.now }
    ensures looked { Looked (H.state host.old) (H.state host.new) }
    ensures cause { IsErrOf result FetchErr.Host → Rose (H.state host.old).faults (H.state host.new).faults }
    ensures fetched { (H.state host.new).fetched ≤ (H.state host.old).fetched + list_bytes_for (set_in d.now) vids.now }
    ensures still { vids.now ≡ [] → H.state host.new ≡ H.state host.old }
    ensures idle { vids.now ≡ [] → IfErr result (λ e. e ≡ FetchErr.Memory) }

    // On every host each list has as many rids as its version has rows, and no rid that came later.
    ensures agree { IfOk result (λ lists. AllZip (Agrees (set_in d.now)) vids.now lists.items) }
    ensures answer { (H.state host.old).tells ≡ true → MatchResult result
        (λ lists. AllZip (λ vid. IsList (page_bytes (H.state host.old)) (list_of (set_in d.now) vid)) vids.now lists.items)
        (λ e. RefusesLists e (page_bytes (H.state host.old)) (set_in d.now) vids.now) }

    // Where the pages stand for a World, nothing is damaged, and each list has the rids of its version's records.
    ensures world { (H.state host.old).tells ≡ true → (w : World) (ds : Dataset)
        → IsSetOf w ds (page_bytes (H.state host.old)) (set_in d.now)
        → MatchResult result (λ lists. lists.items ≡ map (rids_in ds) vids.now) IsSpared }
{
    read_lists(alloc, host, d, vids)
}

// The lists of these versions.
fn read_lists<H: Host>(
    alloc: Global,
    host: &mut H,
    d: &Cvd,
    vids: &[u32],
) -> Result<Vec<Members>, FetchErr>
    requires { All (IsThere (set_in d.now)) vids.now }
    ensures looked { Looked (H.state host.old) (H.state host.new) }
    ensures cause { IsErrOf result FetchErr.Host → Rose (H.state host.old).faults (H.state host.new).faults }
    ensures fetched { (H.state host.new).fetched ≤ (H.state host.old).fetched + list_bytes_for (set_in d.now) vids.now }
    ensures still { vids.now ≡ [] → H.state host.new ≡ H.state host.old }
    ensures idle { vids.now ≡ [] → IfErr result (λ e. e ≡ FetchErr.Memory) }
    ensures agree { IfOk result (λ lists. AllZip (Agrees (set_in d.now)) vids.now lists.items) }
    ensures answer { (H.state host.old).tells ≡ true → MatchResult result
        (λ lists. AllZip (λ vid. IsList (page_bytes (H.state host.old)) (list_of (set_in d.now) vid)) vids.now lists.items)
        (λ e. RefusesLists e (page_bytes (H.state host.old)) (set_in d.now) vids.now) }
{
    let counts = counts_after(alloc, &d.versions)?;
    let mut lists = Vec::with_capacity(alloc, vids.len())?;
    for vid in vids {
        let last = counts[*vid as usize - 1];
        lists.push(list_at(alloc, host, d, *vid, last)?)?;
    }
    Ok(lists)
}

// The list of one version, after which the dataset had `last` records.
fn list_at<H: Host>(
    alloc: Global,
    host: &mut H,
    d: &Cvd,
    vid: u32,
    last: u32,
) -> Result<Members, FetchErr>
    requires there { IsThere (set_in d.now) vid }
    requires last { last ≡ capped (records_after (set_in d.now) vid) }
    ensures looked { Looked (H.state host.old) (H.state host.new) }
    ensures cause { IsErrOf result FetchErr.Host → Rose (H.state host.old).faults (H.state host.new).faults }
    ensures fetched { (H.state host.new).fetched ≤ (H.state host.old).fetched + (list_of (set_in d.now) vid).bytes }
    ensures agrees { IfOk result (Agrees (set_in d.now) vid) }
    ensures answer { (H.state host.old).tells ≡ true → MatchResult result
        (IsList (page_bytes (H.state host.old)) (list_of (set_in d.now) vid))
        (λ e. RefusesList e (page_bytes (H.state host.old)) (set_in d.now) vid) }
{
    let version = &d.versions[vid as usize - 1];
    tested_list(alloc, host, version.list, version.rows, last)
}

// A list that must have so many rids, none of them over `last`.
fn tested_list<H: Host>(
    alloc: Global,
    host: &mut H,
    list: Extent,
    rows: u32,
    last: u32,
) -> Result<Members, FetchErr>
    ensures looked { Looked (H.state host.old) (H.state host.new) }
    ensures cause { IsErrOf result FetchErr.Host → Rose (H.state host.old).faults (H.state host.new).faults }
    ensures fetched { (H.state host.new).fetched ≤ (H.state host.old).fetched + list.bytes }
    ensures agrees { IfOk result (IsBorneOut rows last) }
    ensures answer { (H.state host.old).tells ≡ true → MatchResult result
        (IsList (page_bytes (H.state host.old)) list)
        (λ e. RefusesTested e (page_bytes (H.state host.old)) list rows last) }
{
    let rids = list_of(alloc, host, list)?;
    if is_borne_out(&rids, rows, last) {
        Ok(rids)
    } else {
        Err(FetchErr::Damaged { page: list.page })
    }
}

// How many records the dataset had directly after each of its versions; 2^31 for all that are more, since no rid is
// greater.
fn counts_after(alloc: Global, versions: &[Version]) -> Result<Vec<u32>, AllocError>
    ensures { IfOk result (λ counts. AreCounts versions.now counts.items) }
{
    let mut counts = Vec::with_capacity(alloc, versions.len())?;
    let mut records = 0;
    for version in versions {
        records = added(records, version.fresh);
        counts.push(records)?;
    }
    Ok(counts)
}

fn added(records: u32, fresh: u32) -> u32
    requires { records ≤ 2 ^ 31 }
    ensures { result ≡ capped (records + fresh) }
{
    if fresh > LAST_RID - records {
        LAST_RID
    } else {
        records + fresh
    }
}
