//! The lists of all versions.

ghost use Rattle.std.specs.Prelude.{◌≡◌, ◌≤◌, ◌<◌, ◌+◌, ◌↔◌, true, [], length, map, slice_index_or, IsTrue, IsErrOf, IfOk, MatchOption, MatchResult, All};
ghost use Rattle.std.specs.List.{AllZip};
ghost use Rattle.ov_graph.specs.Trees.{vids};
ghost use Rattle.ov_host.specs.Host.{Rose};
ghost use Rattle.ov_member.specs.Rids.{AreRids};
ghost use Rattle.ov_catalog.specs.Sets.{set_in};
ghost use Rattle.ov_fetch.specs.Extents.{Looked, page_bytes};
ghost use Rattle.ov_read.specs.Sizes.{list_bytes_for};
ghost use Rattle.ov_optimize.specs.Damages.{RefusesAllLists};
ghost use Rattle.ov_optimize.specs.Reading.{IsListAt, IsListOf, all_vids};

use ov_catalog::Cvd;
use ov_fetch::FetchErr;
use ov_host::Host;
use ov_member::Members;
use ov_read::lists_of;
use std::alloc::{AllocError, Global};

/// The vids from 1 to a count.
fn vids_to(alloc: Global, count: usize) -> Result<Vec<u32>, AllocError>
    requires { count ≤ 65535 }
    ensures { IfOk result (λ all. all.items ≡ vids count) }
{
    let mut all = Vec::with_capacity(alloc, count)?;
    for vid in 0..count {
        all.push(vid as u32 + 1)?;
    }
    Ok(all)
}

/// Whether none of these rids is over the last one.
fn is_within(rids: &Members, last: u32) -> bool
    ensures within { IsTrue result ↔ All (λ rid. rid ≤ last) rids.now }
    ensures set { AreRids rids.now }
{
    // Only this call says that rids ascend, each once.
    let _ = rids.len();
    match rids.greatest() {
        Some(rid) => rid <= last,
        None => true,
    }
}

/// Where the first list stands that has a rid over the last one.
fn first_over(lists: &[Members], last: u32) -> Option<usize>
    ensures sets { result ≡ None → All AreRids lists.now }
    ensures found { MatchOption result (All (λ rids. All (λ rid. rid ≤ last) rids) lists.now)
        (λ at. (at < length lists.now) × (All (λ rid. rid ≤ last) (slice_index_or lists.now at []) → ⊥)) }
{
    for (at, rids) in lists.iter().enumerate() {
        if !is_within(rids, last) {
            return Some(at);
        }
    }
    None
}

/// The lists of all versions, in their order, each read once. `Damaged` where one of them is short, off its grammar, or doesn't agree
/// with its version's numbers, or has a rid that the dataset doesn't have.
pub fn all_lists<H: Host>(alloc: Global, host: &mut H, d: &Cvd) -> Result<Vec<Members>, FetchErr>
    requires { length d.now.versions.items ≤ 65535 }
    ensures looked { Looked (H.state host.old) (H.state host.new) }
    ensures cause { IsErrOf result FetchErr.Host → Rose (H.state host.old).faults (H.state host.new).faults }
    ensures fetched { (H.state host.new).fetched ≤ (H.state host.old).fetched + list_bytes_for (set_in d.now) (all_vids (set_in d.now)) }
    ensures listed { IfOk result (λ lists. AllZip (IsListOf (set_in d.now)) (all_vids (set_in d.now)) lists.items) }
    ensures answer { (H.state host.old).tells ≡ true → MatchResult result
        (λ lists. AllZip (IsListAt (page_bytes (H.state host.old)) (set_in d.now)) (all_vids (set_in d.now)) lists.items)
        (λ e. RefusesAllLists e (page_bytes (H.state host.old)) (set_in d.now)) }
{
    let vids = vids_to(alloc, d.versions.len())?;
    let lists = lists_of(alloc, host, d, &vids)?;
    match first_over(&lists, d.records) {
        None => Ok(lists),
        Some(at) => Err(FetchErr::Damaged {
            page: d.versions[at].list.page,
        }),
    }
}
