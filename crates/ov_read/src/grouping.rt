// Which of the versions that were asked for a partition serves.

ghost use Rattle.std.specs.Prelude.{◌≡◌, ◌≤◌, ◌<◌, ◌^◌, ℕ, All, IfOk, length, map};
ghost use Rattle.std.specs.List.{filter_map};
ghost use Rattle.ov_catalog.specs.Sets.{set_in};
ghost use Rattle.ov_model.specs.Placed.{times};
ghost use Rattle.ov_read.specs.Agreement.{IsThere, list_of};
ghost use Rattle.ov_read.specs.Gathering.{ArePlaces, numbers_at, place_at, sets_at};

use ov_catalog::Cvd;
use ov_host::Extent;
use ov_layout::Part;
use ov_member::Members;
use std::alloc::{AllocError, Global};

/// For each version up to the last one where it stands among these, if it does.
pub(crate) fn places_of(
    alloc: Global,
    vids: &[u32],
    count: usize,
) -> Result<Vec<Option<usize>>, AllocError>
    requires few { count < 2 ^ 63 }
    requires there { All (λ vid. vid ≤ count) vids.now }
    requires once { (vid : ℕ) → times vids.now vid ≤ 1 }
    ensures { IfOk result (λ places. ArePlaces vids.now places.items) }
{
    let mut places = vec![in alloc; None; count + 1]?;
    for (place, vid) in vids.iter().enumerate() {
        places[*vid as usize] = Some(place);
    }
    Ok(places)
}

/// The places of the versions that a partition serves.
pub(crate) fn served(
    alloc: Global,
    part: &Part,
    places: &[Option<usize>],
) -> Result<Vec<usize>, AllocError>
    ensures { IfOk result (λ group. group.items ≡ filter_map (place_at places.now) part.now.versions) }
{
    let mut group = Vec::new(alloc);
    let versions = part.versions.as_slice();
    for vid in versions {
        match place_in(places, *vid) {
            Some(place) => group.push(place)?,
            None => {}
        }
    }
    Ok(group)
}

fn place_in(places: &[Option<usize>], vid: u32) -> Option<usize>
    ensures { result ≡ place_at places.now vid }
{
    let vid = vid as usize;
    if vid < places.len() {
        places[vid]
    } else {
        None
    }
}

/// The versions at these places.
pub(crate) fn vids_at(alloc: Global, vids: &[u32], group: &[usize]) -> Result<Vec<u32>, AllocError>
    requires { All (λ place. place < length vids.now) group.now }
    ensures { IfOk result (λ found. found.items ≡ numbers_at vids.now group.now) }
{
    let mut found = Vec::with_capacity(alloc, group.len())?;
    for place in group {
        found.push(vids[*place])?;
    }
    Ok(found)
}

/// The sets of rids at these places, as sets of their own.
pub(crate) fn copies_at(
    alloc: Global,
    lists: &[Members],
    group: &[usize],
) -> Result<Vec<Members>, AllocError>
    requires { All (λ place. place < length lists.now) group.now }
    ensures { IfOk result (λ found. found.items ≡ sets_at lists.now group.now) }
{
    let mut found = Vec::with_capacity(alloc, group.len())?;
    for place in group {
        found.push(lists[*place].copy(alloc)?)?;
    }
    Ok(found)
}

/// Where the lists of these versions are.
pub(crate) fn extents_of(alloc: Global, d: &Cvd, vids: &[u32]) -> Result<Vec<Extent>, AllocError>
    requires { All (IsThere (set_in d.now)) vids.now }
    ensures { IfOk result (λ extents. extents.items ≡ map (list_of (set_in d.now)) vids.now) }
{
    let mut extents = Vec::with_capacity(alloc, vids.len())?;
    for vid in vids {
        extents.push(d.versions[*vid as usize - 1].list)?;
    }
    Ok(extents)
}
