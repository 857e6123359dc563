// Where versions stand among those that were asked for, and where their lists are.

ghost use Rattle.std.specs.Prelude.{◌≡◌, ◌≤◌, ◌<◌, ◌^◌, ℕ, All, IfOk, length, slice_index_or};
ghost use Rattle.ov_catalog.specs.Sets.{set_in};
ghost use Rattle.ov_model.specs.Placed.{times};
ghost use Rattle.ov_read.specs.Agreement.{IsThere, list_of};
ghost use Rattle.ov_read.specs.Gathering.{ArePlaces, place_at};

use ov_catalog::Cvd;
use ov_host::Extent;
use std::alloc::{AllocError, Global};

/// For each version up to the last one where it stands among these, if it does.
pub(crate) fn places_of(
    alloc: Global,
    versions: &[u32],
    count: usize,
) -> Result<Vec<Option<usize>>, AllocError>
    requires few { count < 2 ^ 63 }
    requires there { All (λ vid. vid ≤ count) versions.now }
    requires once { (vid : ℕ) → times versions.now vid ≤ 1 }
    ensures { IfOk result (λ places. ArePlaces versions.now places.items) }
{
    let mut places = vec![in alloc; None; count + 1]?;
    for (place, vid) in versions.iter().enumerate() {
        places[*vid as usize] = Some(place);
    }
    Ok(places)
}

/// The place of a version, if it has one.
pub(crate) fn place_in(places: &[Option<usize>], vid: u32) -> Option<usize>
    ensures { result ≡ place_at places.now vid }
{
    let vid = vid as usize;
    if vid < places.len() {
        places[vid]
    } else {
        None
    }
}

/// Where the list of a version is.
pub(crate) fn extent_of(d: &Cvd, vid: u32) -> Extent
    requires { IsThere (set_in d.now) vid }
    ensures { result ≡ list_of (set_in d.now) vid }
{
    d.versions[vid as usize - 1].list
}

/// The first page of the list of the first of these versions.
pub(crate) fn first_page(d: &Cvd, versions: &[u32]) -> u32
    requires there { All (IsThere (set_in d.now)) versions.now }
    requires some { 1 ≤ length versions.now }
    ensures { result ≡ (list_of (set_in d.now) (slice_index_or versions.now 0 0)).page }
{
    extent_of(d, versions[0]).page
}
