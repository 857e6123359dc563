// What is asked of a partition.

ghost use Rattle.std.specs.Prelude.{◌≡◌, ◌<◌, [], All, IfOk, OnOk, length, slice_index_or};
ghost use Rattle.ov_catalog.specs.Sets.{set_in};
ghost use Rattle.ov_member.specs.Rids.{AreRids};
ghost use Rattle.ov_read.specs.Agreement.{IsThere, list_of};
ghost use Rattle.ov_read.specs.Gathering.{ArePlaces};
ghost use Rattle.ov_copies.specs.Asking.{IsAsked, IsMore};

use crate::places::{extent_of, place_in};
use ov_catalog::Cvd;
use ov_host::Extent;
use ov_member::Members;
use std::alloc::{AllocError, Global};

/// Sets of rids, none of them empty, each of the list at the same place.
#[derive(Drop)]
pub(crate) struct Asked {
    pub sets: Vec<Members>,
    pub lists: Vec<Extent>,
}

/// Of the rids that are left those that the versions have that a partition serves. They are taken off those left.
pub(crate) fn asked_of(
    alloc: Global,
    d: &Cvd,
    served: &[u32],
    places: &[Option<usize>],
    versions: &[u32],
    lists: &[Members],
    left: &mut Members,
) -> Result<Asked, AllocError>
    requires places { ArePlaces versions.now places.now }
    requires there { All (IsThere (set_in d.now)) versions.now }
    requires paired { length lists.now ≡ length versions.now }
    requires set { AreRids left.old }
    ensures { IfOk result (IsAsked (set_in d.now) versions.now lists.now served.now served.now left.old left.new) }
{
    let mut asked = Asked {
        sets: Vec::new(alloc),
        lists: Vec::new(alloc),
    };
    for vid in served {
        match place_in(places, *vid) {
            Some(place) => ask_at(alloc, d, versions, lists, place, &mut asked, left)?,
            None => {}
        }
    }
    Ok(asked)
}

// Asks for those rids that are left and that the version at this place has.
fn ask_at(
    alloc: Global,
    d: &Cvd,
    versions: &[u32],
    lists: &[Members],
    place: usize,
    asked: &mut Asked,
    left: &mut Members,
) -> Result<(), AllocError>
    requires there { All (IsThere (set_in d.now)) versions.now }
    requires paired { length lists.now ≡ length versions.now }
    requires low { place < length versions.now }
    requires set { AreRids left.old }
    ensures set { OnOk result (AreRids left.new) }
    ensures more { OnOk result (IsMore (slice_index_or lists.now place []) (list_of (set_in d.now) (slice_index_or versions.now place 0)) left.old left.new asked.old asked.new) }
{
    let list = extent_of(d, versions[place]);
    ask(alloc, asked, left, &lists[place], list)
}

// Asks for those rids that are left and on this list, if there are any.
fn ask(
    alloc: Global,
    asked: &mut Asked,
    left: &mut Members,
    rids: &Members,
    list: Extent,
) -> Result<(), AllocError>
    requires set { AreRids left.old }
    ensures set { OnOk result (AreRids left.new) }
    ensures more { OnOk result (IsMore rids.now list left.old left.new asked.old asked.new) }
{
    let others = left.without(alloc, rids)?;
    let found = left.without(alloc, &others)?;
    if found.len() > 0 {
        asked.sets.push(found)?;
        asked.lists.push(list)?;
    }
    *left = others;
    Ok(())
}
