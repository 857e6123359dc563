//! Records of worked versions: their numbers, and how many of them versions share; and where a version more would go.

use crate::people::{schema, versions};
use ov_model::Seq;
use ov_place::{Place, PlaceFacts, place};
use ov_plain::{Rec, Version, heaviest, order_of, plain_place, recs, rid_in, weights};
use std::alloc::Global;
use std::test::*;

/// The records of each version.
fn each(alloc: Global, versions: &[Version]) -> Result<Seq<Seq<Rec>>, Fail> {
    if versions.len() > 65_535 {
        return Err("too many versions")?;
    }
    Ok(recs(alloc, versions, Seq::new(alloc))?)
}

/// All records, in the order of their numbers.
fn all(alloc: Global, versions: &[Version]) -> Result<Seq<Rec>, Fail> {
    if versions.len() > 65_535 {
        return Err("too many versions")?;
    }
    Ok(order_of(alloc, versions)?)
}

fn rids_in(alloc: Global, all: &[Rec], own: &[Rec]) -> Result<Vec<u32>, Fail> {
    let mut found = Vec::new(alloc);
    if all.len() >= 4_294_967_295 {
        return Err("too many records")?;
    }
    for rec in own {
        found.push(rid_in(all, rec))?;
    }
    Ok(found)
}

/// The numbers of a version's records.
fn rids(alloc: Global, versions: &[Version], at: usize) -> Result<Vec<u32>, Fail> {
    let all = all(alloc, versions)?;
    let each = each(alloc, versions)?;
    match each.as_slice().get(at) {
        Some(own) => rids_in(alloc, all.as_slice(), own.as_slice()),
        None => Err("no such version")?,
    }
}

fn shared(
    alloc: Global,
    each: &[Seq<Rec>],
    at: usize,
    parents: &[u32],
) -> Result<Seq<(u32, u32)>, Fail> {
    match each.get(at) {
        Some(own) if own.len() < 4_294_967_295 => Ok(weights(
            alloc,
            parents,
            own.as_slice(),
            each,
        )?),
        _ => Err("no such version")?,
    }
}

/// A version's parents, each with the number of records that it shares with it.
fn edges(alloc: Global, versions: &[Version], at: usize) -> Result<Seq<(u32, u32)>, Fail> {
    let each = each(alloc, versions)?;
    match versions.get(at) {
        Some(version) => shared(alloc, each.as_slice(), at, version.parents.as_slice()),
        None => Err("no such version")?,
    }
}

/// The numbers of a version's records, its edges, and the one to its tree parent.
type Told = (&'static [u32], &'static [(u32, u32)], (u32, u32));

// The third version's `bob` is a new record, though the first one had such a row: no parent gave it. Of edges of one weight the one
// to the parent listed first counts.
const TOLD: [Told; 6] = [
    (&[1, 2], &[], (0, 0)),
    (&[1, 3, 4], &[(1, 1)], (1, 1)),
    (&[1, 5], &[(2, 1)], (2, 1)),
    (&[1, 2, 4], &[(1, 2), (2, 2)], (1, 2)),
    (&[1, 2, 4], &[(2, 2), (1, 2)], (2, 2)),
    (&[1, 2], &[(2, 1), (1, 2), (4, 2)], (1, 2)),
];

#[test]
fn records_have_numbers_and_are_shared(rt: HostRuntime) -> Result<(), Fail> {
    let alloc = rt.alloc();
    let versions = versions(alloc, &schema(alloc)?)?;
    for (at, (numbers, shares, tree)) in TOLD.iter().enumerate() {
        assert_eq!(rt; rids(alloc, versions.as_slice(), at)?.as_slice(), *numbers);
        let found = edges(alloc, versions.as_slice(), at)?;
        assert_eq!(rt; found.as_slice(), *shares);
        assert_eq!(rt; heaviest(found.as_slice()), *tree);
    }
    Ok(())
}

// A dataset of 8 records at the threshold 3/4, of which 9 are stored.
const FACTS: PlaceFacts = PlaceFacts {
    threshold: Some((3, 4)),
    unmoved: false,
    weight: 1,
    records: 8,
    stored: 9,
    parent: 3,
};

// The weight and what is stored, at that threshold: `4 * 1 <= 3 * 8` and `9 < 16`; equality of the first test counts, that of
// the second doesn't.
const PLACES: [(PlaceFacts, Place); 7] = [
    (FACTS, Place::Own),
    (PlaceFacts { weight: 6, ..FACTS }, Place::Own),
    (PlaceFacts { weight: 7, ..FACTS }, Place::Join(3)),
    (
        PlaceFacts {
            stored: 15,
            ..FACTS
        },
        Place::Own,
    ),
    (
        PlaceFacts {
            stored: 16,
            ..FACTS
        },
        Place::Join(3),
    ),
    (
        PlaceFacts {
            threshold: None,
            ..FACTS
        },
        Place::Join(3),
    ),
    (
        PlaceFacts {
            threshold: None,
            unmoved: true,
            ..FACTS
        },
        Place::Own,
    ),
];

#[test]
fn the_shipped_placement_is_the_plain_one(rt: HostRuntime) {
    for (facts, wanted) in PLACES {
        assert_eq!(rt; plain_place(&facts), wanted, "{facts:?}");
        assert_eq!(rt; place(&facts), wanted, "{facts:?}");
    }
}
