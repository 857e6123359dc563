//! Moves of a dataset: how it begins, and a version more.

ghost use Rattle.std.specs.Prelude.{◌≡◌, ◌+◌, ◌++◌, ◌^◌, ◌≤◌, ◌<◌, ◌==◌, [], ◌∷◌, length, map, if◌then◌else◌, codes, IfOk};
ghost use Rattle.std.specs.List.{list_any};
ghost use Rattle.ov_model.specs.Moves.{tree_edge_of, facts_of, placed_at, piece_of, with_joined, own_part, parts_with, next_with, with_version, new_set};
ghost use Rattle.ov_model.specs.Records.{lacking, ordered_records, records_of};
ghost use Rattle.ov_model.specs.World.{held, is_one, part_of, is_unmoved, stored};

use crate::copies::{Copies, both, copies_of, onto, with_first, with_last};
use crate::dataset::{Cvd, Dataset, Part, Plan, Target};
use crate::placement::{heaviest, plain_place};
use crate::plans::{held, is_one};
use crate::rec::{Rec, Version};
use crate::records::{lacking, order_of, ordered_records, records_of, recs, weights};
use crate::sizes::stored;
use crate::steps::targets_from;
use ov_place::{Place, PlaceFacts};
use ov_value::{Row, Schema, Txt};
use sqlite_items::Items;
use std::alloc::{AllocError, Global};

/// The parent that the reduced tree keeps for a new version, and the weight of its edge.
fn tree_edge_of(alloc: Global, set: &Dataset, version: &Version) -> Result<(u32, u32), AllocError>
    requires versions { length set.now.cvd.versions < 65535 }
    requires rows { length version.now.rows < 4294967295 }
    ensures { IfOk result (λ edge. edge ≡ tree_edge_of set.now version.now) }
{
    let done = recs(alloc, set.cvd.versions.as_slice(), Items::new(alloc))?;
    let own = records_of(alloc, version, done.as_slice())?;
    let edges = weights(
        alloc,
        version.parents.as_slice(),
        own.as_slice(),
        done.as_slice(),
    )?;
    Ok(heaviest(edges.as_slice()))
}

/// The number of the partition that serves a version; 0 where none does.
fn part_of(parts: &[Part], vid: u32) -> u32
    ensures { result ≡ part_of parts.now vid }
{
    match parts {
        [] => 0,
        [part, rest @ ..] => {
            if is_one(part.versions.as_slice(), vid) {
                part.id
            } else {
                part_of(rest, vid)
            }
        }
    }
}

/// Whether a version is one of a target's.
fn is_in_target(targets: &[Target], vid: u32) -> bool
    ensures { result ≡ list_any (λ t. is_one t.versions vid) targets.now }
{
    match targets {
        [] => false,
        [target, rest @ ..] => is_one(target.versions.as_slice(), vid) || is_in_target(rest, vid),
    }
}

/// Whether a version is in a target that wasn't flipped yet while a plan runs.
fn is_unmoved(plan: &Option<Plan>, vid: u32) -> bool
    ensures { result ≡ is_unmoved plan.now vid }
{
    match plan {
        None => false,
        Some(plan) => is_in_target(targets_from(plan.at, plan.targets.as_slice()), vid),
    }
}

/// What decides on a version's place.
fn facts_of(alloc: Global, set: &Dataset, edge: (u32, u32)) -> Result<PlaceFacts, AllocError>
    requires versions { length set.now.cvd.versions ≤ 65535 }
    requires parts { length set.now.parts ≤ 65535 }
    requires stored { stored set.now < 2 ^ 64 }
    ensures { IfOk result (λ facts. facts ≡ facts_of set.now edge) }
{
    let all = order_of(alloc, set.cvd.versions.as_slice())?;
    let kept = stored(alloc, set)?;
    Ok(PlaceFacts {
        threshold: set.threshold,
        unmoved: is_unmoved(&set.plan, edge.0),
        weight: edge.1,
        records: all.len() as u64,
        stored: kept as u64,
        parent: part_of(set.parts.as_slice(), edge.0),
    })
}

/// Where a new version goes.
pub fn placed_at(alloc: Global, set: &Dataset, version: &Version) -> Result<Place, AllocError>
    requires versions { length set.now.cvd.versions < 65535 }
    requires rows { length version.now.rows < 4294967295 }
    requires parts { length set.now.parts ≤ 65535 }
    requires stored { stored set.now < 2 ^ 64 }
    ensures { IfOk result (λ place. place ≡ placed_at set.now version.now) }
{
    let edge = tree_edge_of(alloc, set, version)?;
    let facts = facts_of(alloc, set, edge)?;
    Ok(plain_place(&facts))
}

/// A piece of these records; none where there are none.
fn piece_of(alloc: Global, recs: &[Rec]) -> Result<Items<Items<Rec>>, AllocError>
    ensures { IfOk result (λ pieces. pieces ≡ piece_of recs.now) }
{
    match recs {
        [] => Ok(Items::new(alloc)),
        [_, ..] => onto(alloc, copies_of(alloc, recs)?, Items::new(alloc)),
    }
}

/// These versions and one more.
fn with_vid(alloc: Global, versions: &[u32], vid: u32) -> Result<Items<u32>, AllocError>
    ensures { IfOk result (λ all. all ≡ versions.now ++ vid ∷ []) }
{
    with_last(Items::from_slice(alloc, versions)?, vid)
}

/// The pieces of a partition, and those of these records that it lacks as one piece more.
fn with_lacked(alloc: Global, recs: &[Rec], part: &Part) -> Result<Items<Items<Rec>>, AllocError>
    ensures { IfOk result (λ pieces. pieces ≡ part.now.pieces ++ piece_of (lacking recs.now (held part.now))) }
{
    let there = part.pieces.copied(alloc)?;
    both(there, lacked(alloc, recs, part)?)
}

/// A partition that takes a version more, with those of its records that it lacked as one piece.
fn with_joined(alloc: Global, vid: u32, recs: &[Rec], part: &Part) -> Result<Part, AllocError>
    ensures { IfOk result (λ joined. joined ≡ with_joined vid recs.now part.now) }
{
    let versions = with_vid(alloc, part.versions.as_slice(), vid)?;
    let holds = with_vid(alloc, part.holds.as_slice(), vid)?;
    let pieces = with_lacked(alloc, recs, part)?;
    Ok(Part {
        id: part.id,
        versions,
        holds,
        pieces,
    })
}

/// Those of these records that a partition lacks, as one piece.
fn lacked(alloc: Global, recs: &[Rec], part: &Part) -> Result<Items<Items<Rec>>, AllocError>
    ensures { IfOk result (λ pieces. pieces ≡ piece_of (lacking recs.now (held part.now))) }
{
    let there = held(alloc, part)?;
    let more = lacking(alloc, recs, there.as_slice())?;
    piece_of(alloc, more.as_slice())
}

/// A partition of one version.
fn own_part(alloc: Global, id: u32, vid: u32, recs: &[Rec]) -> Result<Part, AllocError>
    ensures { IfOk result (λ part. part ≡ own_part id vid recs.now) }
{
    let versions = onto(alloc, vid, Items::new(alloc))?;
    let holds = onto(alloc, vid, Items::new(alloc))?;
    let pieces = piece_of(alloc, recs)?;
    Ok(Part {
        id,
        versions,
        holds,
        pieces,
    })
}

/// These partitions, of which that of a number takes a version more.
fn joined_parts(
    alloc: Global,
    id: u32,
    vid: u32,
    recs: &[Rec],
    parts: &[Part],
) -> Result<Items<Part>, AllocError>
    ensures { IfOk result (λ after. after ≡ map (λ part. if part.id == id then with_joined vid recs.now part else part) parts.now) }
{
    match parts {
        [] => Ok(Items::new(alloc)),
        [part, rest @ ..] => {
            let later = joined_parts(alloc, id, vid, recs, rest)?;
            if part.id == id {
                onto(alloc, with_joined(alloc, vid, recs, part)?, later)
            } else {
                with_first(alloc, part, later)
            }
        }
    }
}

/// The partitions with a version more.
fn parts_with(
    alloc: Global,
    place: Place,
    next: u32,
    vid: u32,
    recs: &[Rec],
    parts: &[Part],
) -> Result<Items<Part>, AllocError>
    ensures { IfOk result (λ after. after ≡ parts_with place next vid recs.now parts.now) }
{
    match place {
        Place::Own => with_last(copies_of(alloc, parts)?, own_part(alloc, next, vid, recs)?),
        Place::Join(id) => joined_parts(alloc, id, vid, recs, parts),
    }
}

/// The next partition's number after a placement.
fn next_with(place: Place, next: u32) -> u32
    requires { next < 4294967295 }
    ensures { result ≡ next_with place next }
{
    match place {
        Place::Own => next + 1,
        Place::Join(_) => next,
    }
}

/// The partitions of a dataset with a version more, at its place.
fn parts_after(
    alloc: Global,
    set: &Dataset,
    version: &Version,
    place: Place,
) -> Result<Items<Part>, AllocError>
    requires { length set.now.cvd.versions < 65535 }
    ensures { IfOk result (λ after. after ≡ parts_with place set.now.next_part (length set.now.cvd.versions + 1) (ordered_records set.now.cvd.versions version.now) set.now.parts) }
{
    let own = ordered_records(alloc, set.cvd.versions.as_slice(), version)?;
    let vid = set.cvd.versions.len() as u32 + 1;
    parts_with(
        alloc,
        place,
        set.next_part,
        vid,
        own.as_slice(),
        set.parts.as_slice(),
    )
}

/// The versions of a dataset with one more.
fn with_one(cvd: Cvd, version: Version) -> Result<Cvd, AllocError>
    ensures { IfOk result (λ after. after ≡ record cvd { versions = cvd.versions ++ version ∷ [] }) }
{
    let mut cvd = cvd;
    cvd.versions.push(version)?;
    Ok(cvd)
}

/// The dataset with one version more.
pub fn with_version(alloc: Global, version: Version, set: Dataset) -> Result<Dataset, AllocError>
    requires versions { length set.cvd.versions < 65535 }
    requires rows { length version.rows < 4294967295 }
    requires parts { length set.parts ≤ 65535 }
    requires number { set.next_part < 4294967295 }
    requires stored { stored set < 2 ^ 64 }
    ensures { IfOk result (λ after. after ≡ with_version version set) }
{
    let place = placed_at(alloc, &set, &version)?;
    let parts = parts_after(alloc, &set, &version, place)?;
    let Dataset {
        cvd,
        parts: _parts,
        next_part,
        threshold,
        plan,
    } = set;
    Ok(Dataset {
        cvd: with_one(cvd, version)?,
        parts,
        next_part: next_with(place, next_part),
        threshold,
        plan,
    })
}

/// Version 1 of a dataset.
fn first_version(alloc: Global, rows: Items<Row>) -> Result<Version, AllocError>
    ensures { IfOk result (λ version. version ≡ record { parents = []; message = codes "init"; rows = rows }) }
{
    Ok(Version {
        parents: Items::new(alloc),
        message: Txt::new(alloc, "init")?,
        rows,
    })
}

/// The partitions of a dataset that has this version alone.
fn first_parts(alloc: Global, version: &Version) -> Result<Items<Part>, AllocError>
    ensures { IfOk result (λ parts. parts ≡ own_part 1 1 (records_of version.now []) ∷ []) }
{
    let own = records_of(alloc, version, &[])?;
    onto(
        alloc,
        own_part(alloc, 1, 1, own.as_slice())?,
        Items::new(alloc),
    )
}

/// A dataset with these rows as its version 1.
pub fn new_set(
    alloc: Global,
    number: u32,
    name: Txt,
    schema: Schema,
    rows: Items<Row>,
) -> Result<Dataset, AllocError>
    ensures { IfOk result (λ set. set ≡ new_set number name schema rows) }
{
    let version = first_version(alloc, rows)?;
    let parts = first_parts(alloc, &version)?;
    let versions = onto(alloc, version, Items::new(alloc))?;
    Ok(Dataset {
        cvd: Cvd {
            number,
            name,
            schema,
            versions,
        },
        parts,
        next_part: 2,
        threshold: None,
        plan: None,
    })
}
