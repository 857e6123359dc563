//! Plans: which targets a dataset's versions are divided into, and what each keeps of an old partition.

ghost use Rattle.std.specs.Prelude.{◌≡◌, ◌+◌, ◌≤◌, ◌<◌, ◌*◌, ◌^◌, [], filter, length, map, slice_index_or, IfOk, Some, None};
ghost use Rattle.std.specs.List.{list_all, list_any};
ghost use Rattle.ov_model.specs.Lists.{joined};
ghost use Rattle.ov_model.specs.Plans.{records_in, meets, empties, modification, cheaper, cheapest, source_of, pieces_of, places_within, pieces_at, target_of, targets_of, planned, parts_at};
ghost use Rattle.ov_model.specs.Records.{of_version, is_among, lacking};
ghost use Rattle.ov_model.specs.World.{is_one, held};
ghost use Rattle.ov_plain.specs.Choosing.{is_of_one};
ghost use Rattle.ov_plain.specs.Small.{IsSmall};

use crate::copies::{copies_of, onto, onto_if};
use crate::dataset::{Cvd, Dataset, Part, Plan, Target};
use crate::rec::Rec;
use crate::records::{is_among, joined, lacking, of_version, order_of, recs};
use crate::trees::parts_at;
use sqlite_items::Items;
use std::alloc::{AllocError, Global};

/// Whether it is one of these.
pub fn is_one(all: &[u32], one: u32) -> bool
    ensures { result ≡ is_one all.now one }
{
    match all {
        [] => false,
        [first, rest @ ..] => *first == one || is_one(rest, one),
    }
}

/// Whether a record is one of these versions'.
#[tactic(auto, unfolding(crate::specs::Choosing::is_of_one))]
fn is_in_one(each: &[Items<Rec>], vids: &[u32], wanted: &Rec) -> bool
    ensures { result ≡ is_of_one each.now vids.now wanted.now }
{
    match vids {
        [] => false,
        [vid, rest @ ..] => {
            is_among(of_version(each, *vid), wanted) || is_in_one(each, rest, wanted)
        }
    }
}

/// Those of these records that are of one of the versions.
fn chosen(
    alloc: Global,
    each: &[Items<Rec>],
    vids: &[u32],
    all: &[Rec],
) -> Result<Items<Rec>, AllocError>
    ensures { IfOk result (λ found. found ≡ filter (is_of_one each.now vids.now) all.now) }
{
    match all {
        [] => Ok(Items::new(alloc)),
        [first, rest @ ..] => {
            let later = chosen(alloc, each, vids, rest)?;
            onto_if(alloc, is_in_one(each, vids, first), first, later)
        }
    }
}

/// The records of these versions together, in the order of their rids.
#[tactic(auto, unfolding(crate::specs::Choosing::is_of_one))]
pub fn records_in(alloc: Global, cvd: &Cvd, vids: &[u32]) -> Result<Items<Rec>, AllocError>
    requires { length cvd.now.versions ≤ 65535 }
    ensures { IfOk result (λ found. found ≡ records_in cvd.now vids.now) }
{
    let each = recs(alloc, cvd.versions.as_slice(), Items::new(alloc))?;
    let all = order_of(alloc, cvd.versions.as_slice())?;
    let found = chosen(alloc, each.as_slice(), vids, all.as_slice())?;
    Ok(found)
}

/// Whether two lists of versions have one in common.
fn meets(a: &[u32], b: &[u32]) -> bool
    ensures { result ≡ meets a.now b.now }
{
    match a {
        [] => false,
        [first, rest @ ..] => is_one(b, *first) || meets(rest, b),
    }
}

/// Whether one of these lists of versions has one in common with this one.
fn one_meets(lists: &[Items<u32>], versions: &[u32]) -> bool
    ensures { result ≡ list_any (λ other. meets other versions.now) lists.now }
{
    match lists {
        [] => false,
        [first, rest @ ..] => meets(first.as_slice(), versions) || one_meets(rest, versions),
    }
}

/// Whether a target of these versions empties a partition: it is the last target that has a version of it.
fn empties(versions: &[u32], later: &[Items<u32>], part: &Part) -> bool
    ensures { result ≡ empties versions.now later.now part.now }
{
    meets(versions, part.versions.as_slice()) && !one_meets(later, part.versions.as_slice())
}

/// All pieces of a partition together.
pub fn held(alloc: Global, part: &Part) -> Result<Items<Rec>, AllocError>
    ensures { IfOk result (λ all. all ≡ held part.now) }
{
    joined(alloc, part.pieces.as_slice())
}

/// How many of these records aren't among the others.
fn count_lacking(alloc: Global, recs: &[Rec], others: &[Rec]) -> Result<u128, AllocError>
    ensures is { IfOk result (λ count. count ≡ length (lacking recs.now others.now)) }
    ensures few { IfOk result (λ count. count ≤ 2 ^ 64) }
{
    let left = lacking(alloc, recs, others)?;
    Ok(left.len() as u128)
}

/// The records that have to come and those that have to go, to make these of a partition.
fn modification(alloc: Global, wanted: &[Rec], part: &Part) -> Result<u128, AllocError>
    ensures { IfOk result (λ cost. cost ≡ modification wanted.now part.now) }
{
    let old = held(alloc, part)?;
    let come = count_lacking(alloc, wanted, old.as_slice())?;
    let go = count_lacking(alloc, old.as_slice(), wanted)?;
    Ok(come + go)
}

/// Of two partitions with their costs the cheaper one, ties to the first.
fn cheaper(a: (u32, u128), b: Option<(u32, u128)>) -> Option<(u32, u128)>
    ensures { result ≡ cheaper a b }
{
    match b {
        None => Some(a),
        Some(other) => { if a.1 <= other.1 { Some(a) } else { Some(other) } }
    }
}

/// The better one of a partition that a target empties and of what was found among later ones.
fn cheaper_of(
    alloc: Global,
    wanted: &[Rec],
    part: &Part,
    best: Option<(u32, u128)>,
) -> Result<Option<(u32, u128)>, AllocError>
    ensures { IfOk result (λ kept. kept ≡ cheaper (part.now.id, modification wanted.now part.now) best) }
{
    let cost = modification(alloc, wanted, part)?;
    Ok(cheaper((part.id, cost), best))
}

/// The cheapest one of the partitions that a target empties, with its cost.
fn cheapest(
    alloc: Global,
    wanted: &[Rec],
    versions: &[u32],
    later: &[Items<u32>],
    parts: &[Part],
) -> Result<Option<(u32, u128)>, AllocError>
    ensures { IfOk result (λ best. best ≡ cheapest wanted.now versions.now later.now parts.now) }
{
    match parts {
        [] => Ok(None),
        [part, rest @ ..] => {
            let best = cheapest(alloc, wanted, versions, later, rest)?;
            if empties(versions, later, part) {
                cheaper_of(alloc, wanted, part, best)
            } else {
                Ok(best)
            }
        }
    }
}

/// A partition is the source where that costs less than to build so many records anew; 0 for none.
fn source_of(size: u128, best: Option<(u32, u128)>) -> u32
    ensures { result ≡ source_of size best }
{
    match best {
        None => 0,
        Some((id, cost)) => { if cost < size { id } else { 0 } }
    }
}

/// The pieces of a partition by its number; none where there is no such partition.
pub fn pieces_of(parts: &[Part], id: u32) -> &[Items<Rec>]
    ensures { result.now ≡ pieces_of parts.now id }
{
    match parts {
        [] => &[],
        [part, rest @ ..] => {
            if part.id == id {
                part.pieces.as_slice()
            } else {
                pieces_of(rest, id)
            }
        }
    }
}

/// Whether each record of a piece is among these.
fn is_within(wanted: &[Rec], piece: &[Rec]) -> bool
    ensures { result ≡ list_all (is_among wanted.now) piece.now }
{
    match piece {
        [] => true,
        [first, rest @ ..] => is_among(wanted, first) && is_within(wanted, rest),
    }
}

/// The places, counted from `at` on, of those pieces that lie within these records.
fn places_from(
    alloc: Global,
    at: u64,
    wanted: &[Rec],
    pieces: &[Items<Rec>],
) -> Result<Items<u64>, AllocError>
    requires { at + length pieces.now < 2 ^ 64 }
    ensures { IfOk result (λ places. places ≡ places_within at wanted.now pieces.now) }
{
    match pieces {
        [] => Ok(Items::new(alloc)),
        [piece, rest @ ..] => {
            let later = places_from(alloc, at + 1, wanted, rest)?;
            if is_within(wanted, piece.as_slice()) {
                onto(alloc, at, later)
            } else {
                Ok(later)
            }
        }
    }
}

/// The places, counted from 0, of those pieces that lie within these records.
fn places_within(
    alloc: Global,
    wanted: &[Rec],
    pieces: &[Items<Rec>],
) -> Result<Items<u64>, AllocError>
    ensures { IfOk result (λ places. places ≡ places_within 0 wanted.now pieces.now) }
{
    let count = pieces.len();
    let found = places_from(alloc, 0, wanted, pieces)?;
    prove!(count == pieces.len());
    Ok(found)
}

/// The piece at a place; an empty one where there is none.
fn piece_at(pieces: &[Items<Rec>], place: u64) -> &[Rec]
    ensures { result.now ≡ slice_index_or pieces.now place [] }
{
    match pieces.get(place as usize) {
        None => &[],
        Some(piece) => piece.as_slice(),
    }
}

/// The pieces at these places.
pub fn pieces_at(
    alloc: Global,
    pieces: &[Items<Rec>],
    places: &[u64],
) -> Result<Items<Items<Rec>>, AllocError>
    ensures { IfOk result (λ found. found ≡ pieces_at pieces.now places.now) }
{
    match places {
        [] => Ok(Items::new(alloc)),
        [place, rest @ ..] => {
            let later = pieces_at(alloc, pieces, rest)?;
            onto(alloc, copies_of(alloc, piece_at(pieces, *place))?, later)
        }
    }
}

/// How many records the pieces at these places have.
fn records_at(alloc: Global, pieces: &[Items<Rec>], places: &[u64]) -> Result<u64, AllocError>
    ensures { IfOk result (λ count. count ≡ length (joined (pieces_at pieces.now places.now))) }
{
    let found = pieces_at(alloc, pieces, places)?;
    let all = joined(alloc, found.as_slice())?;
    Ok(all.len() as u64)
}

/// The partition that a target of these versions takes its pieces from; 0 for none.
fn source_for(
    alloc: Global,
    set: &Dataset,
    wanted: &[Rec],
    versions: &[u32],
    later: &[Items<u32>],
) -> Result<u32, AllocError>
    ensures { IfOk result (λ source. source ≡ source_of (length wanted.now) (cheapest wanted.now versions.now later.now set.now.parts)) }
{
    let best = cheapest(alloc, wanted, versions, later, set.parts.as_slice())?;
    Ok(source_of(wanted.len() as u128, best))
}

/// The target of these versions, which keeps those pieces of its source that lie within these records.
fn target_from(
    alloc: Global,
    versions: &[u32],
    wanted: &[Rec],
    source: u32,
    pieces: &[Items<Rec>],
) -> Result<Target, AllocError>
    ensures { IfOk result (λ target. target ≡ record { versions = versions.now; source = source; kept = places_within 0 wanted.now pieces.now; kept_records = length (joined (pieces_at pieces.now (places_within 0 wanted.now pieces.now))) }) }
{
    let versions = Items::from_slice(alloc, versions)?;
    let kept = places_within(alloc, wanted, pieces)?;
    let kept_records = records_at(alloc, pieces, kept.as_slice())?;
    Ok(Target {
        versions,
        source,
        kept,
        kept_records,
    })
}

/// The target of these versions; `later` are those behind it.
fn target_of(
    alloc: Global,
    set: &Dataset,
    versions: &[u32],
    later: &[Items<u32>],
) -> Result<Target, AllocError>
    requires { length set.now.cvd.versions ≤ 65535 }
    ensures { IfOk result (λ target. target ≡ target_of set.now versions.now later.now) }
{
    let wanted = records_in(alloc, &set.cvd, versions)?;
    let source = source_for(alloc, set, wanted.as_slice(), versions, later)?;
    let pieces = pieces_of(set.parts.as_slice(), source);
    target_from(alloc, versions, wanted.as_slice(), source, pieces)
}

/// The targets of these lists of versions.
fn targets_of(
    alloc: Global,
    set: &Dataset,
    lists: &[Items<u32>],
) -> Result<Items<Target>, AllocError>
    requires { length set.now.cvd.versions ≤ 65535 }
    ensures { IfOk result (λ targets. targets ≡ targets_of set.now lists.now) }
{
    match lists {
        [] => Ok(Items::new(alloc)),
        [versions, behind @ ..] => {
            let later = targets_of(alloc, set, behind)?;
            onto(
                alloc,
                target_of(alloc, set, versions.as_slice(), behind)?,
                later,
            )
        }
    }
}

/// The targets of the split of all versions at the threshold p/q.
fn all_targets(alloc: Global, set: &Dataset, p: u32, q: u32) -> Result<Items<Target>, AllocError>
    requires { IsSmall set.now.cvd }
    ensures { IfOk result (λ targets. targets ≡ targets_of set.now (parts_at set.now p q)) }
{
    let parts = parts_at(alloc, set, p, q)?;
    targets_of(alloc, set, parts.as_slice())
}

/// The dataset when a plan at the threshold p/q has begun, whose targets are the parts of the split of all versions.
pub fn planned(alloc: Global, p: u32, q: u32, set: Dataset) -> Result<Dataset, AllocError>
    requires { IsSmall set.cvd }
    ensures { IfOk result (λ begun. begun ≡ planned p q set) }
{
    let targets = all_targets(alloc, &set, p, q)?;
    Ok(Dataset {
        threshold: Some((p, q)),
        plan: Some(Plan {
            p,
            q,
            targets,
            at: 0,
            copied: Items::new(alloc),
        }),
        ..set
    })
}
