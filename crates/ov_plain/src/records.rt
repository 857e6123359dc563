//! Which rows of a dataset's versions are one record, and the numbers of records.

ghost use Rattle.std.specs.Prelude.{◌≡◌, ◌+◌, ◌++◌, ◌≤◌, ◌<◌, [], ◌∷◌, length, map, IfOk};
ghost use Rattle.ov_model.specs.Lists.{joined};
ghost use Rattle.ov_model.specs.Records.{origin_in, of_version, origin_by, record_of, records_of, recs, fresh_in, order, order_of, rid_in, weight, is_among, in_order, ordered_records, lacking, weights};

use crate::copies::{Copies, both, copies_of, onto, onto_if, with_last};
use crate::rec::{Rec, Version};
use ov_value::Row;
use sqlite_items::Items;
use std::alloc::{AllocError, Global};

/// The origin of the first equal row among these records.
fn origin_in(recs: &[Rec], row: &Row) -> Option<u32>
    ensures { result ≡ origin_in recs.now row.now }
{
    match recs {
        [] => None,
        [first, rest @ ..] => {
            if *row == first.row {
                Some(first.origin)
            } else {
                origin_in(rest, row)
            }
        }
    }
}

/// The records of a version by its number; none where there is no such version.
pub fn of_version(done: &[Items<Rec>], vid: u32) -> &[Rec]
    ensures { result.now ≡ of_version done.now vid }
{
    match done.get((vid as usize).saturating_sub(1)) {
        None => &[],
        Some(recs) => recs.as_slice(),
    }
}

/// The origin that the first listed parent with an equal row gives.
fn origin_by(parents: &[u32], done: &[Items<Rec>], row: &Row) -> Option<u32>
    ensures { result ≡ origin_by parents.now done.now row.now }
{
    match parents {
        [] => None,
        [parent, rest @ ..] => match origin_in(of_version(done, *parent), row) {
            Some(origin) => Some(origin),
            None => origin_by(rest, done, row),
        },
    }
}

/// The record of a row of the next version.
fn record_of(
    alloc: Global,
    parents: &[u32],
    done: &[Items<Rec>],
    row: &Row,
) -> Result<Rec, AllocError>
    requires { length done.now < 65535 }
    ensures { IfOk result (λ made. made ≡ record_of parents.now done.now row.now) }
{
    let own = done.len() as u32 + 1;
    let row_copy = row.copy(alloc)?;
    match origin_by(parents, done, row) {
        None => Ok(Rec {
            origin: own,
            row: row_copy,
        }),
        Some(origin) => Ok(Rec {
            origin,
            row: row_copy,
        }),
    }
}

/// The records of these rows of the next version.
fn records_from(
    alloc: Global,
    parents: &[u32],
    done: &[Items<Rec>],
    rows: &[Row],
) -> Result<Items<Rec>, AllocError>
    requires { length done.now < 65535 }
    ensures is { IfOk result (λ found. found ≡ map (record_of parents.now done.now) rows.now) }
    ensures count { IfOk result (λ found. length found ≡ length rows.now) }
{
    match rows {
        [] => Ok(Items::new(alloc)),
        [row, rest @ ..] => {
            let later = records_from(alloc, parents, done, rest)?;
            onto(alloc, record_of(alloc, parents, done, row)?, later)
        }
    }
}

/// The records of the next version.
pub fn records_of(
    alloc: Global,
    version: &Version,
    done: &[Items<Rec>],
) -> Result<Items<Rec>, AllocError>
    requires { length done.now < 65535 }
    ensures is { IfOk result (λ found. found ≡ records_of version.now done.now) }
    ensures count { IfOk result (λ found. length found ≡ length version.now.rows) }
{
    records_from(
        alloc,
        version.parents.as_slice(),
        done,
        version.rows.as_slice(),
    )
}

/// The records of each version, in order, after those of the versions before; at most 65,535 versions in all.
pub fn recs(
    alloc: Global,
    versions: &[Version],
    done: Items<Items<Rec>>,
) -> Result<Items<Items<Rec>>, AllocError>
    requires { length done + length versions.now ≤ 65535 }
    ensures is { IfOk result (λ all. all ≡ recs versions.now done) }
    ensures count { IfOk result (λ all. length all ≡ length done + length versions.now) }
{
    match versions {
        [] => Ok(done),
        [version, rest @ ..] => {
            let own = records_of(alloc, version, done.as_slice())?;
            recs(alloc, rest, with_last(done, own)?)
        }
    }
}

/// The records of the version that comes behind these, in the order of its rows.
pub fn own_records(
    alloc: Global,
    versions: &[Version],
    version: &Version,
) -> Result<Items<Rec>, AllocError>
    requires { length versions.now < 65535 }
    ensures is { IfOk result (λ own. own ≡ records_of version.now (recs versions.now [])) }
    ensures count { IfOk result (λ own. length own ≡ length version.now.rows) }
{
    let done = recs(alloc, versions, Items::new(alloc))?;
    records_of(alloc, version, done.as_slice())
}

/// Those of one origin.
pub fn fresh_in(alloc: Global, recs: &[Rec], origin: u32) -> Result<Items<Rec>, AllocError>
    ensures { IfOk result (λ found. found ≡ fresh_in recs.now origin) }
{
    match recs {
        [] => Ok(Items::new(alloc)),
        [first, rest @ ..] => {
            let later = fresh_in(alloc, rest, origin)?;
            onto_if(alloc, first.origin == origin, first, later)
        }
    }
}

/// The fresh records of each version, in order; `n` is the first version's number.
fn order(alloc: Global, versions: &[Items<Rec>], n: u32) -> Result<Items<Rec>, AllocError>
    requires { n + length versions.now ≤ 65536 }
    ensures { IfOk result (λ found. found ≡ order versions.now n) }
{
    match versions {
        [] => Ok(Items::new(alloc)),
        [first, rest @ ..] => {
            let later = order(alloc, rest, n + 1)?;
            both(fresh_in(alloc, first.as_slice(), n)?, later)
        }
    }
}

/// All records of at most 65,535 versions, by origin and then by key. A record's rid is its place in it, from 1.
pub fn order_of(alloc: Global, versions: &[Version]) -> Result<Items<Rec>, AllocError>
    requires { length versions.now ≤ 65535 }
    ensures { IfOk result (λ all. all ≡ order_of versions.now) }
{
    let each = recs(alloc, versions, Items::new(alloc))?;
    order(alloc, each.as_slice(), 1)
}

/// Those of all that are among these, in the order of all.
fn in_order(alloc: Global, all: &[Rec], recs: &[Rec]) -> Result<Items<Rec>, AllocError>
    ensures { IfOk result (λ found. found ≡ in_order all.now recs.now) }
{
    match all {
        [] => Ok(Items::new(alloc)),
        [first, rest @ ..] => {
            let later = in_order(alloc, rest, recs)?;
            onto_if(alloc, is_among(recs, first), first, later)
        }
    }
}

/// All records with those of one version more.
fn order_with(
    alloc: Global,
    versions: &[Version],
    version: &Version,
) -> Result<Items<Rec>, AllocError>
    requires { length versions.now < 65535 }
    ensures { IfOk result (λ all. all ≡ order_of (versions.now ++ version.now ∷ [])) }
{
    let all = with_last(copies_of(alloc, versions)?, version.copied(alloc)?)?;
    order_of(alloc, all.as_slice())
}

/// The records of the version that comes behind these, in the order of their rids.
pub fn ordered_records(
    alloc: Global,
    versions: &[Version],
    version: &Version,
) -> Result<Items<Rec>, AllocError>
    requires { length versions.now < 65535 }
    ensures { IfOk result (λ found. found ≡ ordered_records versions.now version.now) }
{
    let all = order_with(alloc, versions, version)?;
    let own = own_records(alloc, versions, version)?;
    in_order(alloc, all.as_slice(), own.as_slice())
}

/// A record's place among these, from 1; one past the last where it isn't there.
pub fn rid_in(recs: &[Rec], wanted: &Rec) -> u32
    requires { length recs.now < 4294967295 }
    ensures is { result ≡ rid_in recs.now wanted.now }
    ensures few { result ≤ length recs.now + 1 }
{
    match recs {
        [] => 1,
        [first, rest @ ..] => {
            if wanted.is_same(first) {
                1
            } else {
                rid_in(rest, wanted) + 1
            }
        }
    }
}

/// Whether a record is among these.
pub fn is_among(recs: &[Rec], wanted: &Rec) -> bool
    ensures { result ≡ is_among recs.now wanted.now }
{
    match recs {
        [] => false,
        [first, rest @ ..] => wanted.is_same(first) || is_among(rest, wanted),
    }
}

/// How many records are in both.
pub fn weight(a: &[Rec], b: &[Rec]) -> u32
    requires { length a.now < 4294967295 }
    ensures is { result ≡ weight a.now b.now }
    ensures few { result ≤ length a.now }
{
    match a {
        [] => 0,
        [first, rest @ ..] => {
            if is_among(b, first) {
                1 + weight(rest, b)
            } else {
                weight(rest, b)
            }
        }
    }
}

/// Those that aren't among the others.
pub fn lacking(alloc: Global, recs: &[Rec], others: &[Rec]) -> Result<Items<Rec>, AllocError>
    ensures { IfOk result (λ found. found ≡ lacking recs.now others.now) }
{
    match recs {
        [] => Ok(Items::new(alloc)),
        [first, rest @ ..] => {
            let later = lacking(alloc, rest, others)?;
            onto_if(alloc, !is_among(others, first), first, later)
        }
    }
}

/// A parent with the weight of its edge.
fn edge_to(parent: u32, recs: &[Rec], done: &[Items<Rec>]) -> (u32, u32)
    requires { length recs.now < 4294967295 }
    ensures { result ≡ (parent, weight recs.now (of_version done.now parent)) }
{
    (parent, weight(recs, of_version(done, parent)))
}

/// The parents with the weights of their edges, in the order in which they were listed.
pub fn weights(
    alloc: Global,
    parents: &[u32],
    recs: &[Rec],
    done: &[Items<Rec>],
) -> Result<Items<(u32, u32)>, AllocError>
    requires { length recs.now < 4294967295 }
    ensures { IfOk result (λ found. found ≡ weights parents.now recs.now done.now) }
{
    match parents {
        [] => Ok(Items::new(alloc)),
        [parent, rest @ ..] => {
            let later = weights(alloc, rest, recs, done)?;
            onto(alloc, edge_to(*parent, recs, done), later)
        }
    }
}

/// The records of these pieces, one piece after another.
pub fn joined(alloc: Global, pieces: &[Items<Rec>]) -> Result<Items<Rec>, AllocError>
    ensures { IfOk result (λ all. all ≡ joined pieces.now) }
{
    match pieces {
        [] => Ok(Items::new(alloc)),
        [piece, rest @ ..] => {
            let later = joined(alloc, rest)?;
            both(piece.copied(alloc)?, later)
        }
    }
}
