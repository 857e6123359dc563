//! The pairs of a version and one of its rows that a query reads.

ghost use Rattle.std.specs.Prelude.{◌≡◌, ◌+◌, ◌≤◌, ◌<◌, [], length, map, slice_index_or, IfOk};
ghost use Rattle.std.specs.List.{flat_map};
ghost use Rattle.ov_model.specs.Answers.{pairs_of, source_vids, pairs};
ghost use Rattle.ov_model.specs.Lineages.{relatives};
ghost use Rattle.ov_model.specs.Records.{rows_at, counted};

use crate::lineage::relatives;
use ov_model::{Seq, Src};
use ov_plain::{Copies, Cvd, Version, both, onto};
use ov_value::Row;
use std::alloc::{AllocError, Global};
use std::marker::Model;

/// A version's number and one of its rows.
#[derive(Drop)]
pub struct Pair {
    pub vid: u32,
    pub row: Row,
}

impl Model for Pair {
    ghost use Rattle.ov_model.specs.Answers.{Pair as Known};

    ghost Value = { Known };

    ghost view = { λ p. record { vid = p.vid; row = p.row } };
}

impl Copies for Pair {
    fn copied(&self, alloc: Global) -> Result<Pair, AllocError> {
        Ok(Pair {
            vid: self.vid,
            row: self.row.copy(alloc)?,
        })
    }
}

/// The rows of the version at this place, counted from 0; none where there is no such version.
fn rows_in(versions: &[Version], at: u64) -> &[Row]
    ensures is { result.now ≡ slice_index_or (map (λ v. v.rows) versions.now) at [] }
    ensures beyond { length versions.now ≤ at → result.now ≡ [] }
{
    match versions {
        [] => &[],
        [version, rest @ ..] => {
            if at == 0 {
                version.rows.as_slice()
            } else {
                rows_in(rest, at - 1)
            }
        }
    }
}

/// The pairs of a version's number and each of these rows.
fn pairs_with(alloc: Global, vid: u32, rows: &[Row]) -> Result<Seq<Pair>, AllocError>
    ensures { IfOk result (λ found. found ≡ map (λ row. record { vid = vid; row = row }) rows.now) }
{
    match rows {
        [] => Ok(Seq::new(alloc)),
        [row, rest @ ..] => {
            let later = pairs_with(alloc, vid, rest)?;
            let row = row.copy(alloc)?;
            onto(alloc, Pair { vid, row }, later)
        }
    }
}

/// The rows of a version; none where there is no such version.
pub fn rows_at(versions: &[Version], vid: u64) -> &[Row]
    ensures is { result.now ≡ rows_at versions.now vid }
    ensures beyond { length versions.now < vid → result.now ≡ [] }
{
    rows_in(versions, vid.saturating_sub(1))
}

/// The pairs of a version.
fn pairs_of(alloc: Global, cvd: &Cvd, vid: u64) -> Result<Seq<Pair>, AllocError>
    requires { length cvd.now.versions ≤ 65535 }
    ensures { IfOk result (λ found. found ≡ pairs_of cvd.now vid) }
{
    let rows = rows_at(cvd.versions.as_slice(), vid);
    if vid > 65_535 {
        return Ok(Seq::new(alloc));
    }
    pairs_with(alloc, vid as u32, rows)
}

/// The pairs of these versions, version by version.
fn all_pairs(alloc: Global, cvd: &Cvd, vids: &[u64]) -> Result<Seq<Pair>, AllocError>
    requires { length cvd.now.versions ≤ 65535 }
    ensures { IfOk result (λ found. found ≡ flat_map (pairs_of cvd.now) vids.now) }
{
    match vids {
        [] => Ok(Seq::new(alloc)),
        [vid, rest @ ..] => {
            let later = all_pairs(alloc, cvd, rest)?;
            both(pairs_of(alloc, cvd, *vid)?, later)
        }
    }
}

/// So many numbers, from one on.
fn counted(alloc: Global, first: u64, count: u64) -> Result<Seq<u64>, AllocError>
    requires { first + count ≤ 4294967296 }
    ensures { IfOk result (λ found. found ≡ counted first count) }
{
    if count == 0 {
        return Ok(Seq::new(alloc));
    }
    let later = counted(alloc, first + 1, count - 1)?;
    let all = onto(alloc, first, later)?;
    Ok(all)
}

/// The versions that a query reads, in their order.
fn source_vids(alloc: Global, cvd: &Cvd, source: &Src) -> Result<Seq<u64>, AllocError>
    requires { length cvd.now.versions ≤ 65535 }
    ensures { IfOk result (λ vids. vids ≡ source_vids (relatives cvd.now) cvd.now source.now) }
{
    match source {
        Src::Listed { vids, .. } => Seq::from_slice(alloc, vids.as_slice()),
        Src::Whole { .. } => counted(alloc, 1, cvd.versions.len() as u64),
        Src::Lineage { kind, vid, .. } => relatives(alloc, cvd, *kind, *vid),
    }
}

/// The pairs that a query reads.
pub fn pairs(alloc: Global, cvd: &Cvd, source: &Src) -> Result<Seq<Pair>, AllocError>
    requires { length cvd.now.versions ≤ 65535 }
    ensures { IfOk result (λ found. found ≡ pairs (relatives cvd.now) cvd.now source.now) }
{
    let vids = source_vids(alloc, cvd, source)?;
    all_pairs(alloc, cvd, vids.as_slice())
}
