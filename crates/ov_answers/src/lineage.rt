//! The relatives of a version.

ghost use Rattle.std.specs.Prelude.{◌≡◌, ◌==◌, ◌||◌, ◌+◌, ◌≤◌, [], filter, length, map, slice_index_or, IfOk};
ghost use Rattle.std.specs.List.{list_any};
ghost use Rattle.ov_model.specs.Lineages.{parents_at, is_parent, is_above_in, is_ancestor, is_relative, relatives};
ghost use Rattle.ov_model.specs.Records.{counted};

use ov_model::{LineageKind, Seq};
use ov_plain::{Cvd, Version, onto};
use std::alloc::{AllocError, Global};

/// The parents of the version at this place, counted from 0; none where there is no such version.
fn parents_in(versions: &[Version], at: u64) -> &[u32]
    ensures { result.now ≡ slice_index_or (map (λ v. v.parents) versions.now) at [] }
{
    match versions {
        [] => &[],
        [version, rest @ ..] => {
            if at == 0 {
                version.parents.as_slice()
            } else {
                parents_in(rest, at - 1)
            }
        }
    }
}

/// The parents of a version; none where there is no such version.
fn parents_at(versions: &[Version], vid: u64) -> &[u32]
    ensures { result.now ≡ parents_at versions.now vid }
{
    parents_in(versions, vid.saturating_sub(1))
}

/// Whether a version is one of these parents.
fn is_listed(parents: &[u32], vid: u64) -> bool
    ensures { result ≡ list_any (λ p. p == vid) parents.now }
{
    match parents {
        [] => false,
        [parent, rest @ ..] => u64::from(*parent) == vid || is_listed(rest, vid),
    }
}

/// Whether a version is a parent of another one.
fn is_parent(versions: &[Version], vid: u64, child: u64) -> bool
    ensures { result ≡ is_parent versions.now vid child }
{
    is_listed(parents_at(versions, child), vid)
}

/// Whether a version is one of these parents, or above one of them in so many steps.
#[cycle(above)]
fn is_above_one(steps: u64, versions: &[Version], vid: u64, parents: &[u32]) -> bool
    ensures { result ≡ list_any (λ p. p == vid || is_above_in steps versions.now vid p) parents.now }
{
    match parents {
        [] => false,
        [parent, rest @ ..] => {
            (u64::from(*parent) == vid || is_above_in(steps, versions, vid, u64::from(*parent)))
                || is_above_one(steps, versions, vid, rest)
        }
    }
}

/// Whether a version is a parent of another one, or a parent's parent, and so on in so many steps.
#[cycle(above)]
fn is_above_in(steps: u64, versions: &[Version], vid: u64, child: u64) -> bool
    ensures { result ≡ is_above_in steps versions.now vid child }
{
    if steps == 0 {
        return false;
    }
    is_above_one(steps - 1, versions, vid, parents_at(versions, child))
}

/// Whether a version is an ancestor of another one.
fn is_ancestor(versions: &[Version], vid: u64, child: u64) -> bool
    ensures { result ≡ is_ancestor versions.now vid child }
{
    is_above_in(child, versions, vid, child)
}

/// Whether a version is a relative of another one.
fn is_relative(versions: &[Version], kind: LineageKind, vid: u64, other: u64) -> bool
    ensures { result ≡ is_relative versions.now kind vid other }
{
    match kind {
        LineageKind::Parents => is_parent(versions, other, vid),
        LineageKind::Ancestors => is_ancestor(versions, other, vid),
        LineageKind::Descendants => is_ancestor(versions, vid, other),
    }
}

/// Those of these versions that are relatives of a version: so many, from one on.
fn relatives_from(
    alloc: Global,
    versions: &[Version],
    kind: LineageKind,
    vid: u64,
    first: u64,
    count: u64,
) -> Result<Seq<u64>, AllocError>
    requires { first + count ≤ 4294967296 }
    ensures { IfOk result (λ found. found ≡ filter (is_relative versions.now kind vid) (counted first count)) }
{
    if count == 0 {
        return Ok(Seq::new(alloc));
    }
    let later = relatives_from(alloc, versions, kind, vid, first + 1, count - 1)?;
    if is_relative(versions, kind, vid, first) {
        let all = onto(alloc, first, later)?;
        Ok(all)
    } else {
        Ok(later)
    }
}

/// The relatives of a version, ascending.
pub fn relatives(
    alloc: Global,
    cvd: &Cvd,
    kind: LineageKind,
    vid: u64,
) -> Result<Seq<u64>, AllocError>
    requires { length cvd.now.versions ≤ 65535 }
    ensures { IfOk result (λ found. found ≡ relatives cvd.now kind vid) }
{
    let versions = cvd.versions.as_slice();
    relatives_from(alloc, versions, kind, vid, 1, versions.len() as u64)
}
