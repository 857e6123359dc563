//! Parents of a commit.

ghost use Rattle.std.specs.Prelude.{◌≡◌, map, IfOk};
ghost use Rattle.std.specs.BTreeSet as set;
ghost use Rattle.std.specs.List.{list_all};
ghost use Rattle.std.specs.Ordering.{nat_cmp};
ghost use Rattle.ov_graph.specs.Versions.{heaviest as heaviest_of};
ghost use Rattle.ov_catalog.specs.declared.field.Field.TheVariants as off;
ghost use Rattle.ov_catalog.specs.Answers.{Answers};
ghost use Rattle.ov_catalog.specs.Applying.{off_unless, are_distinct as are_distinct_by, are_parents, is_parent as is_parent_by};
ghost use Rattle.ov_catalog.specs.Sets.{version_in};

use crate::cvd::Version;
use crate::error::ApplyErr;
use crate::field::Field;
use crate::refusing::unless;
use std::alloc::{AllocError, Global};
use std::collections::BTreeSet;

/// The parent of the greatest weight, the first of those that tie, with its weight.
pub fn heaviest(parents: &[(u32, u32)]) -> (u32, u32)
    ensures { result ≡ heaviest_of parents.now }
{
    let mut kept = (0, 0);
    let mut at = parents.len();
    while 0 < at {
        at -= 1;
        if kept.1 <= parents[at].1 {
            kept = parents[at];
        }
    }
    kept
}

// Whether a version of so many rows may have this parent: it is there, and neither has fewer rows than the weight.
fn is_parent(versions: &[Version], rows: u32, edge: (u32, u32)) -> bool
    ensures { result ≡ is_parent_by (map version_in versions.now) rows edge }
{
    let (vid, weight) = edge;
    if vid == 0 || vid as usize > versions.len() {
        return false;
    }
    weight <= rows && weight <= versions[vid as usize - 1].rows
}

fn are_there(versions: &[Version], rows: u32, parents: &[(u32, u32)]) -> bool
    ensures { result ≡ list_all (is_parent_by (map version_in versions.now) rows) parents.now }
{
    for edge in parents {
        if !is_parent(versions, rows, *edge) {
            return false;
        }
    }
    true
}

fn vids_of(alloc: Global, parents: &[(u32, u32)]) -> Result<BTreeSet<u32>, AllocError>
    ensures { IfOk result (set.IsFromIterResult nat_cmp (map (λ edge. edge.0) parents.now)) }
{
    parents.iter().map(|edge| edge.0).collect(alloc)
}

fn are_distinct(alloc: Global, parents: &[(u32, u32)]) -> Result<bool, AllocError>
    ensures { IfOk result (λ distinct. distinct ≡ are_distinct_by (map (λ edge. edge.0) parents.now)) }
{
    let vids = vids_of(alloc, parents)?;
    Ok(vids.len() == parents.len())
}

/// Whether a version of so many rows may have these parents: at least one, each there, and none twice.
pub fn may_have(
    alloc: Global,
    versions: &[Version],
    rows: u32,
    parents: &[(u32, u32)],
) -> Result<bool, AllocError>
    ensures { IfOk result (λ may. may ≡ are_parents (map version_in versions.now) rows parents.now) }
{
    if parents.is_empty() || !are_there(versions, rows, parents) {
        return Ok(false);
    }
    are_distinct(alloc, parents)
}

/// The parents of a new version of so many rows.
pub fn check_parents(
    alloc: Global,
    versions: &[Version],
    rows: u32,
    parents: &[(u32, u32)],
) -> Result<(), ApplyErr>
    ensures { Answers result (off_unless (are_parents (map version_in versions.now) rows parents.now) off.Parent) }
{
    unless(may_have(alloc, versions, rows, parents)?, Field::Parent)
}
