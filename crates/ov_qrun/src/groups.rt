//! Groups of spots.

ghost use Rattle.std.specs.Prelude.{◌≡◌, ◌++◌, ◌∷◌, [], if◌then◌else◌, IfOk, OnOk, filter, map};
ghost use Rattle.ov_model.specs.Answers.{sorted_by};
ghost use Rattle.ov_terms.specs.Finding.{found_holds};
ghost use Rattle.ov_terms.specs.Standing.{pairs_at};
ghost use Rattle.ov_qrun.specs.Keys.{has_same_key, key_at, spot_order};
ghost use Rattle.ov_qrun.specs.Ranking.{ranked_lists};
ghost use Rattle.ov_qrun.specs.Runs.{climbs, cut, run_items, run_len};

use crate::order::cmp_ranked;
use ov_terms::{FoundCond, Lookup, Spot, Table};
use std::alloc::{AllocError, Global};
use std::cmp::Ordering;
use std::slice;

// How two spots compare by the values of the group columns.
fn cmp_spots(table: &Table<'_>, cols: &[Lookup], a: Spot, b: Spot) -> Ordering
    ensures { result ≡ ranked_lists (key_at table.now cols.now a) (key_at table.now cols.now b) }
{
    for col in cols {
        let order = cmp_ranked(table.value_at(a, *col), table.value_at(b, *col));
        if order != Ordering::Equal {
            return order;
        }
    }
    Ordering::Equal
}

// Whether no spot has greater values than the next one.
fn climb(table: &Table<'_>, cols: &[Lookup], spots: &[Spot]) -> bool
    ensures { result ≡ climbs (spot_order table.now cols.now) spots.now }
{
    for at in 1..spots.len() {
        if cmp_spots(table, cols, spots[at - 1], spots[at]) == Ordering::Greater {
            return false;
        }
    }
    true
}

/// Sorts spots by the values of the group columns. Spots with the same ones keep their order. Those that stand in order already, as
/// those of versions in order do for groups by version, are left as they are.
pub fn sort_spots(
    table: &Table<'_>,
    cols: &[Lookup],
    spots: &mut Vec<Spot>,
) -> Result<(), AllocError>
    ensures { OnOk result (spots.new.items ≡ sorted_by (spot_order table.now cols.now) spots.old.items) }
{
    if !climb(table, cols, spots.as_slice()) {
        spots.sort_by(|a, b| cmp_spots(table, cols, *a, *b))?;
    }
    Ok(())
}

// How many spots from the first one on have its values.
fn first_run(table: &Table<'_>, cols: &[Lookup], spots: &[Spot]) -> usize
    ensures { result ≡ run_len (has_same_key table.now cols.now) spots.now }
{
    for at in 1..spots.len() {
        if cmp_spots(table, cols, spots[at - 1], spots[at]) != Ordering::Equal {
            return at;
        }
    }
    spots.len()
}

/// The runs of neighbours with the same values of the group columns.
pub(crate) fn runs<'a>(
    alloc: Global,
    table: &Table<'_>,
    cols: &[Lookup],
    spots: &'a [Spot],
) -> Result<Vec<&'a [Spot]>, AllocError>
    ensures { IfOk result (λ found. map (λ run. run.now) found.items
        ≡ map run_items (cut (has_same_key table.now cols.now) spots.now)) }
{
    let mut found = Vec::new(alloc);
    let mut rest = spots;
    while !rest.is_empty() {
        let (run, later) = rest.split_at(first_run(table, cols, rest));
        found.push(run)?;
        rest = later;
    }
    Ok(found)
}

/// Each spot alone.
pub(crate) fn alone(alloc: Global, spots: &[Spot]) -> Result<Vec<&[Spot]>, AllocError>
    ensures { IfOk result (λ found. map (λ group. group.now) found.items ≡ map (λ spot. spot ∷ []) spots.now) }
{
    let mut found = Vec::with_capacity(alloc, spots.len())?;
    for spot in spots {
        found.push(slice::from_ref(spot))?;
    }
    Ok(found)
}

fn push_if<'a>(
    taken: bool,
    group: &'a [Spot],
    found: &mut Vec<&'a [Spot]>,
) -> Result<(), AllocError>
    ensures { OnOk result (map (λ one. one.now) found.new.items ≡ map (λ one. one.now) found.old.items ++ (if taken then group.now ∷ [] else [])) }
{
    if taken {
        found.push(group)?;
    }
    Ok(())
}

/// The groups that HAVING takes.
pub(crate) fn held<'a, 'b>(
    alloc: Global,
    table: &Table<'a>,
    groups: &[&'b [Spot]],
    having: &'a Option<FoundCond>,
) -> Result<Vec<&'b [Spot]>, AllocError>
    ensures { IfOk result (λ found. map (λ group. group.now) found.items
        ≡ filter (λ group. found_holds having.now (pairs_at table.now group)) (map (λ group. group.now) groups.now)) }
{
    let mut found = Vec::new(alloc);
    for group in groups {
        let taken = table.holds(group, having);
        push_if(taken, *group, &mut found)?;
    }
    Ok(found)
}
