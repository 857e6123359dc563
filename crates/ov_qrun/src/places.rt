//! The places of an answer's rows, in their order.

ghost use Rattle.std.specs.Prelude.{◌≡◌, IfOk, OnOk, drop, map};
ghost use Rattle.ov_model.specs.Answers.{sorted_by};
ghost use Rattle.ov_terms.specs.Seeing.{cell_of};
ghost use Rattle.ov_terms.specs.Standing.{pairs_at};
ghost use Rattle.ov_qrun.specs.Keys.{cells_in, keys_for, pairs_of, place_order};
ghost use Rattle.ov_qrun.specs.Ranking.{first_cell, ranked, ranked_by, turned_by};

use crate::order::cmp_ranked;
use ov_model::Key;
use ov_terms::{FoundTerm, Seen, Spot, Table};
use std::alloc::{AllocError, Global};
use std::cmp::Ordering;

/// A group, or one spot, and what the keys of ORDER BY are over it.
#[derive(Drop)]
pub(crate) struct Place<'a, 'b> {
    pub(crate) group: &'b [Spot],
    pub(crate) keys: Vec<Seen<'a>>,
}

// What the keys of ORDER BY are over a group.
fn keys_over<'a>(
    alloc: Global,
    table: &Table<'a>,
    order: &[FoundTerm],
    group: &[Spot],
) -> Result<Vec<Seen<'a>>, AllocError>
    ensures { IfOk result (λ keys. map cell_of keys.items ≡ keys_for order.now (pairs_at table.now group.now)) }
{
    let mut keys = Vec::with_capacity(alloc, order.len())?;
    for term in order {
        keys.push(table.term(group, *term))?;
    }
    Ok(keys)
}

/// The places of groups.
pub(crate) fn places_of<'a, 'b>(
    alloc: Global,
    table: &Table<'a>,
    order: &[FoundTerm],
    groups: &[&'b [Spot]],
) -> Result<Vec<Place<'a, 'b>>, AllocError>
    ensures groups { IfOk result (λ places. map (λ place. place.group.now) places.items ≡ map (λ group. group.now) groups.now) }
    ensures keys { IfOk result (λ places. map cells_in places.items
        ≡ map (λ place. keys_for order.now (pairs_of table.now place)) places.items) }
{
    let mut places = Vec::with_capacity(alloc, groups.len())?;
    for group in groups {
        places.push(Place {
            group: *group,
            keys: keys_over(alloc, table, order, group)?,
        })?;
    }
    Ok(places)
}

// The key at a position; nothing where there is none.
fn key_at<'a>(keys: &[Seen<'a>], at: usize) -> Seen<'a>
    ensures { cell_of result ≡ first_cell (drop at (map cell_of keys.now)) }
{
    match keys.get(at) {
        Some(seen) => *seen,
        None => Seen::Nothing,
    }
}

// How two cells compare by a key: DESC turns their order round.
fn cmp_key(key: &Key, a: Seen<'_>, b: Seen<'_>) -> Ordering
    ensures { result ≡ turned_by key.now.down (ranked (cell_of a.entry) (cell_of b.entry)) }
{
    let order = cmp_ranked(a, b);
    if key.down { order.reverse() } else { order }
}

// How two places compare by the keys of ORDER BY.
fn cmp_places(order: &[Key], a: &Place<'_, '_>, b: &Place<'_, '_>) -> Ordering
    ensures { result ≡ ranked_by order.now (cells_in a.now) (cells_in b.now) }
{
    for (at, key) in order.iter().enumerate() {
        let found = cmp_key(
            key,
            key_at(a.keys.as_slice(), at),
            key_at(b.keys.as_slice(), at),
        );
        if found != Ordering::Equal {
            return found;
        }
    }
    Ordering::Equal
}

/// Sorts places by the keys of ORDER BY. Places with the same ones keep their order.
pub(crate) fn sort_places(order: &[Key], places: &mut Vec<Place<'_, '_>>) -> Result<(), AllocError>
    ensures { OnOk result (places.new.items ≡ sorted_by (place_order order.now) places.old.items) }
{
    places.sort_by(|a, b| cmp_places(order, a, b))?;
    Ok(())
}
