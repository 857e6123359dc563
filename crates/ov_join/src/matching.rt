//! The pairs of rows that match.

ghost use Rattle.std.specs.Prelude.{◌≡◌, ◌≢◌, ◌<◌, ◌≤◌, ◌++◌, IfOk, IfErr, OnOk, true, false, length, map};
ghost use Rattle.std.specs.List.{flat_map, prefix_len};
ghost use Rattle.std.specs.List.Sorted.{IsPartitionPoint};
ghost use Rattle.std.specs.Ordering.{is_eq, is_lt};
ghost use Rattle.ov_join.specs.Partnering.{IsSortedSide, matches_by, paired, partners_in, row_order, told};
ghost use Rattle.ov_join.specs.declared.join_err.JoinErr.TheVariants.{Memory};

use crate::join_err::JoinErr;
use crate::side::Side;
use ov_model::MOST_JOINED;
use ov_qrun::cmp_ranked;
use ov_terms::{Match, Spot};
use std::alloc::{AllocError, Global};
use std::cmp::Ordering;

/// A left row, by its position, and the right rows that it matches, in their order.
#[derive(Drop)]
pub(crate) struct Partnered<'a> {
    pub(crate) left: usize,
    pub(crate) right: &'a [Spot],
}

// How a right row compares with a left one by the columns of ON.
fn cmp_rows(left: &Side<'_>, place: usize, right: &Side<'_>, spot: Spot) -> Ordering
    requires { length left.now.cols.items ≡ length right.now.cols.items }
    ensures { result ≡ row_order left.now right.now place spot }
{
    let row = Spot { vid: 0, place };
    for (i, found) in right.cols.iter().enumerate() {
        let order = cmp_ranked(
            right.table.value_at(spot, *found),
            left.table.value_at(row, left.cols[i]),
        );
        if order != Ordering::Equal {
            return order;
        }
    }
    Ordering::Equal
}

// How many right rows stand before those that aren't below a left one.
fn lower(left: &Side<'_>, place: usize, right: &Side<'_>, sorted: &[Spot]) -> usize
    requires same { length left.now.cols.items ≡ length right.now.cols.items }
    requires sorted { IsSortedSide right.now sorted.now }
    ensures bound { result ≤ length sorted.now }
    ensures point { IsPartitionPoint (λ spot. is_lt (row_order left.now right.now place spot) ≡ true)
        (λ spot. is_lt (row_order left.now right.now place spot) ≡ false) sorted.now result }
{
    sorted.partition_point(|spot| cmp_rows(left, place, right, *spot).is_lt())
}

// How many of these right rows, from the first one on, are equal to a left one.
fn equal_len(left: &Side<'_>, place: usize, right: &Side<'_>, rest: &[Spot]) -> usize
    requires { length left.now.cols.items ≡ length right.now.cols.items }
    ensures bound { result ≤ length rest.now }
    ensures is { result ≡ prefix_len (λ spot. is_eq (row_order left.now right.now place spot)) rest.now }
{
    for at in 0..rest.len() {
        if !cmp_rows(left, place, right, rest[at]).is_eq() {
            return at;
        }
    }
    rest.len()
}

// The right rows that a left one matches.
fn partners_of<'a>(
    left: &Side<'_>,
    place: usize,
    right: &Side<'_>,
    sorted: &'a [Spot],
) -> &'a [Spot]
    requires same { length left.now.cols.items ≡ length right.now.cols.items }
    requires sorted { IsSortedSide right.now sorted.now }
    ensures { result.now ≡ partners_in left.now right.now sorted.now place }
{
    if left.has_null(Spot { vid: 0, place }) {
        return &sorted[..0];
    }
    let rest = &sorted[lower(left, place, right, sorted)..];
    &rest[..equal_len(left, place, right, rest)]
}

/// The partners of each left row, in the order of the left rows. Where there are more than 1,000,000 in all, it stops.
pub(crate) fn partners<'a>(
    alloc: Global,
    left: &Side<'_>,
    right: &Side<'_>,
    sorted: &'a [Spot],
) -> Result<Vec<Partnered<'a>>, JoinErr>
    requires same { length left.now.cols.items ≡ length right.now.cols.items }
    requires sorted { IsSortedSide right.now sorted.now }
    ensures ok { IfOk result (λ found. map told found.items ≡ map (λ place. (place, partners_in left.now right.now sorted.now place)) left.now.places.now) }
    ensures few { OnOk result (length (flat_map (partners_in left.now right.now sorted.now) left.now.places.now) ≤ 1000000) }
    ensures err { IfErr result (λ why. why ≢ Memory
        → 1000000 < length (flat_map (partners_in left.now right.now sorted.now) left.now.places.now)) }
{
    let mut found = Vec::with_capacity(alloc, left.places.len())?;
    let mut room = MOST_JOINED as usize;
    for place in left.places {
        let matched = partners_of(left, *place, right, sorted);
        if matched.len() > room {
            return Err(JoinErr::TooMany);
        }
        room -= matched.len();
        found.push(Partnered {
            left: *place,
            right: matched,
        })?;
    }
    Ok(found)
}

// Adds the pairs of a left row.
fn push_matches(left: usize, right: &[Spot], matches: &mut Vec<Match>) -> Result<(), AllocError>
    ensures { OnOk result (matches.new.items ≡ matches.old.items ++ map (paired left) right.now) }
{
    for spot in right {
        matches.push(Match {
            left,
            right: spot.place,
        })?;
    }
    Ok(())
}

/// The pairs of left rows and their partners.
pub(crate) fn matches_of(alloc: Global, found: &[Partnered<'_>]) -> Result<Vec<Match>, AllocError>
    ensures { IfOk result (λ matches. matches.items ≡ flat_map matches_by (map told found.now)) }
{
    let mut matches = Vec::new(alloc);
    for partners in found {
        push_matches(partners.left, partners.right, &mut matches)?;
    }
    Ok(matches)
}
