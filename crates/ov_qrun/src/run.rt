//! The answer of a query over a scan.

ghost use Rattle.std.specs.Prelude.{◌≡◌, Ok, List, IfOk, OnOk, if◌then◌else◌, filter, map};
ghost use Rattle.std.specs.List.{All};
ghost use Rattle.ov_model.specs.Answers.{Pair, Related, answer, grouped_pairs, here_for, limited, order_by, places, sorted_by};
ghost use Rattle.ov_model.specs.Kinds.{is_grouped, kinds};
ghost use Rattle.ov_fetch.specs.Scans.{IsSound};
ghost use Rattle.ov_value.specs.Rows.{Fits};
ghost use Rattle.ov_terms.specs.Finding.{in_version, is_taken, shown_by};
ghost use Rattle.ov_terms.specs.Standing.{NoLineages, pairs_at, pairs_shown};
ghost use Rattle.ov_terms.specs.declared.spot.Spot.{Spot as SpotValue};
ghost use Rattle.ov_qrun.specs.Keys.{pairs_of, spot_order};
ghost use Rattle.ov_qrun.specs.Plans.{IsPlan, keyless};

use crate::groups::{alone, held, runs, sort_spots};
use crate::places::{Place, places_of, sort_places};
use crate::plan::{Plan, plan_of};
use ov_fetch::Scan;
use ov_model::{Answer, Cell, Query, Seq};
use ov_terms::{FoundItems, Lookup, SideBySide, Spot, Table};
use ov_typing::{Shape, Typed, is_grouped};
use ov_value::{Column, Kind};
use std::alloc::{AllocError, Global};

// The groups of spots that are sorted by the values of the group columns; where there are no columns, all in one group.
fn groups_in<'b>(
    alloc: Global,
    table: &Table<'_>,
    plan: &Plan<'_>,
    spots: &'b [Spot],
) -> Result<Vec<&'b [Spot]>, AllocError>
    requires plan { IsPlan plan.now }
    requires fit { All (Fits plan.now.shape.now) table.now }
    ensures { (all : List SpotValue) → spots.now ≡ sorted_by (spot_order table.now plan.now.groups.items) all
        → IfOk result (λ found. map (λ group. pairs_at table.now group.now) found.items
        ≡ grouped_pairs plan.now.shape.now plan.now.query.now.groups (pairs_at table.now all)) }
{
    if plan.query.groups.as_slice().is_empty() {
        let mut found = Vec::new(alloc);
        found.push(spots)?;
        return Ok(found);
    }
    let found = runs(alloc, table, plan.groups.as_slice(), spots)?;
    Ok(found)
}

// The groups that give the rows of the answer: those that HAVING takes, or each spot alone.
fn taken<'a, 'b>(
    alloc: Global,
    table: &Table<'a>,
    plan: &'a Plan<'_>,
    grouped: bool,
    spots: &'b [Spot],
) -> Result<Vec<&'b [Spot]>, AllocError>
    requires plan { IsPlan plan.now }
    requires fit { All (Fits plan.now.shape.now) table.now }
    requires grouped { grouped ≡ is_grouped plan.now.query.now }
    ensures { (related : Related) (all : List SpotValue)
        → spots.now ≡ (if grouped then sorted_by (spot_order table.now plan.now.groups.items) all else all)
        → IfOk result (λ found. map (λ group. pairs_at table.now group.now) found.items
        ≡ places plan.now.query.now plan.now.shape.now related (pairs_at table.now all)) }
{
    if grouped {
        let groups = groups_in(alloc, table, plan, spots)?;
        let found = held(alloc, table, groups.as_slice(), &plan.having)?;
        return Ok(found);
    }
    let found = alone(alloc, spots)?;
    Ok(found)
}

// The places of groups, in their order.
fn ordered<'a, 'b>(
    alloc: Global,
    table: &Table<'a>,
    plan: &Plan<'_>,
    groups: &[&'b [Spot]],
) -> Result<Vec<Place<'a, 'b>>, AllocError>
    requires plan { IsPlan plan.now }
    requires fit { All (Fits plan.now.shape.now) table.now }
    ensures { (related : Related) → IfOk result (λ found. map (pairs_of table.now) found.items
        ≡ sorted_by (λ a b. order_by plan.now.query.now.order (here_for plan.now.shape.now related a) (here_for plan.now.shape.now related b))
        (map (λ group. pairs_at table.now group.now) groups.now)) }
{
    let mut found = places_of(alloc, table, plan.order.as_slice(), groups)?;
    sort_places(plan.query.order.as_slice(), &mut found)?;
    Ok(found)
}

// The first places, as many as LIMIT says.
fn first_places<'a, 'b, 'c>(places: &'c [Place<'a, 'b>], limit: Option<u64>) -> &'c [Place<'a, 'b>]
    ensures { result.now ≡ limited limit places.now }
{
    match limit {
        None => places,
        Some(most) => {
            if most < places.len() as u64 {
                &places[..most as usize]
            } else {
                places
            }
        }
    }
}

// The rows of the answer that these places give.
fn rows_at(
    alloc: Global,
    table: &Table<'_>,
    items: &FoundItems,
    places: &[Place<'_, '_>],
) -> Result<Seq<Seq<Cell>>, AllocError>
    ensures { IfOk result (λ rows. rows ≡ map (shown_by items.now) (map (pairs_of table.now) places.now)) }
{
    let mut rows = Vec::with_capacity(alloc, places.len())?;
    for place in places {
        rows.push(table.shown(alloc, place.group, items)?)?;
    }
    Ok(Seq::from_vec(rows))
}

fn copy_of(alloc: Global, kinds: &[Kind]) -> Result<Seq<Kind>, AllocError>
    ensures { IfOk result (λ copy. copy ≡ kinds.now) }
{
    let mut copy = Vec::with_capacity(alloc, kinds.len())?;
    for kind in kinds {
        copy.push(*kind)?;
    }
    Ok(Seq::from_vec(copy))
}

// Where the query is grouped, sorts the spots by the values of its group columns.
fn sort_if(
    table: &Table<'_>,
    cols: &[Lookup],
    grouped: bool,
    spots: &mut Vec<Spot>,
) -> Result<(), AllocError>
    ensures { OnOk result (spots.new.items
        ≡ (if grouped then sorted_by (spot_order table.now cols.now) spots.old.items else spots.old.items)) }
{
    if grouped {
        sort_spots(table, cols, spots)?;
    }
    Ok(())
}

// The rows of the answer, over the spots that WHERE takes.
fn answer_rows<'a>(
    alloc: Global,
    table: &Table<'a>,
    plan: &'a Plan<'_>,
    grouped: bool,
    taken_spots: Vec<Spot>,
) -> Result<Seq<Seq<Cell>>, AllocError>
    requires plan { IsPlan plan.now }
    requires fit { All (Fits plan.now.shape.now) table.now }
    requires grouped { grouped ≡ is_grouped plan.now.query.now }
    ensures { (related : Related) (all : List Pair) → pairs_at table.now taken_spots.items ≡ filter (is_taken plan.now.filter) all
        → IfOk result (λ rows. rows ≡ answer plan.now.query.now plan.now.shape.now related all) }
{
    let mut kept = taken_spots;
    sort_if(table, plan.groups.as_slice(), grouped, &mut kept)?;
    let groups = taken(alloc, table, plan, grouped, kept.as_slice())?;
    let places = ordered(alloc, table, plan, groups.as_slice())?;
    let first = first_places(places.as_slice(), plan.query.limit);
    let rows = rows_at(alloc, table, &plan.items, first)?;
    Ok(rows)
}

/// The answer of a query over the versions of a scan, where the rows fit the schema that the query was typed with, and its
/// conditions name no lineage.
///
/// The query's columns are looked up once, before the first row. Memory goes by the spots that WHERE takes, 16 bytes each, and by
/// the places of the answer's rows; a row that WHERE drops takes none, and a row has values of its own only in the answer. Time:
/// one pass over the rows, and a sort of those that are taken where the query is grouped and they aren't in order already, and of
/// the places where it has ORDER BY.
pub fn run_typed(alloc: Global, typed: &Typed<'_>, scan: &Scan) -> Result<Answer, AllocError>
    requires sound { IsSound typed.now.schema scan.now }
    requires filter { NoLineages typed.now.query.filter }
    requires having { NoLineages typed.now.query.having }
    ensures kinds { IfOk result (λ made. kinds typed.now.query typed.now.schema ≡ Ok made.kinds) }
    ensures rows { (related : Related) → IfOk result (λ made. made.rows
        ≡ answer typed.now.query typed.now.schema related (pairs_shown scan.now)) }
{
    let shape = Shape::of(typed.schema());
    let plan = plan_of(alloc, typed.query(), &shape)?;
    let table = Table::of(&scan.records);
    let kept = table.kept(
        alloc,
        scan.vids.as_slice(),
        scan.picks.as_slice(),
        &plan.filter,
    )?;
    let rows = answer_rows(alloc, &table, &plan, typed.is_grouped(), kept)?;
    let kinds = copy_of(alloc, typed.kinds())?;
    Ok(Answer { kinds, rows })
}

/// The rows of the answer of a query over rows side by side, which are of version 0 and fit these columns. Memory and time go as those
/// of [`run_typed`].
pub fn rows_over<'a>(
    alloc: Global,
    query: &Query,
    columns: &[Column],
    rows: &'a SideBySide<'a>,
) -> Result<Seq<Seq<Cell>>, AllocError>
    requires fit { All (Fits (keyless columns.now)) rows.now }
    requires filter { NoLineages query.now.filter }
    requires having { NoLineages query.now.having }
    ensures { (related : Related) → IfOk result (λ made. made ≡ answer query.now (keyless columns.now) related (map (in_version 0) rows.now)) }
{
    let shape = Shape::without_key(columns);
    let plan = plan_of(alloc, query, &shape)?;
    let table = Table::of_two(rows);
    let kept = table.kept_rows(alloc, &plan.filter)?;
    let made = answer_rows(alloc, &table, &plan, is_grouped(query), kept)?;
    Ok(made)
}
