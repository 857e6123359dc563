//! A query whose columns were looked up.

ghost use Rattle.std.specs.Prelude.{◌≡◌, List, IfOk, map};
ghost use Rattle.ov_model.specs.Answers.{Pair, group_key};
ghost use Rattle.ov_terms.specs.Standing.{NoLineages};
ghost use Rattle.ov_qrun.specs.Keys.{key_in, keys_for, named_keys};
ghost use Rattle.ov_qrun.specs.Plans.{AreLookups, IsPlan};

use ov_model::{Col, Key, Query};
use ov_terms::{FoundCond, FoundItems, FoundTerm, Lookup, find_guard};
use ov_typing::Shape;
use std::alloc::{AllocError, Global};

/// A query, and where its columns are found in rows.
#[derive(Drop)]
pub(crate) struct Plan<'a> {
    pub(crate) query: &'a Query,
    pub(crate) shape: &'a Shape<'a>,
    pub(crate) filter: Option<FoundCond>,
    pub(crate) groups: Vec<Lookup>,
    pub(crate) having: Option<FoundCond>,
    /// The terms of the keys of ORDER BY.
    pub(crate) order: Vec<FoundTerm>,
    pub(crate) items: FoundItems,
}

/// A query over rows of these columns. Its columns are looked up here, and at no row.
pub(crate) fn plan_of<'a>(
    alloc: Global,
    query: &'a Query,
    shape: &'a Shape<'a>,
) -> Result<Plan<'a>, AllocError>
    requires filter { NoLineages query.now.filter }
    requires having { NoLineages query.now.having }
    ensures plan { IfOk result IsPlan }
    ensures query { IfOk result (λ plan. plan.query.now ≡ query.now) }
    ensures shape { IfOk result (λ plan. plan.shape.now ≡ shape.now) }
{
    let filter = find_guard(alloc, shape, &query.filter)?;
    let groups = find_cols(alloc, shape, query.groups.as_slice())?;
    let having = find_guard(alloc, shape, &query.having)?;
    let order = find_keys(alloc, shape, query.order.as_slice())?;
    let items = FoundItems::of(alloc, shape, &query.items)?;
    Ok(Plan {
        query,
        shape,
        filter,
        groups,
        having,
        order,
        items,
    })
}

fn find_cols(alloc: Global, shape: &Shape<'_>, cols: &[Col]) -> Result<Vec<Lookup>, AllocError>
    ensures { (pair : Pair) → IfOk result (λ found. key_in found.items pair ≡ group_key shape.now cols.now pair) }
{
    let mut found = Vec::with_capacity(alloc, cols.len())?;
    for col in cols {
        found.push(Lookup::of(shape, col))?;
    }
    Ok(found)
}

fn find_keys(alloc: Global, shape: &Shape<'_>, order: &[Key]) -> Result<Vec<FoundTerm>, AllocError>
    ensures { (group : List Pair) → IfOk result (λ found. keys_for found.items group ≡ named_keys shape.now order.now group) }
{
    let mut found = Vec::with_capacity(alloc, order.len())?;
    for key in order {
        found.push(FoundTerm::of(shape, &key.term))?;
    }
    Ok(found)
}
