//! Lists in place of lineages.

ghost use Rattle.std.specs.Prelude.{◌≡◌, ◌∷◌, [], IfOk, length, map};
ghost use Rattle.ov_model.specs.Asking.{cond_lineages, guard_lineages, lineages_of, missing_version, source_lineages};
ghost use Rattle.ov_model.specs.Lists.{joined};
ghost use Rattle.ov_lineage.specs.Related.{relatives_by};
ghost use Rattle.ov_lineage.specs.Resolved.{AllSayAs, GuardSaysAs, IsResolved, Refuses, SaysAs, source_by};

use crate::copies::{copy_cols, copy_items, copy_keys, copy_operand, copy_vids};
use crate::lineage::Lineage;
use crate::resolve_err::ResolveErr;
use ov_model::{Boxed, Cond, LineageKind, Query, Seq, Src};
use std::alloc::Global;

/// A query that says the same with lists of versions in place of lineages. Where a lineage's version doesn't exist, the first such
/// one from the left is named: of FROM, then of WHERE, then of HAVING.
pub fn resolve(alloc: Global, query: &Query, lineage: &Lineage) -> Result<Query, ResolveErr>
    ensures resolved { IfOk result (IsResolved lineage.now query.now) }
    ensures refused { Refuses result (missing_version (length lineage.now) (lineages_of query.now)) }
{
    let source = resolve_source(alloc, lineage, &query.source)?;
    let filter = resolve_guard(alloc, lineage, &query.filter)?;
    let having = resolve_guard(alloc, lineage, &query.having)?;
    let items = copy_items(alloc, &query.items)?;
    let groups = copy_cols(alloc, query.groups.as_slice())?;
    let order = copy_keys(alloc, query.order.as_slice())?;
    Ok(Query {
        items,
        source,
        filter,
        groups,
        having,
        order,
        limit: query.limit,
    })
}

fn relatives(
    alloc: Global,
    lineage: &Lineage,
    kind: LineageKind,
    vid: u64,
) -> Result<Vec<u32>, ResolveErr>
    ensures said { IfOk result (λ vids. vids.items ≡ relatives_by lineage.now kind vid) }
    ensures refused { Refuses result (missing_version (length lineage.now) (vid ∷ [])) }
{
    if vid == 0 || u64::from(lineage.count()) < vid {
        return Err(ResolveErr::NoVersion { vid });
    }
    Ok(lineage.versions(alloc, kind, vid as u32)?)
}

fn resolve_source(alloc: Global, lineage: &Lineage, source: &Src) -> Result<Src, ResolveErr>
    ensures said { IfOk result (λ made. made ≡ source_by (relatives_by lineage.now) source.now) }
    ensures refused { Refuses result (missing_version (length lineage.now) (source_lineages source.now)) }
{
    match source {
        Src::Listed { vids, cvd } => {
            let vids = Seq::from_slice(alloc, vids.as_slice())?;
            let cvd = cvd.copy(alloc)?;
            Ok(Src::Listed { vids, cvd })
        }
        Src::Whole { cvd } => {
            let cvd = cvd.copy(alloc)?;
            Ok(Src::Whole { cvd })
        }
        Src::Lineage { kind, vid, cvd } => {
            let vids = relatives(alloc, lineage, *kind, *vid)?;
            let vids = copy_vids(alloc, &vids)?;
            let cvd = cvd.copy(alloc)?;
            Ok(Src::Listed { vids, cvd })
        }
    }
}

fn resolve_guard(
    alloc: Global,
    lineage: &Lineage,
    guard: &Option<Cond>,
) -> Result<Option<Cond>, ResolveErr>
    ensures said { IfOk result (GuardSaysAs (relatives_by lineage.now) guard.now) }
    ensures refused { Refuses result (missing_version (length lineage.now) (guard_lineages guard.now)) }
{
    match guard {
        None => Ok(None),
        Some(cond) => Ok(Some(resolve_cond(alloc, lineage, cond)?)),
    }
}

#[cycle(resolve_cond)]
fn resolve_cond(alloc: Global, lineage: &Lineage, cond: &Cond) -> Result<Cond, ResolveErr>
    ensures said { IfOk result (SaysAs (relatives_by lineage.now) cond.now) }
    ensures refused { Refuses result (missing_version (length lineage.now) (cond_lineages cond.now)) }
{
    match cond {
        Cond::Compare(left, sign, right) => {
            let left = copy_operand(alloc, left)?;
            let right = copy_operand(alloc, right)?;
            Ok(Cond::Compare(left, *sign, right))
        }
        Cond::IsNull(tested, negated) => {
            let tested = copy_operand(alloc, tested)?;
            Ok(Cond::IsNull(tested, *negated))
        }
        Cond::InLineage(kind, vid, negated) => {
            let vids = relatives(alloc, lineage, *kind, *vid)?;
            Ok(Cond::InList(Seq::from_vec(vids), *negated))
        }
        Cond::InList(vids, negated) => {
            let vids = Seq::from_slice(alloc, vids.as_slice())?;
            Ok(Cond::InList(vids, *negated))
        }
        Cond::Not(inner) => {
            let inner = resolve_cond(alloc, lineage, inner.get())?;
            let inner = Boxed::new(alloc, inner)?;
            Ok(Cond::Not(inner))
        }
        Cond::Every(conds) => {
            let conds = resolve_conds(alloc, lineage, conds.as_slice())?;
            Ok(Cond::Every(conds))
        }
        Cond::Any(conds) => {
            let conds = resolve_conds(alloc, lineage, conds.as_slice())?;
            Ok(Cond::Any(conds))
        }
    }
}

#[cycle(resolve_cond)]
fn resolve_conds(alloc: Global, lineage: &Lineage, conds: &[Cond]) -> Result<Seq<Cond>, ResolveErr>
    ensures said { IfOk result (AllSayAs (relatives_by lineage.now) conds.now) }
    ensures refused { Refuses result (missing_version (length lineage.now) (joined (map cond_lineages conds.now))) }
{
    let mut made = Seq::new(alloc);
    for cond in conds {
        made.push(resolve_cond(alloc, lineage, cond)?)?;
    }
    Ok(made)
}
