//! Conditions of a join over rows side by side.

ghost use Rattle.std.specs.Prelude.{◌≡◌, IfOk, map};
ghost use Rattle.ov_model.specs.Joins.{wide_cond, wide_guard};

use crate::wide::wide_operand;
use ov_model::{Boxed, Cond, Seq, join_conditions_by_cases};
use std::alloc::{AllocError, Global};

#[cycle(wide_cond)]
fn wide_cond(alloc: Global, cond: &Cond) -> Result<Cond, AllocError>
    ensures { IfOk result (λ made. made ≡ wide_cond cond.now) }
{
    join_conditions_by_cases();
    match cond {
        Cond::Compare(left, sign, right) => {
            let left = wide_operand(alloc, left)?;
            let right = wide_operand(alloc, right)?;
            Ok(Cond::Compare(left, *sign, right))
        }
        Cond::IsNull(tested, negated) => {
            let tested = wide_operand(alloc, tested)?;
            Ok(Cond::IsNull(tested, *negated))
        }
        Cond::InLineage(kind, vid, negated) => Ok(Cond::InLineage(*kind, *vid, *negated)),
        Cond::InList(vids, negated) => {
            let vids = Seq::from_slice(alloc, vids.as_slice())?;
            Ok(Cond::InList(vids, *negated))
        }
        Cond::Not(inner) => {
            let inner = wide_cond(alloc, inner.get())?;
            let inner = Boxed::new(alloc, inner)?;
            Ok(Cond::Not(inner))
        }
        Cond::Every(conds) => {
            let conds = wide_conds(alloc, conds.as_slice())?;
            Ok(Cond::Every(conds))
        }
        Cond::Any(conds) => {
            let conds = wide_conds(alloc, conds.as_slice())?;
            Ok(Cond::Any(conds))
        }
    }
}

#[cycle(wide_cond)]
fn wide_conds(alloc: Global, conds: &[Cond]) -> Result<Seq<Cond>, AllocError>
    ensures { IfOk result (λ made. made ≡ map wide_cond conds.now) }
{
    let mut made = Seq::new(alloc);
    for cond in conds {
        made.push(wide_cond(alloc, cond)?)?;
    }
    Ok(made)
}

pub(crate) fn wide_guard(alloc: Global, guard: &Option<Cond>) -> Result<Option<Cond>, AllocError>
    ensures { IfOk result (λ made. made ≡ wide_guard guard.now) }
{
    match guard {
        None => Ok(None),
        Some(cond) => Ok(Some(wide_cond(alloc, cond)?)),
    }
}
