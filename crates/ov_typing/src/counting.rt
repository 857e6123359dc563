//! The comparisons of a condition, counted and checked.

ghost use Rattle.std.specs.Prelude.{◌≡◌, map};
ghost use Rattle.ov_model.specs.Kinds.{same_or, compared, tested, counted, count_all, guard_counts, grouped_or};
ghost use Rattle.ov_model.specs.declared.query.Col.TheVariants.{Vid};
ghost use Rattle.ov_value.specs.declared.column.Kind.TheVariants.{Int};
ghost use Rattle.ov_typing.specs.Refusing.{Gives};

use crate::place::Place;
use crate::type_err::TypeErr;
use ov_model::{Col, Cond, Operand, comparisons_by_cases};
use ov_value::Kind;
use std::alloc::Global;

// The number of the next comparison, or the refusal of this one. No memory has 2^64 comparisons.
fn same_or(nth: u64, left: Kind, right: Kind) -> Result<u64, TypeErr>
    ensures { Gives result (same_or nth left right) }
{
    if left != right {
        return Err(TypeErr::TypeMismatch { nth, left, right });
    }
    match nth.checked_add(1) {
        Some(next) => Ok(next),
        None => Err(TypeErr::Memory),
    }
}

/// The number of the comparison behind this one, or the refusal of this one.
pub fn compared(
    alloc: Global,
    place: &Place<'_>,
    nth: u64,
    left: &Operand,
    right: &Operand,
) -> Result<u64, TypeErr>
    ensures { Gives result (compared place.now nth left.now right.now) }
{
    let left = place.operand_kind(alloc, left)?;
    let right = place.operand_kind(alloc, right)?;
    same_or(nth, left, right)
}

// A test of the version's number, which is no comparison.
fn version_tested(alloc: Global, place: &Place<'_>, nth: u64) -> Result<u64, TypeErr>
    ensures { Gives result (tested nth (grouped_or place.now Vid Int)) }
{
    let _ = place.grouped_or(alloc, &Col::Vid, Kind::Int)?;
    Ok(nth)
}

/// What a condition does to the number of the comparison that comes next, or its first refusal.
#[cycle(counted)]
pub(crate) fn counted(
    alloc: Global,
    place: &Place<'_>,
    cond: &Cond,
    nth: u64,
) -> Result<u64, TypeErr>
    ensures { Gives result (counted place.now cond.now nth) }
{
    comparisons_by_cases();
    match cond {
        Cond::Compare(left, _, right) => compared(alloc, place, nth, left, right),
        Cond::IsNull(operand, _) => {
            let _ = place.operand_kind(alloc, operand)?;
            Ok(nth)
        }
        Cond::InLineage(_, _, _) | Cond::InList(_, _) => version_tested(alloc, place, nth),
        Cond::Not(inner) => counted(alloc, place, inner.get(), nth),
        Cond::Every(conds) | Cond::Any(conds) => count_all(alloc, place, conds.as_slice(), nth),
    }
}

#[cycle(counted)]
fn count_all(alloc: Global, place: &Place<'_>, conds: &[Cond], nth: u64) -> Result<u64, TypeErr>
    ensures { Gives result (count_all (map (counted place.now) conds.now) nth) }
{
    let mut next = nth;
    for cond in conds {
        next = counted(alloc, place, cond, next)?;
    }
    Ok(next)
}

/// What WHERE or HAVING, where it is there, does to the number of the comparison that comes next, or its first refusal.
pub fn guard_counts(
    alloc: Global,
    place: &Place<'_>,
    guard: &Option<Cond>,
    nth: u64,
) -> Result<u64, TypeErr>
    ensures { Gives result (guard_counts place.now guard.now nth) }
{
    match guard {
        None => Ok(nth),
        Some(cond) => counted(alloc, place, cond, nth),
    }
}
