//! Whether a condition says the same of a row in every version.
//!
//! Such a condition is read once for each record of a scan, and not again for each version that has it.

ghost use Rattle.std.specs.Prelude.{IsTrue};
ghost use Rattle.std.specs.List.{All};
ghost use Rattle.ov_terms.specs.Finding.{IsGuardOfRow, IsOfRow};

use crate::found_cond::{FoundCond, found_by_cases};

#[cycle(is_of_row)]
fn is_of_row(cond: &FoundCond) -> bool
    ensures { IsTrue result → IsOfRow cond.now }
{
    found_by_cases();
    match cond {
        FoundCond::Compare(left, _, right) => left.is_of_row() && right.is_of_row(),
        FoundCond::IsNull(tested, _) => tested.is_of_row(),
        FoundCond::InList(_, _) => false,
        FoundCond::Not(inner) => is_of_row(inner.get()),
        FoundCond::Every(conds) => are_of_rows(conds.as_slice()),
        FoundCond::Any(conds) => are_of_rows(conds.as_slice()),
    }
}

#[cycle(is_of_row)]
fn are_of_rows(conds: &[FoundCond]) -> bool
    ensures { IsTrue result → All IsOfRow conds.now }
{
    for cond in conds {
        if !is_of_row(cond) {
            return false;
        }
    }
    true
}

/// Whether there is a WHERE, and it says the same of a row in every version.
pub(crate) fn is_guard_of_row(guard: &Option<FoundCond>) -> bool
    ensures { IsTrue result → IsGuardOfRow guard.now }
{
    match guard {
        None => false,
        Some(cond) => is_of_row(cond),
    }
}
