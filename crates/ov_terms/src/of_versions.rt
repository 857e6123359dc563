//! Whether a condition says the same of all rows of a version, and whether it says anything at all.
//!
//! What is of the version alone is decided once for each version, and where WHERE is false then, none of its rows is looked at.

ghost use Rattle.std.specs.Prelude.{◌≡◌, IsTrue, List, Some, false, map};
ghost use Rattle.std.specs.List.{All};
ghost use Rattle.ov_model.specs.Answers.{Pair, truth_every};
ghost use Rattle.ov_terms.specs.Finding.{IsNever, IsOfVersion, TakesNone, found_truth};

use crate::found_cond::{FoundCond, found_by_cases};

/// Whether a condition says the same of all rows of a version.
#[cycle(is_of_version)]
pub(crate) fn is_of_version(cond: &FoundCond) -> bool
    ensures { IsTrue result → IsOfVersion cond.now }
{
    found_by_cases();
    match cond {
        FoundCond::Compare(left, _, right) => left.is_of_version() && right.is_of_version(),
        FoundCond::IsNull(tested, _) => tested.is_of_version(),
        FoundCond::InList(_, _) => true,
        FoundCond::Not(inner) => is_of_version(inner.get()),
        FoundCond::Every(conds) => are_of_versions(conds.as_slice()),
        FoundCond::Any(conds) => are_of_versions(conds.as_slice()),
    }
}

#[cycle(is_of_version)]
fn are_of_versions(conds: &[FoundCond]) -> bool
    ensures { IsTrue result → All IsOfVersion conds.now }
{
    for cond in conds {
        if !is_of_version(cond) {
            return false;
        }
    }
    true
}

// Whether a condition is one of none, or all of conditions among which there is such a one: it is false then.
#[cycle(is_never)]
fn is_never(cond: &FoundCond) -> bool
    ensures { IsTrue result → IsNever cond.now }
{
    found_by_cases();
    match cond {
        FoundCond::Any(conds) => conds.as_slice().is_empty(),
        FoundCond::Every(conds) => has_never(conds.as_slice()),
        _ => false,
    }
}

#[cycle(is_never)]
fn has_never(conds: &[FoundCond]) -> bool
    ensures { (group : List Pair) → IsTrue result → truth_every (map (found_truth group) conds.now) ≡ Some false }
{
    for cond in conds {
        if is_never(cond) {
            return true;
        }
    }
    false
}

/// Whether WHERE is false of all pairs, as it stands.
pub(crate) fn takes_none(guard: &Option<FoundCond>) -> bool
    ensures { IsTrue result → TakesNone guard.now }
{
    match guard {
        None => false,
        Some(cond) => is_never(cond),
    }
}
