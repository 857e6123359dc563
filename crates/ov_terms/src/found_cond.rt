//! A condition whose columns were found.

ghost use Rattle.std.specs.Prelude.{◌≡◌, ℕ, Bool, List, IfOk, Option, Some, map};
ghost use Rattle.std.specs.List.{All};
ghost use Rattle.ov_model.specs.Answers.{Pair, Related, cell_order, compared, here_for, is_null_cell, truth, truth_any, truth_every, truth_not, turned_if};
ghost use Rattle.ov_model.specs.declared.query.Sign.{Sign as SignValue};
ghost use Rattle.ov_terms.specs.Finding.{IsFound, IsFoundGuard, found_operand, found_truth, is_among};
ghost use Rattle.ov_terms.specs.Standing.{NoLineage, NoLineages};
ghost use Rattle.ov_terms.specs.declared.found_cond.FoundCond.{FoundCond as FoundValue};
ghost use Rattle.ov_terms.specs.declared.found_cond.FoundCond.TheVariants.{Compare, IsNull, InList, Not, Every, Any};
ghost use Rattle.ov_terms.specs.declared.found_operand.FoundOperand.{FoundOperand as OperandValue};

use crate::found_operand::FoundOperand;
use crate::lineages::free_by_cases;
use ov_model::{Boxed, Cond, Seq, Sign, truth_by_cases};
use ov_typing::Shape;
use std::alloc::{AllocError, Global};

/// A condition without lineages, with where its columns are found. The bool of `IsNull` and `InList` is true for NOT.
#[derive(Drop)]
pub enum FoundCond {
    Compare(FoundOperand, Sign, FoundOperand),
    IsNull(FoundOperand, bool),
    /// The version is one of these.
    InList(Seq<u32>, bool),
    Not(Boxed<FoundCond>),
    /// All of these.
    Every(Seq<FoundCond>),
    /// One of these.
    Any(Seq<FoundCond>),
}

/// What a condition says of a group, by cases.
pub fn found_by_cases()
    ensures compare { (group : List Pair) (left : OperandValue) (by : SignValue) (right : OperandValue)
        → found_truth group (Compare left by right) ≡ compared by (cell_order (found_operand group left) (found_operand group right)) }
    ensures null { (group : List Pair) (x : OperandValue) (negated : Bool)
        → found_truth group (IsNull x negated) ≡ Some (turned_if negated (is_null_cell (found_operand group x))) }
    ensures listed { (group : List Pair) (vids : List ℕ) (negated : Bool)
        → found_truth group (InList vids negated) ≡ Some (turned_if negated (is_among group vids)) }
    ensures not_ { (group : List Pair) (c : FoundValue) → found_truth group (Not c) ≡ truth_not (found_truth group c) }
    ensures every { (group : List Pair) (cs : List FoundValue) → found_truth group (Every cs) ≡ truth_every (map (found_truth group) cs) }
    ensures any { (group : List Pair) (cs : List FoundValue) → found_truth group (Any cs) ≡ truth_any (map (found_truth group) cs) }
{}

/// A condition over rows of these columns.
#[cycle(find_cond)]
pub fn find_cond(alloc: Global, shape: &Shape<'_>, cond: &Cond) -> Result<FoundCond, AllocError>
    requires { NoLineage cond.now }
    ensures { IfOk result (IsFound shape.now cond.now) }
{
    truth_by_cases();
    free_by_cases();
    found_by_cases();
    match cond {
        Cond::Compare(left, sign, right) => {
            let left = FoundOperand::of(alloc, shape, left)?;
            let right = FoundOperand::of(alloc, shape, right)?;
            Ok(FoundCond::Compare(left, *sign, right))
        }
        Cond::IsNull(tested, negated) => {
            let tested = FoundOperand::of(alloc, shape, tested)?;
            Ok(FoundCond::IsNull(tested, *negated))
        }
        Cond::InLineage(_, _, _) => unreachable!(),
        Cond::InList(vids, negated) => {
            let vids = Seq::from_slice(alloc, vids.as_slice())?;
            Ok(FoundCond::InList(vids, *negated))
        }
        Cond::Not(inner) => {
            let inner = find_cond(alloc, shape, inner.get())?;
            let inner = Boxed::new(alloc, inner)?;
            Ok(FoundCond::Not(inner))
        }
        Cond::Every(conds) => {
            let conds = find_conds(alloc, shape, conds.as_slice())?;
            Ok(FoundCond::Every(conds))
        }
        Cond::Any(conds) => {
            let conds = find_conds(alloc, shape, conds.as_slice())?;
            Ok(FoundCond::Any(conds))
        }
    }
}

#[cycle(find_cond)]
fn find_conds(
    alloc: Global,
    shape: &Shape<'_>,
    conds: &[Cond],
) -> Result<Seq<FoundCond>, AllocError>
    requires { All NoLineage conds.now }
    ensures { (related : Related) (group : List Pair)
        → IfOk result (λ found. map (found_truth group) found ≡ map (truth (here_for shape.now related group)) conds.now) }
{
    let mut found = Seq::new(alloc);
    for cond in conds {
        found.push(find_cond(alloc, shape, cond)?)?;
    }
    Ok(found)
}

/// WHERE or HAVING over rows of these columns.
pub fn find_guard(
    alloc: Global,
    shape: &Shape<'_>,
    guard: &Option<Cond>,
) -> Result<Option<FoundCond>, AllocError>
    requires { NoLineages guard.now }
    ensures { IfOk result (IsFoundGuard shape.now guard.now) }
{
    match guard {
        None => Ok(None),
        Some(cond) => Ok(Some(find_cond(alloc, shape, cond)?)),
    }
}
