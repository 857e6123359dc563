//! Conditions.

ghost use Rattle.std.specs.Prelude.{◌≡◌, MatchOption, Some, None, [], ◌∷◌, length};
ghost use Rattle.ov_model.specs.declared.query.Fixed.TheVariants as f;
ghost use Rattle.ov_model.specs.Grammar.{every as every_of, any as any_of};
ghost use Rattle.ov_model.specs.Reading.{vid_in as vid_in_of, or_else, null_at, comparison_at, operand_test_at, lineage_test_at, list_at, conj_at, disj_at, closed_at, unit_at, cond_at};
ghost use Rattle.ov_parse.specs.Returning.{Gives};
ghost use Rattle.ov_parse.specs.Scopes.{operand_in, test_in};

use crate::scope::Scope;
use crate::stop::Stop;
use crate::symbols::{behind, eaten, not_at};
use crate::term::{lineage, operand, sign};
use ov_model::{Cond, Fixed, Operand, Symbol};
use sqlite_items::{Boxed, Items};
use std::alloc::Global;

/// `VID IN` or `VID NOT IN`: whether NOT stands there, and what comes then.
#[tactic(auto, unfolding(ov_model::specs::Reading::vid_in))]
fn vid_in(symbols: &[Symbol]) -> Option<(bool, &[Symbol])>
    ensures { MatchOption result (vid_in_of symbols.now ≡ None) (λ x. vid_in_of symbols.now ≡ Some (x.0, x.1.now)) }
{
    let rest = eaten(Fixed::Vid, symbols)?;
    let (negated, rest) = not_at(rest);
    let rest = eaten(Fixed::In, rest)?;
    Some((negated, rest))
}

/// What stands behind `operand IS`.
#[tactic(auto, unfolding(ov_model::specs::Reading::null_at))]
fn null(tested: Operand, symbols: &[Symbol]) -> Result<(Cond, &[Symbol]), Stop>
    ensures { Gives (λ x. (x.0, x.1.now)) result (null_at tested symbols.now) }
{
    let (negated, rest) = not_at(symbols);
    let rest = behind(Fixed::Null, rest)?;
    Ok((Cond::IsNull(tested, negated), rest))
}

/// What stands behind the left side of a comparison.
#[tactic(auto, unfolding(ov_model::specs::Reading::comparison_at))]
fn comparison(
    alloc: Global,
    scope: Scope,
    left: Operand,
    symbols: &[Symbol],
) -> Result<(Cond, &[Symbol]), Stop>
    ensures { Gives (λ x. (x.0, x.1.now)) result (comparison_at (operand_in scope) left symbols.now) }
{
    let (by, rest) = sign(symbols)?;
    let (right, rest) = operand(alloc, scope, rest)?;
    Ok((Cond::Compare(left, by, right), rest))
}

#[tactic(auto, unfolding(ov_model::specs::Reading::operand_test_at))]
fn operand_test(alloc: Global, scope: Scope, symbols: &[Symbol]) -> Result<(Cond, &[Symbol]), Stop>
    ensures { Gives (λ x. (x.0, x.1.now)) result (operand_test_at (operand_in scope) symbols.now) }
{
    let (left, rest) = operand(alloc, scope, symbols)?;
    match eaten(Fixed::Is, rest) {
        Some(rest) => null(left, rest),
        None => comparison(alloc, scope, left, rest),
    }
}

#[tactic(auto, unfolding(ov_model::specs::Reading::lineage_test_at))]
fn lineage_test(negated: bool, symbols: &[Symbol]) -> Result<(Cond, &[Symbol]), Stop>
    ensures { Gives (λ x. (x.0, x.1.now)) result (lineage_test_at (negated, symbols.now)) }
{
    let ((kind, vid), rest) = lineage(symbols)?;
    Ok((Cond::InLineage(kind, vid, negated), rest))
}

/// A test of the rows or groups of a query, which may be of the version's lineage.
fn query_test(alloc: Global, scope: Scope, symbols: &[Symbol]) -> Result<(Cond, &[Symbol]), Stop>
    ensures { Gives (λ x. (x.0, x.1.now)) result (or_else (vid_in_of symbols.now) lineage_test_at (operand_test_at (operand_in scope) symbols.now)) }
{
    match vid_in(symbols) {
        Some((negated, rest)) => lineage_test(negated, rest),
        None => operand_test(alloc, scope, symbols),
    }
}

/// A condition without NOT, AND, OR and parentheses of its own.
#[tactic(auto, unfolding(ov_model::specs::Reading::test_at, ov_model::specs::JoinReading::side_test_at, ov_model::specs::JoinReading::side_operand_at))]
fn test(alloc: Global, scope: Scope, symbols: &[Symbol]) -> Result<(Cond, &[Symbol]), Stop>
    ensures { Gives (λ x. (x.0, x.1.now)) result (test_in scope symbols.now) }
{
    match scope {
        Scope::Rows => query_test(alloc, Scope::Rows, symbols),
        Scope::Groups => query_test(alloc, Scope::Groups, symbols),
        Scope::Sides => operand_test(alloc, Scope::Sides, symbols),
    }
}

/// One member stands for itself; more are a node.
fn every(members: Items<Cond>) -> Cond
    ensures { result ≡ every_of members }
{
    let mut members = members;
    if members.len() == 1 {
        if let Some(only) = members.pop() {
            return only;
        }
    }
    Cond::Every(members)
}

fn any(members: Items<Cond>) -> Cond
    ensures { result ≡ any_of members }
{
    let mut members = members;
    if members.len() == 1 {
        if let Some(only) = members.pop() {
            return only;
        }
    }
    Cond::Any(members)
}

/// How many of `NOT unit` and `( cond )` may stand one in another.
const MAX_DEPTH: u8 = 100;

/// A condition, and what stands behind it.
pub(crate) fn condition(
    alloc: Global,
    scope: Scope,
    symbols: &[Symbol],
) -> Result<(Cond, &[Symbol]), Stop>
    ensures { Gives (λ x. (x.0, x.1.now)) result (cond_at (test_in scope) 100 symbols.now) }
{
    disj(alloc, scope, MAX_DEPTH, symbols)
}

/// Members with OR between each two.
#[cycle(conditions)]
#[tactic(auto, unfolding(ov_model::specs::Reading::cond_at, ov_model::specs::Reading::disj_at))]
fn disj(
    alloc: Global,
    scope: Scope,
    depth: u8,
    symbols: &[Symbol],
) -> Result<(Cond, &[Symbol]), Stop>
    ensures { Gives (λ x. (x.0, x.1.now)) result (cond_at (test_in scope) depth symbols.now) }
{
    let (members, rest) = conjs(alloc, scope, depth, symbols)?;
    Ok((any(members), rest))
}

#[cycle(conditions)]
#[tactic(auto, unfolding(ov_model::specs::Reading::list_at))]
fn conjs(
    alloc: Global,
    scope: Scope,
    depth: u8,
    symbols: &[Symbol],
) -> Result<(Items<Cond>, &[Symbol]), Stop>
    ensures { Gives (λ x. (x.0, x.1.now)) result (list_at f.Or (conj_at (unit_at (test_in scope) depth)) symbols.now) }
{
    let (first, start) = conj(alloc, scope, depth, symbols)?;
    let mut members = Items::new(alloc);
    members.push(first)?;
    let mut rest = start;
    for _ in 0..start.len() {
        let Some(after) = eaten(Fixed::Or, rest) else {
            return Ok((members, rest));
        };
        let (member, after) = conj(alloc, scope, depth, after)?;
        members.push(member)?;
        rest = after;
    }
    Ok((members, rest))
}

/// Members with AND between each two.
#[cycle(conditions)]
#[tactic(auto, unfolding(ov_model::specs::Reading::conj_at))]
fn conj(
    alloc: Global,
    scope: Scope,
    depth: u8,
    symbols: &[Symbol],
) -> Result<(Cond, &[Symbol]), Stop>
    ensures { Gives (λ x. (x.0, x.1.now)) result (conj_at (unit_at (test_in scope) depth) symbols.now) }
{
    let (members, rest) = units(alloc, scope, depth, symbols)?;
    Ok((every(members), rest))
}

#[cycle(conditions)]
#[tactic(auto, unfolding(ov_model::specs::Reading::list_at))]
fn units(
    alloc: Global,
    scope: Scope,
    depth: u8,
    symbols: &[Symbol],
) -> Result<(Items<Cond>, &[Symbol]), Stop>
    ensures { Gives (λ x. (x.0, x.1.now)) result (list_at f.And (unit_at (test_in scope) depth) symbols.now) }
{
    let (first, start) = unit(alloc, scope, depth, symbols)?;
    let mut members = Items::new(alloc);
    members.push(first)?;
    let mut rest = start;
    for _ in 0..start.len() {
        let Some(after) = eaten(Fixed::And, rest) else {
            return Ok((members, rest));
        };
        let (member, after) = unit(alloc, scope, depth, after)?;
        members.push(member)?;
        rest = after;
    }
    Ok((members, rest))
}

/// A test, or NOT and a unit, or a condition in parentheses.
#[cycle(conditions)]
#[tactic(auto, unfolding(ov_model::specs::Reading::unit_at))]
fn unit(
    alloc: Global,
    scope: Scope,
    depth: u8,
    symbols: &[Symbol],
) -> Result<(Cond, &[Symbol]), Stop>
    ensures { Gives (λ x. (x.0, x.1.now)) result (unit_at (test_in scope) depth symbols.now) }
{
    if depth == 0 {
        return test(alloc, scope, symbols);
    }
    if let Some(rest) = eaten(Fixed::Not, symbols) {
        let (negated, rest) = unit(alloc, scope, depth - 1, rest)?;
        return Ok((Cond::Not(Boxed::new(alloc, negated)?), rest));
    }
    if let Some(rest) = eaten(Fixed::Open, symbols) {
        return closed(alloc, scope, depth - 1, rest);
    }
    test(alloc, scope, symbols)
}

/// A condition and the parenthesis behind it.
#[cycle(conditions)]
#[tactic(auto, unfolding(ov_model::specs::Reading::closed_at, ov_model::specs::Reading::cond_at))]
fn closed(
    alloc: Global,
    scope: Scope,
    depth: u8,
    symbols: &[Symbol],
) -> Result<(Cond, &[Symbol]), Stop>
    ensures { Gives (λ x. (x.0, x.1.now)) result (closed_at (disj_at (conj_at (unit_at (test_in scope) depth))) symbols.now) }
{
    let (cond, rest) = disj(alloc, scope, depth, symbols)?;
    let rest = behind(Fixed::Close, rest)?;
    Ok((cond, rest))
}
