//! Columns, terms, operands and counts.

ghost use Rattle.std.specs.Prelude.{◌≡◌, Some, None, ℤ};
ghost use Rattle.ov_model.specs.Reading.{col_of as the_col, col_at, inner_at, all_at, counted_at, term_at, is_literal as is_a_literal, literal_of as the_literal, may_stand as may, made_at, standing_at, count_of as the_count, count_at, name_of as the_name, name_at, kind_at, lineage_at, sign_of as the_sign, sign_by, sign_at};
ghost use Rattle.ov_model.specs.JoinReading.{side_term_at};
ghost use Rattle.ov_model.specs.declared.query.Operand.TheVariants as operand;
ghost use Rattle.ov_parse.specs.Returning.{Gives};
ghost use Rattle.ov_parse.specs.Scopes.{operand_in, standing_in, term_in};

use crate::part::Part;
use crate::scope::Scope;
use crate::side::side_term;
use crate::stop::Stop;
use crate::symbols::{behind, eaten, same};
use ov_model::{Col, Fixed, LineageKind, Operand, Sign, Symbol, Term};
use ov_value::{Txt, Value};
use std::alloc::Global;

#[tactic(auto, unfolding(ov_model::specs::Reading::col_of))]
fn col_of(alloc: Global, symbol: &Symbol) -> Result<Col, Stop>
    ensures { Gives (λ c. c) result (the_col symbol.now) }
{
    match symbol {
        Symbol::Fixed(word) => {
            if same(Fixed::Vid, *word) {
                Ok(Col::Vid)
            } else {
                Err(Stop::Unspelled)
            }
        }
        Symbol::Name(name) => Ok(Col::Name(name.copy(alloc)?)),
        _ => Err(Stop::Unspelled),
    }
}

#[tactic(auto, unfolding(ov_model::specs::Reading::col_at))]
fn col(alloc: Global, symbols: &[Symbol]) -> Result<(Col, &[Symbol]), Stop>
    ensures { Gives (λ x. (x.0, x.1.now)) result (col_at symbols.now) }
{
    match symbols {
        [] => Err(Stop::Unspelled),
        [first, rest @ ..] => Ok((col_of(alloc, first)?, rest)),
    }
}

impl Part for Col {
    ghost at = { λ scope. col_at };

    fn read(alloc: Global, _scope: Scope, symbols: &[Symbol]) -> Result<(Col, &[Symbol]), Stop> {
        col(alloc, symbols)
    }
}

/// A column in parentheses.
#[tactic(auto, unfolding(ov_model::specs::Reading::inner_at))]
fn inner(alloc: Global, symbols: &[Symbol]) -> Result<(Col, &[Symbol]), Stop>
    ensures { Gives (λ x. (x.0, x.1.now)) result (inner_at symbols.now) }
{
    let rest = behind(Fixed::Open, symbols)?;
    let (col, rest) = col(alloc, rest)?;
    let rest = behind(Fixed::Close, rest)?;
    Ok((col, rest))
}

/// What COUNT counts, in parentheses.
#[tactic(auto, unfolding(ov_model::specs::Reading::counted_at, ov_model::specs::Reading::all_at))]
fn counted(alloc: Global, symbols: &[Symbol]) -> Result<(Term, &[Symbol]), Stop>
    ensures { Gives (λ x. (x.0, x.1.now)) result (counted_at symbols.now) }
{
    let inside = behind(Fixed::Open, symbols)?;
    match eaten(Fixed::Star, inside) {
        Some(rest) => {
            let rest = behind(Fixed::Close, rest)?;
            Ok((Term::CountAll, rest))
        }
        None => {
            let (col, rest) = inner(alloc, symbols)?;
            Ok((Term::Count(col), rest))
        }
    }
}

/// A term of a query.
#[tactic(auto, unfolding(ov_model::specs::Reading::term_at))]
fn query_term(alloc: Global, symbols: &[Symbol]) -> Result<(Term, &[Symbol]), Stop>
    ensures { Gives (λ x. (x.0, x.1.now)) result (term_at symbols.now) }
{
    if let Some(rest) = eaten(Fixed::Count, symbols) {
        return counted(alloc, rest);
    }
    if let Some(rest) = eaten(Fixed::Sum, symbols) {
        let (col, rest) = inner(alloc, rest)?;
        return Ok((Term::Sum(col), rest));
    }
    if let Some(rest) = eaten(Fixed::Min, symbols) {
        let (col, rest) = inner(alloc, rest)?;
        return Ok((Term::Min(col), rest));
    }
    if let Some(rest) = eaten(Fixed::Max, symbols) {
        let (col, rest) = inner(alloc, rest)?;
        return Ok((Term::Max(col), rest));
    }
    let (col, rest) = col(alloc, symbols)?;
    Ok((Term::Plain(col), rest))
}

impl Part for Term {
    ghost at = { term_in };

    fn read(alloc: Global, scope: Scope, symbols: &[Symbol]) -> Result<(Term, &[Symbol]), Stop> {
        match scope {
            Scope::Rows | Scope::Groups => query_term(alloc, symbols),
            Scope::Sides => side_term(alloc, symbols),
        }
    }
}

fn is_literal(symbol: &Symbol) -> bool
    ensures { result ≡ is_a_literal symbol.now }
{
    match symbol {
        Symbol::Fixed(word) => same(Fixed::True, *word) || same(Fixed::False, *word),
        Symbol::Name(_) => false,
        _ => true,
    }
}

#[tactic(auto, unfolding(ov_model::specs::Reading::literal_of))]
fn literal_of(alloc: Global, symbol: &Symbol) -> Result<Value, Stop>
    ensures { Gives (λ v. v) result (the_literal symbol.now) }
{
    match symbol {
        Symbol::Fixed(word) => {
            if same(Fixed::True, *word) {
                Ok(Value::Flag(true))
            } else if same(Fixed::False, *word) {
                Ok(Value::Flag(false))
            } else {
                Err(Stop::Unspelled)
            }
        }
        Symbol::Name(_) => Err(Stop::Unspelled),
        Symbol::Number { value, minus: _ } => Ok(Value::Int(*value)),
        Symbol::Text(text) => Ok(Value::Text(text.copy(alloc)?)),
    }
}

/// Whether a term may stand where aggregates may, or may not.
fn may_stand(aggregates: bool, term: &Term) -> bool
    ensures { result ≡ may aggregates term.now }
{
    match term {
        Term::Plain(_) => true,
        _ => aggregates,
    }
}

#[tactic(auto, unfolding(ov_model::specs::Reading::standing_at))]
fn query_standing(
    alloc: Global,
    aggregates: bool,
    symbols: &[Symbol],
) -> Result<(Operand, &[Symbol]), Stop>
    ensures { Gives (λ x. (x.0, x.1.now)) result (standing_at aggregates symbols.now) }
{
    let (term, rest) = query_term(alloc, symbols)?;
    if !may_stand(aggregates, &term) {
        return Err(Stop::Unspelled);
    }
    Ok((Operand::Term(term), rest))
}

fn side_standing(alloc: Global, symbols: &[Symbol]) -> Result<(Operand, &[Symbol]), Stop>
    ensures { Gives (λ x. (x.0, x.1.now)) result (made_at operand.Term side_term_at symbols.now) }
{
    let (term, rest) = side_term(alloc, symbols)?;
    Ok((Operand::Term(term), rest))
}

fn standing(alloc: Global, scope: Scope, symbols: &[Symbol]) -> Result<(Operand, &[Symbol]), Stop>
    ensures { Gives (λ x. (x.0, x.1.now)) result (standing_in scope symbols.now) }
{
    match scope {
        Scope::Rows => query_standing(alloc, false, symbols),
        Scope::Groups => query_standing(alloc, true, symbols),
        Scope::Sides => side_standing(alloc, symbols),
    }
}

/// A side of a comparison.
#[tactic(auto, unfolding(ov_model::specs::Reading::operand_by))]
pub(crate) fn operand(
    alloc: Global,
    scope: Scope,
    symbols: &[Symbol],
) -> Result<(Operand, &[Symbol]), Stop>
    ensures { Gives (λ x. (x.0, x.1.now)) result (operand_in scope symbols.now) }
{
    match symbols {
        [] => Err(Stop::Unspelled),
        [first, rest @ ..] => {
            if is_literal(first) {
                return Ok((Operand::Literal(literal_of(alloc, first)?), rest));
            }
            standing(alloc, scope, symbols)
        }
    }
}

#[tactic(auto, unfolding(ov_model::specs::Reading::count_of))]
fn count_of(symbol: &Symbol) -> Result<u64, Stop>
    ensures { Gives (λ n. n) result (the_count symbol.now) }
{
    match symbol {
        Symbol::Number { value, minus } => {
            if *minus || *value < 0 {
                return Err(Stop::Unspelled);
            }
            Ok(*value as u64)
        }
        _ => Err(Stop::Unspelled),
    }
}

/// A number without a minus sign.
#[tactic(auto, unfolding(ov_model::specs::Reading::count_at))]
pub(crate) fn count(symbols: &[Symbol]) -> Result<(u64, &[Symbol]), Stop>
    ensures { Gives (λ x. (x.0, x.1.now)) result (count_at symbols.now) }
{
    match symbols {
        [] => Err(Stop::Unspelled),
        [first, rest @ ..] => Ok((count_of(first)?, rest)),
    }
}

impl Part for u64 {
    ghost at = { λ scope. count_at };

    fn read(_alloc: Global, _scope: Scope, symbols: &[Symbol]) -> Result<(u64, &[Symbol]), Stop> {
        count(symbols)
    }
}

#[tactic(auto, unfolding(ov_model::specs::Reading::name_of, ov_model::specs::Reading::name_at))]
pub(crate) fn name(alloc: Global, symbols: &[Symbol]) -> Result<(Txt, &[Symbol]), Stop>
    ensures { Gives (λ x. (x.0, x.1.now)) result (name_at symbols.now) }
{
    match symbols {
        [Symbol::Name(name), rest @ ..] => Ok((name.copy(alloc)?, rest)),
        _ => Err(Stop::Unspelled),
    }
}

#[tactic(auto, unfolding(ov_model::specs::Reading::kind_at))]
fn kind(symbols: &[Symbol]) -> Result<(LineageKind, &[Symbol]), Stop>
    ensures { Gives (λ x. (x.0, x.1.now)) result (kind_at symbols.now) }
{
    if let Some(rest) = eaten(Fixed::Parents, symbols) {
        Ok((LineageKind::Parents, rest))
    } else if let Some(rest) = eaten(Fixed::Ancestors, symbols) {
        Ok((LineageKind::Ancestors, rest))
    } else if let Some(rest) = eaten(Fixed::Descendants, symbols) {
        Ok((LineageKind::Descendants, rest))
    } else {
        Err(Stop::Unspelled)
    }
}

/// A lineage: its kind and the number of its version.
#[tactic(auto, unfolding(ov_model::specs::Reading::lineage_at))]
pub(crate) fn lineage(symbols: &[Symbol]) -> Result<((LineageKind, u64), &[Symbol]), Stop>
    ensures { Gives (λ x. (x.0, x.1.now)) result (lineage_at symbols.now) }
{
    let (kind, rest) = kind(symbols)?;
    let rest = behind(Fixed::Open, rest)?;
    let (vid, rest) = count(rest)?;
    let rest = behind(Fixed::Close, rest)?;
    Ok(((kind, vid), rest))
}

#[tactic(auto, unfolding(ov_model::specs::Reading::sign_of))]
fn sign_of(word: Fixed) -> Result<Sign, Stop>
    ensures { Gives (λ s. s) result (the_sign word) }
{
    if same(Fixed::Equal, word) {
        Ok(Sign::Eq)
    } else if same(Fixed::Unequal, word) {
        Ok(Sign::Ne)
    } else if same(Fixed::Less, word) {
        Ok(Sign::Lt)
    } else if same(Fixed::LessOrEqual, word) {
        Ok(Sign::Le)
    } else if same(Fixed::Greater, word) {
        Ok(Sign::Gt)
    } else if same(Fixed::GreaterOrEqual, word) {
        Ok(Sign::Ge)
    } else {
        Err(Stop::Unspelled)
    }
}

#[tactic(auto, unfolding(ov_model::specs::Reading::sign_at))]
pub(crate) fn sign(symbols: &[Symbol]) -> Result<(Sign, &[Symbol]), Stop>
    ensures { Gives (λ x. (x.0, x.1.now)) result (sign_at symbols.now) }
{
    match symbols {
        [Symbol::Fixed(word), rest @ ..] => Ok((sign_of(*word)?, rest)),
        _ => Err(Stop::Unspelled),
    }
}
