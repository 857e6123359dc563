//! The parts of a query.

ghost use Rattle.std.specs.Prelude.{◌≡◌, Some, None, true, false};
ghost use Rattle.ov_model.specs.declared.query.Fixed.TheVariants as f;
ghost use Rattle.ov_model.specs.Reading.{cond_at, items_at, of_cvd_at, listed_at, of_lineage_at, source_at, guard_at, grouped_at, grouping_at, direction_at, key_at, ordered_at, order_at, limit_at, is_nothing, is_end as is_the_end, tail_at, head_at, kept_at, made_of, query_of};
ghost use Rattle.ov_parse.specs.Returning.{Gives};
ghost use Rattle.ov_parse.specs.Scopes.{term_in, test_in};

use crate::cond::condition;
use crate::list::listed;
use crate::part::Part;
use crate::scope::Scope;
use crate::stop::Stop;
use crate::symbols::{behind, eaten};
use crate::term::{count, lineage, name};
use ov_model::{Col, Cond, Fixed, Items, Key, Query, Seq, Src, Symbol, Term};
use ov_value::Txt;
use std::alloc::Global;

/// What is shown.
#[tactic(auto, unfolding(ov_model::specs::Reading::items_at))]
pub(crate) fn items(
    alloc: Global,
    scope: Scope,
    symbols: &[Symbol],
) -> Result<(Items, &[Symbol]), Stop>
    ensures { Gives (λ x. (x.0, x.1.now)) result (items_at (term_in scope) symbols.now) }
{
    if let Some(rest) = eaten(Fixed::Star, symbols) {
        return Ok((Items::Everything, rest));
    }
    let (terms, rest) = listed::<Term>(alloc, scope, Fixed::Comma, symbols)?;
    Ok((Items::Terms(terms), rest))
}

#[tactic(auto, unfolding(ov_model::specs::Reading::of_cvd_at))]
pub(crate) fn of_cvd(alloc: Global, symbols: &[Symbol]) -> Result<(Txt, &[Symbol]), Stop>
    ensures { Gives (λ x. (x.0, x.1.now)) result (of_cvd_at symbols.now) }
{
    let rest = behind(Fixed::Of, symbols)?;
    let rest = behind(Fixed::Cvd, rest)?;
    name(alloc, rest)
}

#[tactic(auto, unfolding(ov_model::specs::Reading::listed_at))]
fn listed_versions(alloc: Global, symbols: &[Symbol]) -> Result<(Src, &[Symbol]), Stop>
    ensures { Gives (λ x. (x.0, x.1.now)) result (listed_at symbols.now) }
{
    let (vids, rest) = listed::<u64>(alloc, Scope::Rows, Fixed::Comma, symbols)?;
    let (cvd, rest) = of_cvd(alloc, rest)?;
    Ok((Src::Listed { vids, cvd }, rest))
}

#[tactic(auto, unfolding(ov_model::specs::Reading::of_lineage_at))]
fn of_lineage(alloc: Global, symbols: &[Symbol]) -> Result<(Src, &[Symbol]), Stop>
    ensures { Gives (λ x. (x.0, x.1.now)) result (of_lineage_at symbols.now) }
{
    let ((kind, vid), rest) = lineage(symbols)?;
    let (cvd, rest) = of_cvd(alloc, rest)?;
    Ok((Src::Lineage { kind, vid, cvd }, rest))
}

#[tactic(auto, unfolding(ov_model::specs::Reading::source_at))]
fn source(alloc: Global, symbols: &[Symbol]) -> Result<(Src, &[Symbol]), Stop>
    ensures { Gives (λ x. (x.0, x.1.now)) result (source_at symbols.now) }
{
    if let Some(rest) = eaten(Fixed::Version, symbols) {
        return listed_versions(alloc, rest);
    }
    if let Some(rest) = eaten(Fixed::Cvd, symbols) {
        let (cvd, rest) = name(alloc, rest)?;
        return Ok((Src::Whole { cvd }, rest));
    }
    of_lineage(alloc, symbols)
}

/// A condition behind this keyword, if it stands here.
#[tactic(auto, unfolding(ov_model::specs::Reading::guard_at))]
pub(crate) fn guard(
    alloc: Global,
    word: Fixed,
    scope: Scope,
    symbols: &[Symbol],
) -> Result<(Option<Cond>, &[Symbol]), Stop>
    ensures { Gives (λ x. (x.0, x.1.now)) result (guard_at word (cond_at (test_in scope) 100) symbols.now) }
{
    match eaten(word, symbols) {
        Some(rest) => {
            let (cond, rest) = condition(alloc, scope, rest)?;
            Ok((Some(cond), rest))
        }
        None => Ok((None, symbols)),
    }
}

/// GROUP BY and HAVING.
#[derive(Drop)]
struct Groups {
    groups: Seq<Col>,
    having: Option<Cond>,
}

#[tactic(auto, unfolding(ov_model::specs::Reading::grouped_at))]
fn grouped(alloc: Global, symbols: &[Symbol]) -> Result<(Groups, &[Symbol]), Stop>
    ensures { Gives (λ x. ((x.0.groups, x.0.having), x.1.now)) result (grouped_at symbols.now) }
{
    let rest = behind(Fixed::By, symbols)?;
    let (groups, rest) = listed::<Col>(alloc, Scope::Rows, Fixed::Comma, rest)?;
    let (having, rest) = guard(alloc, Fixed::Having, Scope::Groups, rest)?;
    Ok((Groups { groups, having }, rest))
}

#[tactic(auto, unfolding(ov_model::specs::Reading::grouping_at))]
fn grouping(alloc: Global, symbols: &[Symbol]) -> Result<(Groups, &[Symbol]), Stop>
    ensures { Gives (λ x. ((x.0.groups, x.0.having), x.1.now)) result (grouping_at symbols.now) }
{
    match eaten(Fixed::Group, symbols) {
        Some(rest) => grouped(alloc, rest),
        None => {
            let none = Groups {
                groups: Seq::new(alloc),
                having: None,
            };
            Ok((none, symbols))
        }
    }
}

#[tactic(auto, unfolding(ov_model::specs::Reading::direction_at))]
fn direction(symbols: &[Symbol]) -> (bool, &[Symbol])
    ensures { (result.0, result.1.now) ≡ direction_at symbols.now }
{
    if let Some(rest) = eaten(Fixed::Desc, symbols) {
        return (true, rest);
    }
    match eaten(Fixed::Asc, symbols) {
        Some(rest) => (false, rest),
        None => (false, symbols),
    }
}

impl Part for Key {
    ghost at = { λ scope. key_at (term_in scope) };

    #[tactic(auto, unfolding(ov_model::specs::Reading::key_at))]
    fn read(alloc: Global, scope: Scope, symbols: &[Symbol]) -> Result<(Key, &[Symbol]), Stop> {
        let (term, rest) = Term::read(alloc, scope, symbols)?;
        let (down, rest) = direction(rest);
        Ok((Key { term, down }, rest))
    }
}

#[tactic(auto, unfolding(ov_model::specs::Reading::order_at, ov_model::specs::Reading::ordered_at))]
fn order(alloc: Global, scope: Scope, symbols: &[Symbol]) -> Result<(Seq<Key>, &[Symbol]), Stop>
    ensures { Gives (λ x. (x.0, x.1.now)) result (order_at (term_in scope) symbols.now) }
{
    match eaten(Fixed::Order, symbols) {
        Some(rest) => {
            let rest = behind(Fixed::By, rest)?;
            listed::<Key>(alloc, scope, Fixed::Comma, rest)
        }
        None => Ok((Seq::new(alloc), symbols)),
    }
}

#[tactic(auto, unfolding(ov_model::specs::Reading::limit_at))]
fn limit(symbols: &[Symbol]) -> Result<(Option<u64>, &[Symbol]), Stop>
    ensures { Gives (λ x. (x.0, x.1.now)) result (limit_at symbols.now) }
{
    match eaten(Fixed::Limit, symbols) {
        Some(rest) => {
            let (count, rest) = count(rest)?;
            Ok((Some(count), rest))
        }
        None => Ok((None, symbols)),
    }
}

/// Whether nothing is left but a semicolon.
#[tactic(auto, unfolding(ov_model::specs::Reading::is_end))]
fn is_end(symbols: &[Symbol]) -> bool
    ensures { result ≡ is_the_end symbols.now }
{
    match eaten(Fixed::Semicolon, symbols) {
        Some(rest) => rest.is_empty(),
        None => symbols.is_empty(),
    }
}

/// ORDER BY, LIMIT and the end.
#[tactic(auto, unfolding(ov_model::specs::Reading::tail_at))]
pub(crate) fn tail(
    alloc: Global,
    scope: Scope,
    symbols: &[Symbol],
) -> Result<(Seq<Key>, Option<u64>), Stop>
    ensures { Gives (λ x. x) result (tail_at (term_in scope) symbols.now) }
{
    let (keys, rest) = order(alloc, scope, symbols)?;
    let (limit, rest) = limit(rest)?;
    if !is_end(rest) {
        return Err(Stop::Unspelled);
    }
    Ok((keys, limit))
}

/// SELECT and FROM.
#[tactic(auto, unfolding(ov_model::specs::Reading::head_at))]
fn head(alloc: Global, symbols: &[Symbol]) -> Result<((Items, Src), &[Symbol]), Stop>
    ensures { Gives (λ x. (x.0, x.1.now)) result (head_at symbols.now) }
{
    let rest = behind(Fixed::Select, symbols)?;
    let (items, rest) = items(alloc, Scope::Groups, rest)?;
    let rest = behind(Fixed::From, rest)?;
    let (source, rest) = source(alloc, rest)?;
    Ok(((items, source), rest))
}

/// WHERE, and GROUP BY with HAVING.
#[tactic(auto, unfolding(ov_model::specs::Reading::kept_at))]
fn kept(alloc: Global, symbols: &[Symbol]) -> Result<((Option<Cond>, Groups), &[Symbol]), Stop>
    ensures { Gives (λ x. ((x.0.0, (x.0.1.groups, x.0.1.having)), x.1.now)) result (kept_at symbols.now) }
{
    let (filter, rest) = guard(alloc, Fixed::Where, Scope::Rows, symbols)?;
    let (groups, rest) = grouping(alloc, rest)?;
    Ok(((filter, groups), rest))
}

fn made(head: (Items, Src), kept: (Option<Cond>, Groups), tail: (Seq<Key>, Option<u64>)) -> Query
    ensures { result ≡ made_of head (kept.0, (kept.1.groups, kept.1.having)) tail }
{
    let (items, source) = head;
    let (filter, Groups { groups, having }) = kept;
    let (order, limit) = tail;
    Query {
        items,
        source,
        filter,
        groups,
        having,
        order,
        limit,
    }
}

/// The query that the symbols spell, all of the symbols.
#[tactic(auto, unfolding(ov_model::specs::Reading::query_of))]
pub(crate) fn query(alloc: Global, symbols: &[Symbol]) -> Result<Query, Stop>
    ensures { Gives (λ q. q) result (query_of symbols.now) }
{
    let (head, rest) = head(alloc, symbols)?;
    let (kept, rest) = kept(alloc, rest)?;
    let tail = tail(alloc, Scope::Groups, rest)?;
    Ok(made(head, kept, tail))
}
