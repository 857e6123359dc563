//! The parts of a join.

ghost use Rattle.std.specs.Prelude.{◌≡◌};
ghost use Rattle.ov_model.specs.JoinReading.{side_at, sides_at, matched_at, join_head_at, join_made_of, join_of};
ghost use Rattle.ov_parse.specs.Returning.{Gives};

use crate::list::listed;
use crate::query::{guard, items, of_cvd, tail};
use crate::scope::Scope;
use crate::stop::Stop;
use crate::symbols::behind;
use crate::term::count;
use ov_model::{Cond, Fixed, Items, JoinQuery, Key, Seq, Side, Symbol};
use ov_value::Txt;
use std::alloc::Global;

/// The version of a side.
#[tactic(auto, unfolding(ov_model::specs::JoinReading::side_at))]
fn side(alloc: Global, symbols: &[Symbol]) -> Result<(Side, &[Symbol]), Stop>
    ensures { Gives (λ x. (x.0, x.1.now)) result (side_at symbols.now) }
{
    let rest = behind(Fixed::Version, symbols)?;
    let (vid, rest) = count(rest)?;
    let (cvd, rest) = of_cvd(alloc, rest)?;
    Ok((Side { vid, cvd }, rest))
}

#[tactic(auto, unfolding(ov_model::specs::JoinReading::sides_at))]
fn sides(alloc: Global, symbols: &[Symbol]) -> Result<((Side, Side), &[Symbol]), Stop>
    ensures { Gives (λ x. (x.0, x.1.now)) result (sides_at symbols.now) }
{
    let (left, rest) = side(alloc, symbols)?;
    let rest = behind(Fixed::Join, rest)?;
    let (right, rest) = side(alloc, rest)?;
    Ok(((left, right), rest))
}

/// ON and its equations.
#[tactic(auto, unfolding(ov_model::specs::JoinReading::matched_at))]
fn matched(alloc: Global, symbols: &[Symbol]) -> Result<(Seq<(Txt, Txt)>, &[Symbol]), Stop>
    ensures { Gives (λ x. (x.0, x.1.now)) result (matched_at symbols.now) }
{
    let rest = behind(Fixed::On, symbols)?;
    listed::<(Txt, Txt)>(alloc, Scope::Sides, Fixed::And, rest)
}

/// SELECT and FROM.
#[tactic(auto, unfolding(ov_model::specs::JoinReading::join_head_at))]
fn head(alloc: Global, symbols: &[Symbol]) -> Result<((Items, (Side, Side)), &[Symbol]), Stop>
    ensures { Gives (λ x. (x.0, x.1.now)) result (join_head_at symbols.now) }
{
    let rest = behind(Fixed::Select, symbols)?;
    let (items, rest) = items(alloc, Scope::Sides, rest)?;
    let rest = behind(Fixed::From, rest)?;
    let (sides, rest) = sides(alloc, rest)?;
    Ok(((items, sides), rest))
}

fn made(
    head: (Items, (Side, Side)),
    on: Seq<(Txt, Txt)>,
    filter: Option<Cond>,
    tail: (Seq<Key>, Option<u64>),
) -> JoinQuery
    ensures { result ≡ join_made_of head on filter tail }
{
    let (items, (left, right)) = head;
    let (order, limit) = tail;
    JoinQuery {
        left,
        right,
        items,
        on,
        filter,
        order,
        limit,
    }
}

/// The join that the symbols spell, all of the symbols.
#[tactic(auto, unfolding(ov_model::specs::JoinReading::join_of))]
pub(crate) fn join(alloc: Global, symbols: &[Symbol]) -> Result<JoinQuery, Stop>
    ensures { Gives (λ j. j) result (join_of symbols.now) }
{
    let (head, rest) = head(alloc, symbols)?;
    let (on, rest) = matched(alloc, rest)?;
    let (filter, rest) = guard(alloc, Fixed::Where, Scope::Sides, rest)?;
    let tail = tail(alloc, Scope::Sides, rest)?;
    Ok(made(head, on, filter, tail))
}
