//! Columns and equations of a join's sides.

ghost use Rattle.ov_model.specs.JoinReading.{dotted_at, side_col_at, side_term_at, equation_at};
ghost use Rattle.ov_parse.specs.Returning.{Gives};

use crate::part::Part;
use crate::scope::Scope;
use crate::stop::Stop;
use crate::symbols::{behind, eaten};
use crate::term::name;
use ov_model::{Col, Fixed, Symbol, Term};
use ov_value::Txt;
use std::alloc::Global;

/// A dot and a name.
#[tactic(auto, unfolding(ov_model::specs::JoinReading::dotted_at))]
fn dotted(alloc: Global, symbols: &[Symbol]) -> Result<(Txt, &[Symbol]), Stop>
    ensures { Gives (λ x. (x.0, x.1.now)) result (dotted_at symbols.now) }
{
    let rest = behind(Fixed::Dot, symbols)?;
    name(alloc, rest)
}

/// A column of one side.
#[tactic(auto, unfolding(ov_model::specs::JoinReading::side_col_at))]
fn side_col(alloc: Global, symbols: &[Symbol]) -> Result<(Col, &[Symbol]), Stop>
    ensures { Gives (λ x. (x.0, x.1.now)) result (side_col_at symbols.now) }
{
    if let Some(rest) = eaten(Fixed::Left, symbols) {
        let (name, rest) = dotted(alloc, rest)?;
        return Ok((Col::Left(name), rest));
    }
    if let Some(rest) = eaten(Fixed::Right, symbols) {
        let (name, rest) = dotted(alloc, rest)?;
        return Ok((Col::Right(name), rest));
    }
    Err(Stop::Unspelled)
}

/// A term of a join: a column of one side.
#[tactic(auto, unfolding(ov_model::specs::JoinReading::side_term_at))]
pub(crate) fn side_term(alloc: Global, symbols: &[Symbol]) -> Result<(Term, &[Symbol]), Stop>
    ensures { Gives (λ x. (x.0, x.1.now)) result (side_term_at symbols.now) }
{
    let (col, rest) = side_col(alloc, symbols)?;
    Ok((Term::Plain(col), rest))
}

/// The columns of both sides that have to be equal.
impl Part for (Txt, Txt) {
    ghost at = { λ scope. equation_at };

    #[tactic(auto, unfolding(ov_model::specs::JoinReading::equation_at))]
    fn read(
        alloc: Global,
        _scope: Scope,
        symbols: &[Symbol],
    ) -> Result<((Txt, Txt), &[Symbol]), Stop> {
        let rest = behind(Fixed::Left, symbols)?;
        let (left, rest) = dotted(alloc, rest)?;
        let rest = behind(Fixed::Equal, rest)?;
        let rest = behind(Fixed::Right, rest)?;
        let (right, rest) = dotted(alloc, rest)?;
        Ok(((left, right), rest))
    }
}
