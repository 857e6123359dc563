//! Keywords and signs at the front of symbols.

ghost use Rattle.std.specs.Prelude.{◌≡◌, IfOk, IfSome, IfNone, None, MatchOption, Some};
ghost use Rattle.std.specs.Option.{option_map};
ghost use Rattle.ov_model.specs.Reading.{same_word, is_fixed, eaten as eaten_of, not_at as not_of};
ghost use Rattle.ov_parse.specs.Returning.{Gives};

use crate::stop::Stop;
use ov_model::{Fixed, Symbol};

/// Whether two keywords or signs are the same.
#[tactic(auto, unfolding(ov_model::specs::Reading::same_word))]
pub(crate) fn same(a: Fixed, b: Fixed) -> bool
    ensures { result ≡ same_word a b }
{
    a == b
}

fn is(word: Fixed, symbol: &Symbol) -> bool
    ensures { result ≡ is_fixed word symbol.now }
{
    match symbol {
        Symbol::Fixed(other) => same(word, *other),
        _ => false,
    }
}

/// What stands behind this keyword or sign, if it stands here.
#[tactic(auto, unfolding(ov_model::specs::Reading::eaten))]
pub(crate) fn eaten(word: Fixed, symbols: &[Symbol]) -> Option<&[Symbol]>
    ensures { MatchOption result (eaten_of word symbols.now ≡ None) (λ rest. eaten_of word symbols.now ≡ Some rest.now) }
{
    match symbols {
        [] => None,
        [first, rest @ ..] => { if is(word, first) { Some(rest) } else { None } }
    }
}

/// What stands behind this keyword or sign, which has to stand here.
pub(crate) fn behind(word: Fixed, symbols: &[Symbol]) -> Result<&[Symbol], Stop>
    ensures { Gives (λ rest. rest.now) result (eaten_of word symbols.now) }
{
    match eaten(word, symbols) {
        Some(rest) => Ok(rest),
        None => Err(Stop::Unspelled),
    }
}

/// Whether NOT stands here, and what comes then.
#[tactic(auto, unfolding(ov_model::specs::Reading::not_at))]
pub(crate) fn not_at(symbols: &[Symbol]) -> (bool, &[Symbol])
    ensures { (result.0, result.1.now) ≡ not_of symbols.now }
{
    match eaten(Fixed::Not, symbols) {
        Some(rest) => (true, rest),
        None => (false, symbols),
    }
}
