//! Truth has three values: true, false, and none for unknown.

ghost use Rattle.std.specs.Prelude.{◌≡◌};
ghost use Rattle.ov_model.specs.Answers.{takes, compared, turned_if, truth_not, truth_and, truth_every, truth_or, truth_any, is_true};

use ov_model::Sign;
use std::cmp::Ordering;

/// Whether a comparison's sign takes this order.
fn takes(sign: Sign, order: Ordering) -> bool
    ensures { result ≡ takes sign order }
{
    match sign {
        Sign::Eq => order.is_eq(),
        Sign::Ne => !order.is_eq(),
        Sign::Lt => order.is_lt(),
        Sign::Le => order.is_lt() || order.is_eq(),
        Sign::Gt => !(order.is_lt() || order.is_eq()),
        Sign::Ge => !order.is_lt(),
    }
}

/// What a comparison says of an order; unknown where there is none.
pub fn compared(sign: Sign, order: Option<Ordering>) -> Option<bool>
    ensures { result ≡ compared sign order }
{
    match order {
        None => None,
        Some(order) => Some(takes(sign, order)),
    }
}

/// A test, or its opposite.
pub fn turned_if(negated: bool, test: bool) -> bool
    ensures { result ≡ turned_if negated test }
{
    if negated { !test } else { test }
}

/// The opposite of a truth; unknown of unknown.
pub fn truth_not(a: Option<bool>) -> Option<bool>
    ensures { result ≡ truth_not a }
{
    match a {
        None => None,
        Some(a) => Some(!a),
    }
}

/// False where one is false, else unknown where one is unknown, else true.
fn truth_and(a: Option<bool>, b: Option<bool>) -> Option<bool>
    ensures { result ≡ truth_and a b }
{
    match (a, b) {
        (Some(false), _) => Some(false),
        (Some(true), _) => b,
        (None, Some(false)) => Some(false),
        _ => None,
    }
}

/// True where one is true, else unknown where one is unknown, else false.
fn truth_or(a: Option<bool>, b: Option<bool>) -> Option<bool>
    ensures { result ≡ truth_or a b }
{
    match (a, b) {
        (Some(true), _) => Some(true),
        (Some(false), _) => b,
        (None, Some(true)) => Some(true),
        _ => None,
    }
}

/// Whether a truth is true, and neither false nor unknown.
pub fn is_true(truth: Option<bool>) -> bool
    ensures { result ≡ is_true truth }
{
    matches!(truth, Some(true))
}

/// What all of these together say.
pub fn truth_every(truths: &[Option<bool>]) -> Option<bool>
    ensures { result ≡ truth_every truths.now }
{
    match truths {
        [] => Some(true),
        [first, rest @ ..] => truth_and(*first, truth_every(rest)),
    }
}

/// What one of these or another says.
pub fn truth_any(truths: &[Option<bool>]) -> Option<bool>
    ensures { result ≡ truth_any truths.now }
{
    match truths {
        [] => Some(false),
        [first, rest @ ..] => truth_or(*first, truth_any(rest)),
    }
}
