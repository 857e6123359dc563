//! Truth has three values: true, false, and none for unknown.

ghost use Rattle.std.specs.Prelude.{◌≡◌};
ghost use Rattle.ov_model.specs.Answers.{takes, compared, turned_if, truth_not, truth_and, truth_or};

use ov_model::Sign;
use std::cmp::Ordering;

// Whether a comparison's sign takes this order.
fn takes(sign: Sign, order: Ordering) -> bool
    ensures { result ≡ takes sign order }
{
    match sign {
        Sign::Eq => order.is_eq(),
        Sign::Ne => !order.is_eq(),
        Sign::Lt => order.is_lt(),
        Sign::Le => order.is_lt() || order.is_eq(),
        Sign::Gt => !(order.is_lt() || order.is_eq()),
        Sign::Ge => !order.is_lt(),
    }
}

/// What a comparison says of an order; unknown where there is none.
pub(crate) fn compared(sign: Sign, order: Option<Ordering>) -> Option<bool>
    ensures { result ≡ compared sign order }
{
    match order {
        None => None,
        Some(order) => Some(takes(sign, order)),
    }
}

/// A test, or its opposite.
pub(crate) fn turned_if(negated: bool, test: bool) -> bool
    ensures { result ≡ turned_if negated test }
{
    if negated { !test } else { test }
}

pub(crate) fn truth_not(a: Option<bool>) -> Option<bool>
    ensures { result ≡ truth_not a }
{
    match a {
        None => None,
        Some(a) => Some(!a),
    }
}

/// False where one is false, else unknown where one is unknown, else true.
pub(crate) fn truth_and(a: Option<bool>, b: Option<bool>) -> Option<bool>
    ensures { result ≡ truth_and a b }
{
    match (a, b) {
        (Some(false), _) => Some(false),
        (Some(true), _) => b,
        (None, Some(false)) => Some(false),
        _ => None,
    }
}

/// True where one is true, else unknown where one is unknown, else false.
pub(crate) fn truth_or(a: Option<bool>, b: Option<bool>) -> Option<bool>
    ensures { result ≡ truth_or a b }
{
    match (a, b) {
        (Some(true), _) => Some(true),
        (Some(false), _) => b,
        (None, Some(true)) => Some(true),
        _ => None,
    }
}
