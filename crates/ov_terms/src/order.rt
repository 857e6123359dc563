//! How what is seen of terms compares.

ghost use Rattle.std.specs.Prelude.{◌≡◌};
ghost use Rattle.ov_value.specs.Cells.{value_of};
ghost use Rattle.ov_model.specs.Answers.{value_order, number_order, turned, cell_order, when_known, cells_order, is_below};
ghost use Rattle.ov_terms.specs.Seeing.{cell_of};

use crate::seen::Seen;
use ov_value::CellRef;
use std::cmp::Ordering;

// How two values compare; none where one is NULL.
fn value_order(a: CellRef<'_>, b: CellRef<'_>) -> Option<Ordering>
    ensures { result ≡ value_order (value_of a.entry) (value_of b.entry) }
{
    match (a, b) {
        (CellRef::Int(x), CellRef::Int(y)) => Some(x.cmp(&y)),
        (CellRef::Text(x), CellRef::Text(y)) => Some(x.as_bytes().cmp(y.as_bytes())),
        (CellRef::Flag(x), CellRef::Flag(y)) => Some(x.cmp(&y)),
        _ => None,
    }
}

// How a value compares with a sum.
fn number_order(a: CellRef<'_>, sum: i128) -> Option<Ordering>
    ensures { result ≡ number_order (value_of a.entry) sum }
{
    match a {
        CellRef::Int(n) => Some(i128::from(n).cmp(&sum)),
        _ => None,
    }
}

fn turned(order: Option<Ordering>) -> Option<Ordering>
    ensures { result ≡ turned order }
{
    match order {
        Some(order) => Some(order.reverse()),
        None => None,
    }
}

/// How two that are seen compare; none where one is NULL or nothing, or they are of two kinds.
pub(crate) fn cell_order(a: Seen<'_>, b: Seen<'_>) -> Option<Ordering>
    ensures { result ≡ cell_order (cell_of a.entry) (cell_of b.entry) }
{
    match (a, b) {
        (Seen::Cell(x), Seen::Cell(y)) => value_order(x, y),
        (Seen::Cell(x), Seen::Sum(sum)) => number_order(x, sum),
        (Seen::Sum(sum), Seen::Cell(y)) => turned(number_order(y, sum)),
        (Seen::Sum(x), Seen::Sum(y)) => Some(x.cmp(&y)),
        _ => None,
    }
}

/// Whether the first comes before the second.
pub(crate) fn is_below(a: Seen<'_>, b: Seen<'_>) -> bool
    ensures { result ≡ is_below (cell_order (cell_of a.entry) (cell_of b.entry)) }
{
    match cell_order(a, b) {
        Some(Ordering::Less) => true,
        _ => false,
    }
}

/// The order of two of one kind, in which NULL and nothing are one value below all others.
pub fn cmp_seen(a: Seen<'_>, b: Seen<'_>) -> Ordering
    ensures { result ≡ cells_order (cell_of a.entry) (cell_of b.entry) }
{
    match (cell_order(a, b), a.is_null(), b.is_null()) {
        (Some(order), _, _) => order,
        (None, true, false) => Ordering::Less,
        (None, false, true) => Ordering::Greater,
        _ => Ordering::Equal,
    }
}
