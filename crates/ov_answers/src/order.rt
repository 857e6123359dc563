//! How values and cells compare.

ghost use Rattle.std.specs.Prelude.{◌≡◌};
ghost use Rattle.ov_model.specs.Answers.{value_order, number_order, turned, cell_order, is_null_cell, when_known, cells_order, is_above, list_order};

use ov_model::Cell;
use ov_value::Value;
use std::cmp::Ordering;

/// How two values compare; none where one is NULL.
pub fn value_order(a: &Value, b: &Value) -> Option<Ordering>
    ensures { result ≡ value_order a.now b.now }
{
    match (a, b) {
        (Value::Int(x), Value::Int(y)) => Some(x.cmp(y)),
        (Value::Text(x), Value::Text(y)) => Some(x.cmp(y)),
        (Value::Flag(x), Value::Flag(y)) => Some(x.cmp(y)),
        _ => None,
    }
}

/// How a value compares with a number.
fn number_order(a: &Value, n: i128) -> Option<Ordering>
    ensures { result ≡ number_order a.now n }
{
    match a {
        Value::Int(x) => Some(i128::from(*x).cmp(&n)),
        _ => None,
    }
}

/// The order of the two the other way round.
fn turned(order: Option<Ordering>) -> Option<Ordering>
    ensures { result ≡ turned order }
{
    match order {
        None => None,
        Some(order) => Some(order.reverse()),
    }
}

/// How two cells compare; none where one is NULL or nothing.
pub fn cell_order(a: &Cell, b: &Cell) -> Option<Ordering>
    ensures { result ≡ cell_order a.now b.now }
{
    match (a, b) {
        (Cell::Value(x), Cell::Value(y)) => value_order(x, y),
        (Cell::Value(x), Cell::Sum(m)) => number_order(x, *m),
        (Cell::Sum(n), Cell::Value(y)) => turned(number_order(y, *n)),
        (Cell::Sum(n), Cell::Sum(m)) => Some(n.cmp(m)),
        _ => None,
    }
}

/// Whether a cell is NULL or nothing.
pub fn is_null_cell(cell: &Cell) -> bool
    ensures { result ≡ is_null_cell cell.now }
{
    matches!(cell, Cell::Value(Value::Null) | Cell::Nothing)
}

/// The order of two cells that are known to be NULL or not: NULL and nothing are one value below all others.
fn when_known(order: Option<Ordering>, a: bool, b: bool) -> Ordering
    ensures { result ≡ when_known order a b }
{
    match (order, a, b) {
        (Some(order), _, _) => order,
        (None, true, false) => Ordering::Less,
        (None, false, true) => Ordering::Greater,
        _ => Ordering::Equal,
    }
}

/// How two cells are ordered.
pub fn cells_order(a: &Cell, b: &Cell) -> Ordering
    ensures { result ≡ cells_order a.now b.now }
{
    when_known(cell_order(a, b), is_null_cell(a), is_null_cell(b))
}

/// Whether it is the order of one that is above the other.
pub fn is_above(order: Ordering) -> bool
    ensures { result ≡ is_above order }
{
    match order {
        Ordering::Greater => true,
        _ => false,
    }
}

/// How two lists of cells are ordered: by their first cells, and so on.
pub fn list_order(a: &[Cell], b: &[Cell]) -> Ordering
    ensures { result ≡ list_order a.now b.now }
{
    match a {
        [] => match b {
            [] => Ordering::Equal,
            [_, ..] => Ordering::Less,
        },
        [x, xs @ ..] => match b {
            [] => Ordering::Greater,
            [y, ys @ ..] => cells_order(x, y).then(list_order(xs, ys)),
        },
    }
}
