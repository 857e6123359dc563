//! Sums, least and greatest of values.

ghost use Rattle.std.specs.Prelude.{◌≡◌, ◌+◌, ◌-◌, ◌*◌, ◌^◌, ◌+ℤ◌, ◌≤ℤ◌, pos, length, IfOk};
ghost use Rattle.ov_model.specs.Answers.{plus, sum_from, sum_cell, is_below, least_from, greatest_from, first_by, value_order};

use crate::order::value_order;
use ov_model::Cell;
use ov_value::Value;
use std::alloc::{AllocError, Global};
use std::cmp::Ordering;

/// The sum of a number and a value.
fn plus(n: i128, value: &Value) -> i128
    requires low { pos 0 ≤ℤ (n +ℤ pos (2 ^ 127 - 2 ^ 63)) }
    requires high { n ≤ℤ pos (2 ^ 127 - 2 ^ 63) }
    ensures is { result ≡ plus n value.now }
    ensures low { n ≤ℤ (result +ℤ pos (2 ^ 63)) }
    ensures high { result ≤ℤ (n +ℤ pos (2 ^ 63)) }
{
    match value {
        Value::Int(m) => n + i128::from(*m),
        _ => n,
    }
}

/// The sum of a number and these values.
fn sum_from(n: i128, values: &[Value]) -> i128
    requires low { pos 0 ≤ℤ (n +ℤ pos ((2 ^ 64 - length values.now) * 2 ^ 63)) }
    requires high { n ≤ℤ pos ((2 ^ 64 - length values.now) * 2 ^ 63) }
    ensures { result ≡ sum_from n values.now }
{
    match values {
        [] => n,
        [value, rest @ ..] => sum_from(plus(n, value), rest),
    }
}

/// The sum of these values; nothing where there are none.
pub fn sum_cell(values: &[Value]) -> Cell
    ensures { result ≡ sum_cell values.now }
{
    match values {
        [] => Cell::Nothing,
        [_, ..] => Cell::Sum(sum_from(0, values)),
    }
}

/// Whether the first of two values is the lesser.
fn is_below(a: &Value, b: &Value) -> bool
    ensures { result ≡ is_below (value_order a.now b.now) }
{
    matches!(value_order(a, b), Some(Ordering::Less))
}

/// The least of a value and these, the first one at a tie.
fn least_from<'a>(value: &'a Value, values: &'a [Value]) -> &'a Value
    ensures { result.now ≡ least_from value.now values.now }
{
    match values {
        [] => value,
        [other, rest @ ..] => {
            if is_below(other, value) {
                least_from(other, rest)
            } else {
                least_from(value, rest)
            }
        }
    }
}

/// The greatest of a value and these, the first one at a tie.
fn greatest_from<'a>(value: &'a Value, values: &'a [Value]) -> &'a Value
    ensures { result.now ≡ greatest_from value.now values.now }
{
    match values {
        [] => value,
        [other, rest @ ..] => {
            if is_below(value, other) {
                greatest_from(other, rest)
            } else {
                greatest_from(value, rest)
            }
        }
    }
}

/// The least of these values; nothing where there are none.
pub fn least_cell(alloc: Global, values: &[Value]) -> Result<Cell, AllocError>
    ensures { IfOk result (λ cell. cell ≡ first_by least_from values.now) }
{
    match values {
        [] => Ok(Cell::Nothing),
        [value, rest @ ..] => Ok(Cell::Value(least_from(value, rest).copy(alloc)?)),
    }
}

/// The greatest of these values; nothing where there are none.
pub fn greatest_cell(alloc: Global, values: &[Value]) -> Result<Cell, AllocError>
    ensures { IfOk result (λ cell. cell ≡ first_by greatest_from values.now) }
{
    match values {
        [] => Ok(Cell::Nothing),
        [value, rest @ ..] => Ok(Cell::Value(greatest_from(value, rest).copy(alloc)?)),
    }
}
