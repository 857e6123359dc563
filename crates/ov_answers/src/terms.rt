//! What a term is over a group of pairs.

ghost use Rattle.std.specs.Prelude.{◌≡◌, ◌≤◌, length, slice_index_or, IfOk};
ghost use Rattle.ov_model.specs.Answers.{value_in, is_present, present, group_value, term_of_group};
ghost use Rattle.std.specs.List.{position_or_len};
ghost use Rattle.std.specs.Str.{bytes_eq};
ghost use Rattle.ov_model.specs.declared.query.Term.TheVariants.{Count, Sum, Min, Max};
ghost use Rattle.ov_value.specs.declared.value.Value.TheVariants.{Null};

use crate::pairing::Pair;
use crate::sums::{greatest_cell, least_cell, sum_cell};
use ov_model::{Cell, Col, Seq, Term};
use ov_plain::onto;
use ov_value::{Column, Schema, Txt, Value};
use std::alloc::{AllocError, Global};

/// The place of the first column with a name, counted from 0; one past the last where there is none.
fn column_at(columns: &[Column], name: &Txt) -> usize
    ensures is { result ≡ position_or_len (λ c. bytes_eq c.name name.now) columns.now }
    ensures few { result ≤ length columns.now }
{
    match columns {
        [] => 0,
        [column, rest @ ..] => {
            if column.name == *name {
                0
            } else {
                column_at(rest, name) + 1
            }
        }
    }
}

/// The value of a column in a pair.
pub fn value_in(alloc: Global, schema: &Schema, pair: &Pair, col: &Col) -> Result<Value, AllocError>
    ensures { IfOk result (λ value. value ≡ value_in schema.now pair.now col.now) }
{
    match col {
        Col::Vid => Ok(Value::Int(i64::from(pair.vid))),
        Col::Name(name) => value_at(alloc, pair.row.values(), column_at(schema.columns(), name)),
        _ => Ok(Value::Null),
    }
}

/// A copy of the value at a place; NULL where there is none.
fn value_at(alloc: Global, values: &[Value], place: usize) -> Result<Value, AllocError>
    ensures { IfOk result (λ value. value ≡ slice_index_or values.now place Null) }
{
    match values.get(place) {
        None => Ok(Value::Null),
        Some(value) => value.copy(alloc),
    }
}

/// Whether a value isn't NULL.
fn is_present(value: &Value) -> bool
    ensures { result ≡ is_present value.now }
{
    match value {
        Value::Null => false,
        _ => true,
    }
}

/// The values of a column in these pairs that aren't NULL.
fn present(
    alloc: Global,
    schema: &Schema,
    group: &[Pair],
    col: &Col,
) -> Result<Seq<Value>, AllocError>
    ensures { IfOk result (λ values. values ≡ present schema.now group.now col.now) }
{
    match group {
        [] => Ok(Seq::new(alloc)),
        [pair, rest @ ..] => {
            let later = present(alloc, schema, rest, col)?;
            let value = value_in(alloc, schema, pair, col)?;
            if is_present(&value) {
                onto(alloc, value, later)
            } else {
                Ok(later)
            }
        }
    }
}

/// The value of a group's column; nothing where the group is empty.
fn group_value(
    alloc: Global,
    schema: &Schema,
    group: &[Pair],
    col: &Col,
) -> Result<Cell, AllocError>
    ensures { IfOk result (λ cell. cell ≡ group_value schema.now group.now col.now) }
{
    match group {
        [] => Ok(Cell::Nothing),
        [pair, ..] => Ok(Cell::Value(value_in(alloc, schema, pair, col)?)),
    }
}

/// How many values a column has in these pairs.
fn count_in(alloc: Global, schema: &Schema, group: &[Pair], col: &Col) -> Result<Cell, AllocError>
    ensures { IfOk result (λ cell. cell ≡ term_of_group schema.now group.now (Count col.now)) }
{
    let values = present(alloc, schema, group, col)?;
    Ok(Cell::Sum(values.len() as i128))
}

/// The sum of a column in these pairs.
fn sum_in(alloc: Global, schema: &Schema, group: &[Pair], col: &Col) -> Result<Cell, AllocError>
    ensures { IfOk result (λ cell. cell ≡ term_of_group schema.now group.now (Sum col.now)) }
{
    let values = present(alloc, schema, group, col)?;
    Ok(sum_cell(values.as_slice()))
}

/// The least value of a column in these pairs.
fn least_in(alloc: Global, schema: &Schema, group: &[Pair], col: &Col) -> Result<Cell, AllocError>
    ensures { IfOk result (λ cell. cell ≡ term_of_group schema.now group.now (Min col.now)) }
{
    let values = present(alloc, schema, group, col)?;
    least_cell(alloc, values.as_slice())
}

/// The greatest value of a column in these pairs.
fn greatest_in(
    alloc: Global,
    schema: &Schema,
    group: &[Pair],
    col: &Col,
) -> Result<Cell, AllocError>
    ensures { IfOk result (λ cell. cell ≡ term_of_group schema.now group.now (Max col.now)) }
{
    let values = present(alloc, schema, group, col)?;
    greatest_cell(alloc, values.as_slice())
}

/// What a term is over a group of pairs.
pub fn term_of_group(
    alloc: Global,
    schema: &Schema,
    group: &[Pair],
    term: &Term,
) -> Result<Cell, AllocError>
    ensures { IfOk result (λ cell. cell ≡ term_of_group schema.now group.now term.now) }
{
    match term {
        Term::Plain(col) => group_value(alloc, schema, group, col),
        Term::CountAll => Ok(Cell::Sum(group.len() as i128)),
        Term::Count(col) => count_in(alloc, schema, group, col),
        Term::Sum(col) => sum_in(alloc, schema, group, col),
        Term::Min(col) => least_in(alloc, schema, group, col),
        Term::Max(col) => greatest_in(alloc, schema, group, col),
    }
}
