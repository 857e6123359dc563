//! A join as a query over rows side by side.

ghost use Rattle.std.specs.Prelude.{◌≡◌, ◌++◌, IfOk, OnOk, map};
ghost use Rattle.ov_value.specs.Shapes.{Shape};
ghost use Rattle.ov_model.specs.Joins.{as_query, left_name, right_name, side_by_side, wide_col, wide_items, wide_key, wide_operand, wide_term};
ghost use Rattle.ov_join.specs.Widening.{named_by};

use crate::wide_cond::wide_guard;
use ov_model::{Col, Items, JoinQuery, Key, Operand, Query, Seq, Src, Term};
use ov_value::{Column, Schema, Txt};
use std::alloc::{AllocError, Global};

// A name behind a prefix.
fn prefixed(alloc: Global, prefix: &str, name: &Txt) -> Result<Txt, AllocError>
    ensures { IfOk result (λ made. made ≡ prefix.now ++ name.now) }
{
    let mut text = String::new(alloc);
    text.push_str(prefix)?;
    text.push_str(name.as_str())?;
    Txt::from_string(text)
}

/// The name of a left column.
pub(crate) fn left_name(alloc: Global, name: &Txt) -> Result<Txt, AllocError>
    ensures { IfOk result (λ made. made ≡ left_name name.now) }
{
    prefixed(alloc, "LEFT.", name)
}

/// The name of a right column.
pub(crate) fn right_name(alloc: Global, name: &Txt) -> Result<Txt, AllocError>
    ensures { IfOk result (λ made. made ≡ right_name name.now) }
{
    prefixed(alloc, "RIGHT.", name)
}

// Adds columns whose names stand behind a prefix.
fn push_named(
    alloc: Global,
    prefix: &str,
    columns: &[Column],
    wide: &mut Vec<Column>,
) -> Result<(), AllocError>
    ensures { OnOk result (wide.new.items ≡ wide.old.items ++ map (named_by prefix.now) columns.now) }
{
    for column in columns {
        wide.push(Column {
            name: prefixed(alloc, prefix, &column.name)?,
            kind: column.kind,
        })?;
    }
    Ok(())
}

/// All left and then all right columns.
pub(crate) fn wide_columns(
    alloc: Global,
    left: &Schema,
    right: &Schema,
) -> Result<Vec<Column>, AllocError>
    ensures { IfOk result (λ wide. wide.items ≡ (side_by_side left.now right.now).columns) }
{
    let mut wide = Vec::new(alloc);
    push_named(alloc, "LEFT.", left.columns(), &mut wide)?;
    push_named(alloc, "RIGHT.", right.columns(), &mut wide)?;
    Ok(wide)
}

fn wide_col(alloc: Global, col: &Col) -> Result<Col, AllocError>
    ensures { IfOk result (λ made. made ≡ wide_col col.now) }
{
    match col {
        Col::Vid => Ok(Col::Vid),
        Col::Name(name) => Ok(Col::Name(name.copy(alloc)?)),
        Col::Left(name) => Ok(Col::Name(left_name(alloc, name)?)),
        Col::Right(name) => Ok(Col::Name(right_name(alloc, name)?)),
    }
}

fn wide_term(alloc: Global, term: &Term) -> Result<Term, AllocError>
    ensures { IfOk result (λ made. made ≡ wide_term term.now) }
{
    match term {
        Term::Plain(col) => Ok(Term::Plain(wide_col(alloc, col)?)),
        Term::CountAll => Ok(Term::CountAll),
        Term::Count(col) => Ok(Term::Count(wide_col(alloc, col)?)),
        Term::Sum(col) => Ok(Term::Sum(wide_col(alloc, col)?)),
        Term::Min(col) => Ok(Term::Min(wide_col(alloc, col)?)),
        Term::Max(col) => Ok(Term::Max(wide_col(alloc, col)?)),
    }
}

pub(crate) fn wide_operand(alloc: Global, operand: &Operand) -> Result<Operand, AllocError>
    ensures { IfOk result (λ made. made ≡ wide_operand operand.now) }
{
    match operand {
        Operand::Term(term) => Ok(Operand::Term(wide_term(alloc, term)?)),
        Operand::Literal(value) => Ok(Operand::Literal(value.copy(alloc)?)),
    }
}

fn wide_terms(alloc: Global, terms: &[Term]) -> Result<Seq<Term>, AllocError>
    ensures { IfOk result (λ made. made ≡ map wide_term terms.now) }
{
    let mut made = Vec::with_capacity(alloc, terms.len())?;
    for term in terms {
        made.push(wide_term(alloc, term)?)?;
    }
    Ok(Seq::from_vec(made))
}

fn wide_items(alloc: Global, items: &Items) -> Result<Items, AllocError>
    ensures { IfOk result (λ made. made ≡ wide_items items.now) }
{
    match items {
        Items::Everything => Ok(Items::Everything),
        Items::Terms(terms) => Ok(Items::Terms(wide_terms(alloc, terms.as_slice())?)),
    }
}

fn wide_keys(alloc: Global, keys: &[Key]) -> Result<Seq<Key>, AllocError>
    ensures { IfOk result (λ made. made ≡ map wide_key keys.now) }
{
    let mut made = Vec::with_capacity(alloc, keys.len())?;
    for key in keys {
        let term = wide_term(alloc, &key.term)?;
        made.push(Key {
            term,
            down: key.down,
        })?;
    }
    Ok(Seq::from_vec(made))
}

/// What a join asks of its pairs.
pub(crate) fn wide_query(alloc: Global, join: &JoinQuery) -> Result<Query, AllocError>
    ensures { IfOk result (λ made. made ≡ as_query join.now) }
{
    let cvd = join.left.cvd.copy(alloc)?;
    let items = wide_items(alloc, &join.items)?;
    let filter = wide_guard(alloc, &join.filter)?;
    let order = wide_keys(alloc, join.order.as_slice())?;
    Ok(Query {
        items,
        source: Src::Whole { cvd },
        filter,
        groups: Seq::new(alloc),
        having: None,
        order,
        limit: join.limit,
    })
}
