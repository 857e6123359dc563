//! From a query and a schema to a query that fits it.

ghost use Rattle.std.specs.Prelude.{◌≡◌, Ok, IfOk, IfErr, IfSome, IsOk, OnOk, Err, map};
ghost use Rattle.ov_model.specs.Kinds.{terms_kinds, items_kinds, cols_kinds, kinds};
ghost use Rattle.ov_model.specs.declared.query.Items.TheVariants.{Everything};
ghost use Rattle.ov_typing.specs.Refusing.{Gives, Takes, refusal_of};

use crate::counting::guard_counts;
use crate::fitting::Typed;
use crate::grouping::is_grouped;
use crate::place::Place;
use crate::shape::Shape;
use crate::type_err::TypeErr;
use ov_model::{Col, Items, Key, Query, Seq, Term};
use ov_value::{Column, Kind, Schema, Txt};
use std::alloc::{AllocError, Global};

/// The query with the schema of the dataset that it reads, or its first refusal: of the items, WHERE, GROUP BY, HAVING and
/// ORDER BY, in this order and each from the left. It takes time in proportion to the terms of the query times the columns of
/// the schema and those of GROUP BY.
pub fn typed<'a>(alloc: Global, query: &'a Query, schema: &'a Schema) -> Result<Typed<'a>, TypeErr>
    ensures ok { IfOk result (λ made. (made.query ≡ query.now) × (made.schema ≡ schema.now)) }
    ensures fits { OnOk result (IsOk (kinds query.now schema.now)) }
    // Each error but want of memory is the refusal that it stands for.
    ensures err { IfErr result (λ why. IfSome (refusal_of why) (λ refusal. kinds query.now schema.now ≡ Err refusal)) }
{
    let kinds = kinds(alloc, query, schema)?;
    Ok(Typed {
        query,
        schema,
        kinds,
    })
}

fn kinds(alloc: Global, query: &Query, schema: &Schema) -> Result<Seq<Kind>, TypeErr>
    ensures { Gives result (kinds query.now schema.now) }
{
    let shape = Shape::of(schema);
    let place = Place {
        shape: &shape,
        grouped: is_grouped(query),
        groups: query.groups.as_slice(),
    };
    let plain = Place::plain(&shape);
    let kinds = items_kinds(alloc, &place, &query.items)?;
    let nth = guard_counts(alloc, &plain, &query.filter, 1)?;
    take_cols(alloc, &plain, query.groups.as_slice())?;
    let _ = guard_counts(alloc, &place, &query.having, nth)?;
    take_keys(alloc, &place, query.order.as_slice())?;
    Ok(kinds)
}

/// The kinds of the items, or their first refusal.
pub fn items_kinds(alloc: Global, place: &Place<'_>, items: &Items) -> Result<Seq<Kind>, TypeErr>
    ensures { Gives result (items_kinds place.now items.now) }
{
    match items {
        Items::Everything if place.grouped => Err(TypeErr::NotGrouped {
            name: Txt::new(alloc, "*")?,
        }),
        Items::Everything => Ok(all_kinds(alloc, place.shape.columns())?),
        Items::Terms(terms) => terms_kinds(alloc, place, terms.as_slice()),
    }
}

fn all_kinds(alloc: Global, columns: &[Column]) -> Result<Seq<Kind>, AllocError>
    ensures { IfOk result (λ kinds. kinds ≡ map (λ c. c.kind) columns.now) }
{
    let mut kinds = Vec::with_capacity(alloc, columns.len())?;
    for column in columns {
        kinds.push(column.kind)?;
    }
    Ok(Seq::from_vec(kinds))
}

fn terms_kinds(alloc: Global, place: &Place<'_>, terms: &[Term]) -> Result<Seq<Kind>, TypeErr>
    ensures { Gives result (terms_kinds place.now terms.now) }
{
    let mut kinds = Vec::with_capacity(alloc, terms.len())?;
    for term in terms {
        kinds.push(place.term_kind(alloc, term)?)?;
    }
    Ok(Seq::from_vec(kinds))
}

// The columns of GROUP BY.
fn take_cols(alloc: Global, place: &Place<'_>, cols: &[Col]) -> Result<(), TypeErr>
    ensures { Takes result (cols_kinds place.now.schema cols.now) }
{
    for col in cols {
        let _ = place.col_kind(alloc, col)?;
    }
    Ok(())
}

/// Whether the keys of ORDER BY have kinds, or their first refusal.
pub fn take_keys(alloc: Global, place: &Place<'_>, keys: &[Key]) -> Result<(), TypeErr>
    ensures { Takes result (terms_kinds place.now (map (λ key. key.term) keys.now)) }
{
    for key in keys {
        let _ = place.term_kind(alloc, &key.term)?;
    }
    Ok(())
}
