//! From a join and the schemas of its sides to a join that fits them.

ghost use Rattle.std.specs.Prelude.{◌≡◌, List, IfOk, IfErr, IfSome, IsOk, OnOk, Err};
ghost use Rattle.ov_model.specs.declared.query.Symbol.{Symbol};
ghost use Rattle.ov_model.specs.JoinGrammar.{SpellsJoin};
ghost use Rattle.ov_model.specs.Joins.{join_kinds, kinds_in, on_counts};
ghost use Rattle.ov_model.specs.Kinds.{plain_place};
ghost use Rattle.ov_typing.specs.Refusing.{Gives, refusal_of};
ghost use Rattle.ov_join.specs.Fitting.{IsOfJoins};

use crate::fitting::TypedJoin;
use crate::wide::{left_name, right_name, wide_columns, wide_query};
use ov_model::{Col, JoinQuery, Operand, Query, Seq, Term};
use ov_typing::{Place, Shape, TypeErr, compared, guard_counts, items_kinds, take_keys};
use ov_value::{Kind, Schema, Txt};
use std::alloc::Global;

/// The join with the schemas of its sides, or its first refusal: of the items, ON, WHERE and ORDER BY, in this order and each from
/// the left, where comparisons of ON are counted first. Names are those of columns behind `LEFT.` or `RIGHT.`. It takes time in
/// proportion to the terms of the join times the columns of both schemas.
pub fn typed_join<'a>(
    alloc: Global,
    query: &'a JoinQuery,
    left: &'a Schema,
    right: &'a Schema,
) -> Result<TypedJoin<'a>, TypeErr>
    requires { (symbols : List Symbol) × SpellsJoin symbols query.now }
    ensures ok { IfOk result (λ made. (made.join ≡ query.now) × (made.left ≡ left.now) × (made.right ≡ right.now)) }
    ensures fits { OnOk result (IsOk (join_kinds query.now left.now right.now)) }
    // Each error but want of memory is the refusal that it stands for, and none is one that only queries have.
    ensures err { IfErr result (λ why. IfSome (refusal_of why) (λ refusal. join_kinds query.now left.now right.now ≡ Err refusal)) }
    ensures of_joins { IfErr result IsOfJoins }
{
    let columns = wide_columns(alloc, left, right)?;
    let wide = wide_query(alloc, query)?;
    let kinds = kinds(alloc, &Shape::without_key(columns.as_slice()), query, &wide)?;
    Ok(TypedJoin {
        join: query,
        left,
        right,
        wide,
        columns,
        kinds,
    })
}

// The kinds of the items of a join, as a query over these columns, or its first refusal.
fn kinds(
    alloc: Global,
    shape: &Shape<'_>,
    join: &JoinQuery,
    wide: &Query,
) -> Result<Seq<Kind>, TypeErr>
    ensures { Gives result (kinds_in (plain_place shape.now) join.now wide.now) }
{
    let place = Place::plain(shape);
    let kinds = items_kinds(alloc, &place, &wide.items)?;
    let nth = on_counts(alloc, &place, join.on.as_slice())?;
    let _ = guard_counts(alloc, &place, &wide.filter, nth)?;
    take_keys(alloc, &place, wide.order.as_slice())?;
    Ok(kinds)
}

// The number of the comparison behind those of ON, or their first refusal.
fn on_counts(alloc: Global, place: &Place<'_>, on: &[(Txt, Txt)]) -> Result<u64, TypeErr>
    ensures { Gives result (on_counts place.now 1 on.now) }
{
    let mut next = 1;
    for names in on {
        let left = Operand::Term(Term::Plain(Col::Name(left_name(alloc, &names.0)?)));
        let right = Operand::Term(Term::Plain(Col::Name(right_name(alloc, &names.1)?)));
        next = compared(alloc, place, next, &left, &right)?;
    }
    Ok(next)
}
