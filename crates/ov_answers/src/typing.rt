//! The kinds of a query's terms over a schema, and the first refusal of a query.

ghost use Rattle.std.specs.Prelude.{◌≡◌, ◌∷◌, map, None, Ok, IfOk};
ghost use Rattle.std.specs.List.{list_any};
ghost use Rattle.ov_model.specs.Kinds.{is_same_col, name_of, kind_named, or_unknown, col_kind, grouped_or, int_or, term_kind, literal_kind, operand_kind, is_same_kind, same_or, compared, tested, count_all, counted, guard_counts, terms_kinds, items_kinds, cols_kinds, kinds};
ghost use Rattle.ov_model.specs.declared.query.Col.TheVariants.{Vid};
ghost use Rattle.ov_model.specs.declared.query.Items.TheVariants.{Everything};
ghost use Rattle.ov_model.specs.declared.query.Term.TheVariants.{Plain, Count, Sum};
ghost use Rattle.ov_value.specs.declared.column.Kind.TheVariants.{Int};
ghost use Rattle.ov_answers.specs.Refusing.{at, Gives};

use crate::answering::is_grouped;
use crate::kinds_err::KindsErr;
use ov_model::{Col, Cond, Items, Key, Operand, Query, Refusal, Seq, Term, comparisons_by_cases};
use ov_plain::onto;
use ov_value::{Column, Kind, Schema, Txt, Value};
use std::alloc::{AllocError, Global};

/// Whether two columns are one.
fn is_same_col(a: &Col, b: &Col) -> bool
    ensures { result ≡ is_same_col a.now b.now }
{
    match (a, b) {
        (Col::Vid, Col::Vid) => true,
        (Col::Name(x), Col::Name(y)) => *x == *y,
        (Col::Left(x), Col::Left(y)) => *x == *y,
        (Col::Right(x), Col::Right(y)) => *x == *y,
        _ => false,
    }
}

/// Whether a column is one of these.
fn is_one_col(col: &Col, cols: &[Col]) -> bool
    ensures { result ≡ list_any (is_same_col col.now) cols.now }
{
    match cols {
        [] => false,
        [first, rest @ ..] => is_same_col(col, first) || is_one_col(col, rest),
    }
}

/// The name of a column.
fn name_of(alloc: Global, col: &Col) -> Result<Txt, AllocError>
    ensures { IfOk result (λ name. name ≡ name_of col.now) }
{
    match col {
        Col::Vid => Txt::new(alloc, "vid"),
        Col::Name(name) => name.copy(alloc),
        Col::Left(name) => name.copy(alloc),
        Col::Right(name) => name.copy(alloc),
    }
}

/// The kind of the column of a name.
fn kind_named(columns: &[Column], name: &Txt) -> Option<Kind>
    ensures { result ≡ kind_named columns.now name.now }
{
    match columns {
        [] => None,
        [column, rest @ ..] => {
            if column.name == *name {
                Some(column.kind)
            } else {
                kind_named(rest, name)
            }
        }
    }
}

/// The refusal of a column that isn't there.
fn unknown(alloc: Global, name: &Txt) -> Result<Kind, KindsErr>
    ensures { Gives result (or_unknown name.now None) }
{
    Err(KindsErr::Refused(Refusal::UnknownColumn {
        name: name.copy(alloc)?,
    }))
}

/// The kind of a column; a version's number is an int.
fn col_kind(alloc: Global, schema: &Schema, col: &Col) -> Result<Kind, KindsErr>
    ensures { Gives result (col_kind schema.now col.now) }
{
    match col {
        Col::Vid => Ok(Kind::Int),
        Col::Name(name) => match kind_named(schema.columns(), name) {
            Some(kind) => Ok(kind),
            None => unknown(alloc, name),
        },
        Col::Left(name) => unknown(alloc, name),
        Col::Right(name) => unknown(alloc, name),
    }
}

/// The kind of a plain column, which is refused where it has to be grouped and isn't.
fn grouped_or(
    alloc: Global,
    schema: &Schema,
    grouped: bool,
    groups: &[Col],
    col: &Col,
    kind: Kind,
) -> Result<Kind, KindsErr>
    ensures { Gives result (grouped_or (at schema.now grouped groups.now) col.now kind) }
{
    let _ = schema;
    if grouped && !is_one_col(col, groups) {
        return Err(KindsErr::Refused(Refusal::NotGrouped {
            name: name_of(alloc, col)?,
        }));
    }
    Ok(kind)
}

/// The kind of a sum, which is of ints.
fn int_or(alloc: Global, col: &Col, kind: Kind) -> Result<Kind, KindsErr>
    ensures { Gives result (int_or col.now kind) }
{
    if kind == Kind::Int {
        return Ok(Kind::Int);
    }
    Err(KindsErr::Refused(Refusal::NeedsInt {
        name: name_of(alloc, col)?,
    }))
}

/// The kind of a plain column, or its first refusal.
fn plain_kind(
    alloc: Global,
    schema: &Schema,
    grouped: bool,
    groups: &[Col],
    col: &Col,
) -> Result<Kind, KindsErr>
    ensures { Gives result (term_kind (at schema.now grouped groups.now) (Plain col.now)) }
{
    let kind = col_kind(alloc, schema, col)?;
    grouped_or(alloc, schema, grouped, groups, col, kind)
}

/// The kind of a count, or its column's refusal.
fn count_kind(
    alloc: Global,
    schema: &Schema,
    grouped: bool,
    groups: &[Col],
    col: &Col,
) -> Result<Kind, KindsErr>
    ensures { Gives result (term_kind (at schema.now grouped groups.now) (Count col.now)) }
{
    let _ = grouped;
    let _ = groups;
    let _ = col_kind(alloc, schema, col)?;
    Ok(Kind::Int)
}

/// The kind of a sum, or its first refusal.
fn sum_kind(
    alloc: Global,
    schema: &Schema,
    grouped: bool,
    groups: &[Col],
    col: &Col,
) -> Result<Kind, KindsErr>
    ensures { Gives result (term_kind (at schema.now grouped groups.now) (Sum col.now)) }
{
    let _ = grouped;
    let _ = groups;
    let kind = col_kind(alloc, schema, col)?;
    int_or(alloc, col, kind)
}

/// The kind of a term, or its first refusal: its column, and then that a sum is of ints, or that a plain column is grouped.
fn term_kind(
    alloc: Global,
    schema: &Schema,
    grouped: bool,
    groups: &[Col],
    term: &Term,
) -> Result<Kind, KindsErr>
    ensures { Gives result (term_kind (at schema.now grouped groups.now) term.now) }
{
    match term {
        Term::Plain(col) => plain_kind(alloc, schema, grouped, groups, col),
        Term::CountAll => Ok(Kind::Int),
        Term::Count(col) => count_kind(alloc, schema, grouped, groups, col),
        Term::Sum(col) => sum_kind(alloc, schema, grouped, groups, col),
        Term::Min(col) => col_kind(alloc, schema, col),
        Term::Max(col) => col_kind(alloc, schema, col),
    }
}

/// The kind of a literal.
fn literal_kind(value: &Value) -> Kind
    ensures { result ≡ literal_kind value.now }
{
    match value {
        Value::Int(_) => Kind::Int,
        Value::Text(_) => Kind::Text,
        Value::Flag(_) => Kind::Flag,
        Value::Null => Kind::Int,
    }
}

/// The kind of an operand, or its first refusal.
fn operand_kind(
    alloc: Global,
    schema: &Schema,
    grouped: bool,
    groups: &[Col],
    operand: &Operand,
) -> Result<Kind, KindsErr>
    ensures { Gives result (operand_kind (at schema.now grouped groups.now) operand.now) }
{
    match operand {
        Operand::Term(term) => term_kind(alloc, schema, grouped, groups, term),
        Operand::Literal(value) => Ok(literal_kind(value)),
    }
}

/// The number of the next comparison, or the refusal of this one, whose sides are of two kinds. No memory has 2^64
/// comparisons.
fn same_or(nth: u64, left: Kind, right: Kind) -> Result<u64, KindsErr>
    ensures { Gives result (same_or nth left right) }
{
    if left != right {
        return Err(KindsErr::Refused(Refusal::TypeMismatch { nth, left, right }));
    }
    match nth.checked_add(1) {
        Some(next) => Ok(next),
        None => Err(KindsErr::Memory),
    }
}

/// What a comparison does to the number of the one that comes next.
fn compared(
    alloc: Global,
    schema: &Schema,
    grouped: bool,
    groups: &[Col],
    nth: u64,
    left: &Operand,
    right: &Operand,
) -> Result<u64, KindsErr>
    ensures { Gives result (compared (at schema.now grouped groups.now) nth left.now right.now) }
{
    let left_kind = operand_kind(alloc, schema, grouped, groups, left)?;
    let right_kind = operand_kind(alloc, schema, grouped, groups, right)?;
    same_or(nth, left_kind, right_kind)
}

/// What a test of an operand does to the number of the next comparison: nothing, where the operand isn't refused.
fn tested(
    alloc: Global,
    schema: &Schema,
    grouped: bool,
    groups: &[Col],
    nth: u64,
    operand: &Operand,
) -> Result<u64, KindsErr>
    ensures { Gives result (tested nth (operand_kind (at schema.now grouped groups.now) operand.now)) }
{
    let _ = operand_kind(alloc, schema, grouped, groups, operand)?;
    Ok(nth)
}

/// The same of a test of the version's number.
fn version_tested(
    alloc: Global,
    schema: &Schema,
    grouped: bool,
    groups: &[Col],
    nth: u64,
) -> Result<u64, KindsErr>
    ensures { Gives result (tested nth (grouped_or (at schema.now grouped groups.now) Vid Int)) }
{
    let _ = grouped_or(alloc, schema, grouped, groups, &Col::Vid, Kind::Int)?;
    Ok(nth)
}

/// What a condition does to the number of the comparison that comes next, or its first refusal.
#[cycle(counted)]
fn counted(
    alloc: Global,
    schema: &Schema,
    grouped: bool,
    groups: &[Col],
    cond: &Cond,
    nth: u64,
) -> Result<u64, KindsErr>
    ensures { Gives result (counted (at schema.now grouped groups.now) cond.now nth) }
{
    comparisons_by_cases();
    match cond {
        Cond::Compare(left, _, right) => {
            compared(alloc, schema, grouped, groups, nth, left, right)
        }
        Cond::IsNull(operand, _) => tested(alloc, schema, grouped, groups, nth, operand),
        Cond::InLineage(_, _, _) => version_tested(alloc, schema, grouped, groups, nth),
        Cond::InList(_, _) => version_tested(alloc, schema, grouped, groups, nth),
        Cond::Not(inner) => counted(alloc, schema, grouped, groups, inner.get(), nth),
        Cond::Every(conds) => count_all(alloc, schema, grouped, groups, conds.as_slice(), nth),
        Cond::Any(conds) => count_all(alloc, schema, grouped, groups, conds.as_slice(), nth),
    }
}

/// The same of these conditions, from the left.
#[cycle(counted)]
fn count_all(
    alloc: Global,
    schema: &Schema,
    grouped: bool,
    groups: &[Col],
    conds: &[Cond],
    nth: u64,
) -> Result<u64, KindsErr>
    ensures { Gives result (count_all (map (counted (at schema.now grouped groups.now)) conds.now) nth) }
{
    let mut next = nth;
    for cond in conds {
        next = counted(alloc, schema, grouped, groups, cond, next)?;
    }
    Ok(next)
}

/// The same of WHERE or HAVING, where it is there.
fn guard_counts(
    alloc: Global,
    schema: &Schema,
    grouped: bool,
    groups: &[Col],
    guard: &Option<Cond>,
    nth: u64,
) -> Result<u64, KindsErr>
    ensures { Gives result (guard_counts (at schema.now grouped groups.now) guard.now nth) }
{
    match guard {
        None => Ok(nth),
        Some(cond) => counted(alloc, schema, grouped, groups, cond, nth),
    }
}

/// A kind and these behind it.
fn onto_kinds(alloc: Global, kind: Kind, later: Seq<Kind>) -> Result<Seq<Kind>, KindsErr>
    ensures { Gives result (Ok (kind ∷ later)) }
{
    Ok(onto(alloc, kind, later)?)
}

/// The kinds of these terms, or their first refusal.
fn terms_kinds(
    alloc: Global,
    schema: &Schema,
    grouped: bool,
    groups: &[Col],
    terms: &[Term],
) -> Result<Seq<Kind>, KindsErr>
    ensures { Gives result (terms_kinds (at schema.now grouped groups.now) terms.now) }
{
    match terms {
        [] => Ok(Seq::new(alloc)),
        [term, rest @ ..] => {
            let own = term_kind(alloc, schema, grouped, groups, term)?;
            let later = terms_kinds(alloc, schema, grouped, groups, rest)?;
            onto_kinds(alloc, own, later)
        }
    }
}

/// The kinds of the keys of ORDER BY, or their first refusal.
fn keys_kinds(
    alloc: Global,
    schema: &Schema,
    grouped: bool,
    groups: &[Col],
    keys: &[Key],
) -> Result<Seq<Kind>, KindsErr>
    ensures { Gives result (terms_kinds (at schema.now grouped groups.now) (map (λ key. key.term) keys.now)) }
{
    match keys {
        [] => Ok(Seq::new(alloc)),
        [key, rest @ ..] => {
            let own = term_kind(alloc, schema, grouped, groups, &key.term)?;
            let later = keys_kinds(alloc, schema, grouped, groups, rest)?;
            onto_kinds(alloc, own, later)
        }
    }
}

/// The kinds of these columns, or the first refusal.
fn cols_kinds(alloc: Global, schema: &Schema, cols: &[Col]) -> Result<Seq<Kind>, KindsErr>
    ensures { Gives result (cols_kinds schema.now cols.now) }
{
    match cols {
        [] => Ok(Seq::new(alloc)),
        [col, rest @ ..] => {
            let own = col_kind(alloc, schema, col)?;
            let later = cols_kinds(alloc, schema, rest)?;
            onto_kinds(alloc, own, later)
        }
    }
}

/// The kinds of these columns.
fn kinds_of(alloc: Global, columns: &[Column]) -> Result<Seq<Kind>, AllocError>
    ensures { IfOk result (λ found. found ≡ map (λ c. c.kind) columns.now) }
{
    match columns {
        [] => Ok(Seq::new(alloc)),
        [column, rest @ ..] => {
            let later = kinds_of(alloc, rest)?;
            onto(alloc, column.kind, later)
        }
    }
}

/// The kinds of every column, which is refused in a query that is grouped.
fn all_kinds(
    alloc: Global,
    schema: &Schema,
    grouped: bool,
    groups: &[Col],
) -> Result<Seq<Kind>, KindsErr>
    ensures { Gives result (items_kinds (at schema.now grouped groups.now) Everything) }
{
    if grouped {
        return Err(KindsErr::Refused(Refusal::NotGrouped {
            name: Txt::new(alloc, "*")?,
        }));
    }
    Ok(kinds_of(alloc, schema.columns())?)
}

/// The kinds of the items, or their first refusal.
fn items_kinds(
    alloc: Global,
    schema: &Schema,
    grouped: bool,
    groups: &[Col],
    items: &Items,
) -> Result<Seq<Kind>, KindsErr>
    ensures { Gives result (items_kinds (at schema.now grouped groups.now) items.now) }
{
    match items {
        Items::Everything => all_kinds(alloc, schema, grouped, groups),
        Items::Terms(terms) => terms_kinds(alloc, schema, grouped, groups, terms.as_slice()),
    }
}

/// The kind of each column of a query's answer, or its first refusal: of the items, WHERE, GROUP BY, HAVING and ORDER BY, in
/// this order.
pub fn kinds(alloc: Global, query: &Query, schema: &Schema) -> Result<Seq<Kind>, KindsErr>
    ensures { Gives result (kinds query.now schema.now) }
{
    let grouped = is_grouped(query);
    let groups = query.groups.as_slice();
    let kinds = items_kinds(alloc, schema, grouped, groups, &query.items)?;
    let nth = guard_counts(alloc, schema, false, &[], &query.filter, 1)?;
    let _ = cols_kinds(alloc, schema, groups)?;
    let _ = guard_counts(alloc, schema, grouped, groups, &query.having, nth)?;
    let _ = keys_kinds(alloc, schema, grouped, groups, query.order.as_slice())?;
    Ok(kinds)
}
