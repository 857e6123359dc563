//! Whether columns are the same, and whether a query is grouped.

ghost use Rattle.std.specs.Prelude.{◌≡◌};
ghost use Rattle.std.specs.List.{list_any};
ghost use Rattle.ov_model.specs.Kinds.{is_same_col, is_aggregate, has_aggregate, is_grouped};

use ov_model::{Col, Items, Key, Query, Term};

/// Whether two columns are one.
pub(crate) fn is_same_col(a: &Col, b: &Col) -> bool
    ensures { result ≡ is_same_col a.now b.now }
{
    match (a, b) {
        (Col::Vid, Col::Vid) => true,
        (Col::Name(x), Col::Name(y)) => *x == *y,
        (Col::Left(x), Col::Left(y)) => *x == *y,
        (Col::Right(x), Col::Right(y)) => *x == *y,
        _ => false,
    }
}

fn is_aggregate(term: &Term) -> bool
    ensures { result ≡ is_aggregate term.now }
{
    match term {
        Term::Plain(_) => false,
        _ => true,
    }
}

fn has_aggregate(items: &Items) -> bool
    ensures { result ≡ has_aggregate items.now }
{
    match items {
        Items::Everything => false,
        Items::Terms(terms) => have_aggregate(terms.as_slice()),
    }
}

fn have_aggregate(terms: &[Term]) -> bool
    ensures { result ≡ list_any is_aggregate terms.now }
{
    terms.iter().any(|term| is_aggregate(term))
}

fn is_by_aggregate(keys: &[Key]) -> bool
    ensures { result ≡ list_any (λ key. is_aggregate key.term) keys.now }
{
    keys.iter().any(|key| is_aggregate(&key.term))
}

/// Whether a query is grouped: it has GROUP BY, or an aggregate among its items or in its order.
pub fn is_grouped(query: &Query) -> bool
    ensures { result ≡ is_grouped query.now }
{
    query.groups.len() != 0
        || has_aggregate(&query.items)
        || is_by_aggregate(query.order.as_slice())
}
