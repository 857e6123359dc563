//! Queries of lineages: what their texts ask for.

use ov_lex::tokens;
use ov_model::{Cond, LineageKind, Query, Src};
use ov_parse::parse;
use std::alloc::Global;
use std::test::Fail;

// A lineage as the letter of its kind and its version; and whether a condition leaves its versions out.
type Lineage = (char, u64, bool);

const NONE: Lineage = ('-', 0, false);

fn letter(kind: LineageKind) -> char {
    match kind {
        LineageKind::Parents => 'p',
        LineageKind::Ancestors => 'a',
        LineageKind::Descendants => 'd',
    }
}

fn of_source(query: &Query) -> Lineage {
    match &query.source {
        Src::Lineage { kind, vid, .. } => (letter(*kind), *vid, false),
        _ => NONE,
    }
}

fn of_test(cond: &Cond) -> Lineage {
    match cond {
        Cond::InLineage(kind, vid, negated) => (letter(*kind), *vid, *negated),
        _ => NONE,
    }
}

// The lineage of a condition, or of the first part of an AND.
fn of_filter(query: &Query) -> Lineage {
    match &query.filter {
        Some(Cond::Every(parts)) => match parts.get(0) {
            Some(first) => of_test(first),
            None => NONE,
        },
        Some(cond) => of_test(cond),
        None => NONE,
    }
}

// The lineages of a text's source and of its condition; nothing where it is no query.
fn lineages(alloc: Global, text: &str) -> Result<Option<(Lineage, Lineage)>, Fail> {
    if text.len() > 65_536 {
        return Err("a long text")?;
    }
    let found = tokens(alloc, text)?;
    Ok(match &parse(alloc, text, &found) {
        Ok(query) => Some((of_source(query), of_filter(query))),
        Err(_) => None,
    })
}

const TEXTS: [(&str, Option<(Lineage, Lineage)>); 6] = [
    (
        "SELECT vid, COUNT(*) FROM ANCESTORS(4) OF CVD people GROUP BY vid",
        Some((('a', 4, false), NONE)),
    ),
    (
        "SELECT vid, id FROM CVD people WHERE vid IN DESCENDANTS(2) AND id = 1",
        Some((NONE, ('d', 2, false))),
    ),
    (
        "select vid from parents(1) of cvd people where Vid Not In Ancestors(3);",
        Some((('p', 1, false), ('a', 3, true))),
    ),
    ("SELECT a FROM CVD p WHERE id IN PARENTS(1)", None),
    ("SELECT a FROM PARENTS(-1) OF CVD p", None),
    ("SELECT a FROM PARENTS 1 OF CVD p", None),
];

#[test]
fn texts_and_their_lineages(rt: HostRuntime) -> Result<(), Fail> {
    for (text, wanted) in TEXTS {
        assert!(rt; lineages(rt.alloc(), text)? == wanted);
    }
    Ok(())
}
