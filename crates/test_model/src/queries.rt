//! Worked queries: the kinds of their columns with their answers, or their first refusal.

use crate::people::{schema, versions};
use ov_answers::{KindsErr, answer, kinds};
use ov_lex::tokens;
use ov_model::{Cell, Query, Refusal, Seq};
use ov_parse::parse;
use ov_plain::Cvd;
use ov_value::{Kind, Txt, Value};
use std::alloc::{AllocError, Global};
use std::test::*;

fn people(alloc: Global) -> Result<Cvd, Fail> {
    let schema = schema(alloc)?;
    let versions = versions(alloc, &schema)?;
    let name = Txt::new(alloc, "people")?;
    Ok(Cvd {
        number: 1,
        name,
        schema,
        versions,
    })
}

/// The query of a text.
fn query_of(alloc: Global, text: &str) -> Result<Query, Fail> {
    if text.len() > 65_536 {
        return Err("a long text")?;
    }
    let Ok(found) = tokens(alloc, text) else {
        return Err("no tokens")?;
    };
    match parse(alloc, text, &found) {
        Ok(query) => Ok(query),
        Err(_) => Err("no query")?,
    }
}

fn add_number(alloc: Global, number: i128, text: &mut String) -> Result<(), AllocError> {
    let digits = format!(in alloc; "{number}")?;
    text.push_str(digits.as_str())
}

/// Adds a cell: `-` for nothing.
fn add_cell(alloc: Global, cell: &Cell, text: &mut String) -> Result<(), AllocError> {
    match cell {
        Cell::Value(Value::Int(number)) => add_number(alloc, i128::from(*number), text),
        Cell::Value(Value::Text(value)) => text.push_str(value.as_str()),
        Cell::Value(Value::Flag(flag)) => text.push_str(if *flag { "true" } else { "false" }),
        Cell::Value(Value::Null) => text.push_str("NULL"),
        Cell::Sum(number) => add_number(alloc, *number, text),
        Cell::Nothing => text.push_str("-"),
    }
}

/// Adds the rows of an answer: a comma behind each cell, and `/` behind each row.
fn add_rows(alloc: Global, rows: &[Seq<Cell>], text: &mut String) -> Result<(), AllocError> {
    for row in rows {
        for cell in row.as_slice() {
            add_cell(alloc, cell, text)?;
            text.push(',')?;
        }
        text.push('/')?;
    }
    Ok(())
}

fn word_of(kind: &Kind) -> &'static str {
    match kind {
        Kind::Int => "int ",
        Kind::Text => "text ",
        Kind::Flag => "flag ",
    }
}

/// The kinds, and the rows of the answer behind them.
fn answered(alloc: Global, cvd: &Cvd, query: &Query, found: &[Kind]) -> Result<String, Fail> {
    if cvd.versions.len() > 65_535 {
        return Err("too many versions")?;
    }
    let rows = answer(alloc, query, cvd)?;
    let mut text = String::new(alloc);
    for kind in found {
        text.push_str(word_of(kind))?;
    }
    add_rows(alloc, rows.as_slice(), &mut text)?;
    Ok(text)
}

/// What is refused.
fn refused(refusal: &Refusal) -> &'static str {
    match refusal {
        Refusal::UnknownColumn { .. } => "no column",
        Refusal::TypeMismatch { .. } => "a comparison of other kinds",
        Refusal::NotGrouped { .. } => "not grouped",
        Refusal::NeedsInt { .. } => "not int",
        _ => "another refusal",
    }
}

fn shown(alloc: Global, cvd: &Cvd, text: &str) -> Result<String, Fail> {
    let query = query_of(alloc, text)?;
    match kinds(alloc, &query, &cvd.schema) {
        Ok(found) => answered(alloc, cvd, &query, found.as_slice()),
        Err(KindsErr::Refused(refusal)) => {
            let mut said = String::new(alloc);
            said.push_str(refused(&refusal))?;
            Ok(said)
        }
        Err(KindsErr::Memory) => Err("no memory")?,
    }
}

// Queries of a version's parents, ancestors or descendants are those that no command has yet.
const QUERIES: [(&str, &str); 12] = [
    (
        "SELECT vid, COUNT(*) FROM ANCESTORS(4) OF CVD people GROUP BY vid",
        "int int 1,2,/2,3,/",
    ),
    (
        "SELECT vid, COUNT(*) FROM PARENTS(1) OF CVD people GROUP BY vid",
        "int int ",
    ),
    (
        "SELECT vid, id FROM CVD people WHERE vid IN DESCENDANTS(2) AND id = 1",
        "int int 3,1,/4,1,/5,1,/6,1,/",
    ),
    (
        "SELECT * FROM VERSION 1, 2 OF CVD people WHERE score > 15",
        "int text int 2,bob,20,/2,bob,25,/3,cy,30,/",
    ),
    (
        "SELECT vid, SUM(score), MAX(name) FROM VERSION 1, 2 OF CVD people GROUP BY vid HAVING COUNT(*) > 2",
        "int int text 2,65,cy,/",
    ),
    (
        "SELECT SUM(score), COUNT(*) FROM VERSION 1 OF CVD people WHERE score > 99",
        "int int -,0,/",
    ),
    (
        "SELECT name, vid FROM VERSION 2, 1 OF CVD people WHERE NOT (id = 1 OR id = 3) ORDER BY score DESC LIMIT 1",
        "text int bob,2,/",
    ),
    (
        "SELECT COUNT(*), MIN(name) FROM CVD people GROUP BY score ORDER BY nme",
        "no column",
    ),
    ("SELECT SUM(name) FROM CVD people", "not int"),
    (
        "SELECT id FROM CVD people WHERE score > 3 OR name > 3",
        "a comparison of other kinds",
    ),
    ("SELECT vid, MAX(name) FROM CVD people", "not grouped"),
    ("SELECT * FROM CVD people GROUP BY vid", "not grouped"),
];

#[test]
fn a_query_has_its_answer_or_its_first_refusal(rt: HostRuntime) -> Result<(), Fail> {
    let cvd = people(rt.alloc())?;
    for (text, wanted) in QUERIES {
        let found = shown(rt.alloc(), &cvd, text)?;
        assert_eq!(rt; found.as_str(), wanted, "{text}");
    }
    Ok(())
}
