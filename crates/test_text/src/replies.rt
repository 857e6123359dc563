//! The texts of replies to users and budgets, and of stores that are full.

use ov_reply::*;
use ov_value::Txt;
use std::alloc::{AllocError, Global};
use std::test::Fail;

fn tables(a: Global) -> Result<Reply, AllocError> {
    let mut tables = Vec::new(a);
    tables.push(TableLine {
        user: Txt::new(a, "ann")?,
        table: Txt::new(a, "work")?,
        cvd: Txt::new(a, "people")?,
        vids: Txt::new(a, "2")?,
    })?;
    Ok(Reply::Tables {
        tables: Seq::from_vec(tables),
    })
}

fn split(depth: u32, partitions: u32, stored: u64, cost: u64) -> BudgetLine {
    BudgetLine {
        depth,
        partitions,
        stored,
        cost,
    }
}

fn budget(a: Global) -> Result<Reply, AllocError> {
    let mut lines = Vec::new(a);
    lines.push(split(0, 1, 8, 24))?;
    lines.push(split(1, 2, 9, 14))?;
    Ok(Reply::Within {
        lines: Seq::from_vec(lines),
        chosen: 55,
        depth: 1,
        partitions: 2,
        stored: 9,
        records: 8,
        members: 13,
        cost: 14,
        steps: 4,
    })
}

fn advice(optimize: bool) -> Reply {
    Reply::Advise {
        cost: 24,
        best: 14,
        optimize,
    }
}

fn unstaged(a: Global) -> Result<Reply, AllocError> {
    let user = Txt::new(a, "ann")?;
    let table = Txt::new(a, "work")?;
    Ok(Reply::Unstaged { user, table })
}

fn no_run(pages: u64, steps: Option<(u32, u64)>) -> Reply {
    Reply::Refused(Refusal::NoRun { pages, steps })
}

// The replies of the table, by their places; the last ones are refusals.
fn made(a: Global, at: usize) -> Result<Reply, AllocError> {
    match at {
        0 => tables(a),
        1 => budget(a),
        2 => Ok(advice(true)),
        3 => Ok(advice(false)),
        4 => Ok(Reply::User {
            name: Txt::new(a, "ann")?,
        }),
        5 => Ok(Reply::Whoami {
            name: Txt::new(a, "ann")?,
        }),
        6 => unstaged(a),
        7 => Ok(no_run(3, None)),
        8 => Ok(no_run(1, Some((1, 3)))),
        9 => Ok(Reply::Refused(Refusal::JournalFull {
            steps: Some((2, 5)),
        })),
        _ => Ok(Reply::Refused(Refusal::NoThreshold {
            budget: 7,
            least: 8,
        })),
    }
}

const TEXTS: [&str; 11] = [
    "ann.work: people 2\n(1 tables)\n",
    "p 1: depth 0, partitions 1, stored 8, cost 24\np 2: depth 1, partitions 2, stored 9, cost 14\nchosen 55/100\ndepth 1, partitions 2, stored 9, records 8, members 13, cost 14, steps 4\n",
    "cost 24, best 14: optimize\n",
    "cost 24, best 14: keep\n",
    "user ann\n",
    "ann\n",
    "ann.work: unstaged\n",
    "error 4: no free run of 3 pages\n",
    "error 4: no free run of 1 pages, steps 1 left 3\n",
    "error 5: the journal is full, steps 2 left 5\n",
    "error 21: no threshold stores at most 7; the least is 8\n",
];

#[test]
fn replies_and_refusals(rt: HostRuntime) -> Result<(), Fail> {
    let a = rt.alloc();
    for (at, text) in TEXTS.iter().enumerate() {
        let answer = made(a, at)?;
        assert!(rt; is_error(&answer) == (at >= 7));
        assert!(rt; reply(a, &answer)?.as_slice() == text.as_bytes(), "{text}");
    }
    Ok(())
}
