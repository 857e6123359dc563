//! Worked tables and choices, and tables beside sums over sets.

use crate::datasets::{Dataset, is_sound, next};
use ov_budget::{Line, NoThreshold, is_worth, pick};
use ov_lyre::split;
use ov_member::Members;
use std::alloc::{AllocError, Global};
use std::process::Abort;
use std::test::Fail;

/// Three versions, each with its tree parent: of four records, of one of these and three new ones, and of these four and a new one.
const CHAIN: &[(u32, &[u32])] = &[
    (0, &[1, 2, 3, 4]),
    (1, &[1, 5, 6, 7]),
    (2, &[1, 5, 6, 7, 8]),
];

fn dataset(alloc: Global, versions: &[(u32, &[u32])]) -> Result<Dataset, Fail> {
    let mut dataset = Dataset::new(alloc);
    for (parent, rids) in versions {
        dataset.add(alloc, *parent, rids)?;
    }
    Ok(dataset)
}

fn line(depth: u32, partitions: u32, stored: u64, cost: u64) -> Line {
    Line {
        depth,
        partitions,
        stored,
        cost,
    }
}

fn numbers(line: &Line) -> (u32, u32, u64, u64) {
    (line.depth, line.partitions, line.stored, line.cost)
}

#[test]
fn a_chain_of_three_versions(rt: HostRuntime) -> Result<(), Fail> {
    let alloc = rt.alloc();
    let table = dataset(alloc, CHAIN)?.table(alloc)?;
    for (before, found) in table.iter().enumerate() {
        let wanted = match before {
            0..=53 => line(0, 1, 8, 24),
            54..=89 => line(1, 2, 9, 14),
            _ => line(2, 3, 13, 13),
        };
        assert_eq!(rt; numbers(found), numbers(&wanted));
    }
    let choices = [
        (7, Err(NoThreshold { least: 8 })),
        (8, Ok(1)),
        (9, Ok(55)),
        (12, Ok(55)),
        (13, Ok(91)),
        (u64::MAX, Ok(91)),
    ];
    for (budget, wanted) in choices {
        assert!(rt; pick(&table, budget) == wanted, "{budget}");
    }
    Ok(())
}

// 24 is over 3/2 of 14, and not over 2 or 12/7 of it. The greatest numbers pass 2^64.
#[test]
fn what_is_worth_it(rt: HostRuntime) {
    let cases = [
        (24, 14, 3, 2, true),
        (24, 14, 2, 1, false),
        (24, 14, 12, 7, false),
        (24, 14, 1_000_000, 1_000_000, true),
        (14, 14, 1, 1, false),
        (u64::MAX, u64::MAX - 1, 1_000_000, 1_000_000, true),
        (u64::MAX, u64::MAX, 1_000_000, 999_999, false),
    ];
    for (cost, best, a, b, wanted) in cases {
        assert_eq!(rt; is_worth(cost, best, a, b), wanted);
    }
}

// Costs and stored sizes at three places, all other lines being dear.
#[test]
fn ties_go_to_the_least_stored_and_then_to_the_least_p(rt: HostRuntime) -> Result<(), Fail> {
    let alloc = rt.alloc();
    let cases = [
        ([(5, 9), (5, 8), (5, 8)], 9, 20),
        ([(5, 9), (5, 8), (5, 8)], 8, 20),
        ([(5, 8), (5, 8), (5, 8)], 8, 10),
        ([(6, 7), (5, 9), (5, 8)], 9, 30),
        ([(6, 7), (5, 9), (5, 8)], 7, 10),
        ([(5, 8), (5, 9), (4, 10)], 10, 30),
        ([(5, 8), (5, 9), (4, 10)], 9, 10),
    ];
    for (placed, budget, wanted) in cases {
        let mut table = Vec::new(alloc);
        for p in 1..101 {
            let (cost, stored) = match p {
                10 => placed[0],
                20 => placed[1],
                30 => placed[2],
                _ => (7, 7),
            };
            table.push(line(0, 1, stored, cost))?;
        }
        if table.len() != 100 {
            return Err("no table")?;
        }
        assert!(rt; pick(&table, budget) == Ok(wanted), "{wanted}");
    }
    Ok(())
}

/// Versions each of which comes from one before it, keeps most of its rows and has some new ones.
fn random_dataset(alloc: Global, random: &mut u32) -> Result<Dataset, Fail> {
    let mut dataset = Dataset::new(alloc);
    let mut versions: Vec<Vec<u32>> = Vec::new(alloc);
    let mut last = 0;
    let count = 2 + next(random) % 30;
    for before in 0..count {
        let parent = if before == 0 {
            0
        } else {
            next(random) % before + 1
        };
        let mut rids = Vec::new(alloc);
        if let Some(from) = versions.get((parent as usize).wrapping_sub(1)) {
            for rid in from {
                if next(random) % 4 > 0 {
                    rids.push(*rid)?;
                }
            }
        }
        for _ in 0..next(random) % 20 {
            last = u32::wrapping_add(last, 1 + next(random) % 2);
            rids.push(last)?;
        }
        dataset.add(alloc, parent, &rids)?;
        versions.push(rids)?;
    }
    Ok(dataset)
}

/// How many different rids these versions have: one rid after another is asked of each version.
fn counted(lists: &[Members], part: &[u32], last: u32) -> u64 {
    let mut count: u64 = 0;
    for rid in 1..last {
        let is_there = part.iter().any(|vid| match lists.get((*vid as usize).wrapping_sub(1)) {
            Some(list) => list.contains(rid),
            None => false,
        });
        count = count.wrapping_add(u64::from(is_there));
    }
    count
}

/// The line of a threshold by its split and by sums over sets.
fn plain_line(alloc: Global, dataset: &Dataset, p: u32) -> Result<Line, Fail> {
    if !is_sound(&dataset.tree) || p == 0 || p > 100 {
        return Err("no such tree")?;
    }
    let split = split(alloc, &dataset.tree, p, 100)?;
    let mut plain = line(split.depth, 0, 0, 0);
    for part in &split.parts {
        let size = counted(&dataset.lists, part, 1000);
        plain.partitions = plain.partitions.wrapping_add(1);
        plain.stored = plain.stored.wrapping_add(size);
        plain.cost = plain
            .cost
            .wrapping_add(size.wrapping_mul(part.len() as u64));
    }
    Ok(plain)
}

#[test]
fn lines_are_sums_over_sets(rt: HostRuntime) -> Result<(), Fail> {
    let alloc = rt.alloc();
    let mut random = 57;
    let mut distinct: u32 = 0;
    for _ in 0..40 {
        let dataset = random_dataset(alloc, &mut random)?;
        let table = dataset.table(alloc)?;
        let mut last = (0, 0, 0, 0);
        for (before, found) in table.iter().enumerate() {
            let plain = plain_line(alloc, &dataset, before as u32 + 1)?;
            assert_eq!(rt; numbers(found), numbers(&plain));
            if numbers(found) != last {
                distinct = distinct.wrapping_add(1);
                last = numbers(found);
            }
        }
    }
    println!(rt; "{distinct} different lines in 40 tables")?;
    Ok(())
}
