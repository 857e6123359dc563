//! The times of large tables.

use crate::datasets::{Dataset, next};
use ov_budget::pick;
use std::alloc::Global;
use std::test::*;
use std::time::Instant;

#[derive(Clone, Copy)]
enum Shape {
    Chain,
    Random,
    Star,
}

fn parent_of(shape: Shape, before: u32, random: &mut u32) -> u32 {
    match shape {
        Shape::Chain => before,
        Shape::Random => next(random) % before.max(1) + before.min(1),
        Shape::Star => before.min(1),
    }
}

/// Versions of so many rows, of which each keeps its parent's but for some, and has as many new ones.
fn grown(alloc: Global, shape: Shape, count: u32, rows: u32, fresh: u32) -> Result<Dataset, Fail> {
    let mut dataset = Dataset::new(alloc);
    let mut versions: Vec<Vec<u32>> = Vec::new(alloc);
    let mut random = 1;
    let mut last: u32 = 0;
    for before in 0..count {
        let parent = parent_of(shape, before, &mut random);
        let mut rids = Vec::new(alloc);
        if let Some(from) = versions.get((parent as usize).wrapping_sub(1)) {
            for rid in from {
                if next(&mut random) % rows.max(1) >= fresh {
                    rids.push(*rid)?;
                }
            }
        }
        for _ in rids.len()..rows as usize {
            last = last.wrapping_add(1);
            rids.push(last)?;
        }
        dataset.add(alloc, parent, &rids)?;
        versions.push(rids)?;
    }
    Ok(dataset)
}

// Each prints how long the table took, and how many lines differ from those before them.
#[test]
fn large_tables_are_made(rt: HostRuntime) -> Result<(), Fail> {
    let alloc = rt.alloc();
    let cases = [
        ("a chain", Shape::Chain, 65_535, 8, 1),
        ("a star", Shape::Star, 65_535, 8, 1),
        ("a random tree", Shape::Random, 200, 20_000, 200),
        ("a random tree", Shape::Random, 1000, 20_000, 200),
    ];
    for (name, shape, count, rows, fresh) in cases {
        let dataset = grown(alloc, shape, count, rows, fresh)?;
        let start = Instant::now(&rt)?;
        let table = dataset.table(alloc)?;
        let taken = start.elapsed(&rt)?.as_millis();
        let mut different: u32 = 1;
        for (a, b) in table.iter().zip(table.iter().skip(1)) {
            if a != b {
                different = different.wrapping_add(1);
            }
        }
        assert!(rt; pick(&table, u64::MAX).is_ok());
        println!(rt;
            "{name} of {count} versions of {rows} rows: {taken} ms, {different} different lines"
        )?;
    }
    Ok(())
}
