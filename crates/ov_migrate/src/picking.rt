// Some rids of a set, by their places.

ghost use Rattle.std.specs.Prelude.{◌≡◌, ◌≤◌, ◌+◌, ◌++◌, ◌^◌, ℕ, List, length, take, drop, IfOk, OnOk};
ghost use Rattle.ov_member.specs.Lists.{Spells, range_bytes, run};

use ov_member::Members;
use std::alloc::{AllocError, Global};

/// A range takes eight bytes in a list: its first rid, and how many rids it has.
const RANGE_BYTES: usize = 8;

/// The rids of a set from a place on, at most so many. It walks the ranges up to that place, and then the rids.
pub(crate) fn picked(
    alloc: Global,
    rids: &Members,
    from: u32,
    most: u32,
) -> Result<Members, AllocError>
    ensures { IfOk result (λ found. found ≡ take most (drop from rids.now)) }
{
    let bytes = rids.list_bytes(alloc)?;
    let found = picked_in(alloc, bytes.as_slice(), from, most)?;
    match Members::of(alloc, &found)? {
        Some(members) => Ok(members),
        None => unreachable!(),
    }
}

// The same, of the set that has these bytes as its list.
fn picked_in(alloc: Global, bytes: &[u8], from: u32, most: u32) -> Result<Vec<u32>, AllocError>
    ensures { (rids : List ℕ) → Spells bytes.now rids → IfOk result (λ found. found.items ≡ take most (drop from rids)) }
{
    let mut found = Vec::new(alloc);
    let mut passed = from;
    let mut left = most;
    let mut rest = bytes;
    while left > 0 && rest.len() >= RANGE_BYTES {
        let (range, others) = rest.split_at(RANGE_BYTES);
        let (first, count) = numbers_of(range);
        let skipped = passed.min(count);
        let taken = left.min(count - skipped);
        push_run(&mut found, first, skipped, taken)?;
        passed -= skipped;
        left -= taken;
        rest = others;
    }
    Ok(found)
}

// Puts so many successive rids behind others: those from a place of a range on.
fn push_run(found: &mut Vec<u32>, first: u32, skipped: u32, count: u32) -> Result<(), AllocError>
    ensures { first + (skipped + count) ≤ 2 ^ 31 + 1 → OnOk result (found.new.items ≡ found.old.items ++ run (first + skipped) count) }
{
    for at in 0..count {
        found.push(first.saturating_add(skipped).saturating_add(at))?;
    }
    Ok(())
}

// The two numbers of a range.
fn numbers_of(range: &[u8]) -> (u32, u32)
    requires { length range.now ≡ 8 }
    ensures { range.now ≡ range_bytes (record { first = result.0; count = result.1 }) }
{
    let (first, count) = range.split_at(4);
    (
        u32::from_be_bytes([first[0], first[1], first[2], first[3]]),
        u32::from_be_bytes([count[0], count[1], count[2], count[3]]),
    )
}
