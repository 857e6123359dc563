//! A bound of ranks below which as many pairs stand as are asked for, from counts alone: no pair is looked at.

ghost use Rattle.std.specs.Prelude.{◌≡◌, ◌⊎◌, ◌≤◌, ◌<◌, ◌+◌, ◌*◌, ◌^◌, ℕ, List, ℤ, pos, ◌+ℤ◌, ◌≤ℤ◌, IfOk, IsTrue, filter, length, replicate, slice_index_or, take};
ghost use Rattle.std.specs.List.{All};
ghost use Rattle.ov_tally.specs.Counting.{AreNone, AreTimes, AreWithin, total, total_to};
ghost use Rattle.ov_tally.specs.Ranks.{is_low, low_times, pairs_of};
ghost use Rattle.ov_tally.specs.Spans.{AreBelow, Spans};

use crate::repeated::repeated;
use crate::sums::{plus, total_at};
use std::alloc::{AllocError, Global};

/// A bound of ranks for [`crate::first_in`] and [`crate::first_of`]: at least `count` pairs have a rank below it, where there
/// are as many. `times` says how many versions have each position, and `ranks` its rank, which is below `kinds`. It takes a
/// step for each position and each rank, and 16 bytes for each rank while it runs.
pub fn bound_for(
    alloc: Global,
    times: &[i64],
    ranks: &[u32],
    kinds: u32,
    count: usize,
) -> Result<u32, AllocError>
    requires few { length ranks.now ≤ 2 ^ 31 }
    requires same { length times.now ≡ length ranks.now }
    requires kinds { All (λ rank. rank < kinds) ranks.now }
    ensures { IfOk result (λ bound. (keys : List ℕ) (versions : List Spans) → AreTimes (length ranks.now) versions times.now → All (AreBelow (length ranks.now + 1)) versions → count ≤ length (pairs_of ranks.now keys versions) → count ≤ length (filter (is_low bound) (pairs_of ranks.now keys versions))) }
{
    let sums = by_rank(alloc, times, ranks, kinds)?;
    Ok(bound_in(sums.as_slice(), kinds, count))
}

// How many pairs have each rank.
fn by_rank(alloc: Global, times: &[i64], ranks: &[u32], kinds: u32) -> Result<Vec<i128>, AllocError>
    requires few { length ranks.now ≤ 2 ^ 31 }
    requires same { length times.now ≡ length ranks.now }
    requires kinds { All (λ rank. rank < kinds) ranks.now }
    ensures count { IfOk result (λ sums. length sums.items ≡ kinds) }
    ensures small { IfOk result (λ sums. AreWithin (2 ^ 94) sums.items) }
    ensures totals { IfOk result (λ sums. (p : ℕ) → total_to sums.items p ≡ low_times times.now ranks.now (p + 1) (length ranks.now)) }
{
    let mut sums = repeated(alloc, kinds as usize, 0)?;
    for place in 0..ranks.len() {
        add_at(&mut sums, ranks[place], times[place]);
    }
    Ok(sums)
}

fn add_at(sums: &mut Vec<i128>, at: u32, by: i64)
    requires there { at < length sums.old.items }
    requires room { AreWithin (2 ^ 94) sums.old.items }
    ensures count { length sums.new.items ≡ length sums.old.items }
    ensures low { (p : ℕ) → p < at → total_to sums.new.items p ≡ total_to sums.old.items p }
    ensures high { (p : ℕ) → at ≤ p → total_to sums.new.items p ≡ total_to sums.old.items p +ℤ by }
    ensures within { (n : ℕ) → AreWithin n sums.old.items → AreWithin (n + 2 ^ 63) sums.new.items }
{
    let now = total_at(sums.as_slice(), at);
    sums[at as usize] = plus(now, by);
}

// One past the first rank at which the sums reach a count.
fn bound_in(sums: &[i128], kinds: u32, count: usize) -> u32
    requires kinds { length sums.now ≡ kinds }
    requires small { AreWithin (2 ^ 94) sums.now }
    ensures { (result ≡ kinds) ⊎ (pos count ≤ℤ total (take result sums.now)) }
{
    // the first rank that will do ends the walk, so that few pairs are kept
    let mut sum: i128 = 0;
    for rank in 0..kinds {
        sum = with_total(sum, total_at(sums, rank));
        if is_enough(sum, count) {
            return rank + 1;
        }
    }
    kinds
}

fn with_total(sum: i128, more: i128) -> i128
    requires low { pos 0 ≤ℤ (sum +ℤ pos (2 ^ 126)) }
    requires high { sum ≤ℤ pos (2 ^ 126) }
    requires more_low { pos 0 ≤ℤ (more +ℤ pos (2 ^ 94)) }
    requires more_high { more ≤ℤ pos (2 ^ 94) }
    ensures is { result ≡ sum +ℤ more }
    ensures low { sum ≤ℤ (result +ℤ pos (2 ^ 94)) }
    ensures high { result ≤ℤ (sum +ℤ pos (2 ^ 94)) }
{
    sum + more
}

fn is_enough(sum: i128, count: usize) -> bool
    ensures { IsTrue result → pos count ≤ℤ sum }
{
    count as i128 <= sum
}
