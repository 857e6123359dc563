//! How many versions have each position: each range is marked where it begins and where it ends, and the marks are added up.

ghost use Rattle.std.specs.Prelude.{◌≡◌, ◌≤◌, ◌<◌, ◌+◌, ◌*◌, ◌^◌, ◌-◌, ◌∷◌, [], suc, ℕ, ℤ, pos, ◌+ℤ◌, ◌≤ℤ◌, IfOk, OnOk, length, slice_index_or};
ghost use Rattle.std.specs.List.{All, sum_by};
ghost use Rattle.ov_tally.specs.Counting.{AreNone, AreSums, AreTimes, AreWithin, IsFew, total_to};
ghost use Rattle.ov_tally.specs.Spans.{AreBelow, IsBelow, IsShort, covers, times};

use crate::repeated::repeated;
use crate::span::Span;
use std::alloc::{AllocError, Global};

/// Of each position from 0 on, below the count, in how many ranges of all versions it is: of ranges that are apart, how many
/// versions have it. The ranges end at the count at most. It takes one step for each range and two for each position, and
/// 16 bytes for each position, half of which are the answer's.
pub fn times_of(alloc: Global, count: usize, versions: &[Vec<Span>]) -> Result<Vec<i64>, AllocError>
    requires positions { count ≤ 2 ^ 32 }
    requires few { length versions.now ≤ 2 ^ 29 }
    requires short { All IsShort versions.now }
    requires below { All (AreBelow (count + 1)) versions.now }
    ensures { IfOk result (λ made. AreTimes count versions.now made.items) }
{
    let marks = marks_of(alloc, count + 1, versions)?;
    let mut made = summed(alloc, marks.as_slice())?;
    made.truncate(count);
    Ok(made)
}

fn changed(sum: i64, by: i64) -> i64
    requires low { pos 0 ≤ℤ (sum +ℤ pos (2 ^ 62)) }
    requires high { sum ≤ℤ pos (2 ^ 62) }
    requires down { pos 0 ≤ℤ (by +ℤ pos 1) }
    requires up { by ≤ℤ pos 1 }
    ensures { result ≡ sum +ℤ by }
{
    sum + by
}

fn value_at(sums: &[i64], at: usize) -> i64
    requires room { AreWithin (2 ^ 62) sums.now }
    requires there { at < length sums.now }
    ensures is { result ≡ slice_index_or sums.now at (pos 0) }
    ensures low { pos 0 ≤ℤ (result +ℤ pos (2 ^ 62)) }
    ensures high { result ≤ℤ pos (2 ^ 62) }
{
    sums[at]
}

// Changes what is added at a position by one at most.
#[tactic(auto, using(crate::proofs::Marks::set_low, crate::proofs::Marks::set_high))]
fn raise(sums: &mut Vec<i64>, at: usize, by: i64)
    requires there { at < length sums.old.items }
    requires room { AreWithin (2 ^ 62) sums.old.items }
    requires down { pos 0 ≤ℤ (by +ℤ pos 1) }
    requires up { by ≤ℤ pos 1 }
    ensures count { length sums.new.items ≡ length sums.old.items }
    ensures low { (p : ℕ) → p < at → total_to sums.new.items p ≡ total_to sums.old.items p }
    ensures high { (p : ℕ) → at ≤ p → total_to sums.new.items p ≡ total_to sums.old.items p +ℤ by }
    ensures within { (n : ℕ) → AreWithin n sums.old.items → AreWithin (suc n) sums.new.items }
{
    let now = value_at(sums, at);
    sums[at] = changed(now, by);
}

// Marks where a range begins and where it ends.
fn mark(sums: &mut Vec<i64>, span: Span)
    requires below { (span.first ≤ span.past) × (span.past < length sums.old.items) }
    requires room { AreWithin (2 ^ 62 - 2) sums.old.items }
    ensures count { length sums.new.items ≡ length sums.old.items }
    ensures totals { (p : ℕ) → total_to sums.new.items p ≡ total_to sums.old.items p +ℤ pos (covers (span ∷ []) p) }
    ensures within { (n : ℕ) → AreWithin n sums.old.items → AreWithin (n + 2) sums.new.items }
{
    raise(sums, span.first as usize, 1);
    raise(sums, span.past as usize, -1);
}

// Marks all ranges of a version.
fn mark_spans(sums: &mut Vec<i64>, spans: &[Span])
    requires below { All (IsBelow (length sums.old.items)) spans.now }
    requires few { length spans.now ≤ 2 ^ 30 }
    requires room { AreWithin (2 ^ 61) sums.old.items }
    ensures count { length sums.new.items ≡ length sums.old.items }
    ensures totals { (p : ℕ) → total_to sums.new.items p ≡ total_to sums.old.items p +ℤ pos (covers spans.now p) }
    ensures within { (n : ℕ) → AreWithin n sums.old.items → AreWithin (n + 2 * length spans.now) sums.new.items }
{
    for span in spans {
        mark(sums, *span);
    }
}

fn next_sum(sum: i64, by: i64) -> i64
    requires { IsFew (sum +ℤ by) }
    ensures { result ≡ sum +ℤ by }
{
    sum + by
}

// What is added up to each position.
fn summed(alloc: Global, marks: &[i64]) -> Result<Vec<i64>, AllocError>
    requires { (p : ℕ) → p < length marks.now → IsFew (total_to marks.now p) }
    ensures { IfOk result (λ made. AreSums marks.now made.items) }
{
    let mut made = Vec::with_capacity(alloc, marks.len())?;
    let mut sum = 0;
    for mark in marks {
        sum = next_sum(sum, *mark);
        made.push(sum)?;
    }
    Ok(made)
}

// The marks of all versions.
fn marks_of(alloc: Global, count: usize, versions: &[Vec<Span>]) -> Result<Vec<i64>, AllocError>
    requires few { length versions.now ≤ 2 ^ 29 }
    requires short { All IsShort versions.now }
    requires below { All (AreBelow count) versions.now }
    ensures count { IfOk result (λ marks. length marks.items ≡ count) }
    ensures totals { IfOk result (λ marks. (p : ℕ) → total_to marks.items p ≡ pos (times versions.now p)) }
{
    let mut marks = repeated(alloc, count, 0)?;
    for spans in versions {
        mark_spans(&mut marks, spans.as_slice());
    }
    Ok(marks)
}
