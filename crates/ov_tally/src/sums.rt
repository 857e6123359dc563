//! Sums over ranges, by running totals: the sum over a range is the difference of two of them.

ghost use Rattle.std.specs.Prelude.{◌≡◌, ◌≤◌, ◌-◌, ◌^◌, List, ℤ, pos, ◌+ℤ◌, ◌-ℤ◌, ◌≤ℤ◌, ◌<◌, IfOk, length, slice_index_or};
ghost use Rattle.std.specs.List.{All};
ghost use Rattle.ov_tally.specs.Running.{IsSmall, running, sum_at};
ghost use Rattle.ov_tally.specs.Spans.{IsBelow, places_in, run};

use crate::span::Span;
use std::alloc::{AllocError, Global};

#[tactic(auto, using(crate::proofs::Ranges::told_more))]
/// The sum of the values before each position, and of all of them at the end: one more than there are values, 16 bytes each. It
/// takes one step for each value and no other memory.
pub fn totals(alloc: Global, values: &[i64]) -> Result<Vec<i128>, AllocError>
    requires few { length values.now ≤ 2 ^ 31 }
    ensures totals { IfOk result (λ totals. totals.items ≡ running (pos 0) values.now) }
    ensures small { IfOk result (λ totals. All IsSmall totals.items) }
{
    let mut totals = Vec::with_capacity(alloc, values.len() + 1)?;
    let mut sum: i128 = 0;
    totals.push(sum)?;
    for value in values {
        sum = plus(sum, *value);
        totals.push(sum)?;
    }
    Ok(totals)
}

#[tactic(auto, using(crate::proofs::Ranges::spans_more))]
/// The sum of the values at all positions of some ranges, as often as these have them, by the totals of the values: two look-ups
/// for each range, in whatever order they stand. It takes no memory.
pub fn sum_over(totals: &[i128], spans: &[Span]) -> i128
    requires small { All IsSmall totals.now }
    requires few { length spans.now ≤ 2 ^ 31 }
    requires below { All (IsBelow (length totals.now)) spans.now }
    ensures { (values : List ℤ) → totals.now ≡ running (pos 0) values → result ≡ sum_at values (places_in spans.now) }
{
    let mut sum: i128 = 0;
    for span in spans {
        sum = with_range(sum, totals, *span);
    }
    sum
}

pub(crate) fn plus(sum: i128, value: i64) -> i128
    requires low { pos 0 ≤ℤ (sum +ℤ pos (2 ^ 95)) }
    requires high { sum ≤ℤ pos (2 ^ 95) }
    ensures is { result ≡ sum +ℤ value }
    ensures low { sum ≤ℤ (result +ℤ pos (2 ^ 63)) }
    ensures high { result ≤ℤ (sum +ℤ pos (2 ^ 63)) }
{
    sum + i128::from(value)
}

#[tactic(auto, using(crate::proofs::Ranges::range_is))]
// A sum and that over one range.
fn with_range(sum: i128, totals: &[i128], span: Span) -> i128
    requires low { pos 0 ≤ℤ (sum +ℤ pos (2 ^ 126)) }
    requires high { sum ≤ℤ pos (2 ^ 126) }
    requires small { All IsSmall totals.now }
    requires below { IsBelow (length totals.now) span }
    ensures is { (values : List ℤ) → totals.now ≡ running (pos 0) values → result ≡ sum +ℤ sum_at values (run span.first (span.past - span.first)) }
    ensures low { sum ≤ℤ (result +ℤ pos (2 ^ 95)) }
    ensures high { result ≤ℤ (sum +ℤ pos (2 ^ 95)) }
{
    let past = total_at(totals, span.past);
    let first = total_at(totals, span.first);
    with_difference(sum, past, first)
}

fn with_difference(sum: i128, past: i128, first: i128) -> i128
    requires low { pos 0 ≤ℤ (sum +ℤ pos (2 ^ 126)) }
    requires high { sum ≤ℤ pos (2 ^ 126) }
    requires past_low { pos 0 ≤ℤ (past +ℤ pos (2 ^ 94)) }
    requires past_high { past ≤ℤ pos (2 ^ 94) }
    requires first_low { pos 0 ≤ℤ (first +ℤ pos (2 ^ 94)) }
    requires first_high { first ≤ℤ pos (2 ^ 94) }
    ensures is { result ≡ sum +ℤ (past -ℤ first) }
    ensures low { sum ≤ℤ (result +ℤ pos (2 ^ 95)) }
    ensures high { result ≤ℤ (sum +ℤ pos (2 ^ 95)) }
{
    sum + (past - first)
}

pub(crate) fn total_at(totals: &[i128], at: u32) -> i128
    requires small { All IsSmall totals.now }
    requires there { at < length totals.now }
    ensures is { result ≡ slice_index_or totals.now at (pos 0) }
    ensures low { pos 0 ≤ℤ (result +ℤ pos (2 ^ 94)) }
    ensures high { result ≤ℤ pos (2 ^ 94) }
{
    totals[at as usize]
}
