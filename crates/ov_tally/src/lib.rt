//! Sums, counts and the first rows over ranges of positions, a step for each range and for each position.
//! Many versions share the rows of one table, and each has those at some ranges of its positions, its [`Span`]s. [`totals`] and
//! [`sum_over`] add up what stands there. [`times_of`] counts the versions that have each position, so that what is added up
//! over all versions is added up over the positions once ([`counted_sum`], [`counted_places`]). [`first_in`] gives the first
//! rows of an order, below a bound that [`bound_for`] makes of the counts. What is added up, and what ranks stand for, is the
//! caller's.
#![tactic(auto)]

mod bound;
mod first;
mod laws;
mod repeated;
mod span;
mod sums;
mod times;

pub use bound::bound_for;
pub use first::{Pair, first_in, first_of, low_in};
pub use laws::{counted_places, counted_sum, each_once, low_count, ranked_rows, times_are_places};
pub use span::Span;
pub use sums::{sum_over, totals};
pub use times::times_of;
