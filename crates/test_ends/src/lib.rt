//! Tests of what a store stands on: extents, the page file, ends that tell nothing or fail, and ends in memory with their stops.
#![tactic(auto)]

#[cfg(test)]
mod memory;
#[cfg(test)]
mod nulls;
#[cfg(test)]
mod pages;
