//! Tests of the storage budget: a worked table with its choices, tables beside sums over sets, and the times of large ones.
#![tactic(auto)]

#[cfg(test)]
mod datasets;
#[cfg(test)]
mod large;
#[cfg(test)]
mod tables;
