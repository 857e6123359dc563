//! Tests of the graph of versions, of placement, and of the splits of large trees.
#![tactic(auto)]

#[cfg(test)]
mod graphs;
#[cfg(test)]
mod places;
#[cfg(test)]
mod splits;
