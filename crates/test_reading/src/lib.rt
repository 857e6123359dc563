//! The tests of calls of reading that the program doesn't make (`ov_fetch`).
//!
//! In a crate of their own they are proved without proving those crates once more.
#![tactic(auto)]

#[cfg(test)]
mod calls;
