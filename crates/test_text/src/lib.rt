//! The tests of texts that no script shows: spans of tokens, what lines ask for, replies of stores that are full, queries of lineages, relatives of
//! versions, and who may ask of which datasets (`ov_lex`, `ov_cmd`, `ov_reply`, `ov_parse`, `ov_lineage`, `ov_users`).
//!
//! In a crate of their own they are proved without proving those crates once more. What scripts show is held by the examples, by
//! `scripts/limits` and, of the program's words, by `scripts/words`.
#![tactic(auto)]

#[cfg(test)]
mod lineages;
#[cfg(test)]
mod lines;
#[cfg(test)]
mod queries;
#[cfg(test)]
mod replies;
#[cfg(test)]
mod tokens;
#[cfg(test)]
mod users;
