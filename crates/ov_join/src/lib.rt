//! Joins of two versions: whether a join fits the schemas of its sides, and its answer over a scan of each.
//!
//! A pair of rows is read as one row of all left and then all right columns, which are named `LEFT.x` and `RIGHT.x`: over these rows
//! a join is a query (`wide`). So `typed_join` is `join_kinds` of `ov_model`, which reads that query, and `run_join` answers that
//! query over the pairs of rows that match.
#![tactic(auto)]

mod fitting;
mod join_err;
mod matching;
mod run;
mod side;
mod typing;
mod wide;
mod wide_cond;

pub use fitting::TypedJoin;
pub use join_err::JoinErr;
pub use run::run_join;
pub use typing::typed_join;
