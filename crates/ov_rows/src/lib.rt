//! From the rows of a file, in any order, to those of a version.
//!
//! A version has at most 1,000,000 rows, no two of one key, and in a store of format 1 none with a NULL; they stand in
//! key order. What is refused, and what first, stands in `specs/Refusing.antt`.
#![tactic(auto)]

mod file_rows;
mod formats;
mod keyed;
mod refused;
mod repeats;
mod rows_err;
mod versions;

pub use refused::rows_are_refused_as_in_the_model;
pub use rows_err::RowsErr;
pub use versions::version_rows;
