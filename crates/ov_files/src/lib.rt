//! Named files of the stage, and the rows of one.
//!
//! `rows_of_file` reads a file piece by piece, up to the size that a file may have and one byte more, and hands it to
//! `ov_csv`. What is wrong with a file is a refusal; an error is the stage's, or want of memory.
#![tactic(auto)]

mod errors;
mod reading;
mod rows;

pub use errors::FileErr;
pub use rows::{FileRows, rows_of_file};
