//! The lines of a script: what each one asks for, or why it is refused.
//!
//! A line is one command, a comment, or a refusal that says which word is wrong. The definitions of `ov_model` say which; a
//! table of the commands with their words and options drives the reading, and a command is added by adding its row.
#![tactic(auto)]

mod columns;
mod form;
mod line;
mod line_err;
mod make;
mod next;
mod numbers;
mod options;
mod order;
mod read;
mod split;
mod table;
mod values;
mod word;
mod words;

pub use line::read_line;
pub use line_err::LineErr;
pub use numbers::vids_of;
