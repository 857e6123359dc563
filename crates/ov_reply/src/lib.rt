//! The texts of the replies: what is printed of a command.
//!
//! A reply is one or more lines, each ended by a line feed; a checkout's is the CSV text. The texts stand in `ov_model`'s
//! definitions, and the code writes each line from its pieces into one growing buffer.
#![tactic(auto)]

mod listed;
mod pieces;
mod refusal;
mod writing;

pub use ov_model::{
    BudgetLine, CvdLine, LogLine, PartLine, PlanLine, Refusal, Reply, Seq, TableLine,
};
pub use writing::{is_error, reply};
