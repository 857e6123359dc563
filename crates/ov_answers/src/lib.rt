//! Plain slow answers: what a query answers over a small dataset, step by step as the definitions of `ov_model` say it, the kinds
//! of its columns or its first refusal, what a checkout gives, and why versions, rows and commits are refused.
//!
//! No shipped crate stands on it. It makes the definitions run, so that worked examples are computed by it.
#![tactic(auto)]

mod acts;
mod answering;
mod groups;
mod kinds_err;
mod lineage;
mod order;
mod pairing;
mod refusals;
mod sums;
mod terms;
mod truth;
mod truths;
mod typing;

pub use acts::{commit_refusal, ls_line, merge_of, records_refusal};
pub use answering::answer;
pub use kinds_err::KindsErr;
pub use lineage::relatives;
pub use pairing::{Pair, pairs, rows_at};
pub use refusals::{format_one, rows_refusal, vids_refusal};
pub use typing::kinds;
