//! A session: each line of a script is read, done over the store, and answered by one reply. Migration steps come behind it.
//!
//! What a command means is `deed` of `ov_model`, and what is left by a stop while it is served stands in
//! `law_runs`'s `Serves`: the World before one of its moves or after it, and of the replies a prefix.
#![tactic(auto)]

mod budgets;
mod changing;
mod checkpoints;
mod errors;
mod generating;
mod lines;
mod planning;
mod reading;
mod registering;
mod serving;
mod staging;
mod stepping;

pub use errors::EndErr;
pub use serving::{Served, serve};
