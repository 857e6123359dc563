//! The core of a store: its journal, its catalog and its reserved pages, and the changes that keep them one.
//!
//! A change is one event: its runs are written to free pages, the journal takes its record, and the catalog applies it. A
//! checkpoint puts a snapshot of the catalog in the place of the records. What a stop in either leaves stands for the World before
//! it or the World after it, as `specs/AtWorld.antt` says.
#![tactic(auto)]

mod brought;
mod change;
mod checkpoints;
mod errors;
mod laws;
mod long;
mod parts;
mod runs;
mod writing;

pub use brought::Brought;
pub use errors::ChangeErr;
pub use laws::runs_that_are_there_are_found;
pub use parts::Core;
