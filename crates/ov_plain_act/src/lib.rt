//! Plain slow acts: what a command does over a small World, its moves, its reply and the files after it, and what such a move
//! makes of a World, step by step as the definitions of `ov_model` say it.
//!
//! No shipped crate stands on it. It makes the definitions run, so that whole scripts are computed by them.
#![tactic(auto)]

mod accepted;
mod acting;
mod budget;
mod changes;
mod committing;
mod counts;
mod course;
mod deed;
mod laying;
mod planning;
mod registry;
mod running;
mod session;
mod showing;
mod small;
mod staging;
mod stepping;
mod tables;
mod telling;
mod users;
mod world;

pub use acting::plain_deed;
pub use changes::plain_moved;
pub use course::plain_course;
pub use deed::{Deed, Move};
pub use running::{Item, Run, plain_served};
pub use session::{File, Session};
pub use small::{is_small_command, is_small_world};
pub use world::World;
