//! The words after the program's name: `<folder> [--steps N]`.
//!
//! `clap` proposes a folder and a text for the number of steps. What it proposes is compared with the words, so that they are
//! accepted exactly where they have one of the five forms of `specs/Words`: `clap` alone would take more.
#![tactic(auto)]

mod answer;
mod compared;
mod laws;
mod proposed;
mod reading;

pub use answer::{Options, WordsErr};
pub use laws::five_forms;
pub use reading::options;
