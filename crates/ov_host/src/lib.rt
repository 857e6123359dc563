//! What a store stands on: a host with two areas and an output, the source of a script, and a stage of named files.
//!
//! Each trait has one ghost member that holds all that contracts see of an end. An end may tell its bytes, as one in
//! memory does, or not, as the real ones: clauses on bytes hold where it tells them, and the same code runs over both.
//! What a stop at any moment may leave of a host is `left_since` of `specs/Tape.antt`, over the moments that led to its
//! disk.
#![tactic(auto)]

mod area;
mod host;
mod laws;
mod null;
mod source;
mod stage;

pub use area::{Area, Extent, Failed, Found, PAGE_BYTES, PAGES, RUN_LIMIT};
pub use host::Host;
pub use laws::{clock_never_goes_back, stops_in_a_call_include_its_failures};
pub use null::{NullHost, NullSource, NullStage};
pub use source::Source;
pub use stage::Stage;
