//! Tests of rows, segments, schemas and events where no command reaches them: rows and segments that are read whole, a reader fed in
//! pieces of any size, added columns, and bytes that are an event, though it doesn't follow yet, or none.
#![tactic(auto)]

#[cfg(test)]
mod events;
#[cfg(test)]
mod rows;
#[cfg(test)]
mod segments;
