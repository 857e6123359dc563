//! The lines of a script, taken from its source by pieces.
//!
//! Of a line of over 65,536 bytes one byte more is kept, so that it is known as too long; memory is that of a piece and a line.
#![tactic(auto)]

mod reader;

pub use reader::{KEPT, ReadErr, Reader};
