//! A checkout: from a scan of versions to the text of a file.
#![tactic(auto)]

mod pieces;
mod text;

pub use text::{Checkout, checkout_of};
