//! What the words ask for, or why they are not accepted.

use ov_value::Txt;

/// What the words ask for.
#[derive(Drop)]
pub struct Options {
    /// The folder that holds the store.
    pub folder: Txt,
    /// How many migration steps may follow each command: at most 1,000.
    pub steps: u32,
}

/// Why the words ask for nothing.
#[derive(Clone, Copy, Debug, PartialEq, Eq)]
pub enum WordsErr {
    /// They have none of the five forms.
    Usage,
    /// Memory ran out.
    Memory,
}
