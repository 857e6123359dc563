//! `run`: from the text of a query or join to its reply.
//!
//! A text is read by its tokens and by the grammar. What the text, the user and the numbers of the store refuse is refused
//! before anything is read. Lists of versions take the place of lineages, by the parents that the store's numbers have. Then the
//! versions that a query names are scanned once, or one side of a join after the other, and it is answered over their rows.
#![tactic(auto)]

mod answering;
mod asking;
mod fitting;
mod joining;
mod laws;
mod listing;
mod permitting;
mod refusing;
mod scanning;
mod sides;

pub use answering::answer_to;
pub use asking::{Read, read_text};
pub use laws::a_scan_shows_the_pairs;
