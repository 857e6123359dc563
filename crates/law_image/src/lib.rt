//! What an image of the disk stands for: definitions and laws, and no code that runs.
#![tactic(auto)]

mod laws;
mod reading;

pub use laws::{
    a_checkpoint_stands, a_first_dataset_is_stood_for, at_most_one_world,
    nothing_written_stands_for_the_empty_world, one_more_payload, only_live_bytes_matter,
    other_bytes_stand_for_no_world, same_pages_have_the_same_extents, same_payloads_and_live_pages,
    stands_by_its_journal,
};
pub use reading::{extents_are_read, lists_are_read, segments_are_read};
