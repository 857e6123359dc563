//! The journal of a store: its records, in one of two halves of an area.
//!
//! A record counts where its gate, one byte, is A5; so a record stands or doesn't, in one write of one byte. A checkpoint
//! writes a snapshot into the other half and opens that half's slot in the same way. What the bytes of an area are is
//! `AreaIs` of `specs/Journal.antt`; what a stop in a call leaves is `IsOldOrNew` of `specs/Held.antt`.
#![tactic(auto)]

mod ahead;
mod errors;
mod framed;
mod header;
mod journal;
mod laws;
mod making;
mod opening;
mod payloads;
mod reading;
mod snapshots;
mod staging;
mod writing;

pub use errors::{AppendErr, JournalErr};
pub use framed::{Framed, can_snapshot, frame, snapshot};
pub use journal::{JOURNAL_BYTES, Journal};
pub use laws::{
    a_journal_ends_at_its_first_closed_gate, bytes_are_one_thing, only_the_live_half_matters,
};
pub use payloads::{Payload, Payloads};
pub use reading::FRONT_BYTES;
pub use snapshots::Snapshot;
