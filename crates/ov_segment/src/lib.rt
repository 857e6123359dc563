//! Segments: records, which are rows with record ids, as bytes.
//!
//! A segment is a sequence of records. A record is its record id (rid, u32), the length of its row's bytes
//! (u32, whose highest bit says that they begin with marks) and these bytes; all numbers have the high byte
//! first. Rids strictly ascend and are from 1 to 2^31, and no row is over 65,536 bytes.
//!
//! A segment is read whole, or by a reader that is fed its bytes in pieces and holds at most 131,072 of them.
//! Contracts see such a reader as the bytes that it holds, the last rid that it gave, and whether it has
//! found bytes that are no segment's.
#![tactic(auto)]

mod at;
mod draft;
mod held;
mod keeping;
mod laws;
mod next;
mod numbered;
mod place;
mod reader;
mod reading;
mod record_table;
mod records;
mod row_ref;
mod row_table;
mod table;
mod writing;

pub use draft::RowDraft;
pub use keeping::Stop;
pub use laws::{any_cuts, bad_stays, one_answer};
pub use next::Next;
pub use numbered::Record;
pub use reader::SegmentReader;
pub use reading::read_segment;
pub use record_table::RecordTable;
pub use records::Records;
pub use row_ref::RowRef;
pub use row_table::RowTable;
pub use table::Table;
pub use writing::{append_record, segment_bytes};
