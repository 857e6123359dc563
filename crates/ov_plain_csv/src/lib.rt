//! Plain slow reading and writing of a CSV file: its records, byte by byte through the states of the `csv` crate's definition, the
//! rows that they are or the first refusal, and the text of rows, each with the definition of `ov_model` as its contract.
//!
//! No shipped crate stands on it. It makes the definitions run.
#![tactic(auto)]

mod csv_records;
mod csv_rows;
mod csv_state;
mod csv_text;
mod fields;

pub use csv_records::records_in;
pub use csv_rows::{rows_of, table_of};
pub use csv_text::text_of;
