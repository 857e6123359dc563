//! Rows from the text of a file, and the text of a file from rows.
//!
//! `read_csv` reads a whole file and names its first fault; `CsvText` writes a header and rows, a line at
//! a time, `write_csv` those of a scan, and `write_answer` the rows of an answer, which have no header. The `csv`
//! crate says what records bytes are, and what a record is written as; what a field spells in a column stands in the
//! definitions of `ov_model`. Both sides are proved to meet them.
#![tactic(auto)]

mod answer_line;
mod answering;
mod csv_err;
mod csv_text;
mod field_line;
mod fields;
mod header_line;
mod line;
mod lines;
mod names;
mod numbers;
mod plain;
mod read_lines;
mod reading;
mod records;
mod room;
mod row_line;
mod scans;
mod texts;

pub use answering::write_answer;
pub use csv_err::CsvErr;
pub use csv_text::{CsvText, write_rows};
pub use reading::read_csv;
pub use scans::{cells_at, write_csv};
