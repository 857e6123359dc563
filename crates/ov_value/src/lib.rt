//! Values, rows and schemas, and the bytes of a row.
//!
//! A value is an int, a text, a flag or NULL. A row is a list of values, one a column. A schema names its
//! columns with their kinds and says which of them are the key, by which rows are ordered.
//!
//! Contracts see a `Txt` as its bytes, a `Row` as the list of its values and a `Schema` as its columns and
//! the positions of its key columns. The definitions stand in `specs/`.
#![tactic(auto)]

mod cell;
mod cells;
mod column;
mod kept;
mod laws;
mod marked;
mod names;
mod plain;
mod plan;
mod reading;
mod row;
mod schema;
mod schema_err;
mod short;
mod sorting;
mod spelled;
mod test;
mod txt;
mod utf8;
mod value;
mod walk;
mod writing;

pub use cell::CellRef;
pub use cells::Cells;
pub use column::{Column, Kind};
pub use laws::{key_order, null_at_the_end, one_row};
pub use names::{is_column_name, is_name};
pub use reading::{read_row, read_row_slice};
pub use row::Row;
pub use schema::Schema;
pub use schema_err::SchemaErr;
pub use sorting::sort_by_key;
pub use spelled::{Bytes, RowBytes};
pub use test::spells_row;
pub use txt::Txt;
pub use utf8::is_text;
pub use value::Value;
pub use writing::{LONGEST_ROW, append_row, is_marked, row_bytes, row_len};
