//! A record: a row with its record id.

use ov_value::Row;

/// A row with its record id, from 1 to 2^31.
#[derive(Drop)]
pub struct Record {
    pub rid: u32,
    pub row: Row,
}
