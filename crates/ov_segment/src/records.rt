//! A list of records.

use crate::numbered::Record;
use ov_items::Items;

/// Records in order.
pub type Records = Items<Record>;
