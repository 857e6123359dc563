//! What a list's bytes are kept in.

use ov_items::Items;

/// The bytes of a list.
pub type ListBytes = Items<u8>;
