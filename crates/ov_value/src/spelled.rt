//! What a row's bytes are kept in.

use ov_items::Items;

/// Bytes on the heap.
pub type Bytes = Items<u8>;

/// A row's bytes, and whether they begin with marks that say which values are NULL. The bytes do not say it
/// themselves.
#[derive(Drop)]
pub struct RowBytes {
    pub marked: bool,
    pub bytes: Bytes,
}
