//! What the lists of a scan are kept in.

use ov_items::Items;

/// Numbers of versions in order.
pub type Vids = Items<u32>;

/// Positions in a list of records.
pub type Pick = Items<usize>;

/// The positions of several versions' rows.
pub type Picks = Items<Pick>;
