// What a partition's segments hold.

use ov_items::Items;
use ov_member::Members;

/// The rids of each segment of a partition, in their order.
pub type PartRids = Items<Members>;
