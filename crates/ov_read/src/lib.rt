//! What a store reads: the lists and the rows of versions of one dataset, and the rids of the partitions that it read for
//! them, out of the pages, each tested against the numbers of the catalog.
//!
//! What agrees with the numbers stands in `specs/Agreement.antt`, what is damaged in `specs/Damages.antt`, and how many
//! bytes are read in `specs/Sizes.antt`. `specs/Found.antt` says which records a version's rows are, and
//! `specs/Picking.antt` where they stand among the records of a scan.
#![tactic(auto)]

mod agreeing;
mod gathering;
mod grouping;
mod held;
mod lists;
mod ordering;
mod partitions;
mod picking;
mod scanning;
mod scans;

pub use held::PartRids;
pub use lists::lists_of;
pub use partitions::rids_together;
pub use scans::{VersionsRead, read_versions, scan_versions};
