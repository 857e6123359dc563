//! Of each version the rows, as positions among the records that were read.

ghost use Rattle.std.specs.Prelude.{All, IfOk};
ghost use Rattle.ov_segment.specs.Segments.{AreRecords};
ghost use Rattle.ov_fetch.specs.Scans.{AllStand};
ghost use Rattle.ov_read.specs.Picking.{ArePicks};

use crate::ordering::pick_of;
use ov_fetch::Pick;
use ov_member::Members;
use ov_segment::Table;
use ov_value::Schema;
use std::alloc::{AllocError, Global};

/// Of each set of rids the positions of its records, in the order of their rows' keys.
pub(crate) fn picks_of(
    alloc: Global,
    schema: &Schema,
    records: &Table,
    members: &[Members],
) -> Result<Vec<Pick>, AllocError>
    requires { AreRecords schema.now 0 records.now.records }
    ensures picks { IfOk result (λ picks. ArePicks schema.now records.now.records members.now picks.items) }
    ensures stand { IfOk result (λ picks. All (AllStand records.now.records) picks.items) }
{
    let mut picks = Vec::with_capacity(alloc, members.len())?;
    for rids in members {
        picks.push(pick_of(alloc, schema, records, rids)?)?;
    }
    Ok(picks)
}
