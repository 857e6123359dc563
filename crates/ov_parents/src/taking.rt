// The records of versions out of a scan.

ghost use Rattle.std.specs.Prelude.{◌≡◌, [], ◌∷◌, All, IfOk};
ghost use Rattle.std.specs.List.{AllZip};
ghost use Rattle.ov_fetch.specs.Scans.{AllStand};
ghost use Rattle.ov_parents.specs.Taking.{StandAt};

use ov_fetch::{Pick, Scan};
use ov_segment::RecordTable;
use std::alloc::{AllocError, Global};

/// The records at each pick of the scan. Those of a single one keep the scan's bytes; else each has copies of its records.
pub(crate) fn tables_of(alloc: Global, scan: Scan) -> Result<Vec<RecordTable>, AllocError>
    requires { All (AllStand scan.records) scan.picks }
    ensures { IfOk result (λ tables. AllZip (StandAt scan.records) scan.picks tables.items) }
{
    let Scan { records, picks, .. } = scan;
    let picks = picks.as_slice();
    if picks.len() == 1 {
        let only = records.at(picks[0].as_slice())?;
        return alone(alloc, only);
    }
    copies_of(alloc, &records, picks)
}

fn alone(alloc: Global, records: RecordTable) -> Result<Vec<RecordTable>, AllocError>
    ensures { IfOk result (λ tables. tables.items ≡ records ∷ []) }
{
    let mut tables = Vec::with_capacity(alloc, 1)?;
    tables.push(records)?;
    Ok(tables)
}

fn copies_of(
    alloc: Global,
    records: &RecordTable,
    picks: &[Pick],
) -> Result<Vec<RecordTable>, AllocError>
    requires { All (AllStand records.now) picks.now }
    ensures { IfOk result (λ tables. AllZip (StandAt records.now) picks.now tables.items) }
{
    let mut tables = Vec::with_capacity(alloc, picks.len())?;
    for pick in picks {
        tables.push(records.copies_at(alloc, pick.as_slice())?)?;
    }
    Ok(tables)
}
