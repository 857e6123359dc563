//! What a checkout gives, why a commit is refused, and what `ls` tells.

ghost use Rattle.std.specs.Prelude.{◌≡◌, ◌^◌, ◌<◌, ◌≤◌, length, IfOk};
ghost use Rattle.ov_model.specs.Act.{rows_listed, merge_of, commit_refusal, records_refusal, ls_line};
ghost use Rattle.ov_model.specs.Records.{order_of};

use crate::pairing::rows_at;
use crate::refusals::vids_refusal;
use ov_model::{CvdLine, Refusal, Seq};
use ov_plain::{Cvd, Dataset, Version, copies_of, merged, onto, order_of};
use ov_value::Row;
use std::alloc::{AllocError, Global};

/// The rows of each of the listed versions.
fn rows_listed(
    alloc: Global,
    versions: &[Version],
    vids: &[u64],
) -> Result<Seq<Seq<Row>>, AllocError>
    ensures { IfOk result (λ lists. lists ≡ rows_listed versions.now vids.now) }
{
    match vids {
        [] => Ok(Seq::new(alloc)),
        [vid, rest @ ..] => {
            let later = rows_listed(alloc, versions, rest)?;
            onto(alloc, copies_of(alloc, rows_at(versions, *vid))?, later)
        }
    }
}

/// The rows that a checkout of the listed versions gives.
pub fn merge_of(alloc: Global, cvd: &Cvd, vids: &[u64]) -> Result<Seq<Row>, AllocError>
    ensures { IfOk result (λ rows. rows ≡ merge_of cvd.now vids.now) }
{
    let lists = rows_listed(alloc, cvd.versions.as_slice(), vids)?;
    merged(alloc, &cvd.schema, lists.as_slice())
}

/// Why a dataset takes no version with these parents.
pub fn commit_refusal(
    alloc: Global,
    set: &Dataset,
    parents: &[u64],
) -> Result<Option<Refusal>, AllocError>
    ensures { IfOk result (λ refusal. refusal ≡ commit_refusal set.now parents.now) }
{
    let count = set.cvd.versions.len();
    match vids_refusal(alloc, count as u64, &[], parents)? {
        Some(refusal) => Ok(Some(refusal)),
        None => {
            if 65_535 <= count {
                let cvd = set.cvd.name.copy(alloc)?;
                Ok(Some(Refusal::TooManyVersions { cvd }))
            } else {
                Ok(None)
            }
        }
    }
}

/// Why a dataset takes no version with so many new records: it would have more than 2^31.
pub fn records_refusal(
    alloc: Global,
    set: &Dataset,
    fresh: u32,
) -> Result<Option<Refusal>, AllocError>
    requires { length set.now.cvd.versions ≤ 65535 }
    ensures { IfOk result (λ refusal. refusal ≡ records_refusal set.now fresh) }
{
    let all = order_of(alloc, set.cvd.versions.as_slice())?;
    if 2_147_483_648 < all.len() as u128 + fresh as u128 {
        let cvd = set.cvd.name.copy(alloc)?;
        return Ok(Some(Refusal::TooManyRecords { cvd }));
    }
    Ok(None)
}

/// What `ls` tells of a dataset.
pub fn ls_line(alloc: Global, set: &Dataset) -> Result<CvdLine, AllocError>
    requires versions { length set.now.cvd.versions ≤ 65535 }
    requires records { length (order_of set.now.cvd.versions) < 2 ^ 32 }
    ensures { IfOk result (λ line. line ≡ ls_line set.now) }
{
    let all = order_of(alloc, set.cvd.versions.as_slice())?;
    Ok(CvdLine {
        name: set.cvd.name.copy(alloc)?,
        versions: set.cvd.versions.len() as u32,
        records: all.len() as u32,
    })
}
