//! Numbers for the new records.

ghost use Rattle.std.specs.Prelude.{◌≡◌, ◌+◌, ◌<◌, ◌≤◌, ◌^◌, ◌↔◌, length, IsTrue, IfOk};
ghost use Rattle.ov_records.specs.Records.{WouldPass};
ghost use Rattle.ov_records.specs.Found.{numbered, new_among};

use std::alloc::{AllocError, Global};

/// The greatest rid.
const GREATEST: u64 = ov_model::MOST_RECORDS;

/// How many rows no parent gave a rid.
pub(crate) fn count_new(found: &[Option<u32>]) -> u32
    requires { length found.now < 2 ^ 32 }
    ensures { result ≡ new_among found.now }
{
    let mut count = 0;
    for one in found {
        if one.is_none() {
            count += 1;
        }
    }
    count
}

/// Whether the last of so many new rids, from `next` on, would pass the greatest one.
pub(crate) fn would_pass(next: u32, fresh: u32) -> bool
    ensures { IsTrue result ↔ WouldPass next fresh }
{
    fresh > 0 && u64::from(next) + u64::from(fresh) - 1 > GREATEST
}

/// The rids that were found, with the next number where none was.
pub(crate) fn number(
    alloc: Global,
    found: &[Option<u32>],
    next: u32,
) -> Result<Vec<u32>, AllocError>
    requires { next + new_among found.now < 2 ^ 32 }
    ensures { IfOk result (λ rids. rids.items ≡ numbered found.now next) }
{
    let mut rids = Vec::with_capacity(alloc, found.len())?;
    let mut free = next;
    for one in found {
        match one {
            Some(rid) => rids.push(*rid)?,
            None => {
                rids.push(free)?;
                free += 1;
            }
        }
    }
    Ok(rids)
}
