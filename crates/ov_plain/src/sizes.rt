//! How much a dataset's partitions store, and what a checkout of each version reads.

ghost use Rattle.std.specs.Prelude.{◌≡◌, ◌+◌, ◌*◌, ◌^◌, ◌≤◌, length, map, IfOk};
ghost use Rattle.std.specs.List.{sum};
ghost use Rattle.ov_model.specs.World.{held, copied_records, stored, cost};
ghost use Rattle.ov_plain.specs.Small.{ServeFew};

use crate::dataset::{Dataset, Part, Plan};
use crate::plans::held;
use crate::records::joined;
use std::alloc::{AllocError, Global};

/// The records of a partition.
fn count_of(alloc: Global, part: &Part) -> Result<u128, AllocError>
    ensures is { IfOk result (λ count. count ≡ length (held part.now)) }
    ensures few { IfOk result (λ count. count ≤ 2 ^ 64) }
{
    let all = held(alloc, part)?;
    Ok(all.len() as u128)
}

/// The sum of these partitions' records.
fn stored_in(alloc: Global, parts: &[Part]) -> Result<u128, AllocError>
    requires { length parts.now ≤ 65535 }
    ensures is { IfOk result (λ all. all ≡ sum (map (λ part. length (held part)) parts.now)) }
    ensures few { IfOk result (λ all. all ≤ length parts.now * 2 ^ 64) }
{
    match parts {
        [] => Ok(0),
        [part, rest @ ..] => {
            let own = count_of(alloc, part)?;
            let others = stored_in(alloc, rest)?;
            Ok(own + others)
        }
    }
}

/// The records copied so far for the current target of a plan.
fn copied_records(alloc: Global, plan: &Option<Plan>) -> Result<u128, AllocError>
    ensures is { IfOk result (λ count. count ≡ copied_records plan.now) }
    ensures few { IfOk result (λ count. count ≤ 2 ^ 64) }
{
    match plan {
        None => Ok(0),
        Some(plan) => {
            let all = joined(alloc, plan.copied.as_slice())?;
            Ok(all.len() as u128)
        }
    }
}

/// The records that at most 65,535 partitions store, with those copied so far for a target.
pub fn stored(alloc: Global, set: &Dataset) -> Result<u128, AllocError>
    requires { length set.now.parts ≤ 65535 }
    ensures { IfOk result (λ all. all ≡ stored set.now) }
{
    Ok(stored_in(alloc, set.parts.as_slice())? + copied_records(alloc, &set.plan)?)
}

/// A number of versions times one of records.
fn read_by(versions: usize, records: u128) -> u128
    requires few_versions { versions ≤ 65535 }
    requires few_records { records ≤ 2 ^ 64 }
    ensures is { result ≡ versions * records }
    ensures few { result ≤ 2 ^ 80 }
{
    versions as u128 * records
}

/// The sum over these partitions of their versions times their records.
fn cost_of(alloc: Global, parts: &[Part]) -> Result<u128, AllocError>
    requires few { length parts.now ≤ 65535 }
    requires serve { ServeFew parts.now }
    ensures is { IfOk result (λ all. all ≡ sum (map (λ part. length part.versions * length (held part)) parts.now)) }
    ensures few { IfOk result (λ all. all ≤ length parts.now * 2 ^ 80) }
{
    match parts {
        [] => Ok(0),
        [part, rest @ ..] => {
            let own = read_by(part.versions.len(), count_of(alloc, part)?);
            let others = cost_of(alloc, rest)?;
            Ok(own + others)
        }
    }
}

/// What checkouts of all versions read together.
pub fn cost(alloc: Global, set: &Dataset) -> Result<u128, AllocError>
    requires few { length set.now.parts ≤ 65535 }
    requires serve { ServeFew set.now.parts }
    ensures { IfOk result (λ all. all ≡ cost set.now) }
{
    cost_of(alloc, set.parts.as_slice())
}
