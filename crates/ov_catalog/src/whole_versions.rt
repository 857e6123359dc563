//! Whether the versions that a Whole says may be a dataset's.

ghost use Rattle.std.specs.Prelude.{◌≡◌, ◌≤◌, ◌&&◌, None, Some, if◌then◌else◌, length, map, nat_le, take, drop, IfOk};
ghost use Rattle.std.specs.List.{list_all, sum_by};
ghost use Rattle.ov_catalog.specs.Drafts.{draft_in};
ghost use Rattle.ov_catalog.specs.Sets.{version_in};
ghost use Rattle.ov_catalog.specs.Wholes.{are_records as are_records_by, are_rows, are_versions as are_versions_by, parents_follow as parents_follow_by};

use crate::cvd::Version;
use crate::draft::Draft;
use crate::parents::may_have;
use ov_model::{MESSAGE_BYTES, MOST_RECORDS, MOST_ROWS, MOST_VERSIONS};
use std::alloc::{AllocError, Global};

// Whether the parents of each version but the first are as a Commit's behind those before it.
fn parents_follow(alloc: Global, versions: &[Version]) -> Result<bool, AllocError>
    requires { 1 ≤ length versions.now }
    ensures { IfOk result (λ follow. follow ≡ parents_follow_by (map version_in (take 1 versions.now)) (map version_in (drop 1 versions.now))) }
{
    for at in 1..versions.len() {
        let version = &versions[at];
        let parents = version.parents.as_slice();
        if !may_have(alloc, &versions[..at], version.rows, parents)? {
            return Ok(false);
        }
    }
    Ok(true)
}

/// Whether there is a first version, which has no parents, and each later one has parents among those before it.
pub fn are_versions(alloc: Global, versions: &[Version]) -> Result<bool, AllocError>
    ensures { IfOk result (λ are. are ≡ are_versions_by (map version_in versions.now)) }
{
    if versions.is_empty()
        || versions.len() > MOST_VERSIONS as usize
        || !versions[0].parents.as_slice().is_empty()
    {
        return Ok(false);
    }
    parents_follow(alloc, versions)
}

/// Whether no message is too long.
pub fn are_messages(versions: &[Version]) -> bool
    ensures { result ≡ list_all (λ v. nat_le (length v.message) 1024) (map version_in versions.now) }
{
    for version in versions {
        if version.message.len() > MESSAGE_BYTES {
            return false;
        }
    }
    true
}

// Whether a version may have so many rows and new records; up to it there are so many records.
fn has_rows(version: &Version, records: u64) -> bool
    ensures { result ≡ (nat_le version.now.rows 1000000 && (nat_le version.now.rows records && nat_le version.now.fresh version.now.rows)) }
{
    version.rows <= MOST_ROWS && u64::from(version.rows) <= records && version.fresh <= version.rows
}

// How many records the versions have together, if they may have their rows.
fn records_of(versions: &[Version]) -> Option<u64>
    requires { length versions.now ≤ 65535 }
    ensures { result ≡ (if are_rows 0 (map version_in versions.now) then Some (sum_by (λ v. v.fresh) (map version_in versions.now)) else None) }
{
    let mut done = 0u64;
    for version in versions {
        done += u64::from(version.fresh);
        if !has_rows(version, done) {
            return None;
        }
    }
    Some(done)
}

/// Whether the numbers of rows and of new records of the versions may be, and these are the dataset's records.
pub fn are_records(d: &Draft) -> bool
    requires { length d.now.versions.items ≤ 65535 }
    ensures { result ≡ are_records_by (draft_in d.now) }
{
    match records_of(&d.versions) {
        None => false,
        Some(records) => { records == u64::from(d.records) && u64::from(d.records) <= MOST_RECORDS }
    }
}
