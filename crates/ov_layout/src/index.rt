//! Which partition each version is in.

ghost use Rattle.std.specs.Prelude.{◌≡◌, ℕ, true, ◌<◌, ◌≤◌, ◌++◌, cond, length, All, flat_map, MatchOption, IfOk, OnOk, HoldsAt};
ghost use Rattle.ov_layout.specs.Parts.{has, AreParts};
ghost use Rattle.ov_layout.specs.Index.{AreEntries, FitsEntry, IsIndex, entries_for, number_at};

use crate::part::Part;
use std::alloc::{AllocError, Global};

/// A version, and the number of the partition that serves it.
#[derive(Clone, Copy)]
pub struct Entry {
    pub vid: u32,
    pub part: u32,
}

/// The place of a version's entry.
pub fn place_in(index: &[Entry], vid: u32) -> Option<usize>
    requires { AreEntries 0 index.now }
    ensures { MatchOption result (number_at vid index.now ≡ 0) (λ at. (at < length index.now) × HoldsAt (λ entry. entry.vid ≡ vid) index.now at) }
{
    let at = index.partition_point(|entry| entry.vid < vid);
    if at < index.len() && index[at].vid == vid {
        Some(at)
    } else {
        None
    }
}

/// The number of the partition that serves a version, 0 where none does.
pub fn number_at(index: &[Entry], vid: u32) -> u32
    requires { AreEntries 0 index.now }
    ensures { result ≡ number_at vid index.now }
{
    match place_in(index, vid) {
        Some(at) => index[at].part,
        None => 0,
    }
}

/// Moves versions to a partition.
pub fn move_to(index: &mut [Entry], versions: &[u32], id: u32)
    requires entries { AreEntries 0 index.old }
    requires placed { (vid : ℕ) → has versions.now vid ≡ true → 1 ≤ number_at vid index.old }
    requires some { 1 ≤ id }
    ensures entries { AreEntries 0 index.new }
    ensures moved { (vid : ℕ) → number_at vid index.new ≡ cond (has versions.now vid) id (number_at vid index.old) }
{
    for vid in versions {
        if let Some(at) = place_in(index, *vid) {
            index[at].part = id;
        }
    }
}

/// The entries of the partitions' versions, one partition after the other.
fn entries_of(alloc: Global, parts: &[Part]) -> Result<Vec<Entry>, AllocError>
    requires { All (λ part. 1 ≤ part.id) parts.now }
    ensures entries { IfOk result (λ entries. entries.items ≡ flat_map entries_for parts.now) }
    ensures fit { IfOk result (λ entries. All FitsEntry entries.items) }
{
    let mut entries = Vec::new(alloc);
    for part in parts {
        add_entries(&mut entries, part)?;
    }
    Ok(entries)
}

/// Adds the entries of a partition's versions.
fn add_entries(entries: &mut Vec<Entry>, part: &Part) -> Result<(), AllocError>
    requires some { 1 ≤ part.now.id }
    requires fit { All FitsEntry entries.old.items }
    ensures added { OnOk result (entries.new.items ≡ entries.old.items ++ entries_for part.now) }
    ensures fit { OnOk result (All FitsEntry entries.new.items) }
{
    let id = part.id;
    let versions = part.versions.as_slice();
    for vid in versions {
        entries.push(Entry {
            vid: *vid,
            part: id,
        })?;
    }
    Ok(())
}

/// The index of these partitions.
pub fn index_of(alloc: Global, parts: &[Part], next: u32) -> Result<Vec<Entry>, AllocError>
    requires { AreParts parts.now next }
    ensures { IfOk result (λ index. IsIndex index.items parts.now) }
{
    let mut index = entries_of(alloc, parts)?;
    index.sort_unstable_by_key(|entry| entry.vid);
    Ok(index)
}
