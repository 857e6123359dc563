//! A flip, step by step.

ghost use Rattle.std.specs.Prelude.{◌≡◌, ℕ, true, false, ◌+◌, ◌*◌, ◌<◌, ◌≤◌, ◌^◌, ◌++◌, ◌∷◌, [], not, filter, map, length, vec_capacity, All};
ghost use Rattle.ov_layout.specs.Parts.{has, Ascend, cost_of, stored_of};
ghost use Rattle.ov_layout.specs.Index.{AreEntries, number_at, numbers_of};
ghost use Rattle.ov_layout.specs.Flips.{AreBelow, leaving, is_empty, chosen, others, segments_at};
ghost use Rattle.ov_layout.specs.Leaving.{IsOwned, VersionsAscend, gone_from, gone_of, is_led};

use crate::change::leave_part;
use crate::index::{Entry, number_at};
use crate::part::Part;
use crate::search::{is_among, place_of};
use ov_host::Extent;

/// Whether a version is the first of a list.
pub fn is_first(vids: &[u32], vid: u32) -> bool
    ensures { result ≡ is_led (vid ∷ []) vids.now }
{
    match vids.first() {
        None => false,
        Some(first) => vid == *first,
    }
}

/// What versions that left their partitions leave behind them: by how much the cost falls, and whether a partition is empty.
#[derive(Clone, Copy)]
pub struct Gone {
    pub saved: u64,
    pub emptied: bool,
}

/// Versions leave their partitions. Each partition is gone through once, at the first of its versions that leave it.
pub fn leave(parts: &mut [Part], index: &[Entry], versions: &[u32]) -> Gone
    requires ascend { Ascend 0 versions.now }
    requires entries { AreEntries 0 index.now }
    requires numbers { Ascend 0 (numbers_of parts.old) }
    requires versions { All VersionsAscend parts.old }
    requires owned { All (IsOwned (λ vid. number_at vid index.now)) parts.old }
    requires placed { (vid : ℕ) → has versions.now vid ≡ true → has (numbers_of parts.old) (number_at vid index.now) ≡ true }
    requires cost { cost_of parts.old < 2 ^ 64 }
    requires some { All (λ part. is_empty part ≡ false) parts.old }
    ensures left { parts.new ≡ map (leaving versions.now) parts.old }
    ensures saved { result.saved + cost_of parts.new ≡ cost_of parts.old }
    ensures emptied { result.emptied ≡ false → All (λ part. is_empty part ≡ false) parts.new }
{
    let mut saved = 0;
    let mut emptied = false;
    for vid in versions {
        let at = place_of(parts, number_at(index, *vid));
        let part = &mut parts[at];
        if is_among(part.versions.as_slice(), *vid as usize) {
            saved += leave_part(part, versions);
            emptied |= part.versions.as_slice().is_empty();
        }
    }
    Gone { saved, emptied }
}

/// Partitions without versions go, and give their segments up, but for those that a flip keeps of its source.
/// Answers how many records they kept. Where none was emptied, none is looked at.
pub fn give_up(
    parts: &mut Vec<Part>,
    emptied: bool,
    source: u32,
    kept: &[u32],
    freed: &mut Vec<Extent>,
) -> u64
    requires emptied { emptied ≡ false → All (λ part. is_empty part ≡ false) parts.old.items }
    requires ascend { Ascend 0 kept.now }
    requires room { length freed.old.items + length (gone_from source kept.now parts.old.items) ≤ vec_capacity freed.old }
    requires stored { stored_of parts.old.items < 2 ^ 64 }
    ensures left { parts.new.items ≡ filter (λ part. not (is_empty part)) parts.old.items }
    ensures freed { freed.new.items ≡ freed.old.items ++ gone_from source kept.now parts.old.items }
    ensures gone { result + stored_of parts.new.items ≡ stored_of parts.old.items }
    ensures capacity { vec_capacity parts.old ≤ vec_capacity parts.new }
{
    if !emptied {
        return 0;
    }
    let mut gone = 0;
    for part in parts.iter() {
        if part.versions.as_slice().is_empty() {
            gone += u64::from(part.records);
            give_segments(part, source, kept, freed);
        }
    }
    parts.retain(|part| !part.versions.as_slice().is_empty());
    gone
}

/// Gives a partition's segments up, but for those that a flip keeps of its source.
fn give_segments(part: &Part, source: u32, kept: &[u32], freed: &mut Vec<Extent>)
    requires ascend { Ascend 0 kept.now }
    requires room { length freed.old.items + length (gone_of source kept.now part.now) ≤ vec_capacity freed.old }
    ensures freed { freed.new.items ≡ freed.old.items ++ gone_of source kept.now part.now }
    ensures capacity { vec_capacity freed.old ≤ vec_capacity freed.new }
{
    // There is room, so this takes no memory.
    if part.id == source {
        give_others(part.segments.as_slice(), kept, freed);
    } else {
        let _ = freed.extend_from_slice(part.segments.as_slice());
    }
}

/// Gives extents up, but for those at these places.
fn give_others(extents: &[Extent], kept: &[u32], freed: &mut Vec<Extent>)
    requires ascend { Ascend 0 kept.now }
    requires room { length freed.old.items + length (others 0 kept.now extents.now) ≤ vec_capacity freed.old }
    ensures freed { freed.new.items ≡ freed.old.items ++ others 0 kept.now extents.now }
    ensures capacity { vec_capacity freed.old ≤ vec_capacity freed.new }
{
    for (place, extent) in extents.iter().enumerate() {
        if !is_among(kept, place) {
            // There is room, so this takes no memory.
            let _ = freed.push(*extent);
        }
    }
}

/// The kept segments of a source, and then the copied ones. Takes no memory where `copied` has room for them.
pub fn with_kept(parts: &[Part], source: u32, kept: &[u32], copied: &mut Vec<Extent>)
    requires numbers { Ascend 0 (numbers_of parts.now) }
    requires within { AreBelow (length (segments_at source parts.now)) kept.now }
    requires room { length copied.old.items + length kept.now ≤ vec_capacity copied.old }
    ensures { copied.new.items ≡ chosen kept.now (segments_at source parts.now) ++ copied.old.items }
{
    if !kept.is_empty() {
        let at = place_of(parts, source);
        put_chosen(parts[at].segments.as_slice(), kept, copied);
        copied.rotate_right(kept.len());
    }
}

/// Puts the extents at these places behind others.
fn put_chosen(extents: &[Extent], places: &[u32], list: &mut Vec<Extent>)
    requires within { AreBelow (length extents.now) places.now }
    requires room { length list.old.items + length places.now ≤ vec_capacity list.old }
    ensures { list.new.items ≡ list.old.items ++ chosen places.now extents.now }
{
    for place in places {
        // There is room, so this takes no memory.
        let _ = list.push(extents[*place as usize]);
    }
}
