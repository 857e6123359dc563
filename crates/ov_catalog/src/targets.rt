//! Whether the targets of a plan may be its dataset's.

ghost use Rattle.std.specs.Prelude.{◌≡◌, ℕ, ◌≤◌, ◌<◌, ◌+◌, ◌||◌, ◌&&◌, true, false, nat_le, length, map, slice_index_or, Some, All, IfOk};
ghost use Rattle.std.specs.List.{list_all, list_any};
ghost use Rattle.ov_layout.specs.Parts.{Ascend, has};
ghost use Rattle.ov_catalog.specs.Applying.{rows_at};
ghost use Rattle.ov_catalog.specs.Planning.{are_below, are_targets as are_targets_in, ascend_from as ascend_from_by, is_size as is_size_by, meets as meets_by};
ghost use Rattle.ov_catalog.specs.Ready.{IsSet};
ghost use Rattle.ov_catalog.specs.Running.{AreThere};
ghost use Rattle.ov_catalog.specs.Seen.{AscendWithin, is_kept_by, is_source_by};
ghost use Rattle.ov_catalog.specs.Sets.{part_in, set_in, target_in, version_in};

use crate::cvd::{Cvd, Target, Version};
use crate::extents::is_same;
use crate::finding::{is_among, part_at};
use crate::in_order::ascend_from;
use ov_layout::Part;
use std::alloc::{AllocError, Global};

/// Whether no version of these has more rows than a size.
fn are_within(versions: &[Version], vids: &[u32], size: u32) -> bool
    requires { AreThere (length versions.now) vids.now }
    ensures { result ≡ list_all (λ vid. nat_le (rows_at (map version_in versions.now) vid) size) vids.now }
{
    for vid in vids {
        if versions[*vid as usize - 1].rows > size {
            return false;
        }
    }
    true
}

fn is_size(d: &Cvd, t: &Target) -> bool
    requires { AreThere (length d.now.versions.items) t.now.versions }
    ensures { result ≡ is_size_by (set_in d.now) (target_in t.now) }
{
    are_within(&d.versions, t.versions.as_slice(), t.size) && t.size <= d.records
}

// Whether no place is at a limit or above it.
fn are_all_below(places: &[u32], limit: usize) -> bool
    ensures { result ≡ are_below limit places.now }
{
    places.iter().all(|place| (*place as usize) < limit)
}

// Whether places ascend, below a limit.
fn ascend_below(places: &[u32], limit: usize) -> bool
    ensures { result ≡ (ascend_from_by 0 places.now && are_below limit places.now) }
{
    ascend_from(0, places) && are_all_below(places, limit)
}

// Whether a partition has one of these versions.
fn meets(vids: &[u32], part: &Part) -> bool
    requires { Ascend 0 part.now.versions }
    ensures { result ≡ meets_by vids.now part.now.versions }
{
    let versions = part.versions.as_slice();
    vids.iter().any(|vid| is_among(versions, *vid))
}

/// Whether one of these versions is marked.
pub fn is_seen(vids: &[u32], seen: &[bool]) -> bool
    requires { (vid : ℕ) → has vids.now vid ≡ true → vid < length seen.now }
    ensures { result ≡ list_any (λ vid. slice_index_or seen.now vid false) vids.now }
{
    for vid in vids {
        if seen[*vid as usize] {
            return true;
        }
    }
    false
}

/// Marks these versions too.
pub fn mark(seen: &mut [bool], vids: &[u32])
    requires { (vid : ℕ) → has vids.now vid ≡ true → vid < length seen.old }
    ensures { (vid : ℕ) → slice_index_or seen.new vid false ≡ (slice_index_or seen.old vid false || has vids.now vid) }
{
    for vid in vids {
        seen[*vid as usize] = true;
    }
}

// Whether a target may keep what it says of a partition; the versions of later targets are marked.
fn may_keep(part: &Part, t: &Target, seen: &[bool]) -> bool
    requires ascend { Ascend 0 part.now.versions }
    requires there { (vid : ℕ) → has part.now.versions vid ≡ true → vid < length seen.now }
    ensures { result ≡ is_kept_by (λ vid. slice_index_or seen.now vid false) (target_in t.now) (Some (part_in part.now)) }
{
    let kept = t.kept.as_slice();
    meets(t.versions.as_slice(), part)
        && !is_seen(part.versions.as_slice(), seen)
        && ascend_below(kept, part.segments.as_slice().len())
        && is_same(kept.is_empty(), t.kept_records == 0)
        && t.kept_records <= t.size
}

/// Whether a target's source is one of these partitions, as a Plan may have it; the versions of later targets are marked.
pub fn is_source(parts: &[Part], t: &Target, seen: &[bool]) -> bool
    requires { AscendWithin (length seen.now) parts.now }
    ensures { result ≡ is_source_by (λ vid. slice_index_or seen.now vid false) (map part_in parts.now) (target_in t.now) }
{
    if t.source == 0 {
        return t.kept.as_slice().is_empty() && t.kept_records == 0;
    }
    match part_at(parts, t.source) {
        None => false,
        Some(at) => may_keep(&parts[at], t, seen),
    }
}

fn may_be(d: &Cvd, t: &Target, seen: &[bool]) -> bool
    requires set { IsSet d.now }
    requires there { AreThere (length d.now.versions.items) t.now.versions }
    requires long { length seen.now ≡ length d.now.versions.items + 1 }
    ensures { result ≡ (is_size_by (set_in d.now) (target_in t.now) && is_source_by (λ vid. slice_index_or seen.now vid false) (map part_in d.now.layout.parts) (target_in t.now)) }
{
    is_size(d, t) && is_source(d.layout.parts(), t, seen)
}

// They are gone through from the last one on, so that the versions of later ones are marked.
fn are_targets_by(d: &Cvd, targets: &[Target], seen: &mut [bool]) -> bool
    requires set { IsSet d.now }
    requires there { All (λ t. AreThere (length d.now.versions.items) t.versions) targets.now }
    requires long { length seen.old ≡ length d.now.versions.items + 1 }
    requires none { (vid : ℕ) → slice_index_or seen.old vid false ≡ false }
    ensures { result ≡ are_targets_in (set_in d.now) (map target_in targets.now) }
{
    let mut at = targets.len();
    while 0 < at {
        at -= 1;
        let target = &targets[at];
        if !may_be(d, target, seen) {
            return false;
        }
        mark(seen, target.versions.as_slice());
    }
    true
}

/// Whether these may be the targets of a plan, by their sizes and sources.
pub fn are_targets(alloc: Global, d: &Cvd, targets: &[Target]) -> Result<bool, AllocError>
    requires set { IsSet d.now }
    requires there { All (λ t. AreThere (length d.now.versions.items) t.versions) targets.now }
    ensures { IfOk result (λ are. are ≡ are_targets_in (set_in d.now) (map target_in targets.now)) }
{
    let mut seen = vec![in alloc; false; d.versions.len() + 1]?;
    Ok(are_targets_by(d, targets, &mut seen))
}
