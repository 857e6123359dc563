//! The partitions that a Whole says, and where they and its versions are.

ghost use Rattle.std.specs.Prelude.{◌≡◌, ◌==◌, ◌&&◌, ◌+◌, ◌-◌, ◌^◌, ◌<◌, ℕ, true, false, not, length, map, nat_lt, slice_index_or, IfOk};
ghost use Rattle.std.specs.List.{list_all};
ghost use Rattle.ov_layout.specs.Index.{numbers_of};
ghost use Rattle.ov_layout.specs.Parts.{Ascend, is_placed};
ghost use Rattle.ov_model.specs.Records.{counted};
ghost use Rattle.ov_catalog.specs.Drafts.{draft_in};
ghost use Rattle.ov_catalog.specs.Events.{is_one};
ghost use Rattle.ov_catalog.specs.Planning.{ascend_from as ascend_from_by};
ghost use Rattle.ov_catalog.specs.Seen.{IsOnce};
ghost use Rattle.ov_catalog.specs.Sets.{part_in, plan_in};
ghost use Rattle.ov_catalog.specs.Testing.{is_extent as is_extent_by, is_list as is_list_by};
ghost use Rattle.ov_catalog.specs.Wholes.{are_there as are_there_by, are_copied as are_copied_by, are_parts as are_parts_by, are_placed as are_placed_by, are_segments as are_segments_by, is_part as is_part_by, parts_serving, targets_left};

use crate::cvd::{Plan, Version};
use crate::draft::Draft;
use crate::extents::{is_extent, is_list, is_same};
use crate::finding::is_among;
use crate::in_order::{are_in_order, are_there, ascend_from};
use crate::targets::{is_seen, mark};
use ov_host::Extent;
use ov_layout::Part;
use std::alloc::{AllocError, Global};

/// How many versions a dataset may have.
const MOST_VERSIONS: usize = ov_model::MOST_VERSIONS as usize;

// Whether the partitions' numbers are below the next one.
fn are_below(parts: &[Part], next: u32) -> bool
    ensures { result ≡ list_all (λ part. nat_lt part.id next) parts.now }
{
    parts.iter().all(|part| part.id < next)
}

// Whether each of these versions is among those that a partition holds.
fn are_held(holds: &[u32], versions: &[u32]) -> bool
    requires { Ascend 0 holds.now }
    ensures { result ≡ list_all (is_one holds.now) versions.now }
{
    versions.iter().all(|vid| is_among(holds, *vid))
}

// Whether a partition holds versions that are there, and these among them.
fn holds_all(count: usize, holds: &[u32], versions: &[u32]) -> bool
    ensures { result ≡ (are_there_by count holds.now && list_all (is_one holds.now) versions.now) }
{
    are_there(count, holds) && are_held(holds, versions)
}

fn is_part(count: usize, records: u32, part: &Part) -> bool
    ensures { result ≡ is_part_by count records (part_in part.now) }
{
    let versions = part.versions.as_slice();
    !versions.is_empty()
        && ascend_from(1, versions)
        && holds_all(count, part.holds.as_slice(), versions)
        && part.records <= records
}

fn all_are_parts(count: usize, records: u32, parts: &[Part]) -> bool
    ensures { result ≡ list_all (λ part. is_part_by count records (part_in part)) parts.now }
{
    parts.iter().all(|part| is_part(count, records, part))
}

// Whether no version is in two partitions; marks those that are in one.
fn mark_once(seen: &mut [bool], parts: &[Part]) -> bool
    requires within { (vid : ℕ) → is_placed parts.now vid ≡ true → vid < length seen.old }
    requires none { (vid : ℕ) → slice_index_or seen.old vid false ≡ false }
    ensures { IsOnce result seen.new parts.now }
{
    for part in parts {
        let versions = part.versions.as_slice();
        if is_seen(versions, seen) {
            return false;
        }
        mark(seen, versions);
    }
    true
}

fn are_all(seen: &[bool]) -> bool
    ensures { result ≡ list_all (λ is. is) seen.now }
{
    seen.iter().all(|is| *is)
}

// Whether each version is in one partition; none is marked before.
fn are_in_one_by(d: &Draft, seen: &mut [bool]) -> bool
    requires parts { list_all (λ part. is_part_by (length d.now.versions.items) d.now.records (part_in part)) d.now.parts.items ≡ true }
    requires long { length seen.old ≡ length d.now.versions.items + 1 }
    requires none { (vid : ℕ) → slice_index_or seen.old vid false ≡ false }
    ensures { result ≡ list_all (λ vid. parts_serving (map part_in d.now.parts.items) vid == 1) (counted 1 (length d.now.versions.items)) }
{
    mark_once(seen, &d.parts) && are_all(&seen[1..])
}

fn are_in_one(alloc: Global, d: &Draft) -> Result<bool, AllocError>
    requires { list_all (λ part. is_part_by (length d.now.versions.items) d.now.records (part_in part)) d.now.parts.items ≡ true }
    ensures { IfOk result (λ are. are ≡ list_all (λ vid. parts_serving (map part_in d.now.parts.items) vid == 1) (counted 1 (length d.now.versions.items))) }
{
    let mut seen = vec![in alloc; false; d.versions.len() + 1]?;
    Ok(are_in_one_by(d, &mut seen))
}

// How many targets weren't flipped yet.
fn count_left(plan: &Option<Plan>) -> usize
    ensures { result ≡ length (targets_left (plan_in plan.now)) }
{
    match plan {
        None => 0,
        Some(plan) => plan.targets.len().saturating_sub(plan.at as usize),
    }
}

// Whether numbers are left for the partitions of targets to come and of later versions.
fn are_left(d: &Draft) -> bool
    ensures { result ≡ nat_lt (d.now.next + length (targets_left (plan_in d.now.plan)) + (65535 - length d.now.versions.items)) (2 ^ 32) }
{
    let later = MOST_VERSIONS.saturating_sub(d.versions.len()) as u64;
    u64::from(d.next)
        .saturating_add(count_left(&d.plan) as u64)
        .saturating_add(later)
        < 1 << 32
}

// What is asked of the partitions but that each version is in one.
fn may_be_parts(d: &Draft) -> bool
    ensures { result ≡ ((ascend_from_by 1 (numbers_of d.now.parts.items) && list_all (λ part. nat_lt part.id d.now.next) d.now.parts.items) && (list_all (λ part. is_part_by (length d.now.versions.items) d.now.records (part_in part)) d.now.parts.items && nat_lt (d.now.next + length (targets_left (plan_in d.now.plan)) + (65535 - length d.now.versions.items)) (2 ^ 32))) }
{
    are_in_order(&d.parts)
        && are_below(&d.parts, d.next)
        && all_are_parts(d.versions.len(), d.records, &d.parts)
        && are_left(d)
}

/// Whether these may be a dataset's partitions.
pub fn are_parts(alloc: Global, d: &Draft) -> Result<bool, AllocError>
    ensures { IfOk result (λ are. are ≡ are_parts_by (draft_in d.now)) }
{
    if may_be_parts(d) {
        are_in_one(alloc, d)
    } else {
        Ok(false)
    }
}

// Whether each of these extents is one that isn't empty.
fn are_filled(extents: &[Extent]) -> bool
    ensures { result ≡ list_all (λ e. not (e.bytes == 0) && is_extent_by e) extents.now }
{
    extents
        .iter()
        .all(|extent| extent.bytes != 0 && is_extent(*extent))
}

// Whether extents may be the segments of so many records.
fn are_segments(records: u32, segments: &[Extent]) -> bool
    ensures { result ≡ are_segments_by records segments.now }
{
    are_filled(segments) && is_same(segments.is_empty(), records == 0)
}

fn are_copied(plan: &Option<Plan>) -> bool
    ensures { result ≡ are_copied_by (plan_in plan.now) }
{
    match plan {
        None => true,
        Some(plan) => are_segments(plan.copied, &plan.segments),
    }
}

fn are_lists(versions: &[Version]) -> bool
    ensures { result ≡ list_all (λ v. is_list_by v.rows v.list) versions.now }
{
    versions
        .iter()
        .all(|version| is_list(version.rows, version.list))
}

fn have_segments(parts: &[Part]) -> bool
    ensures { result ≡ list_all (λ part. are_segments_by part.records part.segments) parts.now }
{
    parts.iter().all(|part| are_segments(part.records, part.segments.as_slice()))
}

// Whether its partitions and copied records may be at these extents.
fn are_stored(d: &Draft) -> bool
    ensures { result ≡ (list_all (λ part. are_segments_by part.records part.segments) d.now.parts.items && are_copied_by (plan_in d.now.plan)) }
{
    have_segments(&d.parts) && are_copied(&d.plan)
}

/// Whether its versions, partitions and copied records may be at these extents.
pub fn are_placed(d: &Draft) -> bool
    ensures { result ≡ are_placed_by (draft_in d.now) }
{
    are_lists(&d.versions) && are_stored(d)
}
