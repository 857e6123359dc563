//! The plan that a Whole says, and its threshold.

ghost use Rattle.std.specs.Prelude.{◌≡◌, ◌<◌, ◌+◌, ◌||◌, ◌&&◌, ℕ, Some, true, false, not, nat_le, nat_lt, length, map, slice_index_or, IfOk};
ghost use Rattle.std.specs.List.{flat_map, list_all, list_any};
ghost use Rattle.ov_layout.specs.Parts.{has};
ghost use Rattle.ov_catalog.specs.Drafts.{draft_in};
ghost use Rattle.ov_catalog.specs.Events.{current};
ghost use Rattle.ov_catalog.specs.Running.{is_in_target};
ghost use Rattle.ov_catalog.specs.Seen.{AscendWithin, is_target_by, may_leave_by, serves_only_by};
ghost use Rattle.ov_catalog.specs.Sets.{part_in, plan_in, plan_numbers, target_in};
ghost use Rattle.ov_catalog.specs.Wholes.{are_parts, are_sources as are_sources_in, are_targets as are_targets_in, are_there as are_there_by, is_plan as is_plan_by, is_threshold_for};

use crate::cvd::{Plan, Target};
use crate::draft::Draft;
use crate::finding::part_at;
use crate::in_order::are_there;
use crate::plans::is_threshold;
use crate::targets::{is_seen, is_source, mark};
use ov_layout::Part;
use std::alloc::{AllocError, Global};

/// Whether it is none, where no plan runs, or a threshold.
pub fn has_threshold(d: &Draft) -> bool
    ensures { result ≡ is_threshold_for d.now.p d.now.q (plan_in d.now.plan) }
{
    is_threshold(d.p, d.q) || d.p == 0 && d.q == 0 && d.plan.is_none()
}

// Whether copied and kept records are no more than a target has.
fn are_few(copied: u32, kept: u32, size: u32) -> bool
    ensures { result ≡ nat_le (copied + kept) size }
{
    u64::from(copied) + u64::from(kept) <= u64::from(size)
}

// Whether the current target is there, and no more records came to it than it has.
fn is_current(plan: &Plan) -> bool
    ensures { result ≡ (nat_lt plan.now.at (length (map target_in plan.now.targets)) && nat_le (plan.now.copied + (current (plan_numbers plan.now)).kept_records) (current (plan_numbers plan.now)).size) }
{
    match plan.targets.as_slice().get(plan.at as usize) {
        None => false,
        Some(t) => are_few(plan.copied, t.kept_records, t.size),
    }
}

// Whether versions are there, and none is marked.
fn are_free(count: usize, versions: &[u32], seen: &[bool]) -> bool
    requires { length seen.now ≡ count + 1 }
    ensures { result ≡ (are_there_by count versions.now && not (list_any (λ vid. slice_index_or seen.now vid false) versions.now)) }
{
    are_there(count, versions) && !is_seen(versions, seen)
}

// Whether a target has versions that are there; those of later ones are marked.
fn is_target(d: &Draft, t: &Target, seen: &[bool]) -> bool
    requires { length seen.now ≡ length d.now.versions.items + 1 }
    ensures { result ≡ is_target_by (λ vid. slice_index_or seen.now vid false) (length d.now.versions.items) d.now.records (target_in t.now) }
{
    let versions = t.versions.as_slice();
    !versions.is_empty() && are_free(d.versions.len(), versions, seen) && t.size <= d.records
}

// They are gone through from the last one on, so that the versions of later ones are marked.
fn are_targets_by(d: &Draft, targets: &[Target], seen: &mut [bool]) -> bool
    requires long { length seen.old ≡ length d.now.versions.items + 1 }
    requires none { (vid : ℕ) → slice_index_or seen.old vid false ≡ false }
    ensures { result ≡ are_targets_in (length d.now.versions.items) d.now.records (map target_in targets.now) }
{
    let mut at = targets.len();
    while 0 < at {
        at -= 1;
        let target = &targets[at];
        if !is_target(d, target, seen) {
            return false;
        }
        mark(seen, target.versions.as_slice());
    }
    true
}

fn are_targets(alloc: Global, d: &Draft, targets: &[Target]) -> Result<bool, AllocError>
    ensures { IfOk result (λ are. are ≡ are_targets_in (length d.now.versions.items) d.now.records (map target_in targets.now)) }
{
    let mut seen = vec![in alloc; false; d.versions.len() + 1]?;
    Ok(are_targets_by(d, targets, &mut seen))
}

// Marks the versions of these targets.
fn mark_all(seen: &mut [bool], targets: &[Target])
    requires { (vid : ℕ) → is_in_target targets.now vid ≡ true → vid < length seen.old }
    ensures { (vid : ℕ) → slice_index_or seen.new vid false ≡ (slice_index_or seen.old vid false || is_in_target targets.now vid) }
{
    for target in targets {
        mark(seen, target.versions.as_slice());
    }
}

// Whether all of these versions are marked.
fn are_marked(vids: &[u32], seen: &[bool]) -> bool
    requires { (vid : ℕ) → has vids.now vid ≡ true → vid < length seen.now }
    ensures { result ≡ list_all (λ vid. slice_index_or seen.now vid false) vids.now }
{
    for vid in vids {
        if !seen[*vid as usize] {
            return false;
        }
    }
    true
}

// Whether the partition with a number has marked versions only.
fn serves_only(parts: &[Part], id: u32, left: &[bool]) -> bool
    requires { AscendWithin (length left.now) parts.now }
    ensures { result ≡ list_all (serves_only_by (λ vid. slice_index_or left.now vid false) id) (map part_in parts.now) }
{
    match part_at(parts, id) {
        None => true,
        Some(at) => are_marked(parts[at].versions.as_slice(), left),
    }
}

// Whether a target's source fits and goes with those that are left; the versions of later ones are marked, and those of all.
fn may_leave(parts: &[Part], t: &Target, later: &[bool], left: &[bool]) -> bool
    requires parts { AscendWithin (length left.now) parts.now }
    requires long { length later.now ≡ length left.now }
    ensures { result ≡ may_leave_by (λ vid. slice_index_or later.now vid false) (λ vid. slice_index_or left.now vid false) (map part_in parts.now) (target_in t.now) }
{
    is_source(parts, t, later) && serves_only(parts, t.source, left)
}

// They are gone through from the last one on, too.
fn are_sources_by(parts: &[Part], targets: &[Target], later: &mut [bool], left: &[bool]) -> bool
    requires parts { AscendWithin (length left.now) parts.now }
    requires long { length later.old ≡ length left.now }
    requires none { (vid : ℕ) → slice_index_or later.old vid false ≡ false }
    requires within { (vid : ℕ) → is_in_target targets.now vid ≡ true → vid < length left.now }
    requires marks { (vid : ℕ) → slice_index_or left.now vid false ≡ is_in_target targets.now vid }
    ensures { result ≡ are_sources_in (map part_in parts.now) (flat_map (λ t. t.versions) (map target_in targets.now)) (map target_in targets.now) }
{
    let mut at = targets.len();
    while 0 < at {
        at -= 1;
        let target = &targets[at];
        if !may_leave(parts, target, later, left) {
            return false;
        }
        mark(later, target.versions.as_slice());
    }
    true
}

// No version is marked before, in either list.
fn may_all_leave(d: &Draft, targets: &[Target], later: &mut [bool], left: &mut [bool]) -> bool
    requires parts { are_parts (draft_in d.now) ≡ true }
    requires within { (vid : ℕ) → is_in_target targets.now vid ≡ true → vid < length d.now.versions.items + 1 }
    requires later { (length later.old ≡ length d.now.versions.items + 1) × ((vid : ℕ) → slice_index_or later.old vid false ≡ false) }
    requires left { (length left.old ≡ length d.now.versions.items + 1) × ((vid : ℕ) → slice_index_or left.old vid false ≡ false) }
    ensures { result ≡ are_sources_in (map part_in d.now.parts.items) (flat_map (λ t. t.versions) (map target_in targets.now)) (map target_in targets.now) }
{
    mark_all(left, targets);
    are_sources_by(&d.parts, targets, later, left)
}

// Of targets that weren't flipped yet.
fn are_sources(alloc: Global, d: &Draft, targets: &[Target]) -> Result<bool, AllocError>
    requires parts { are_parts (draft_in d.now) ≡ true }
    requires within { (vid : ℕ) → is_in_target targets.now vid ≡ true → vid < length d.now.versions.items + 1 }
    ensures { IfOk result (λ are. are ≡ are_sources_in (map part_in d.now.parts.items) (flat_map (λ t. t.versions) (map target_in targets.now)) (map target_in targets.now)) }
{
    let mut left = vec![in alloc; false; d.versions.len() + 1]?;
    let mut later = vec![in alloc; false; d.versions.len() + 1]?;
    Ok(may_all_leave(d, targets, &mut later, &mut left))
}

fn may_run(alloc: Global, d: &Draft, plan: &Plan) -> Result<bool, AllocError>
    requires { are_parts (draft_in d.now) ≡ true }
    ensures { IfOk result (λ may. may ≡ is_plan_by (draft_in d.now) (plan_in (Some plan.now))) }
{
    let targets = plan.targets.as_slice();
    if is_current(plan) && are_targets(alloc, d, targets)? {
        are_sources(alloc, d, &targets[plan.at as usize..])
    } else {
        Ok(false)
    }
}

/// Whether its plan, if it has one, may run.
pub fn is_plan(alloc: Global, d: &Draft) -> Result<bool, AllocError>
    requires { are_parts (draft_in d.now) ≡ true }
    ensures { IfOk result (λ is. is ≡ is_plan_by (draft_in d.now) (plan_in d.now.plan)) }
{
    match &d.plan {
        None => Ok(true),
        Some(plan) => may_run(alloc, d, plan),
    }
}
