//! The extents of a dataset that goes.

ghost use Rattle.std.specs.Prelude.{◌≡◌, ◌≤◌, ◌+◌, ◌++◌, length, map, vec_capacity, flat_map, filter, find, sum_by, None, All, IfSome, OnOk};
ghost use Rattle.ov_layout.specs.Parts.{Ascend};
ghost use Rattle.ov_catalog.specs.Answers.{Answers};
ghost use Rattle.ov_catalog.specs.Applying.{of_live};
ghost use Rattle.ov_catalog.specs.Events.{numbered};
ghost use Rattle.ov_catalog.specs.Extents.{of_plan, of_set};
ghost use Rattle.ov_catalog.specs.Ready.{IsSet};
ghost use Rattle.ov_catalog.specs.Sets.{numbers_of, plan_in, set_in, sets_in, stays};

use crate::cvd::{Cvd, Plan, Version};
use crate::error::ApplyErr;
use crate::field::Field;
use crate::finding::place_of;
use ov_host::Extent;
use ov_layout::Part;

/// How many extents a dataset has; `None` where a usize can't count them.
fn extents_in(d: &Cvd) -> Option<usize>
    requires { IsSet d.now }
    ensures { IfSome result (λ count. count ≡ length (of_set (set_in d.now))) }
{
    let segments = segments_in(d.layout.parts())?;
    let lists = segments.checked_add(d.versions.len())?;
    let count = lists.checked_add(copied_in(&d.plan))?;
    Some(count)
}

fn copied_in(plan: &Option<Plan>) -> usize
    ensures { result ≡ length (of_plan (plan_in plan.now)) }
{
    match plan {
        None => 0,
        Some(plan) => plan.segments.len(),
    }
}

/// How many segments partitions have; `None` where a usize can't count them.
fn segments_in(parts: &[Part]) -> Option<usize>
    ensures { IfSome result (λ count. count ≡ sum_by (λ part. length part.segments) parts.now) }
{
    let mut count = 0usize;
    for part in parts {
        count = count.checked_add(part.segments.as_slice().len())?;
    }
    Some(count)
}

// A dataset's extents are put behind others.
fn give_up(d: &Cvd, freed: &mut Vec<Extent>)
    requires set { IsSet d.now }
    requires room { length freed.old.items + length (of_set (set_in d.now)) ≤ vec_capacity freed.old }
    ensures { freed.new.items ≡ freed.old.items ++ of_set (set_in d.now) }
{
    give_lists(&d.versions, freed);
    give_segments(d.layout.parts(), freed);
    give_copied(&d.plan, freed);
}

fn give_copied(plan: &Option<Plan>, freed: &mut Vec<Extent>)
    requires { length freed.old.items + length (of_plan (plan_in plan.now)) ≤ vec_capacity freed.old }
    ensures { freed.new.items ≡ freed.old.items ++ of_plan (plan_in plan.now) }
{
    if let Some(plan) = plan {
        // There is room, so this takes no memory.
        let _ = freed.extend_from_slice(&plan.segments);
    }
}

fn give_lists(versions: &[Version], freed: &mut Vec<Extent>)
    requires { length freed.old.items + length versions.now ≤ vec_capacity freed.old }
    ensures freed { freed.new.items ≡ freed.old.items ++ map (λ v. v.list) versions.now }
    ensures capacity { vec_capacity freed.old ≤ vec_capacity freed.new }
{
    for version in versions {
        // There is room, so this takes no memory.
        let _ = freed.push(version.list);
    }
}

fn give_segments(parts: &[Part], freed: &mut Vec<Extent>)
    requires { length freed.old.items + length (flat_map (λ part. part.segments) parts.now) ≤ vec_capacity freed.old }
    ensures freed { freed.new.items ≡ freed.old.items ++ flat_map (λ part. part.segments) parts.now }
    ensures capacity { vec_capacity freed.old ≤ vec_capacity freed.new }
{
    for part in parts {
        // There is room, so this takes no memory.
        let _ = freed.extend_from_slice(part.segments.as_slice());
    }
}

/// Makes room behind `freed` for the extents of the dataset with this number, if it is live.
pub fn room_for_drop(sets: &[Cvd], cvd: u32, freed: &mut Vec<Extent>) -> Result<(), ApplyErr>
    requires ascend { Ascend 0 (numbers_of sets.now) }
    requires sound { All IsSet sets.now }
    ensures answer { Answers result (of_live (λ d. None) (find (numbered cvd) (sets_in sets.now))) }
    ensures freed { freed.new.items ≡ freed.old.items }
    ensures room { OnOk result (length freed.new.items + length (flat_map of_set (filter (numbered cvd) (sets_in sets.now))) ≤ vec_capacity freed.new) }
{
    let Some(at) = place_of(sets, cvd) else {
        return Err(ApplyErr::NotNext {
            field: Field::Number,
        });
    };
    let Some(count) = extents_in(&sets[at]) else {
        return Err(ApplyErr::Memory);
    };
    freed.reserve(count)?;
    Ok(())
}

/// The dataset with this number goes, and its extents are put behind others. Takes no memory.
pub fn drop_from(sets: &mut Vec<Cvd>, cvd: u32, freed: &mut Vec<Extent>)
    requires ascend { Ascend 0 (numbers_of sets.old.items) }
    requires sound { All IsSet sets.old.items }
    requires room { length freed.old.items + length (flat_map of_set (filter (numbered cvd) (sets_in sets.old.items))) ≤ vec_capacity freed.old }
    ensures left { sets.new.items ≡ filter (stays cvd) sets.old.items }
    ensures freed { freed.new.items ≡ freed.old.items ++ flat_map of_set (filter (numbered cvd) (sets_in sets.old.items)) }
{
    give_up_in(sets, cvd, freed);
    sets.retain(|d| d.number != cvd);
}

fn give_up_in(sets: &[Cvd], cvd: u32, freed: &mut Vec<Extent>)
    requires ascend { Ascend 0 (numbers_of sets.now) }
    requires sound { All IsSet sets.now }
    requires room { length freed.old.items + length (flat_map of_set (filter (numbered cvd) (sets_in sets.now))) ≤ vec_capacity freed.old }
    ensures { freed.new.items ≡ freed.old.items ++ flat_map of_set (filter (numbered cvd) (sets_in sets.now)) }
{
    if let Some(at) = place_of(sets, cvd) {
        give_up(&sets[at], freed);
    }
}
