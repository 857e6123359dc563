//! A flip: the current target of a plan becomes a partition.

ghost use Rattle.std.specs.Prelude.{◌≡◌, ◌≤◌, ◌<◌, ◌+◌, ◌++◌, length, find, filter, flat_map, vec_capacity, Some, None, All, IfOk, OnOk};
ghost use Rattle.ov_layout.specs.Parts.{Ascend};
ghost use Rattle.ov_catalog.specs.Answers.{Answers};
ghost use Rattle.ov_catalog.specs.Applying.{of_live};
ghost use Rattle.ov_catalog.specs.Events.{change, flipped, next_target as next_target_of, numbered};
ghost use Rattle.ov_catalog.specs.Extents.{given_by};
ghost use Rattle.ov_catalog.specs.Planning.{flip_off, of_running};
ghost use Rattle.ov_catalog.specs.Ready.{IsSet, MayFlip, MayFlipIn};
ghost use Rattle.ov_catalog.specs.Running.{HasCurrent, IsNextOf, current};
ghost use Rattle.ov_catalog.specs.Sources.{FlipFits};
ghost use Rattle.ov_catalog.specs.Sets.{numbers_of, plan_in, plan_numbers, set_in, sets_in};

use crate::cvd::{Cvd, Plan};
use crate::error::ApplyErr;
use crate::field::Field;
use crate::finding::place_of;
use crate::refusing::unless;
use ov_host::Extent;
use std::alloc::{AllocError, Global};
use std::mem;

fn check_flip(plan: &Plan) -> Result<(), ApplyErr>
    requires { HasCurrent plan.now }
    ensures { Answers result (flip_off (plan_numbers plan.now)) }
{
    let target = &plan.targets.as_slice()[plan.at as usize];
    let held = u64::from(target.kept_records) + u64::from(plan.copied);
    unless(held == u64::from(target.size), Field::Count)
}

// Makes room for the kept segments behind the copied ones, and gives the current target's versions.
fn room_in_plan(alloc: Global, plan: &mut Plan) -> Result<Vec<u32>, AllocError>
    requires { HasCurrent plan.old }
    ensures same { plan_numbers plan.new ≡ plan_numbers plan.old }
    ensures targets { plan.new.targets ≡ plan.old.targets }
    ensures versions { IfOk result (λ versions. versions.items ≡ (current plan.old).versions) }
    ensures room { OnOk result (length plan.new.segments.items + length (current plan.old).kept ≤ vec_capacity plan.new.segments) }
{
    let target = &plan.targets.as_slice()[plan.at as usize];
    let versions = Vec::from_slice(alloc, target.versions.as_slice())?;
    let kept = target.kept.len();
    plan.segments.reserve(kept)?;
    Ok(versions)
}

// Makes room for the flip of the current target, if it may come, and gives its versions.
fn room_in(alloc: Global, d: &mut Cvd, freed: &mut Vec<Extent>) -> Result<Vec<u32>, ApplyErr>
    requires { IsSet d.old }
    ensures answer { Answers result (of_running flip_off (set_in d.old).plan) }
    ensures same { set_in d.new ≡ set_in d.old }
    ensures set { IsSet d.new }
    ensures room { IfOk result (λ versions. MayFlip versions.items d.new.layout.room d.new.plan) }
    ensures freed { freed.new.items ≡ freed.old.items }
    ensures behind { OnOk result (length freed.new.items + length (given_by (set_in d.old).plan (set_in d.old).parts) ≤ vec_capacity freed.new) }
{
    let Some(plan) = &mut d.plan else {
        return Err(ApplyErr::NotNext { field: Field::Plan });
    };
    check_flip(plan)?;
    let versions = room_in_plan(alloc, plan)?;
    d.layout.reserve(versions.len() as u32, None)?;
    let Some(count) = d.layout.segments_led(&versions) else {
        return Err(ApplyErr::Memory);
    };
    freed.reserve(count)?;
    Ok(versions)
}

/// Makes room for the flip of the current target of the dataset with this number, if it may come, and gives the target's versions.
pub fn room_for_flip(
    alloc: Global,
    sets: &mut [Cvd],
    cvd: u32,
    freed: &mut Vec<Extent>,
) -> Result<Vec<u32>, ApplyErr>
    requires ascend { Ascend 0 (numbers_of sets.old) }
    requires sound { All IsSet sets.old }
    ensures answer { Answers result (of_live (λ d. of_running flip_off d.plan) (find (numbered cvd) (sets_in sets.old))) }
    ensures same { sets_in sets.new ≡ sets_in sets.old }
    ensures sound { All IsSet sets.new }
    ensures room { IfOk result (λ versions. All (MayFlipIn cvd versions.items) sets.new) }
    ensures freed { freed.new.items ≡ freed.old.items }
    ensures behind { OnOk result (length freed.new.items + length (flat_map (λ d. given_by d.plan d.parts) (filter (numbered cvd) (sets_in sets.old))) ≤ vec_capacity freed.new) }
{
    let Some(at) = place_of(sets, cvd) else {
        return Err(ApplyErr::NotNext {
            field: Field::Number,
        });
    };
    room_in(alloc, &mut sets[at], freed)
}

// The plan at its next target; after the last one there is none.
fn next_target(alloc: Global, plan: Plan) -> Option<Plan>
    requires current { HasCurrent plan }
    requires few { length plan.targets ≤ 65535 }
    ensures next { plan_in result ≡ next_target_of (plan_numbers plan) }
    ensures targets { IsNextOf plan result }
{
    let Plan {
        p,
        q,
        targets,
        at,
        copied: _,
        segments: _,
    } = plan;
    if at as usize + 1 < targets.len() {
        Some(Plan {
            p,
            q,
            targets,
            at: at + 1,
            copied: 0,
            segments: Vec::new(alloc),
        })
    } else {
        None
    }
}

// The current target becomes a partition. What the partitions without versions keep is put behind others.
fn flip(alloc: Global, d: &mut Cvd, versions: Vec<u32>, freed: &mut Vec<Extent>)
    requires set { IsSet d.old }
    requires room { MayFlip versions.items d.old.layout.room d.old.plan }
    requires applies { of_running flip_off (set_in d.old).plan ≡ None }
    requires behind { length freed.old.items + length (given_by (set_in d.old).plan (set_in d.old).parts) ≤ vec_capacity freed.old }
    ensures flipped { set_in d.new ≡ flipped (set_in d.old) }
    ensures set { IsSet d.new }
    ensures freed { freed.new.items ≡ freed.old.items ++ given_by (set_in d.old).plan (set_in d.old).parts }
{
    if let Some(mut plan) = d.plan.take() {
        let copied = mem::replace(&mut plan.segments, Vec::new(alloc));
        let target = &plan.targets.as_slice()[plan.at as usize];
        d.layout.flip(
            versions,
            target.kept_records + plan.copied,
            target.source,
            target.kept.as_slice(),
            copied,
            freed,
        );
        let _ = d.layout.parts();
        d.plan = next_target(alloc, plan);
    }
}

/// The current target of the dataset with this number becomes a partition, and the extents that are given up are put behind
/// others. Takes no memory.
pub fn flip_in(
    alloc: Global,
    sets: &mut [Cvd],
    cvd: u32,
    versions: Vec<u32>,
    freed: &mut Vec<Extent>,
)
    requires ascend { Ascend 0 (numbers_of sets.old) }
    requires sound { All IsSet sets.old }
    requires room { All (MayFlipIn cvd versions.items) sets.old }
    requires applies { of_live (λ d. of_running flip_off d.plan) (find (numbered cvd) (sets_in sets.old)) ≡ None }
    requires behind { length freed.old.items + length (flat_map (λ d. given_by d.plan d.parts) (filter (numbered cvd) (sets_in sets.old))) ≤ vec_capacity freed.old }
    ensures flipped { sets_in sets.new ≡ change cvd flipped (sets_in sets.old) }
    ensures numbers { numbers_of sets.new ≡ numbers_of sets.old }
    ensures sound { All IsSet sets.new }
    ensures freed { freed.new.items ≡ freed.old.items ++ flat_map (λ d. given_by d.plan d.parts) (filter (numbered cvd) (sets_in sets.old)) }
{
    if let Some(at) = place_of(sets, cvd) {
        flip(alloc, &mut sets[at], versions, freed);
    }
}

/// What the current target of the dataset with this number keeps is of one partition, which goes with its flip.
pub fn keeps_of_one(sets: &[Cvd], cvd: u32)
    requires ascend { Ascend 0 (numbers_of sets.now) }
    requires sound { All IsSet sets.now }
    ensures { FlipFits cvd (sets_in sets.now) }
{
    if let Some(at) = place_of(sets, cvd) {
        // No two of its partitions have one number.
        let _ = sets[at].layout.parts();
    }
}
