//! A copy: the current target of a plan takes records that it misses.

ghost use Rattle.std.specs.Prelude.{◌≡◌, ◌≤◌, ◌<◌, ◌+◌, length, find, vec_capacity, None, All, OnOk};
ghost use Rattle.ov_layout.specs.Changes.{extents_of};
ghost use Rattle.ov_layout.specs.Parts.{Ascend};
ghost use Rattle.ov_catalog.specs.Answers.{Answers};
ghost use Rattle.ov_catalog.specs.Applying.{of_live};
ghost use Rattle.ov_catalog.specs.Events.{change, copied_more, numbered};
ghost use Rattle.ov_catalog.specs.Planning.{copy_off, of_running};
ghost use Rattle.ov_catalog.specs.Ready.{HasSegment, HasSegmentIn, IsSet};
ghost use Rattle.ov_catalog.specs.Running.{HasCurrent};
ghost use Rattle.ov_catalog.specs.Sets.{numbers_of, plan_numbers, set_in, sets_in};

use crate::cvd::{Cvd, Plan};
use crate::error::ApplyErr;
use crate::extents::is_extent;
use crate::field::Field;
use crate::finding::place_of;
use crate::refusing::unless;
use crate::steps::missing;
use ov_host::Extent;

/// A copy brings so many records at most.
const MOST_COPIED: u32 = 256;

fn check_copy(plan: &Plan, count: u32, segment: Extent) -> Result<(), ApplyErr>
    requires { HasCurrent plan.now }
    ensures { Answers result (copy_off count segment (plan_numbers plan.now)) }
{
    unless(
        1 <= count && count == MOST_COPIED.min(missing(plan)),
        Field::Count,
    )?;
    unless(segment.bytes != 0 && is_extent(segment), Field::Place)
}

fn room_in_plan(plan: &mut Plan, count: u32, segment: Extent) -> Result<(), ApplyErr>
    requires { HasCurrent plan.old }
    ensures answer { Answers result (copy_off count segment (plan_numbers plan.old)) }
    ensures same { plan_numbers plan.new ≡ plan_numbers plan.old }
    ensures targets { plan.new.targets ≡ plan.old.targets }
    ensures room { OnOk result (length plan.new.segments.items < vec_capacity plan.new.segments) }
{
    check_copy(plan, count, segment)?;
    plan.segments.reserve(1)?;
    Ok(())
}

// Makes room for a segment more, if it may come.
fn room_in(d: &mut Cvd, count: u32, segment: Extent) -> Result<(), ApplyErr>
    requires { IsSet d.old }
    ensures answer { Answers result (of_running (copy_off count segment) (set_in d.old).plan) }
    ensures same { set_in d.new ≡ set_in d.old }
    ensures set { IsSet d.new }
    ensures room { OnOk result (HasSegment d.new.plan) }
{
    let Some(plan) = &mut d.plan else {
        return Err(ApplyErr::NotNext { field: Field::Plan });
    };
    room_in_plan(plan, count, segment)
}

/// Makes room for a segment more of the current target of the dataset with this number, if it may come.
pub fn room_for_copy(
    sets: &mut [Cvd],
    cvd: u32,
    count: u32,
    segment: Extent,
) -> Result<(), ApplyErr>
    requires ascend { Ascend 0 (numbers_of sets.old) }
    requires sound { All IsSet sets.old }
    ensures answer { Answers result (of_live (λ d. of_running (copy_off count segment) d.plan) (find (numbered cvd) (sets_in sets.old))) }
    ensures same { sets_in sets.new ≡ sets_in sets.old }
    ensures sound { All IsSet sets.new }
    ensures room { OnOk result (All (HasSegmentIn cvd) sets.new) }
{
    let Some(at) = place_of(sets, cvd) else {
        return Err(ApplyErr::NotNext {
            field: Field::Number,
        });
    };
    room_in(&mut sets[at], count, segment)
}

// So many records come to the current target.
fn copy(d: &mut Cvd, count: u32, segment: Extent)
    requires set { IsSet d.old }
    requires room { HasSegment d.old.plan }
    requires applies { of_running (copy_off count segment) (set_in d.old).plan ≡ None }
    ensures copied { set_in d.new ≡ copied_more count (extents_of segment) (set_in d.old) }
    ensures set { IsSet d.new }
{
    if let Some(plan) = &mut d.plan {
        plan.copied += count;
        // There is room, so this takes no memory.
        let _ = plan.segments.push(segment);
    }
}

/// So many records come to the current target of the dataset with this number. Takes no memory.
pub fn copy_in(sets: &mut [Cvd], cvd: u32, count: u32, segment: Extent)
    requires ascend { Ascend 0 (numbers_of sets.old) }
    requires sound { All IsSet sets.old }
    requires room { All (HasSegmentIn cvd) sets.old }
    requires applies { of_live (λ d. of_running (copy_off count segment) d.plan) (find (numbered cvd) (sets_in sets.old)) ≡ None }
    ensures copied { sets_in sets.new ≡ change cvd (copied_more count (extents_of segment)) (sets_in sets.old) }
    ensures numbers { numbers_of sets.new ≡ numbers_of sets.old }
    ensures sound { All IsSet sets.new }
{
    if let Some(at) = place_of(sets, cvd) {
        copy(&mut sets[at], count, segment);
    }
}
