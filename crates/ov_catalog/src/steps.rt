//! Migration steps.

ghost use Rattle.std.specs.Prelude.{◌≡◌, ◌≤◌, ◌<◌, ◌*◌, ◌^◌, length, map, All, Some};
ghost use Rattle.ov_catalog.specs.Planning.{missing as missing_by};
ghost use Rattle.ov_catalog.specs.Ready.{IsSet};
ghost use Rattle.ov_catalog.specs.Running.{HasCurrent};
ghost use Rattle.ov_catalog.specs.Sets.{plan_numbers, plan_in, sets_in, target_in};
ghost use Rattle.ov_catalog.specs.Steps.{later_steps as later_steps_by, plan_steps as plan_steps_by, steps_for as steps_for_by, steps_of};

use crate::cvd::{Cvd, Plan, Target};

/// How many records the current target of a plan misses.
pub fn missing(plan: &Plan) -> u32
    requires { HasCurrent plan.now }
    ensures { result ≡ missing_by (plan_numbers plan.now) }
{
    let target = &plan.targets.as_slice()[plan.at as usize];
    target
        .size
        .saturating_sub(target.kept_records)
        .saturating_sub(plan.copied)
}

// The steps of a target that misses so many records.
fn steps_for(missing: u32) -> u64
    ensures steps { result ≡ steps_for_by missing }
    ensures few { result ≤ 2 ^ 25 }
{
    (u64::from(missing) + 255) / 256 + 1
}

// The steps of targets for which nothing was copied yet.
fn later_steps(targets: &[Target]) -> u64
    requires { length targets.now ≤ 65535 }
    ensures steps { result ≡ later_steps_by (map target_in targets.now) }
    ensures few { result ≤ length targets.now * 2 ^ 25 }
{
    let mut steps = 0;
    let mut at = targets.len();
    while 0 < at {
        at -= 1;
        let target = &targets[at];
        steps += steps_for(target.size.saturating_sub(target.kept_records));
    }
    steps
}

/// How many migration steps a plan has left.
pub fn plan_steps(plan: &Plan) -> u64
    requires at { HasCurrent plan.now }
    requires few { length plan.now.targets ≤ 65535 }
    ensures steps { result ≡ plan_steps_by (plan_in (Some plan.now)) }
    ensures few { result ≤ 2 ^ 41 }
{
    let later = &plan.targets.as_slice()[plan.at as usize + 1..];
    steps_for(missing(plan)) + later_steps(later)
}

// The steps of a dataset.
fn set_steps(d: &Cvd) -> u64
    requires { IsSet d.now }
    ensures steps { result ≡ plan_steps_by (plan_in d.now.plan) }
    ensures few { result ≤ 2 ^ 41 }
{
    match &d.plan {
        None => 0,
        Some(plan) => plan_steps(plan),
    }
}

/// The steps of all plans.
pub fn steps_left(sets: &[Cvd]) -> u64
    requires sound { All IsSet sets.now }
    requires few { length sets.now ≤ 1024 }
    ensures { result ≡ steps_of (sets_in sets.now) }
{
    let mut steps = 0;
    for d in sets {
        steps += set_steps(d);
    }
    steps
}
