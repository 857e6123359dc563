//! Whether a World or a command is so small that each count of it fits the programs' numbers.

ghost use Rattle.std.specs.Prelude.{◌≡◌, ◌↔◌, ◌<◌, ◌≤◌, ◌^◌, IsTrue, length, IfOk, IfSome};
ghost use Rattle.ov_plain_act.specs.Runs.{IsReady};
ghost use Rattle.ov_plain_act.specs.Small.{HaveFewRows, IsSmallSet, AreSmall, IsSmallCommand, HasPlace, HavePlace, CanMove};

use crate::world::World;
use ov_model::Command;
use ov_plain::{Dataset, Plan, Version, order_of, stored};
use std::alloc::{AllocError, Global};

/// Whether each version has at most 65,535 rows.
fn have_few_rows(versions: &[Version]) -> bool
    ensures { IsTrue result ↔ HaveFewRows versions.now }
{
    match versions {
        [] => true,
        [version, rest @ ..] => version.rows.len() <= 65_535 && have_few_rows(rest),
    }
}

/// Whether a dataset is small.
fn is_small_set(alloc: Global, set: &Dataset) -> Result<bool, AllocError>
    ensures { IfOk result (λ is. IsTrue is ↔ IsSmallSet set.now) }
{
    let versions = set.cvd.versions.as_slice();
    if versions.len() > 65_535 {
        return Ok(false);
    }
    if !have_few_rows(versions) {
        return Ok(false);
    }
    let all = order_of(alloc, versions)?;
    Ok(all.len() < 4_294_967_296)
}

/// Whether these datasets are small.
fn are_small(alloc: Global, sets: &[Dataset]) -> Result<bool, AllocError>
    ensures { IfOk result (λ are. IsTrue are ↔ AreSmall sets.now) }
{
    match sets {
        [] => Ok(true),
        [set, rest @ ..] => {
            if is_small_set(alloc, set)? {
                are_small(alloc, rest)
            } else {
                Ok(false)
            }
        }
    }
}

/// Whether the datasets of a World are so small that what commands say of them can be computed.
pub fn is_small_world(alloc: Global, world: &World) -> Result<bool, AllocError>
    ensures { IfOk result (λ is. IsTrue is ↔ AreSmall world.now.sets) }
{
    are_small(alloc, world.sets.as_slice())
}

/// Whether a command lists so few versions that what it does can be computed.
pub fn is_small_command(command: &Command) -> bool
    ensures { IsTrue result ↔ IsSmallCommand command.now }
{
    match command {
        Command::Checkout { vids, .. } => vids.len() <= 65_535,
        _ => true,
    }
}

/// Whether the plan that runs isn't past 65,535 targets.
fn is_early(plan: &Option<Plan>) -> bool
    ensures { IsTrue result ↔ IfSome plan.now (λ plan. plan.at < 65535) }
{
    match plan {
        None => true,
        Some(plan) => plan.at < 65_535,
    }
}

/// Whether the plan that runs has at most 65,535 targets.
fn has_few_targets(plan: &Option<Plan>) -> bool
    ensures { IsTrue result ↔ IfSome plan.now (λ plan. length plan.targets ≤ 65535) }
{
    match plan {
        None => true,
        Some(plan) => plan.targets.len() <= 65_535,
    }
}

/// Whether a dataset takes a version more.
fn has_place(alloc: Global, set: &Dataset) -> Result<bool, AllocError>
    ensures { IfOk result (λ has. IsTrue has ↔ HasPlace set.now) }
{
    if set.cvd.versions.len() >= 65_535 || set.parts.len() > 65_535 {
        return Ok(false);
    }
    if set.next_part == 4_294_967_295 || !have_few_rows(set.cvd.versions.as_slice()) {
        return Ok(false);
    }
    if !is_early(&set.plan) || !has_few_targets(&set.plan) {
        return Ok(false);
    }
    let all = stored(alloc, set)?;
    Ok(all < 18_446_744_073_709_551_616)
}

/// Whether these datasets take a version more.
fn have_place(alloc: Global, sets: &[Dataset]) -> Result<bool, AllocError>
    ensures { IfOk result (λ have. IsTrue have ↔ HavePlace sets.now) }
{
    match sets {
        [] => Ok(true),
        [set, rest @ ..] => {
            if has_place(alloc, set)? {
                have_place(alloc, rest)
            } else {
                Ok(false)
            }
        }
    }
}

/// Whether a World is so small that its next move can be computed.
pub fn can_move(alloc: Global, world: &World) -> Result<bool, AllocError>
    ensures { IfOk result (λ can. IsTrue can ↔ CanMove world.now) }
{
    if world.next == 4_294_967_295 || world.records == u64::MAX {
        return Ok(false);
    }
    if world.epoch == u64::MAX {
        return Ok(false);
    }
    have_place(alloc, world.sets.as_slice())
}

/// Whether a World is small and takes a move.
pub fn is_ready(alloc: Global, world: &World) -> Result<bool, AllocError>
    ensures { IfOk result (λ is. IsTrue is ↔ IsReady world.now) }
{
    if !is_small_world(alloc, world)? {
        return Ok(false);
    }
    let can = can_move(alloc, world)?;
    Ok(can)
}
