//! What `optimize` does: a plan begins, and its reply tells what will stand when the plan is done.

ghost use Rattle.std.specs.Prelude.{◌≡◌, ◌≤◌, ◌<◌, ◌^◌, length, Some, None, IfOk};
ghost use Rattle.ov_graph.specs.Splits.{stored, cost};
ghost use Rattle.ov_model.specs.Act.{does, is_threshold, optimize_refusal, optimized, optimize_deed};
ghost use Rattle.ov_model.specs.Budget.{within_refusal};
ghost use Rattle.ov_model.specs.Moves.{BeginPlan};
ghost use Rattle.ov_model.specs.Plans.{parts_at, plan_steps, planned, sizes_of};
ghost use Rattle.ov_model.specs.World.{set_named};
ghost use Rattle.ov_plain.specs.Small.{IsSmall};
ghost use Rattle.ov_plain_act.specs.Acts.{deed_of, session_of};
ghost use Rattle.ov_plain_act.specs.Small.{AreSmall, AreSmallMoves, IsSmallSet};

use crate::counts::{added, count_of, sum_of, times};
use crate::deed::{Deed, Move, does, no_cvd, refuses};
use crate::session::Session;
use crate::world::{World, first_named};
use ov_model::{Refusal, Reply};
use ov_plain::{
    Copies, Dataset, depth_at, is_small_plan, parts_at, plan_steps, planned, records_in,
    tree_members, tree_records,
};
use ov_value::Txt;
use sqlite_items::Items;
use std::alloc::{AllocError, Global};

/// Whether p / q is a threshold.
pub fn is_threshold(p: u64, q: u64) -> bool
    ensures { result ≡ is_threshold p q }
{
    1 <= p && p <= q && q <= 1_000_000
}

/// Why no plan of a dataset begins, whatever its threshold.
pub fn within_refusal(alloc: Global, set: &Dataset) -> Result<Option<Refusal>, AllocError>
    ensures { IfOk result (λ refusal. refusal ≡ within_refusal set.now) }
{
    let cvd = set.cvd.name.copy(alloc)?;
    if set.plan.is_some() {
        return Ok(Some(Refusal::Migrating { cvd }));
    }
    if 4_294_000_000 < set.next_part {
        return Ok(Some(Refusal::NoNumbers { cvd }));
    }
    Ok(None)
}

/// Why no plan of a dataset begins at p / q.
fn optimize_refusal(
    alloc: Global,
    set: &Dataset,
    p: u64,
    q: u64,
) -> Result<Option<Refusal>, AllocError>
    ensures is { IfOk result (λ refusal. refusal ≡ optimize_refusal set.now p q) }
    ensures p { IfOk result (λ refusal. refusal ≡ None → p < 2 ^ 32) }
    ensures q { IfOk result (λ refusal. refusal ≡ None → q < 2 ^ 32) }
{
    if !is_threshold(p, q) {
        return Ok(Some(Refusal::BadThreshold));
    }
    within_refusal(alloc, set)
}

/// What partitions of these versions will store.
fn stored_in(alloc: Global, set: &Dataset, parts: &[Items<u32>]) -> Result<u64, AllocError>
    requires { length set.now.cvd.versions ≤ 65535 }
    ensures { IfOk result (λ all. all ≡ stored (sizes_of set.now parts.now)) }
{
    match parts {
        [] => Ok(0),
        [vids, rest @ ..] => {
            let own = records_in(alloc, &set.cvd, vids.as_slice())?;
            let later = stored_in(alloc, set, rest)?;
            added(own.len() as u64, later)
        }
    }
}

/// What checkouts will read of partitions of these versions.
fn cost_in(alloc: Global, set: &Dataset, parts: &[Items<u32>]) -> Result<u64, AllocError>
    requires { length set.now.cvd.versions ≤ 65535 }
    ensures { IfOk result (λ all. all ≡ cost (sizes_of set.now parts.now)) }
{
    match parts {
        [] => Ok(0),
        [vids, rest @ ..] => {
            let own = records_in(alloc, &set.cvd, vids.as_slice())?;
            let read = times(vids.len() as u64, own.len() as u64)?;
            let later = cost_in(alloc, set, rest)?;
            added(read, later)
        }
    }
}

/// The steps of a plan at p / q.
pub fn steps_at(alloc: Global, set: &Dataset, p: u32, q: u32) -> Result<u64, AllocError>
    requires { IsSmall set.now.cvd }
    ensures { IfOk result (λ steps. steps ≡ plan_steps (planned p q set.now)) }
{
    let begun = planned(alloc, p, q, set.copied(alloc)?)?;
    if !is_small_plan(&begun.plan) {
        return Err(AllocError);
    }
    sum_of(plan_steps(alloc, &begun)?)
}

/// How many parts the split at p / q has, what they will store, and what checkouts will read of them.
pub fn split_sizes(
    alloc: Global,
    set: &Dataset,
    p: u32,
    q: u32,
) -> Result<(u32, u64, u64), AllocError>
    requires { IsSmall set.now.cvd }
    ensures parts { IfOk result (λ sizes. sizes.0 ≡ length (parts_at set.now p q)) }
    ensures stored { IfOk result (λ sizes. sizes.1 ≡ stored (sizes_of set.now (parts_at set.now p q))) }
    ensures cost { IfOk result (λ sizes. sizes.2 ≡ cost (sizes_of set.now (parts_at set.now p q))) }
{
    let parts = parts_at(alloc, set, p, q)?;
    let count = count_of(parts.len())?;
    let stored = stored_in(alloc, set, parts.as_slice())?;
    let cost = cost_in(alloc, set, parts.as_slice())?;
    Ok((count, stored, cost))
}

/// What is told of a plan at p / q.
fn optimized(alloc: Global, set: &Dataset, p: u32, q: u32) -> Result<Reply, AllocError>
    requires { IsSmall set.now.cvd }
    ensures { IfOk result (λ reply. reply ≡ optimized set.now p q (parts_at set.now p q)) }
{
    let (partitions, stored, cost) = split_sizes(alloc, set, p, q)?;
    Ok(Reply::Optimize {
        depth: depth_at(alloc, set, p, q)?,
        partitions,
        stored,
        records: tree_records(alloc, set)?,
        members: tree_members(alloc, set)?,
        cost,
        steps: steps_at(alloc, set, p, q)?,
    })
}

/// A plan of this dataset begins at p / q.
fn begins(
    alloc: Global,
    session: &Session,
    set: &Dataset,
    p: u32,
    q: u32,
) -> Result<Deed, AllocError>
    requires { IsSmall set.now.cvd }
    ensures is { IfOk result (λ deed. deed_of deed ≡ does (session_of session.now) (BeginPlan set.now.cvd.number p q) (optimized set.now p q (parts_at set.now p q))) }
    ensures small { IfOk result (λ deed. AreSmallMoves deed.moves) }
{
    let reply = optimized(alloc, set, p, q)?;
    let cvd = set.cvd.number;
    does(alloc, session, Move::BeginPlan { cvd, p, q }, reply)
}

/// What `optimize` of this dataset does.
fn optimize_of(
    alloc: Global,
    session: &Session,
    name: &Txt,
    p: u64,
    q: u64,
    set: &Dataset,
) -> Result<Deed, AllocError>
    requires { IsSmallSet set.now }
    ensures is { IfOk result (λ deed. deed_of deed ≡ optimize_deed (session_of session.now) name.now p q (Some set.now)) }
    ensures small { IfOk result (λ deed. AreSmallMoves deed.moves) }
{
    match optimize_refusal(alloc, set, p, q)? {
        Some(refusal) => refuses(alloc, session, refusal),
        None => begins(alloc, session, set, p as u32, q as u32),
    }
}

/// What `optimize` does.
pub fn optimize_deed(
    alloc: Global,
    world: &World,
    session: &Session,
    name: &Txt,
    p: u64,
    q: u64,
) -> Result<Deed, AllocError>
    requires { AreSmall world.now.sets }
    ensures is { IfOk result (λ deed. deed_of deed ≡ optimize_deed (session_of session.now) name.now p q (set_named world.now name.now)) }
    ensures small { IfOk result (λ deed. AreSmallMoves deed.moves) }
{
    match first_named(world.sets.as_slice(), name) {
        None => no_cvd(alloc, session, name),
        Some(set) => optimize_of(alloc, session, name, p, q, set),
    }
}
