//! What `layout` tells.
//!
//! A partition has a version, so there are no more of them than versions. Counts that don't fit are answered as want of memory.

ghost use Rattle.std.specs.Prelude.{◌≡◌, ◌≤◌, [], length, map, Some, IfOk};
ghost use Rattle.ov_model.specs.Act.{layout_deed, part_shown, plan_shown};
ghost use Rattle.ov_model.specs.Lists.{joined};
ghost use Rattle.ov_model.specs.Plans.{current, missing_of};
ghost use Rattle.ov_model.specs.World.{cost, set_named, stored};
ghost use Rattle.ov_model.specs.declared.reply.Reply.TheVariants as says;
ghost use Rattle.ov_plain.specs.Small.{ServeFew};
ghost use Rattle.ov_plain_act.specs.Acts.{deed_of, session_of};
ghost use Rattle.ov_plain_act.specs.Small.{AreSmall, AreSmallMoves, IsSmallSet};

use crate::counts::{count_of, sum_of};
use crate::deed::{Deed, no_cvd, tells};
use crate::session::Session;
use crate::world::{World, first_named};
use ov_model::{PartLine, PlanLine, Reply};
use ov_plain::{
    Dataset, Part, Plan, Rec, cost, current, held, joined, missing_of, onto, plan_steps, serve_few,
    stored,
};
use ov_value::Txt;
use sqlite_items::Items;
use std::alloc::{AllocError, Global};

/// The line of a partition.
fn part_line(alloc: Global, part: &Part) -> Result<PartLine, AllocError>
    ensures { IfOk result (λ line. line ≡ part_shown part.now) }
{
    let all = held(alloc, part)?;
    Ok(PartLine {
        id: part.id,
        records: count_of(all.len())?,
        versions: Items::from_slice(alloc, part.versions.as_slice())?,
    })
}

/// The lines of these partitions.
fn parts_shown(alloc: Global, parts: &[Part]) -> Result<Items<PartLine>, AllocError>
    ensures { IfOk result (λ lines. lines ≡ map part_shown parts.now) }
{
    match parts {
        [] => Ok(Items::new(alloc)),
        [part, rest @ ..] => {
            let later = parts_shown(alloc, rest)?;
            onto(alloc, part_line(alloc, part)?, later)
        }
    }
}

/// How many records these pieces have.
fn records_of(alloc: Global, pieces: &[Items<Rec>]) -> Result<u32, AllocError>
    ensures { IfOk result (λ count. count ≡ length (joined pieces.now)) }
{
    let all = joined(alloc, pieces)?;
    count_of(all.len())
}

/// How many records the current target of a plan has to get by copies.
fn size_of(alloc: Global, set: &Dataset, plan: &Plan) -> Result<u32, AllocError>
    requires { length set.now.cvd.versions ≤ 65535 }
    ensures { IfOk result (λ size. size ≡ length (missing_of set.now (current plan.now) [])) }
{
    let target = current(alloc, plan)?;
    let wanted = missing_of(alloc, set, &target, &[])?;
    count_of(wanted.len())
}

/// The line of the plan that runs.
fn running(alloc: Global, set: &Dataset, plan: &Plan) -> Result<PlanLine, AllocError>
    requires versions { length set.now.cvd.versions ≤ 65535 }
    requires plan { set.now.plan ≡ Some plan.now }
    ensures { IfOk result (λ line. Some line ≡ plan_shown set.now (Some plan.now)) }
{
    if plan.targets.len() > 65_535 || plan.at >= 65_535 {
        return Err(AllocError);
    }
    Ok(PlanLine {
        p: plan.p,
        q: plan.q,
        target: plan.at + 1,
        targets: plan.targets.len() as u32,
        copied: records_of(alloc, plan.copied.as_slice())?,
        size: size_of(alloc, set, plan)?,
        steps: sum_of(plan_steps(alloc, set)?)?,
    })
}

/// The line of the plan that runs, where one does.
fn plan_line(alloc: Global, set: &Dataset) -> Result<Option<PlanLine>, AllocError>
    requires { length set.now.cvd.versions ≤ 65535 }
    ensures { IfOk result (λ line. line ≡ plan_shown set.now set.now.plan) }
{
    match &set.plan {
        None => Ok(None),
        Some(plan) => Ok(Some(running(alloc, set, plan)?)),
    }
}

/// What all partitions store.
fn stored_in(alloc: Global, set: &Dataset) -> Result<u64, AllocError>
    requires { length set.now.parts ≤ 65535 }
    ensures { IfOk result (λ all. all ≡ stored set.now) }
{
    sum_of(stored(alloc, set)?)
}

/// What checkouts of all versions read.
pub fn cost_in(alloc: Global, set: &Dataset) -> Result<u64, AllocError>
    requires parts { length set.now.parts ≤ 65535 }
    requires serve { ServeFew set.now.parts }
    ensures { IfOk result (λ all. all ≡ cost set.now) }
{
    sum_of(cost(alloc, set)?)
}

/// What `layout` tells of a dataset.
fn layout_reply(alloc: Global, set: &Dataset) -> Result<Reply, AllocError>
    requires { length set.now.cvd.versions ≤ 65535 }
    ensures { IfOk result (λ reply. reply ≡ says.Layout (map part_shown set.now.parts) (plan_shown set.now set.now.plan) (stored set.now) (cost set.now)) }
{
    if set.parts.len() > 65_535 || !serve_few(set.parts.as_slice()) {
        return Err(AllocError);
    }
    let parts = parts_shown(alloc, set.parts.as_slice())?;
    let plan = plan_line(alloc, set)?;
    Ok(Reply::Layout {
        parts,
        plan,
        stored: stored_in(alloc, set)?,
        cost: cost_in(alloc, set)?,
    })
}

/// What `layout` of this dataset does.
fn layout_of(
    alloc: Global,
    session: &Session,
    name: &Txt,
    set: &Dataset,
) -> Result<Deed, AllocError>
    requires { IsSmallSet set.now }
    ensures is { IfOk result (λ deed. deed_of deed ≡ layout_deed (session_of session.now) name.now (Some set.now)) }
    ensures small { IfOk result (λ deed. AreSmallMoves deed.moves) }
{
    let reply = layout_reply(alloc, set)?;
    tells(alloc, session, reply)
}

/// What `layout` does.
pub fn layout_deed(
    alloc: Global,
    world: &World,
    session: &Session,
    name: &Txt,
) -> Result<Deed, AllocError>
    requires { AreSmall world.now.sets }
    ensures is { IfOk result (λ deed. deed_of deed ≡ layout_deed (session_of session.now) name.now (set_named world.now name.now)) }
    ensures small { IfOk result (λ deed. AreSmallMoves deed.moves) }
{
    match first_named(world.sets.as_slice(), name) {
        None => no_cvd(alloc, session, name),
        Some(set) => layout_of(alloc, session, name, set),
    }
}
