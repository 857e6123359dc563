//! The partitions of a dataset.

ghost use Rattle.std.specs.Prelude.{◌≡◌, ◌≤◌, IfOk, length, map, option_map};
ghost use Rattle.ov_catalog.specs.Ready.{IsSet};
ghost use Rattle.ov_catalog.specs.Running.{HasCurrent};
ghost use Rattle.ov_catalog.specs.Sets.{part_in, plan_in, plan_numbers, set_in};
ghost use Rattle.ov_catalog.specs.Testing.{stored as stored_by};
ghost use Rattle.ov_listing.specs.Listed.{part_line, plan_line as plan_line_by, shown_layout};

use ov_catalog::{Cvd, Plan, plan_steps};
use ov_layout::Part;
use ov_model::{PartLine, PlanLine, Reply, Seq};
use std::alloc::{AllocError, Global};

/// The partitions of a dataset by number, each with its records and its versions; where a plan runs, how far it is; how many
/// records are stored, those that were copied for the plan with them; and how many a checkout of each version reads together.
pub fn layout_of(alloc: Global, d: &Cvd) -> Result<Reply, AllocError>
    requires { IsSet d.now }
    ensures { IfOk result (λ reply. reply ≡ shown_layout (set_in d.now)) }
{
    Ok(Reply::Layout {
        parts: part_lines(alloc, d.layout.parts())?,
        plan: running(d),
        stored: stored(d),
        cost: d.layout.cost(),
    })
}

// A line for each partition.
fn part_lines(alloc: Global, parts: &[Part]) -> Result<Seq<PartLine>, AllocError>
    ensures { IfOk result (λ lines. lines ≡ map (λ part. part_line (part_in part)) parts.now) }
{
    let mut lines = Vec::new(alloc);
    for part in parts {
        lines.push(line_of(alloc, part)?)?;
    }
    Ok(Seq::from_vec(lines))
}

// The line of a partition.
fn line_of(alloc: Global, part: &Part) -> Result<PartLine, AllocError>
    ensures { IfOk result (λ line. line ≡ part_line (part_in part.now)) }
{
    Ok(PartLine {
        id: part.id,
        records: part.records,
        versions: Seq::from_vec(Vec::from_slice(alloc, part.versions.as_slice())?),
    })
}

// The line of the plan that runs, where one does.
fn running(d: &Cvd) -> Option<PlanLine>
    requires { IsSet d.now }
    ensures { result ≡ option_map plan_line_by (plan_in d.now.plan) }
{
    match &d.plan {
        None => None,
        Some(plan) => Some(plan_line(plan)),
    }
}

// The line of a plan.
fn plan_line(plan: &Plan) -> PlanLine
    requires at { HasCurrent plan.now }
    requires few { length plan.now.targets ≤ 65535 }
    ensures { result ≡ plan_line_by (plan_numbers plan.now) }
{
    let target = &plan.targets.as_slice()[plan.at as usize];
    PlanLine {
        p: plan.p,
        q: plan.q,
        target: plan.at + 1,
        targets: plan.targets.len() as u32,
        copied: plan.copied,
        size: target.size.saturating_sub(target.kept_records),
        steps: plan_steps(plan),
    }
}

// The records that the partitions keep, and those that were copied for a plan.
fn stored(d: &Cvd) -> u64
    ensures { result ≡ stored_by (set_in d.now) }
{
    let kept = d.layout.stored();
    match &d.plan {
        None => kept,
        Some(plan) => kept + u64::from(plan.copied),
    }
}
