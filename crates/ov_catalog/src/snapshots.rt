//! The catalog as the events of a snapshot say it.

ghost use Rattle.std.specs.Prelude.{◌≡◌, Some, map, All, IfOk};
ghost use Rattle.ov_catalog.specs.Raw.{raw_part, raw_plan, raw_target, raw_version, whole_in};
ghost use Rattle.ov_catalog.specs.Ready.{IsSet};
ghost use Rattle.ov_catalog.specs.Sets.{part_in, plan_in, plan_numbers, set_in, sets_in, target_in, version_in};
ghost use Rattle.ov_catalog.specs.Snapshots.{IsSnapshot};
ghost use Rattle.ov_catalog.specs.Thresholds.{p_of, q_of};

use crate::cvd::{Cvd, Plan, Target, Version};
use crate::schemas::spelled;
use ov_event::{Event, Items, RawPart, RawPlan, RawTarget, RawVersion, Whole};
use ov_layout::Part;
use std::alloc::{AllocError, Global};

fn version_of(alloc: Global, v: &Version) -> Result<RawVersion, AllocError>
    ensures { IfOk result (λ said. raw_version said ≡ version_in v.now) }
{
    Ok(RawVersion {
        parents: Items::new(Vec::from_slice(alloc, v.parents.as_slice())?),
        message: v.message.copy(alloc)?,
        rows: v.rows,
        fresh: v.fresh,
        list: v.list,
    })
}

fn versions_of(alloc: Global, versions: &[Version]) -> Result<Vec<RawVersion>, AllocError>
    ensures { IfOk result (λ said. map raw_version said.items ≡ map version_in versions.now) }
{
    let mut said = Vec::with_capacity(alloc, versions.len())?;
    for v in versions {
        said.push(version_of(alloc, v)?)?;
    }
    Ok(said)
}

fn part_of(alloc: Global, part: &Part) -> Result<RawPart, AllocError>
    ensures { IfOk result (λ said. raw_part said ≡ part_in part.now) }
{
    Ok(RawPart {
        id: part.id,
        versions: Items::new(Vec::from_slice(alloc, part.versions.as_slice())?),
        holds: Items::new(Vec::from_slice(alloc, part.holds.as_slice())?),
        records: part.records,
        segments: Items::new(Vec::from_slice(alloc, part.segments.as_slice())?),
    })
}

fn parts_of(alloc: Global, parts: &[Part]) -> Result<Vec<RawPart>, AllocError>
    ensures { IfOk result (λ said. map raw_part said.items ≡ map part_in parts.now) }
{
    let mut said = Vec::with_capacity(alloc, parts.len())?;
    for part in parts {
        said.push(part_of(alloc, part)?)?;
    }
    Ok(said)
}

fn target_of(alloc: Global, t: &Target) -> Result<RawTarget, AllocError>
    ensures { IfOk result (λ said. raw_target said ≡ target_in t.now) }
{
    Ok(RawTarget {
        versions: Items::new(Vec::from_slice(alloc, t.versions.as_slice())?),
        size: t.size,
        source: t.source,
        kept: Items::new(Vec::from_slice(alloc, t.kept.as_slice())?),
        kept_records: t.kept_records,
    })
}

fn targets_of(alloc: Global, targets: &[Target]) -> Result<Vec<RawTarget>, AllocError>
    ensures { IfOk result (λ said. map raw_target said.items ≡ map target_in targets.now) }
{
    let mut said = Vec::with_capacity(alloc, targets.len())?;
    for t in targets {
        said.push(target_of(alloc, t)?)?;
    }
    Ok(said)
}

fn plan_of(alloc: Global, plan: &Plan) -> Result<RawPlan, AllocError>
    ensures { IfOk result (λ said. raw_plan plan.now.p plan.now.q (Some said) ≡ Some (plan_numbers plan.now)) }
{
    Ok(RawPlan {
        at: plan.at,
        copied: plan.copied,
        targets: Items::new(targets_of(alloc, plan.targets.as_slice())?),
        segments: Items::new(Vec::from_slice(alloc, &plan.segments)?),
    })
}

// The running plan of a dataset, without its threshold, which is the dataset's.
fn running_of(alloc: Global, d: &Cvd) -> Result<Option<RawPlan>, AllocError>
    requires { IsSet d.now }
    ensures { IfOk result (λ said. raw_plan (p_of d.now.threshold) (q_of d.now.threshold) said ≡ plan_in d.now.plan) }
{
    match &d.plan {
        None => Ok(None),
        Some(plan) => Ok(Some(plan_of(alloc, plan)?)),
    }
}

// The numbers of a threshold; 0 and 0 for none.
fn threshold_of(threshold: Option<(u32, u32)>) -> (u32, u32)
    ensures { (result.0 ≡ p_of threshold) × (result.1 ≡ q_of threshold) }
{
    match threshold {
        None => (0, 0),
        Some(threshold) => threshold,
    }
}

/// A dataset as it stands.
pub fn whole_of(alloc: Global, d: &Cvd) -> Result<Whole, AllocError>
    requires { IsSet d.now }
    ensures { IfOk result (λ said. whole_in said ≡ set_in d.now) }
{
    let (p, q) = threshold_of(d.threshold);
    Ok(Whole {
        number: d.number,
        name: d.name.copy(alloc)?,
        schema: spelled(alloc, &d.schema)?,
        records: d.records,
        p,
        q,
        next: d.layout.next_id(),
        versions: Items::new(versions_of(alloc, &d.versions)?),
        parts: Items::new(parts_of(alloc, d.layout.parts())?),
        plan: running_of(alloc, d)?,
    })
}

/// The events that say these datasets, where the next one gets the number `next`.
pub fn events_of(alloc: Global, next: u32, sets: &[Cvd]) -> Result<Vec<Event>, AllocError>
    requires { All IsSet sets.now }
    ensures { IfOk result (λ events. IsSnapshot events.items (record { next = next; sets = sets_in sets.now })) }
{
    let mut events = Vec::new(alloc);
    events.push(Event::Base { next })?;
    for d in sets {
        events.push(Event::Whole(whole_of(alloc, d)?))?;
    }
    Ok(events)
}
