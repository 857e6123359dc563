//! A dataset that a Whole says, before its parts are tested.

ghost use Rattle.std.specs.Prelude.{◌≡◌, map, IfOk};
ghost use Rattle.ov_catalog.specs.Drafts.{draft_in, kept_part, kept_target, kept_version};
ghost use Rattle.ov_catalog.specs.Raw.{raw_plan, whole_in};
ghost use Rattle.ov_catalog.specs.Sets.{plan_in};

use crate::cvd::{Plan, Target, Version};
use ov_event::{Items, RawPart, RawPlan, RawSchema, RawTarget, RawVersion, Whole};
use ov_layout::Part;
use ov_value::Txt;
use std::alloc::{AllocError, Global};

/// What a Whole says, in the lists that a dataset has.
#[derive(Drop)]
pub struct Draft {
    pub number: u32,
    pub name: Txt,
    pub schema: RawSchema,
    pub records: u32,
    /// The threshold p / q; 0 and 0 for none.
    pub p: u32,
    pub q: u32,
    /// The number that the next partition gets.
    pub next: u32,
    pub versions: Vec<Version>,
    pub parts: Vec<Part>,
    pub plan: Option<Plan>,
}

fn version_of(version: RawVersion) -> Version
    ensures { result ≡ kept_version version }
{
    let RawVersion {
        parents,
        message,
        rows,
        fresh,
        list,
    } = version;
    Version {
        parents,
        message,
        rows,
        fresh,
        list,
    }
}

fn part_of(part: RawPart) -> Part
    ensures { result ≡ kept_part part }
{
    let RawPart {
        id,
        versions,
        holds,
        records,
        segments,
    } = part;
    Part {
        id,
        versions,
        holds,
        records,
        segments,
    }
}

fn target_of(target: RawTarget) -> Target
    ensures { result ≡ kept_target target }
{
    let RawTarget {
        versions,
        size,
        source,
        kept,
        kept_records,
    } = target;
    Target {
        versions,
        size,
        source,
        kept,
        kept_records,
    }
}

fn versions_of(alloc: Global, versions: Items<RawVersion>) -> Result<Vec<Version>, AllocError>
    ensures { IfOk result (λ kept. kept.items ≡ map kept_version versions) }
{
    versions
        .into_vec()
        .into_iter()
        .map(|version| version_of(version))
        .collect(alloc)
}

fn parts_of(alloc: Global, parts: Items<RawPart>) -> Result<Vec<Part>, AllocError>
    ensures { IfOk result (λ kept. kept.items ≡ map kept_part parts) }
{
    parts
        .into_vec()
        .into_iter()
        .map(|part| part_of(part))
        .collect(alloc)
}

fn targets_of(alloc: Global, targets: Items<RawTarget>) -> Result<Vec<Target>, AllocError>
    ensures { IfOk result (λ kept. kept.items ≡ map kept_target targets) }
{
    targets
        .into_vec()
        .into_iter()
        .map(|target| target_of(target))
        .collect(alloc)
}

// A plan runs at its dataset's threshold.
fn plan_of(alloc: Global, p: u32, q: u32, plan: Option<RawPlan>) -> Result<Option<Plan>, AllocError>
    ensures { IfOk result (λ kept. plan_in kept ≡ raw_plan p q plan) }
{
    let Some(plan) = plan else {
        return Ok(None);
    };
    let RawPlan {
        at,
        copied,
        targets,
        segments,
    } = plan;
    let targets = targets_of(alloc, targets)?;
    Ok(Some(Plan {
        p,
        q,
        targets: Items::new(targets),
        at,
        copied,
        segments: segments.into_vec(),
    }))
}

/// What a Whole says. Its lists are moved.
pub fn draft_of(alloc: Global, said: Whole) -> Result<Draft, AllocError>
    ensures numbers { IfOk result (λ d. draft_in d ≡ whole_in said) }
    ensures said { IfOk result (λ d. (d.schema ≡ said.schema) × (d.p ≡ said.p) × (d.q ≡ said.q)) }
{
    let Whole {
        number,
        name,
        schema,
        records,
        p,
        q,
        next,
        versions,
        parts,
        plan,
    } = said;
    Ok(Draft {
        number,
        name,
        schema,
        records,
        p,
        q,
        next,
        versions: versions_of(alloc, versions)?,
        parts: parts_of(alloc, parts)?,
        plan: plan_of(alloc, p, q, plan)?,
    })
}
