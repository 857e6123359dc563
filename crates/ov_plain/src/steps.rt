//! The steps of a running plan: copies and flips.

ghost use Rattle.std.specs.Prelude.{◌≡◌, ◌==◌, ◌+◌, ◌++◌, ◌≤◌, ◌<◌, ◌*◌, ◌^◌, [], ◌∷◌, filter, length, map, not, take, IfOk, IfSome};
ghost use Rattle.ov_model.specs.Lists.{joined};
ghost use Rattle.ov_model.specs.Plans.{pieces_of, kept_pieces, missing_of, current, missing, copied_for, copied_more, leaving, left_parts, target_part, next_target, flipped_by, flipped, steps_for, target_steps, plan_steps_of, plan_steps};
ghost use Rattle.ov_model.specs.World.{is_one, targets_from};

use crate::copies::{Copies, both, onto, with_first, with_last};
use crate::dataset::{Dataset, Part, Plan, Target};
use crate::plans::{is_one, pieces_at, pieces_of, records_in};
use crate::rec::Rec;
use crate::records::{joined, lacking};
use sqlite_items::Items;
use std::alloc::{AllocError, Global};

/// The pieces that a target keeps.
pub fn kept_pieces(
    alloc: Global,
    set: &Dataset,
    target: &Target,
) -> Result<Items<Items<Rec>>, AllocError>
    ensures { IfOk result (λ pieces. pieces ≡ kept_pieces set.now target.now) }
{
    pieces_at(
        alloc,
        pieces_of(set.parts.as_slice(), target.source),
        target.kept.as_slice(),
    )
}

/// The records of the pieces that a target keeps, and of those that were copied for it.
fn there_already(
    alloc: Global,
    set: &Dataset,
    target: &Target,
    copied: &[Items<Rec>],
) -> Result<Items<Rec>, AllocError>
    ensures { IfOk result (λ there. there ≡ joined (kept_pieces set.now target.now) ++ joined copied.now) }
{
    let kept = kept_pieces(alloc, set, target)?;
    let there = joined(alloc, kept.as_slice())?;
    both(there, joined(alloc, copied)?)
}

/// The records of a target that are in no kept piece and not among those that were copied for it.
pub fn missing_of(
    alloc: Global,
    set: &Dataset,
    target: &Target,
    copied: &[Items<Rec>],
) -> Result<Items<Rec>, AllocError>
    requires { length set.now.cvd.versions ≤ 65535 }
    ensures { IfOk result (λ found. found ≡ missing_of set.now target.now copied.now) }
{
    let wanted = records_in(alloc, &set.cvd, target.versions.as_slice())?;
    let there = there_already(alloc, set, target, copied)?;
    lacking(alloc, wanted.as_slice(), there.as_slice())
}

/// The current target of a plan.
pub fn current(alloc: Global, plan: &Plan) -> Result<Target, AllocError>
    ensures { IfOk result (λ target. target ≡ current plan.now) }
{
    match plan.targets.as_slice().get(plan.at as usize) {
        None => Ok(Target {
            versions: Items::new(alloc),
            source: 0,
            kept: Items::new(alloc),
            kept_records: 0,
        }),
        Some(target) => target.copied(alloc),
    }
}

/// The records that the current target lacks.
pub fn missing(alloc: Global, set: &Dataset, plan: &Plan) -> Result<Items<Rec>, AllocError>
    requires { length set.now.cvd.versions ≤ 65535 }
    ensures { IfOk result (λ found. found ≡ missing set.now plan.now) }
{
    let target = current(alloc, plan)?;
    missing_of(alloc, set, &target, plan.copied.as_slice())
}

/// Whether the current target misses no record, so that the next step is its flip.
pub fn is_complete(alloc: Global, set: &Dataset, plan: &Plan) -> Result<bool, AllocError>
    requires { length set.now.cvd.versions ≤ 65535 }
    ensures { IfOk result (λ complete. complete ≡ (length (missing set.now plan.now) == 0)) }
{
    let left = missing(alloc, set, plan)?;
    Ok(left.len() == 0)
}

/// The first so many of these records, or all of them.
fn first_of(alloc: Global, count: u32, recs: &[Rec]) -> Result<Items<Rec>, AllocError>
    ensures { IfOk result (λ found. found ≡ take count recs.now) }
{
    match recs {
        [first, rest @ ..] if 0 < count => {
            let later = first_of(alloc, count - 1, rest)?;
            with_first(alloc, first, later)
        }
        _ => Ok(Items::new(alloc)),
    }
}

/// The next 256 missing records, or all that are left.
fn next_piece(alloc: Global, set: &Dataset, plan: &Plan) -> Result<Items<Rec>, AllocError>
    requires { length set.now.cvd.versions ≤ 65535 }
    ensures { IfOk result (λ piece. piece ≡ take 256 (missing set.now plan.now)) }
{
    let all = missing(alloc, set, plan)?;
    first_of(alloc, 256, all.as_slice())
}

/// A plan with one copied piece more.
fn with_copied(alloc: Global, plan: &Plan, piece: Items<Rec>) -> Result<Plan, AllocError>
    ensures { IfOk result (λ after. after ≡ record plan.now { copied = plan.now.copied ++ piece ∷ [] }) }
{
    let mut after = plan.copied(alloc)?;
    after.copied.push(piece)?;
    Ok(after)
}

/// The plan after a copy.
fn copied_for(alloc: Global, set: &Dataset) -> Result<Option<Plan>, AllocError>
    requires { length set.now.cvd.versions ≤ 65535 }
    ensures { IfOk result (λ after. after ≡ copied_for set.now set.now.plan) }
{
    match &set.plan {
        None => Ok(None),
        Some(plan) => {
            let piece = next_piece(alloc, set, plan)?;
            Ok(Some(with_copied(alloc, plan, piece)?))
        }
    }
}

/// The dataset after a copy: the current target has the next 256 missing records, or all that are left, as one piece more.
pub fn copied_more(alloc: Global, set: Dataset) -> Result<Dataset, AllocError>
    requires { length set.cvd.versions ≤ 65535 }
    ensures { IfOk result (λ after. after ≡ copied_more set) }
{
    let plan = copied_for(alloc, &set)?;
    Ok(Dataset { plan, ..set })
}

/// Those of these versions that aren't among the leaving ones.
fn staying(alloc: Global, leaving: &[u32], versions: &[u32]) -> Result<Items<u32>, AllocError>
    ensures { IfOk result (λ left. left ≡ filter (λ vid. not (is_one leaving.now vid)) versions.now) }
{
    match versions {
        [] => Ok(Items::new(alloc)),
        [vid, rest @ ..] => {
            let later = staying(alloc, leaving, rest)?;
            if is_one(leaving, *vid) {
                Ok(later)
            } else {
                onto(alloc, *vid, later)
            }
        }
    }
}

/// A partition without these versions.
fn leaving(alloc: Global, versions: &[u32], part: &Part) -> Result<Part, AllocError>
    ensures { IfOk result (λ left. left ≡ leaving versions.now part.now) }
{
    let left = part.copied(alloc)?;
    let versions = staying(alloc, versions, part.versions.as_slice())?;
    Ok(Part { versions, ..left })
}

/// The partitions without these versions, and without those that have no other version.
fn left_parts(alloc: Global, versions: &[u32], parts: &[Part]) -> Result<Items<Part>, AllocError>
    ensures { IfOk result (λ left. left ≡ left_parts versions.now parts.now) }
{
    match parts {
        [] => Ok(Items::new(alloc)),
        [part, rest @ ..] => {
            let later = left_parts(alloc, versions, rest)?;
            let left = leaving(alloc, versions, part)?;
            if left.versions.len() == 0 {
                Ok(later)
            } else {
                onto(alloc, left, later)
            }
        }
    }
}

/// The pieces of the current target: the kept ones and then the copied ones.
fn target_pieces(
    alloc: Global,
    set: &Dataset,
    target: &Target,
    plan: &Plan,
) -> Result<Items<Items<Rec>>, AllocError>
    ensures { IfOk result (λ pieces. pieces ≡ kept_pieces set.now target.now ++ plan.now.copied) }
{
    let kept = kept_pieces(alloc, set, target)?;
    both(kept, plan.copied.copied(alloc)?)
}

/// The current target as a partition: its pieces are the kept ones and then the copied ones.
fn target_part(alloc: Global, set: &Dataset, plan: &Plan) -> Result<Part, AllocError>
    ensures { IfOk result (λ part. part ≡ target_part set.now plan.now) }
{
    let target = current(alloc, plan)?;
    let pieces = target_pieces(alloc, set, &target, plan)?;
    let holds = Items::from_slice(alloc, target.versions.as_slice())?;
    Ok(Part {
        id: set.next_part,
        versions: target.versions,
        holds,
        pieces,
    })
}

/// The plan with the next target as the current one; none after the last one.
fn next_target(alloc: Global, plan: &Plan) -> Result<Option<Plan>, AllocError>
    requires { plan.now.at < 65535 }
    ensures { IfOk result (λ next. next ≡ next_target plan.now) }
{
    if (plan.at as usize) + 1 < plan.targets.len() {
        Ok(Some(Plan {
            p: plan.p,
            q: plan.q,
            targets: plan.targets.copied(alloc)?,
            at: plan.at + 1,
            copied: Items::new(alloc),
        }))
    } else {
        Ok(None)
    }
}

/// The partitions after a flip.
fn parts_after(alloc: Global, set: &Dataset, plan: &Plan) -> Result<Items<Part>, AllocError>
    ensures { IfOk result (λ parts. parts ≡ left_parts (current plan.now).versions set.now.parts ++ target_part set.now plan.now ∷ []) }
{
    let target = current(alloc, plan)?;
    let left = left_parts(alloc, target.versions.as_slice(), set.parts.as_slice())?;
    with_last(left, target_part(alloc, set, plan)?)
}

/// The dataset with the next partition's number taken.
fn with_parts(set: Dataset, parts: Items<Part>, plan: Option<Plan>) -> Dataset
    requires { set.next_part < 4294967295 }
    ensures { result ≡ record set { parts = parts; next_part = set.next_part + 1; plan = plan } }
{
    Dataset {
        parts,
        next_part: set.next_part + 1,
        plan,
        ..set
    }
}

/// The dataset after a flip: the current target is a partition, and its versions have left their old ones.
pub fn flipped(alloc: Global, set: Dataset) -> Result<Dataset, AllocError>
    requires number { set.next_part < 4294967295 }
    requires plan { IfSome set.plan (λ plan. plan.at < 65535) }
    ensures { IfOk result (λ after. after ≡ flipped set) }
{
    match &set.plan {
        None => Ok(set),
        Some(plan) => {
            let parts = parts_after(alloc, &set, plan)?;
            let next = next_target(alloc, plan)?;
            Ok(with_parts(set, parts, next))
        }
    }
}

/// The copies that so many records take, and the flip.
fn steps_for(count: usize) -> u128
    ensures is { result ≡ steps_for count }
    ensures few { result ≤ 2 ^ 64 }
{
    (count as u128 + 255) / 256 + 1
}

/// The steps of a target, for which these pieces were copied.
fn steps_of(
    alloc: Global,
    set: &Dataset,
    target: &Target,
    copied: &[Items<Rec>],
) -> Result<u128, AllocError>
    requires { length set.now.cvd.versions ≤ 65535 }
    ensures is { IfOk result (λ steps. steps ≡ steps_for (length (missing_of set.now target.now copied.now))) }
    ensures few { IfOk result (λ steps. steps ≤ 2 ^ 64) }
{
    let missing = missing_of(alloc, set, target, copied)?;
    Ok(steps_for(missing.len()))
}

/// The steps of these targets; `copied` are the pieces that were copied for the first one.
fn target_steps(
    alloc: Global,
    set: &Dataset,
    targets: &[Target],
    copied: &[Items<Rec>],
) -> Result<u128, AllocError>
    requires versions { length set.now.cvd.versions ≤ 65535 }
    requires targets { length targets.now ≤ 65535 }
    ensures is { IfOk result (λ steps. steps ≡ target_steps set.now targets.now copied.now) }
    ensures few { IfOk result (λ steps. steps ≤ length targets.now * 2 ^ 64) }
{
    match targets {
        [] => Ok(0),
        [target, rest @ ..] => {
            let steps = steps_of(alloc, set, target, copied)?;
            let later = target_steps(alloc, set, rest, &[])?;
            Ok(steps + later)
        }
    }
}

/// The targets that weren't flipped yet.
pub fn targets_from(at: u32, targets: &[Target]) -> &[Target]
    ensures is { result.now ≡ targets_from at targets.now }
    ensures few { length result.now ≤ length targets.now }
{
    match targets {
        [_, rest @ ..] if 0 < at => targets_from(at - 1, rest),
        _ => targets,
    }
}

/// The steps that a plan has left; none where no plan runs.
pub fn plan_steps(alloc: Global, set: &Dataset) -> Result<u128, AllocError>
    requires versions { length set.now.cvd.versions ≤ 65535 }
    requires targets { IfSome set.now.plan (λ plan. length plan.targets ≤ 65535) }
    ensures { IfOk result (λ steps. steps ≡ plan_steps set.now) }
{
    match &set.plan {
        None => Ok(0),
        Some(plan) => target_steps(
            alloc,
            set,
            targets_from(plan.at, plan.targets.as_slice()),
            plan.copied.as_slice(),
        ),
    }
}
