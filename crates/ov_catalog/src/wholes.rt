//! A dataset of a snapshot, from the Whole that says it.

ghost use Rattle.std.specs.Prelude.{◌≡◌, ◌&&◌, ℕ, None, true, IfOk};
ghost use Rattle.ov_catalog.specs.Answers.{Answers};
ghost use Rattle.ov_catalog.specs.Drafts.{draft_in, draft_off};
ghost use Rattle.ov_catalog.specs.Raw.{shape_in, threshold_in, whole_in};
ghost use Rattle.ov_catalog.specs.Ready.{IsSet};
ghost use Rattle.ov_catalog.specs.Sets.{plan_in, set_in, sets_in};
ghost use Rattle.ov_catalog.specs.Thresholds.{IsSaid};
ghost use Rattle.ov_catalog.specs.Wholes.{are_parts as are_parts_by, is_plan as is_plan_by, is_threshold_for, whole_off};

use crate::cvd::Cvd;
use crate::draft::{Draft, draft_of};
use crate::error::ApplyErr;
use crate::field::Field;
use crate::init::is_free;
use crate::refusing::unless;
use crate::schemas::schema_from;
use crate::whole_parts::{are_parts, are_placed};
use crate::whole_plans::{has_threshold, is_plan};
use crate::whole_versions::{are_messages, are_records, are_versions};
use ov_event::Whole;
use ov_layout::Layout;
use ov_value::Schema;
use std::alloc::{AllocError, Global};

// Whether the threshold may be, and the plan run.
fn has_plan(alloc: Global, d: &Draft) -> Result<bool, AllocError>
    requires { are_parts_by (draft_in d.now) ≡ true }
    ensures { IfOk result (λ may. may ≡ (is_threshold_for d.now.p d.now.q (plan_in d.now.plan) && is_plan_by (draft_in d.now) (plan_in d.now.plan))) }
{
    if !has_threshold(d) {
        return Ok(false);
    }
    is_plan(alloc, d)
}

// Whether what a Whole says may be a dataset, but for its name and its schema.
fn check(alloc: Global, d: &Draft) -> Result<(), ApplyErr>
    ensures { Answers result (draft_off d.now.p d.now.q (draft_in d.now)) }
{
    unless(are_versions(alloc, &d.versions)?, Field::Parent)?;
    unless(are_messages(&d.versions), Field::Message)?;
    unless(are_records(d), Field::Rows)?;
    unless(are_parts(alloc, d)?, Field::Placing)?;
    unless(has_plan(alloc, d)?, Field::Plan)?;
    unless(are_placed(d), Field::Place)
}

// 0 and 0 are no threshold.
fn threshold_of(p: u32, q: u32) -> Option<(u32, u32)>
    ensures { result ≡ threshold_in p q }
{
    if p == 0 && q == 0 { None } else { Some((p, q)) }
}

// The dataset of a draft that was tested.
fn set_of(alloc: Global, schema: Schema, d: Draft) -> Result<Cvd, AllocError>
    requires schema { schema ≡ shape_in d.schema }
    requires may { draft_off d.p d.q (draft_in d) ≡ None }
    requires said { IsSaid (threshold_in d.p d.q) (plan_in d.plan) }
    ensures made { IfOk result (λ made. set_in made ≡ draft_in d) }
    ensures set { IfOk result IsSet }
{
    let Draft {
        number,
        name,
        records,
        p,
        q,
        next,
        versions,
        parts,
        plan,
        ..
    } = d;
    let layout = Layout::of(alloc, parts, next)?;
    Ok(Cvd {
        number,
        name,
        schema,
        versions,
        layout,
        threshold: threshold_of(p, q),
        plan,
        records,
    })
}

/// The dataset that a Whole says, if it may stand beside those before it. How many datasets began before doesn't matter.
pub fn restored(alloc: Global, sets: &[Cvd], said: Whole) -> Result<Cvd, ApplyErr>
    ensures answer { (next : ℕ) → Answers result (whole_off said (whole_in said) (record { next = next; sets = sets_in sets.now })) }
    ensures made { IfOk result (λ d. set_in d ≡ whole_in said) }
    ensures set { IfOk result IsSet }
{
    unless(is_free(sets, &said.name), Field::Name)?;
    let schema = schema_from(alloc, &said.schema)?;
    let draft = draft_of(alloc, said)?;
    check(alloc, &draft)?;
    let d = set_of(alloc, schema, draft)?;
    Ok(d)
}
