//! A plan begins.

ghost use Rattle.std.specs.Prelude.{◌≡◌, ◌≤◌, ◌<◌, ◌+◌, ◌^◌, ◌&&◌, length, map, take, find, nat_le, is_none, true, IfOk, All, None};
ghost use Rattle.ov_graph.specs.Versions.{reduced};
ghost use Rattle.ov_layout.specs.Parts.{Ascend};
ghost use Rattle.ov_lyre.specs.Parts.{lists_of};
ghost use Rattle.ov_catalog.specs.Answers.{Answers};
ghost use Rattle.ov_catalog.specs.Applying.{of_live};
ghost use Rattle.ov_catalog.specs.Events.{change, graph_of, numbered, planned, target_of, targets_of};
ghost use Rattle.ov_catalog.specs.Planning.{is_threshold as is_threshold_by, plan_off};
ghost use Rattle.ov_catalog.specs.Splitting.{IsSplitOf};
ghost use Rattle.ov_catalog.specs.Ready.{CanBegin, CanBeginIn, IsSet, said_by};
ghost use Rattle.ov_catalog.specs.Sets.{numbers_of, set_in, sets_in, target_in, version_in};

use crate::cvd::{Cvd, Plan, Target, Version};
use crate::error::ApplyErr;
use crate::field::Field;
use crate::finding::place_of;
use crate::parents::heaviest;
use crate::refusing::unless;
use crate::targets::are_targets;
use ov_event::{Items, PlanTarget};
use ov_graph::{Node, Tree};
use ov_lyre::{Split, split};
use std::alloc::{AllocError, Global};

/// No plan begins where the next partition's number is greater, so that numbers are left for its targets and later versions.
const MOST_NEXT: u32 = 4_294_000_000;

/// Whether it is a threshold p / q.
pub fn is_threshold(p: u32, q: u32) -> bool
    ensures { result ≡ is_threshold_by p q }
{
    1 <= p && p <= q && q <= 1_000_000
}

/// The reduced tree of a dataset's versions.
fn tree_of(alloc: Global, versions: &[Version]) -> Result<Tree, AllocError>
    ensures { IfOk result (λ tree. tree.nodes.items ≡ reduced (graph_of (map version_in versions.now))) }
{
    let mut nodes = Vec::new(alloc);
    for version in versions {
        let (parent, weight) = heaviest(version.parents.as_slice());
        nodes.push(Node {
            records: version.rows,
            parent,
            weight,
        })?;
    }
    Ok(Tree { nodes })
}

fn target_of(alloc: Global, versions: &[u32], said: &PlanTarget) -> Result<Target, AllocError>
    ensures { IfOk result (λ t. (target_in t ≡ target_of versions.now said.now) × (said_by t ≡ said.now)) }
{
    Ok(Target {
        versions: Items::new(Vec::from_slice(alloc, versions)?),
        size: said.size,
        source: said.source,
        kept: Items::new(Vec::from_slice(alloc, said.kept.as_slice())?),
        kept_records: said.kept_records,
    })
}

/// The targets: what is said of each part of a split.
fn targets_for(
    alloc: Global,
    parts: &[Vec<u32>],
    said: &[PlanTarget],
) -> Result<Vec<Target>, AllocError>
    requires { length said.now ≡ length parts.now }
    ensures targets { IfOk result (λ targets. map target_in targets.items ≡ targets_of (lists_of parts.now) said.now) }
    ensures said { IfOk result (λ targets. map said_by targets.items ≡ said.now) }
{
    let mut targets = Vec::new(alloc);
    for at in 0..parts.len() {
        targets.push(target_of(alloc, &parts[at], &said[at])?)?;
    }
    Ok(targets)
}

fn may_begin(d: &Cvd, p: u32, q: u32) -> bool
    ensures { result ≡ (is_none d.now.plan && (is_threshold_by p q && nat_le d.now.layout.next 4294000000)) }
{
    d.plan.is_none() && is_threshold(p, q) && d.layout.next_id() <= MOST_NEXT
}

fn split_of(alloc: Global, d: &Cvd, p: u32, q: u32) -> Result<Split, AllocError>
    requires set { IsSet d.now }
    requires threshold { is_threshold_by p q ≡ true }
    ensures { IfOk result (λ split. IsSplitOf (set_in d.now) p q (lists_of split.parts.items)) }
{
    let tree = tree_of(alloc, &d.versions)?;
    let split = split(alloc, &tree, p, q)?;
    Ok(split)
}

/// The plan that an event begins in a dataset, if it may.
fn plan_for(alloc: Global, d: &Cvd, p: u32, q: u32, said: &[PlanTarget]) -> Result<Plan, ApplyErr>
    requires { IsSet d.now }
    ensures answer { Answers result (plan_off p q said.now (set_in d.now)) }
    ensures plan { IfOk result (λ plan. (plan.p ≡ p) × (plan.q ≡ q) × (map said_by plan.targets ≡ said.now)) }
    ensures begins { IfOk result (λ plan. CanBegin plan d.now) }
{
    unless(may_begin(d, p, q), Field::Plan)?;
    let split = split_of(alloc, d, p, q)?;
    unless(said.len() == split.parts.len(), Field::Count)?;
    let targets = targets_for(alloc, &split.parts, said)?;
    unless(are_targets(alloc, d, &targets)?, Field::Count)?;
    let _ = d.layout.parts();
    Ok(Plan {
        p,
        q,
        targets: Items::new(targets),
        at: 0,
        copied: 0,
        segments: Vec::new(alloc),
    })
}

/// Makes the plan that an event begins in the dataset with this number, if it may.
pub fn room_for_plan(
    alloc: Global,
    sets: &[Cvd],
    cvd: u32,
    p: u32,
    q: u32,
    said: &[PlanTarget],
) -> Result<Plan, ApplyErr>
    requires ascend { Ascend 0 (numbers_of sets.now) }
    requires sound { All IsSet sets.now }
    ensures answer { Answers result (of_live (plan_off p q said.now) (find (numbered cvd) (sets_in sets.now))) }
    ensures plan { IfOk result (λ plan. (plan.p ≡ p) × (plan.q ≡ q) × (map said_by plan.targets ≡ said.now)) }
    ensures begins { IfOk result (λ plan. All (CanBeginIn cvd plan) sets.now) }
{
    let Some(at) = place_of(sets, cvd) else {
        return Err(ApplyErr::NotNext {
            field: Field::Number,
        });
    };
    plan_for(alloc, &sets[at], p, q, said)
}

// The plan begins.
fn begin(d: &mut Cvd, plan: Plan)
    requires set { IsSet d.old }
    requires can { CanBegin plan d.old }
    ensures planned { set_in d.new ≡ planned plan.p plan.q (map said_by plan.targets) (set_in d.old) }
    ensures set { IsSet d.new }
{
    d.threshold = Some((plan.p, plan.q));
    d.plan = Some(plan);
}

/// The plan begins in the dataset with this number. Takes no memory.
pub fn begin_plan(sets: &mut [Cvd], cvd: u32, plan: Plan)
    requires ascend { Ascend 0 (numbers_of sets.old) }
    requires sound { All IsSet sets.old }
    requires begins { All (CanBeginIn cvd plan) sets.old }
    ensures planned { sets_in sets.new ≡ change cvd (planned plan.p plan.q (map said_by plan.targets)) (sets_in sets.old) }
    ensures numbers { numbers_of sets.new ≡ numbers_of sets.old }
    ensures sound { All IsSet sets.new }
{
    if let Some(at) = place_of(sets, cvd) {
        begin(&mut sets[at], plan);
    }
}
