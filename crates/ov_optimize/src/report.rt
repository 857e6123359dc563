//! What an optimize tells.

ghost use Rattle.std.specs.Prelude.{◌≡◌, ◌≤◌, ◌+◌, ◌/◌, ◌^◌, ◌*◌, ℕ, map, length, All};
ghost use Rattle.ov_graph.specs.Splits as splits;
ghost use Rattle.ov_graph.specs.Trees.{IsSound};
ghost use Rattle.ov_lyre.specs.Parts.{lists_of};
ghost use Rattle.ov_model.specs.Plans.{steps_for as steps_for_by};
ghost use Rattle.ov_optimize.specs.Counting.{IsCounted, sizes_said, steps_said};

use ov_event::PlanTarget;
use ov_graph::Tree;
use ov_lyre::Split;

/// What an optimize tells: what will stand when its plan is done, and how many steps lead there.
#[derive(Clone, Copy, PartialEq, Eq)]
pub struct Report {
    /// The greatest number of cuts that lead to a part of the split.
    pub depth: u32,
    /// How many partitions there will be.
    pub partitions: u32,
    /// How many records they will keep together; one that two of them keep counts twice.
    pub stored: u64,
    /// How many records the versions add to their tree parents', over all versions.
    pub records: u64,
    /// How many records the versions have, over all versions.
    pub members: u64,
    /// What checkouts of each version will read: the sum over partitions of their versions times their records.
    pub cost: u64,
    /// How many migration steps the plan takes: a copy of each 256 records that a target doesn't keep, and the flips.
    pub steps: u64,
}

/// What the targets of a plan come to.
#[derive(Clone, Copy)]
struct Sums {
    stored: u64,
    cost: u64,
    steps: u64,
}

/// The steps of a target that lacks so many records.
fn steps_for(lacking: u32) -> u64
    ensures steps { result ≡ steps_for_by lacking }
    ensures few { result ≤ 2 ^ 25 }
{
    (u64::from(lacking) + 255) / 256 + 1
}

/// The sums over these targets, each of which will be the partition of a part.
fn sums_of(parts: &[Vec<u32>], targets: &[PlanTarget]) -> Sums
    requires few { length parts.now ≤ 65535 }
    requires short { All (λ part. length part.items ≤ 65535) parts.now }
    requires paired { length targets.now ≡ length parts.now }
    ensures stored { result.stored ≡ splits.stored (sizes_said (lists_of parts.now) targets.now) }
    ensures cost { result.cost ≡ splits.cost (sizes_said (lists_of parts.now) targets.now) }
    ensures steps { result.steps ≡ steps_said targets.now }
{
    let mut stored = 0;
    let mut cost = 0;
    let mut steps = 0;
    let mut at = targets.len();
    while 0 < at {
        at -= 1;
        let target = &targets[at];
        let size = u64::from(target.size);
        stored += size;
        cost += parts[at].len() as u64 * size;
        steps += steps_for(target.size.saturating_sub(target.kept_records));
    }
    Sums {
        stored,
        cost,
        steps,
    }
}

/// The report on a plan for this split of the tree. In the time of the versions and the targets.
pub(crate) fn report_of(tree: &Tree, split: &Split, targets: &[PlanTarget]) -> Report
    requires sound { IsSound tree.now.nodes.items }
    requires few { length split.now.parts.items ≤ 65535 }
    requires short { All (λ part. length part.items ≤ 65535) split.now.parts.items }
    requires paired { length targets.now ≡ length split.now.parts.items }
    ensures { (p q : ℕ) → split.now.depth ≡ splits.depth_of tree.now.nodes.items p q
        → IsCounted tree.now.nodes.items p q (lists_of split.now.parts.items) targets.now result }
{
    let sums = sums_of(&split.parts, targets);
    Report {
        depth: split.depth,
        partitions: split.parts.len() as u32,
        stored: sums.stored,
        records: tree.records(),
        members: tree.members(),
        cost: sums.cost,
        steps: sums.steps,
    }
}
