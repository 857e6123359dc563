//! The table of thresholds.

ghost use Rattle.std.specs.Prelude.{◌≡◌, ◌≤◌, ◌<◌, length, map, All, IfOk};
ghost use Rattle.ov_graph.specs.Splits as splits;
ghost use Rattle.ov_graph.specs.Trees.{IsSound};
ghost use Rattle.ov_budget.specs.Sizes.{sizes_said};
ghost use Rattle.ov_budget.specs.Tables.{table as table_of};

use crate::sizes::{Sized, all_sized};
use ov_graph::Tree;
use ov_lyre::split;
use ov_member::Members;
use std::alloc::{AllocError, Global};

/// How many thresholds are tried: p / 100 for p from 1 to 100.
pub const LINES: u32 = 100;

/// What the split at a threshold comes to.
#[derive(Clone, Copy, PartialEq, Eq)]
pub struct Line {
    /// The greatest number of cuts that lead to a part.
    pub depth: u32,
    /// The number of parts.
    pub partitions: u32,
    /// How many records its tight partitions keep together; one that two of them keep counts twice.
    pub stored: u64,
    /// What checkouts of each version read then: the sum over partitions of their versions times their records.
    pub cost: u64,
}

/// The line of a split of this depth into these parts.
pub(crate) fn line_of(depth: u32, sized: &[Sized]) -> Line
    requires few { length sized.now ≤ 65535 }
    requires short { All (λ one. length one.part.items ≤ 65535) sized.now }
    ensures depth { result.depth ≡ depth }
    ensures partitions { result.partitions ≡ length sized.now }
    ensures stored { result.stored ≡ splits.stored (sizes_said sized.now) }
    ensures cost { result.cost ≡ splits.cost (sizes_said sized.now) }
{
    let mut stored = 0;
    let mut cost = 0;
    let mut at = sized.len();
    while 0 < at {
        at -= 1;
        let one = &sized[at];
        let size = u64::from(one.size);
        stored += size;
        cost += one.part.len() as u64 * size;
    }
    Line {
        depth,
        partitions: sized.len() as u32,
        stored,
        cost,
    }
}

/// The table of a dataset's thresholds: 100 lines, of which line p, at index p - 1, is the split of its tree at p / 100 with what its
/// tight partitions store and cost. The tree is sound and not empty; `lists` has the rids of each version, the first version's first.
///
/// It makes a hundred splits, one after another, and compares each one's parts with those of the split before: only a part that
/// isn't among these is united. So time goes by the splits, and by the ranges of the lists of all different parts times a logarithm;
/// memory by two splits and one union. Of 65,535 versions of 8 rows in six shapes it took 3 to 6 seconds, of 200 versions of 20,000
/// rows 0.1, and of 1,000 of them 0.7 as a random tree and 7 as a chain; the test `large_tables_are_made` of `test_budget` prints
/// some of these times anew.
pub fn table(alloc: Global, tree: &Tree, lists: &[Members]) -> Result<Vec<Line>, AllocError>
    requires sound { IsSound tree.now.nodes.items }
    requires some { 0 < length tree.now.nodes.items }
    requires listed { length lists.now ≡ length tree.now.nodes.items }
    ensures hundred { IfOk result (λ lines. length lines.items ≡ 100) }
    ensures lines { IfOk result (λ lines. lines.items ≡ table_of tree.now.nodes.items lists.now) }
{
    let mut lines = Vec::with_capacity(alloc, LINES as usize)?;
    let mut sized = Vec::new(alloc);
    for before in 0..LINES {
        let split = split(alloc, tree, before + 1, LINES)?;
        sized = all_sized(alloc, lists, split.parts, &sized)?;
        lines.push(line_of(split.depth, &sized))?;
    }
    Ok(lines)
}
