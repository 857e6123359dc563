//! The split of a whole tree.

ghost use Rattle.std.specs.Prelude.{◌≡◌, ◌<◌, ◌≤◌, length, IfOk};
ghost use Rattle.ov_graph.specs.Trees.{IsSound, tree_of, vids, all_records, all_members};
ghost use Rattle.ov_graph.specs.Splits.{first_of, parts_of, cut_edges_of, depth_of, IsDivision, AreBounded, sizes, HasSplitLaws};
ghost use Rattle.ov_lyre.specs.Parts.{lists_of};
ghost use Rattle.ov_lyre.specs.Orders.{IsSortedFrom};

use crate::choice::Threshold;
use crate::outcome::Split;
use crate::run::divided;
use ov_graph::Tree;
use std::alloc::{AllocError, Global};

/// The vids from 1 to a count.
fn all_vids(alloc: Global, count: usize) -> Result<Vec<u32>, AllocError>
    requires { count ≤ 65535 }
    ensures { IfOk result (λ all. all.items ≡ vids count) }
{
    let mut all = Vec::new(alloc);
    for vid in 0..count {
        all.push(vid as u32 + 1)?;
    }
    Ok(all)
}

fn first_vid(part: &[u32]) -> u32
    ensures { result ≡ first_of part.now }
{
    match part.first() {
        None => 0,
        Some(vid) => *vid,
    }
}

/// The same split with its parts and its cuts in order.
fn in_order(mut split: Split) -> Result<Split, AllocError>
    ensures parts { IfOk result (λ sorted. IsSortedFrom (λ part. first_of part.items) split.parts.items sorted.parts.items) }
    ensures cuts { IfOk result (λ sorted. IsSortedFrom (λ vid. vid) split.cuts.items sorted.cuts.items) }
    ensures depth { IfOk result (λ sorted. sorted.depth ≡ split.depth) }
{
    split.cuts.sort_by_key(|vid| *vid)?;
    split.parts.sort_by_key(|part| first_vid(part))?;
    Ok(split)
}

/// The split of a sound tree, of 1 to 65,535 versions, under the threshold p/q, from 1/1000000 to 1.
///
/// In the memory of a few numbers a version; in the order of n log n where cuts halve their parts, and of n times the root of n
/// at most.
pub fn split(alloc: Global, tree: &Tree, p: u32, q: u32) -> Result<Split, AllocError>
    requires from_one { 1 ≤ p }
    requires up_to_q { p ≤ q }
    requires up_to_a_million { q ≤ 1000000 }
    requires sound { IsSound tree.now.nodes.items }
    requires some { 0 < length tree.now.nodes.items }

    ensures parts { IfOk result (λ split. lists_of split.parts.items ≡ parts_of tree.now.nodes.items p q) }
    ensures cuts { IfOk result (λ split. split.cuts.items ≡ cut_edges_of tree.now.nodes.items p q) }
    ensures depth { IfOk result (λ split. split.depth ≡ depth_of tree.now.nodes.items p q) }

    // Each version is in one part, and each part stops.
    ensures division { IfOk result (λ split. IsDivision tree.now.nodes.items p q (lists_of split.parts.items)) }

    // What is stored and what it costs are bounded, with T and E of the tree.
    ensures bounds { IfOk result (λ split. AreBounded p q split.depth (all_records tree.now.nodes.items) (all_members tree.now.nodes.items) (sizes (tree_of tree.now.nodes.items) (lists_of split.parts.items))) }

    // Laws of splits: an edge exists in each part that doesn't stop, and a cut stores the shared records twice.
    ensures laws { HasSplitLaws (tree_of tree.now.nodes.items) (length tree.now.nodes.items) p q }
{
    let whole = all_vids(alloc, tree.nodes.len())?;
    let split = divided(alloc, &tree.nodes, Threshold { p, q }, whole)?;
    in_order(split)
}
