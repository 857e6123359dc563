//! Dividing a part at cuts that were made one after another.
//!
//! No cut lies under an earlier one. So the version that is cut off with a version is found by what its tree parent was
//! given, and one walk over the part gives each version to its side.

ghost use Rattle.std.specs.Prelude.{◌≡◌, ℕ, ◌<◌, ◌≤◌, List, length, slice_index, All, IfOk, []};
ghost use Rattle.ov_graph.specs.Trees.{IsSound, tree_of};
ghost use Rattle.ov_graph.specs.Splits.{IsPart, Has};
ghost use Rattle.ov_lyre.specs.Parts.{lists_of};
ghost use Rattle.ov_lyre.specs.Sums.{Stands};
ghost use Rattle.ov_lyre.specs.Sides.{AreInside, AreNumbered, cut_over, left, lowers, number_of, numbered};

use crate::sums::node_of;
use ov_graph::Node;
use std::alloc::{AllocError, Global};

/// The parts that cuts leave: the one with the old topmost version, and the one under each cut.
#[derive(Drop)]
pub struct Sides {
    pub above: Vec<u32>,
    pub below: Vec<Vec<u32>>,
}

/// Writes 0 at each version of a part.
fn clear(part: &[u32], numbers: &mut [u32])
    requires { (vid : ℕ) → Has part.now vid → vid < length numbers.old }
    ensures { Stands (λ _. 0) part.now numbers.new }
{
    for vid in part {
        numbers[*vid as usize] = 0;
    }
}

/// Writes the number of each cut at its version, where 0 stands at each version of the part. The last cut is number 1.
fn number(part: &[u32], cuts: &[u32], numbers: &mut [u32])
    requires few { length cuts.now ≤ 65535 }
    requires inside { (vid : ℕ) → Has cuts.now vid → vid < length numbers.old }
    requires clear { Stands (λ _. 0) part.now numbers.old }
    ensures { Stands (number_of cuts.now) part.now numbers.new }
{
    let mut at = cuts.len();
    while 0 < at {
        at -= 1;
        numbers[cuts[at] as usize] = (cuts.len() - at) as u32;
    }
}

/// Gives each version of a part that is no cut the number of its tree parent. From the least vid up, so this takes the time of the
/// part's versions.
fn inherit(nodes: &[Node], part: &[u32], numbers: &mut [u32])
    requires sound { IsSound nodes.now }
    requires part { IsPart (tree_of nodes.now) (length nodes.now) part.now }
    requires numbers { length nodes.now < length numbers.old }
    ensures { (cuts : List ℕ) → AreInside (tree_of nodes.now) part.now cuts → Stands (number_of cuts) part.now numbers.old → Stands (cut_over (tree_of nodes.now) cuts) part.now numbers.new }
{
    for at in 1..part.len() {
        let vid = part[at];
        let own = numbers[vid as usize];
        let above = numbers[node_of(nodes, vid).parent as usize];
        numbers[vid as usize] = if own == 0 { above } else { own };
    }
}

/// So many empty parts.
fn empty_parts(alloc: Global, count: usize) -> Result<Vec<Vec<u32>>, AllocError>
    ensures long { IfOk result (λ parts. length parts.items ≡ count) }
    ensures empty { IfOk result (λ parts. All (λ part. part.items ≡ []) parts.items) }
{
    let mut parts = Vec::with_capacity(alloc, count)?;
    for _ in 0..count {
        parts.push(Vec::new(alloc))?;
    }
    Ok(parts)
}

/// The versions of a part by their numbers: those of 0, those of the greatest, and so on down to those of 1.
fn apart(alloc: Global, part: &[u32], count: usize, numbers: &[u32]) -> Result<Sides, AllocError>
    requires there { (vid : ℕ) → Has part.now vid → vid < length numbers.now }
    requires within { (vid : ℕ) → Has part.now vid → slice_index numbers.now vid ≤ count }
    ensures above { IfOk result (λ sides. sides.above.items ≡ numbered numbers.now 0 part.now) }
    ensures long { IfOk result (λ sides. length sides.below.items ≡ count) }
    ensures below { IfOk result (λ sides. AreNumbered count numbers.now part.now (lists_of sides.below.items)) }
{
    let mut above = Vec::new(alloc);
    let mut below = empty_parts(alloc, count)?;
    for vid in part {
        let number = numbers[*vid as usize] as usize;
        if number == 0 {
            above.push(*vid)?;
        } else {
            below[count - number].push(*vid)?;
        }
    }
    Ok(Sides { above, below })
}

/// What cuts leave of a part, each an edge of what the earlier ones left: the part above them all, and the one under each.
/// In the time of the part's versions.
pub fn sides_of(
    alloc: Global,
    nodes: &[Node],
    part: &[u32],
    cuts: &[u32],
    numbers: &mut [u32],
) -> Result<Sides, AllocError>
    requires sound { IsSound nodes.now }
    requires part { IsPart (tree_of nodes.now) (length nodes.now) part.now }
    requires cuts { AreInside (tree_of nodes.now) part.now cuts.now }
    requires numbers { length nodes.now < length numbers.old }
    ensures above { IfOk result (λ sides. sides.above.items ≡ left (tree_of nodes.now) part.now cuts.now) }
    ensures below { IfOk result (λ sides. lists_of sides.below.items ≡ lowers (tree_of nodes.now) part.now cuts.now) }
{
    clear(part, numbers);
    number(part, cuts, numbers);
    inherit(nodes, part, numbers);
    apart(alloc, part, cuts.len(), numbers)
}
