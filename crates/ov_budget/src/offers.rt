//! The table of thresholds for a budget, with the split of the threshold that the budget chooses.

ghost use Rattle.std.specs.Prelude.{◌≡◌, ◌≤◌, ◌<◌, List, length, map, nat_le, if◌then◌else◌, Some, None, IfOk, IfSome, MatchResult};
ghost use Rattle.std.specs.Option.{option_map};
ghost use Rattle.ov_graph.specs.Trees.{IsSound};
ghost use Rattle.ov_graph.specs.declared.nodes.Node.{Node};
ghost use Rattle.ov_lyre.specs.Parts.{lists_of};
ghost use Rattle.ov_budget.specs.Choices.{better_of, choice, least_of};
ghost use Rattle.ov_budget.specs.Offers.{IsOffer, IsSplitAt, numbered};
ghost use Rattle.ov_budget.specs.Sizes.{part_of};
ghost use Rattle.ov_budget.specs.Tables.{table as table_of};

use crate::choosing::{NoThreshold, is_better, least_of};
use crate::sizes::{Sized, all_sized};
use crate::thresholds::{LINES, Line, line_of};
use ov_graph::Tree;
use ov_lyre::{Split, split};
use ov_member::Members;
use std::alloc::{AllocError, Global};

/// A threshold p / 100 with its line and its split.
#[derive(Drop)]
pub struct Offer {
    pub p: u32,
    pub line: Line,
    pub split: Split,
}

/// The table of a dataset's thresholds, and the one that a budget chooses.
#[derive(Drop)]
pub struct Offers {
    /// 100 lines, of which line p stands at index p - 1.
    pub lines: Vec<Line>,
    /// The one with the least cost among those that store at most the budget, ties to the least stored and then to the least p; or
    /// that all store more.
    pub best: Result<Offer, NoThreshold>,
}

/// Copies of these parts, without their sizes.
fn parts_of(alloc: Global, sized: &[Sized]) -> Result<Vec<Vec<u32>>, AllocError>
    ensures { IfOk result (λ parts. lists_of parts.items ≡ map part_of sized.now) }
{
    let mut parts = Vec::with_capacity(alloc, sized.len())?;
    for one in sized {
        parts.push(Vec::from_slice(alloc, &one.part)?)?;
    }
    Ok(parts)
}

/// A threshold that is tried: its line, and the cuts and the parts of its split.
#[derive(Drop)]
struct Tried<'a> {
    p: u32,
    line: Line,
    cuts: Vec<u32>,
    sized: &'a [Sized],
}

/// What a threshold that was tried offers. Its parts are copied, since they are compared with those of the next one.
fn offer_of(alloc: Global, tried: Tried) -> Result<Offer, AllocError>
    ensures number { IfOk result (λ offer. numbered offer ≡ (tried.entry.p, tried.entry.line)) }
    ensures split { (nodes : List Node) → IsSplitAt nodes tried.entry.p tried.entry.line.depth (map part_of tried.entry.sized.now) → IfOk result (IsOffer nodes) }
{
    let Tried {
        p,
        line,
        cuts,
        sized,
    } = tried;
    let parts = parts_of(alloc, sized)?;
    let depth = line.depth;
    let split = Split { parts, depth, cuts };
    Ok(Offer { p, line, split })
}

/// Of a threshold and the best one of those behind it the better one within the budget, ties to the first.
fn better_of(
    alloc: Global,
    budget: u64,
    tried: Tried,
    behind: Option<Offer>,
) -> Result<Option<Offer>, AllocError>
    ensures best { IfOk result (λ best. option_map numbered best ≡ (if nat_le tried.entry.line.stored budget then Some (better_of (tried.entry.p, tried.entry.line) (option_map numbered behind)) else option_map numbered behind)) }
    ensures split { (nodes : List Node) → IsSplitAt nodes tried.entry.p tried.entry.line.depth (map part_of tried.entry.sized.now) → IfSome behind (IsOffer nodes)
        → IfOk result (λ best. IfSome best (IsOffer nodes)) }
{
    if budget < tried.line.stored {
        return Ok(behind);
    }
    match behind {
        Some(offer) if is_better(&offer.line, &tried.line) => Ok(Some(offer)),
        _ => Ok(Some(offer_of(alloc, tried)?)),
    }
}

/// The table of a dataset's thresholds, as [`table`](crate::table) makes it, and the threshold that a budget chooses, as
/// [`pick`](crate::pick) does, with the parts of its split, so that a plan which begins at it makes no split again.
///
/// It goes from 100 / 100 down, so that it keeps one split beside those that it compares: that of the best threshold so far. Time and
/// memory are those of the table, and of a copy of the parts each time that a threshold is better than those above it.
pub fn table_within(
    alloc: Global,
    tree: &Tree,
    lists: &[Members],
    budget: u64,
) -> Result<Offers, AllocError>
    requires sound { IsSound tree.now.nodes.items }
    requires some { 0 < length tree.now.nodes.items }
    requires listed { length lists.now ≡ length tree.now.nodes.items }
    ensures hundred { IfOk result (λ made. length made.lines.items ≡ 100) }
    ensures lines { IfOk result (λ made. made.lines.items ≡ table_of tree.now.nodes.items lists.now) }
    ensures best { IfOk result (λ made. MatchResult made.best
        (λ offer. choice budget made.lines.items ≡ Some (numbered offer))
        (λ none. (choice budget made.lines.items ≡ None) × (none.least ≡ least_of made.lines.items))) }
    ensures split { IfOk result (λ made. IfOk made.best (IsOffer tree.now.nodes.items)) }
{
    let mut lines = Vec::with_capacity(alloc, LINES as usize)?;
    let mut sized = Vec::new(alloc);
    let mut best = None;
    let mut p = LINES;
    while 0 < p {
        let Split { parts, depth, cuts } = split(alloc, tree, p, LINES)?;
        sized = all_sized(alloc, lists, parts, &sized)?;
        let line = line_of(depth, &sized);
        lines.push(line)?;
        let tried = Tried {
            p,
            line,
            cuts,
            sized: &sized,
        };
        best = better_of(alloc, budget, tried, best)?;
        p -= 1;
    }
    lines.reverse();
    let best = match best {
        Some(offer) => Ok(offer),
        None => Err(NoThreshold {
            least: least_of(&lines),
        }),
    };
    Ok(Offers { lines, best })
}
