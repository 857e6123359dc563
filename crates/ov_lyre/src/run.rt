//! Dividing part after part, without recursion.

ghost use Rattle.std.specs.Prelude.{◌≡◌, ◌+◌, ◌<◌, ◌≤◌, [], ◌∷◌, ◌++◌, List, ℕ, length, max, None, OnOk, IfOk};
ghost use Rattle.ov_graph.specs.Trees.{IsSound, tree_of};
ghost use Rattle.ov_graph.specs.Splits.{IsPart, cuts_of, leaves, cut_vids, depth, next_cut_of};
ghost use Rattle.ov_lyre.specs.Parts.{lists_of};
ghost use Rattle.ov_lyre.specs.Runs.{piece_of, pieces_of, waiting, RunLeads, pieces_left};
ghost use Rattle.ov_lyre.specs.Sides.{AreNext};

use crate::choice::{Threshold, next_cut};
use crate::outcome::Split;
use crate::peeling::{Summed, peel};
use crate::sides::{Sides, sides_of};
use crate::sums::{add_totals, add_up, fill_members};
use ov_graph::Node;
use std::alloc::{AllocError, Global};

/// A part that waits to be looked at, and how many cuts have led to it.
#[derive(Drop)]
pub struct Piece {
    pub part: Vec<u32>,
    pub level: u32,
}

/// A split that is under way: the parts that wait, the last of which comes next, and what is found so far.
#[derive(Drop)]
pub struct Run {
    pub work: Vec<Piece>,
    pub split: Split,
}

/// Arrays by vid, in which the sums and the sides of one part after another are made.
#[derive(Drop)]
pub struct Scratch {
    pub counts: Vec<u64>,
    pub sums: Vec<u64>,
    pub members: Vec<u64>,
    pub numbers: Vec<u32>,
}

impl Scratch {
    fn new(alloc: Global, nodes: &[Node]) -> Result<Scratch, AllocError>
        requires { length nodes.now ≤ 65535 }
        ensures counts { IfOk result (λ scratch. length scratch.counts.items ≡ length nodes.now + 1) }
        ensures sums { IfOk result (λ scratch. length scratch.sums.items ≡ length nodes.now + 1) }
        ensures members { IfOk result (λ scratch. length scratch.members.items ≡ length nodes.now + 1) }
        ensures numbers { IfOk result (λ scratch. length scratch.numbers.items ≡ length nodes.now + 1) }
    {
        let len = nodes.len() + 1;
        let counts = vec![in alloc; 0; len]?;
        let sums = vec![in alloc; 0; len]?;
        let members = vec![in alloc; 0; len]?;
        let numbers = vec![in alloc; 0; len]?;
        Ok(Scratch {
            counts,
            sums,
            members,
            numbers,
        })
    }
}

/// Takes a part into the split.
fn set_aside(piece: Piece, run: &mut Run) -> Result<(), AllocError>
    ensures work { OnOk result (pieces_of run.new.work.items ≡ pieces_of run.old.work.items) }
    ensures parts { OnOk result (lists_of run.new.split.parts.items ≡ lists_of run.old.split.parts.items ++ piece.part.items ∷ []) }
    ensures cuts { OnOk result (run.new.split.cuts.items ≡ run.old.split.cuts.items) }
    ensures depth { OnOk result (run.new.split.depth ≡ max run.old.split.depth piece.level) }
{
    run.split.depth = run.split.depth.max(piece.level);
    run.split.parts.push(piece.part)?;
    Ok(())
}

/// Takes cuts into the split, and lets their sides wait, the one above them all to come next.
fn divide(cuts: &[u32], level: u32, sides: Sides, run: &mut Run) -> Result<(), AllocError>
    requires level { level + length sides.below.items ≤ 65535 }
    ensures work { OnOk result (pieces_of run.new.work.items ≡ (pieces_of run.old.work.items ++ waiting level (lists_of sides.below.items)) ++ (sides.above.items, level + length sides.below.items) ∷ []) }
    ensures parts { OnOk result (lists_of run.new.split.parts.items ≡ lists_of run.old.split.parts.items) }
    ensures cuts { OnOk result (run.new.split.cuts.items ≡ run.old.split.cuts.items ++ cuts.now) }
    ensures depth { OnOk result (run.new.split.depth ≡ run.old.split.depth) }
{
    run.split.cuts.extend_from_slice(cuts)?;
    let mut level = level;
    for part in sides.below {
        level += 1;
        run.work.push(Piece { part, level })?;
    }
    run.work.push(Piece {
        part: sides.above,
        level,
    })?;
    Ok(())
}

/// The next cuts of a part, one after another; none where it stops. There is one cut where it halves the part, more or less, since few
/// edges then have as many versions under them. The arrays by vid may hold anything before.
fn next_cuts(
    alloc: Global,
    nodes: &[Node],
    threshold: Threshold,
    part: &[u32],
    counts: &mut [u64],
    sums: &mut [u64],
    members: &mut [u64],
) -> Result<Vec<u32>, AllocError>
    requires sound { IsSound nodes.now }
    requires threshold { threshold.p ≤ threshold.q }
    requires part { IsPart (tree_of nodes.now) (length nodes.now) part.now }
    requires counts { length nodes.now < length counts.old }
    requires sums { length nodes.now < length sums.old }
    requires members { length nodes.now < length members.old }
    ensures next { IfOk result (λ cuts. AreNext (tree_of nodes.now) threshold.p threshold.q part.now cuts.items) }
    ensures none { IfOk result (λ cuts. cuts.items ≡ [] → next_cut_of (tree_of nodes.now) threshold.p threshold.q part.now ≡ None) }
{
    let mut cuts = Vec::new(alloc);
    let Some(child) = next_cut(nodes, part, threshold, counts, sums) else {
        return Ok(cuts);
    };
    if 8 * counts[child as usize] > part.len() as u64 {
        cuts.push(child)?;
        return Ok(cuts);
    }
    let totals = add_totals(nodes, part);
    fill_members(nodes, part, members);
    add_up(nodes, part, members);
    let summed = Summed {
        nodes,
        part,
        totals,
        counts,
        fresh: sums,
        members,
    };
    peel(alloc, &summed, threshold, child)
}

/// Looks at a part that has waited: it stops, or it is cut, once or more often, and what the cuts leave waits.
fn advance(
    alloc: Global,
    nodes: &[Node],
    threshold: Threshold,
    piece: Piece,
    run: &mut Run,
    scratch: &mut Scratch,
) -> Result<(), AllocError>
    requires sound { IsSound nodes.now }
    requires threshold { threshold.p ≤ threshold.q }
    requires part { IsPart (tree_of nodes.now) (length nodes.now) piece.part.items }
    requires level { piece.level + length piece.part.items ≤ length nodes.now }
    requires counts { length nodes.now < length scratch.old.counts.items }
    requires sums { length nodes.now < length scratch.old.sums.items }
    requires members { length nodes.now < length scratch.old.members.items }
    requires numbers { length nodes.now < length scratch.old.numbers.items }
    ensures leads { OnOk result ((whole : List ℕ) → RunLeads (tree_of nodes.now) (length nodes.now) threshold.p threshold.q whole (pieces_of run.old.work.items ++ piece_of piece ∷ []) run.old → RunLeads (tree_of nodes.now) (length nodes.now) threshold.p threshold.q whole (pieces_of run.new.work.items) run.new) }
    ensures fewer { OnOk result (pieces_left (pieces_of run.new.work.items) < pieces_left (pieces_of run.old.work.items ++ piece_of piece ∷ [])) }
    ensures counts { OnOk result (length scratch.new.counts.items ≡ length scratch.old.counts.items) }
    ensures sums { OnOk result (length scratch.new.sums.items ≡ length scratch.old.sums.items) }
    ensures members { OnOk result (length scratch.new.members.items ≡ length scratch.old.members.items) }
    ensures numbers { OnOk result (length scratch.new.numbers.items ≡ length scratch.old.numbers.items) }
{
    let cuts = next_cuts(
        alloc,
        nodes,
        threshold,
        &piece.part,
        &mut scratch.counts,
        &mut scratch.sums,
        &mut scratch.members,
    )?;
    if cuts.is_empty() {
        return set_aside(piece, run);
    }
    let sides = sides_of(alloc, nodes, &piece.part, &cuts, &mut scratch.numbers)?;
    divide(&cuts, piece.level, sides, run)
}

/// The split of a part, with its parts and cuts in the order in which they are found. A part is gone over once for all cuts of it
/// that take the same number of versions off, and from n versions fewer than the root of 2 n such numbers can be
/// taken.
pub fn divided(
    alloc: Global,
    nodes: &[Node],
    threshold: Threshold,
    whole: Vec<u32>,
) -> Result<Split, AllocError>
    requires sound { IsSound nodes.now }
    requires threshold { threshold.p ≤ threshold.q }
    requires part { IsPart (tree_of nodes.now) (length nodes.now) whole.items }
    ensures parts { IfOk result (λ split. lists_of split.parts.items ≡ leaves (cuts_of (tree_of nodes.now) threshold.p threshold.q whole.items)) }
    ensures cuts { IfOk result (λ split. split.cuts.items ≡ cut_vids (cuts_of (tree_of nodes.now) threshold.p threshold.q whole.items)) }
    ensures depth { IfOk result (λ split. split.depth ≡ depth (cuts_of (tree_of nodes.now) threshold.p threshold.q whole.items)) }
{
    let mut scratch = Scratch::new(alloc, nodes)?;
    let mut run = Run {
        work: Vec::new(alloc),
        split: Split {
            parts: Vec::new(alloc),
            depth: 0,
            cuts: Vec::new(alloc),
        },
    };
    run.work.push(Piece {
        part: whole,
        level: 0,
    })?;
    while let Some(piece) = run.work.pop() {
        advance(alloc, nodes, threshold, piece, &mut run, &mut scratch)?;
    }
    Ok(run.split)
}
