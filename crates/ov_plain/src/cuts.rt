//! The cuts of a part, one within another.

ghost use Rattle.std.specs.Prelude.{◌≡◌, ◌++◌, ◌≤◌, [], ◌∷◌, length, IfOk, OnOk};
ghost use Rattle.ov_graph.specs.Trees.{tree_of};
ghost use Rattle.ov_graph.specs.Splits.{upper, lower, edges, stops, may_cut, versions_apart, records_apart, comes_first, better, chosen_among, chosen, next_cut_of, cuts_within, leaves, cut_vids, depth};
ghost use Rattle.ov_lyre.specs.Parts.{lists_of};

use crate::tree::{is_under, members, node_at, records};
use ov_graph::Node;
use std::alloc::{AllocError, Global};

/// The threshold p/q of a split.
#[derive(Clone, Copy)]
pub struct Threshold {
    pub p: u32,
    pub q: u32,
}

/// The parts that stop, and the vids whose edges are cut, in the order in which they are found.
#[derive(Drop)]
pub struct Found {
    pub parts: Vec<Vec<u32>>,
    pub cuts: Vec<u32>,
}

/// The versions of a part that don't lie under `vid`.
fn upper(alloc: Global, nodes: &[Node], vid: u32, part: &[u32]) -> Result<Vec<u32>, AllocError>
    ensures is { IfOk result (λ above. above.items ≡ upper (tree_of nodes.now) vid part.now) }
    ensures few { IfOk result (λ above. length above.items ≤ length part.now) }
{
    let mut above = Vec::new(alloc);
    for version in part {
        if !is_under(nodes, vid, *version) {
            above.push(*version)?;
        }
    }
    Ok(above)
}

/// The versions of a part that lie under `vid`.
fn lower(alloc: Global, nodes: &[Node], vid: u32, part: &[u32]) -> Result<Vec<u32>, AllocError>
    ensures is { IfOk result (λ below. below.items ≡ lower (tree_of nodes.now) vid part.now) }
    ensures few { IfOk result (λ below. length below.items ≤ length part.now) }
{
    let mut below = Vec::new(alloc);
    for version in part {
        if is_under(nodes, vid, *version) {
            below.push(*version)?;
        }
    }
    Ok(below)
}

/// Whether a part stops: p * R * V <= q * E.
#[tactic(auto, unfolding(ov_graph::specs::Splits::stops))]
fn stops(nodes: &[Node], threshold: Threshold, part: &[u32]) -> bool
    requires { length part.now ≤ 65535 }
    ensures { result ≡ stops (tree_of nodes.now) threshold.p threshold.q part.now }
{
    threshold.p as u128 * records(nodes, part) as u128 * part.len() as u128
        <= threshold.q as u128 * members(nodes, part) as u128
}

/// Whether an edge may be cut: q * w <= p * R.
#[tactic(auto, unfolding(ov_graph::specs::Splits::may_cut))]
fn may_cut(nodes: &[Node], threshold: Threshold, part: &[u32], vid: u32) -> bool
    requires { length part.now ≤ 65535 }
    ensures { result ≡ may_cut (tree_of nodes.now) threshold.p threshold.q part.now vid }
{
    threshold.q as u128 * node_at(nodes, vid).weight as u128
        <= threshold.p as u128 * records(nodes, part) as u128
}

/// How far the two parts that a cut leaves are apart.
#[derive(Clone, Copy)]
struct Apart {
    versions: u64,
    records: u64,
}

/// How far the two parts are apart that are left when the edge of `vid` is cut.
#[tactic(auto, unfolding(ov_graph::specs::Splits::versions_apart, ov_graph::specs::Splits::records_apart))]
fn gap(alloc: Global, nodes: &[Node], part: &[u32], vid: u32) -> Result<Apart, AllocError>
    requires { length part.now ≤ 65535 }
    ensures versions { IfOk result (λ apart. apart.versions ≡ versions_apart (tree_of nodes.now) part.now vid) }
    ensures records { IfOk result (λ apart. apart.records ≡ records_apart (tree_of nodes.now) part.now vid) }
{
    let above = upper(alloc, nodes, vid, part)?;
    let below = lower(alloc, nodes, vid, part)?;
    Ok(Apart {
        versions: (above.len() as u64).abs_diff(below.len() as u64),
        records: records(nodes, &above).abs_diff(records(nodes, &below)),
    })
}

/// Whether a cut is taken before another one, of a greater vid.
fn comes_first(own: Apart, other: Apart) -> bool
    ensures { result ≡ comes_first own.versions own.records other.versions other.records }
{
    own.versions < other.versions
        || (own.versions == other.versions && own.records <= other.records)
}

/// The better one of a vid and of what was chosen among greater ones.
fn better(
    alloc: Global,
    nodes: &[Node],
    part: &[u32],
    vid: u32,
    chosen: Option<u32>,
) -> Result<Option<u32>, AllocError>
    requires { length part.now ≤ 65535 }
    ensures { IfOk result (λ kept. kept ≡ better (tree_of nodes.now) part.now vid chosen) }
{
    match chosen {
        None => Ok(Some(vid)),
        Some(other) => {
            let own = gap(alloc, nodes, part, vid)?;
            let others = gap(alloc, nodes, part, other)?;
            if comes_first(own, others) {
                Ok(Some(vid))
            } else {
                Ok(Some(other))
            }
        }
    }
}

/// Among these ascending vids, of those that may be cut, the one to cut.
fn chosen_among(
    alloc: Global,
    nodes: &[Node],
    threshold: Threshold,
    part: &[u32],
    vids: &[u32],
) -> Result<Option<u32>, AllocError>
    requires { length part.now ≤ 65535 }
    ensures { IfOk result (λ chosen. chosen ≡ chosen_among (tree_of nodes.now) threshold.p threshold.q part.now vids.now) }
{
    match vids {
        [] => Ok(None),
        [vid, rest @ ..] => {
            let chosen = chosen_among(alloc, nodes, threshold, part, rest)?;
            if may_cut(nodes, threshold, part, *vid) {
                better(alloc, nodes, part, *vid, chosen)
            } else {
                Ok(chosen)
            }
        }
    }
}

/// The versions that have an edge inside the part.
fn edges(part: &[u32]) -> &[u32]
    ensures { result.now ≡ edges part.now }
{
    match part {
        [] => part,
        [_, rest @ ..] => rest,
    }
}

/// The edge at which a part is cut next, by the vid of its child; `None` where the part stops.
#[tactic(auto, unfolding(ov_graph::specs::Splits::chosen))]
fn next_cut(
    alloc: Global,
    nodes: &[Node],
    threshold: Threshold,
    part: &[u32],
) -> Result<Option<u32>, AllocError>
    requires { length part.now ≤ 65535 }
    ensures { IfOk result (λ next. next ≡ next_cut_of (tree_of nodes.now) threshold.p threshold.q part.now) }
{
    if stops(nodes, threshold, part) {
        return Ok(None);
    }
    chosen_among(alloc, nodes, threshold, part, edges(part))
}

/// Adds a part that stops, whose depth is 0.
fn add_part(alloc: Global, part: &[u32], found: &mut Found) -> Result<u32, AllocError>
    ensures parts { OnOk result (lists_of found.new.parts.items ≡ lists_of found.old.parts.items ++ part.now ∷ []) }
    ensures cuts { OnOk result (found.new.cuts.items ≡ found.old.cuts.items) }
    ensures depth { IfOk result (λ deep. deep ≡ 0) }
{
    found.parts.push(Vec::from_slice(alloc, part)?)?;
    Ok(0)
}

/// Adds the parts and the cuts of a part, in at most so many levels, to those found before, and gives its depth.
pub fn cut_within(
    alloc: Global,
    nodes: &[Node],
    threshold: Threshold,
    part: &[u32],
    levels: u32,
    found: &mut Found,
) -> Result<u32, AllocError>
    requires { length part.now ≤ 65535 }
    ensures parts { OnOk result (lists_of found.new.parts.items ≡ lists_of found.old.parts.items ++ leaves (cuts_within levels (tree_of nodes.now) threshold.p threshold.q part.now)) }
    ensures cuts { OnOk result (found.new.cuts.items ≡ found.old.cuts.items ++ cut_vids (cuts_within levels (tree_of nodes.now) threshold.p threshold.q part.now)) }
    ensures depth { IfOk result (λ deep. deep ≡ depth (cuts_within levels (tree_of nodes.now) threshold.p threshold.q part.now)) }
    ensures shallow { IfOk result (λ deep. deep ≤ levels) }
{
    if levels == 0 {
        return add_part(alloc, part, found);
    }
    match next_cut(alloc, nodes, threshold, part)? {
        None => add_part(alloc, part, found),
        Some(vid) => {
            let above = upper(alloc, nodes, vid, part)?;
            let below = lower(alloc, nodes, vid, part)?;
            found.cuts.push(vid)?;
            let deep = cut_within(alloc, nodes, threshold, &above, levels - 1, found)?;
            let deep_below = cut_within(alloc, nodes, threshold, &below, levels - 1, found)?;
            Ok(deep.max(deep_below) + 1)
        }
    }
}
