//! Cutting off one edge after another of those that leave the same number of versions on one side.
//!
//! Where the edge that is cut has few versions under it, as in a star, many others have as many, and a cut changes little of what is
//! known of them: what is under such an edge stays, since the next one is neither above it nor under it. So they are cut one
//! after another from what was found in one pass over the part, each the next one by the rule: of edges that have as many versions under
//! them the one whose parts differ least in R, and that is how far an edge's balance is from R. An edge that has as few
//! versions above it has a balance too, and comes first where it is nearer.

ghost use Rattle.std.specs.Prelude.{◌≡◌, ℕ, ◌+◌, ◌<◌, ◌^◌, true, false, ◌≤◌, ◌⊎◌, length, slice_index, IfSome, IfOk, None, Some};
ghost use Rattle.std.specs.Ordering.{is_lt, is_gt};
ghost use Rattle.std.specs.BTreeSet.{contains, btree_set_len};
ghost use Rattle.ov_graph.specs.Trees.{IsSound, tree_of, fresh};
ghost use Rattle.ov_graph.specs.Splits.{IsPart, Has, edges, records, lower, upper, may_cut, next_cut_of};
ghost use Rattle.ov_lyre.specs.Sums.{Stands, total_under};
ghost use Rattle.ov_lyre.specs.Sides.{AreNext};
ghost use Rattle.ov_lyre.specs.Peeling.{key_cmp, IsAmong, IsNearest, IsKeyed, IsOfFew, IsOfFewer, IsSummed, AreKeys, IsPeeling};

use crate::choice::{Threshold, may_cut, stops};
use crate::sums::{Totals, node_of};
use ov_graph::Node;
use std::alloc::{AllocError, Global};
use std::collections::BTreeSet;

/// An edge that may be cut, by the vid of its child. Its parts are as far apart in records as its balance is from R: twice what is fresh
/// under it and its weight, or twice the records above it less its weight.
#[derive(Clone, Copy, PartialEq, Eq, PartialOrd, Ord)]
pub struct Key {
    pub balance: u64,
    pub vid: u32,
}

/// The first key from one on.
fn first_from(keys: &BTreeSet<Key>, from: Key) -> Option<Key>
    ensures found { IfSome result (λ key. IsAmong keys.now key) }
    ensures from { IfSome result (λ key. is_gt (key_cmp from key) ≡ false) }
    ensures first { IfSome result (λ key. (other : Key) → is_gt (key_cmp from other) ≡ false → IsAmong keys.now other → is_gt (key_cmp key other) ≡ false) }
    ensures none { result ≡ None → (other : Key) → is_gt (key_cmp from other) ≡ false → contains key_cmp keys.now other ≡ false }
{
    match keys.range(from..).next() {
        None => None,
        Some(key) => Some(*key),
    }
}

/// The last key before one.
fn last_before(keys: &BTreeSet<Key>, before: Key) -> Option<Key>
    ensures found { IfSome result (λ key. IsAmong keys.now key) }
    ensures before { IfSome result (λ key. is_lt (key_cmp key before) ≡ true) }
    ensures last { IfSome result (λ key. (other : Key) → IsAmong keys.now other → is_lt (key_cmp other before) ≡ true → is_lt (key_cmp key other) ≡ false) }
    ensures none { result ≡ None → (other : Key) → IsAmong keys.now other → is_lt (key_cmp other before) ≡ false }
{
    match keys.range(..before).next_back() {
        None => None,
        Some(key) => Some(*key),
    }
}

/// The nearer one to R of a key whose balance is less and of one whose balance isn't.
fn nearer(below: Key, above: Key, records: u64) -> Key
    requires below { below.balance < records }
    requires above { records ≤ above.balance }
    ensures is { (result ≡ below) ⊎ (result ≡ above) }
    ensures below { IsNearest records result below }
    ensures above { IsNearest records result above }
{
    let under = records - below.balance;
    let over = above.balance - records;
    if under < over || under == over && below.vid < above.vid {
        below
    } else {
        above
    }
}

/// The first of the keys with the least balance from R on: of those from R on it is the nearest one.
fn nearest_above(keys: &BTreeSet<Key>, records: u64) -> Option<Key>
    ensures found { IfSome result (λ key. IsAmong keys.now key) }
    ensures above { IfSome result (λ key. records ≤ key.balance) }
    ensures nearest { IfSome result (λ key. (other : Key) → records ≤ other.balance → IsAmong keys.now other → IsNearest records key other) }
    ensures none { result ≡ None → (other : Key) → IsAmong keys.now other → other.balance < records }
{
    first_from(
        keys,
        Key {
            balance: records,
            vid: 0,
        },
    )
}

/// The first of the keys with the balance of one of them.
fn lowest_beside(keys: &BTreeSet<Key>, key: Key) -> Key
    requires found { IsAmong keys.now key }
    ensures found { IsAmong keys.now result }
    ensures balance { result.balance ≡ key.balance }
    ensures lowest { (other : Key) → other.balance ≡ key.balance → IsAmong keys.now other → result.vid ≤ other.vid }
{
    let from = Key {
        balance: key.balance,
        vid: 0,
    };
    first_from(keys, from).unwrap_or(key)
}

/// The first of the keys with the greatest balance below R: of those below R it is the nearest one.
fn nearest_below(keys: &BTreeSet<Key>, records: u64) -> Option<Key>
    ensures found { IfSome result (λ key. IsAmong keys.now key) }
    ensures below { IfSome result (λ key. key.balance < records) }
    ensures nearest { IfSome result (λ key. (other : Key) → other.balance < records → IsAmong keys.now other → IsNearest records key other) }
    ensures none { result ≡ None → (other : Key) → IsAmong keys.now other → records ≤ other.balance }
{
    let last = last_before(
        keys,
        Key {
            balance: records,
            vid: 0,
        },
    )?;
    Some(lowest_beside(keys, last))
}

/// The key that is nearest to R; of those that are as near the one of the lowest vid.
fn nearest(keys: &BTreeSet<Key>, records: u64) -> Option<Key>
    ensures found { IfSome result (λ key. IsAmong keys.now key) }
    ensures nearest { IfSome result (λ key. (other : Key) → IsAmong keys.now other → IsNearest records key other) }
{
    match (nearest_below(keys, records), nearest_above(keys, records)) {
        (below, None) => below,
        (None, above) => above,
        (Some(below), Some(above)) => Some(nearer(below, above, records)),
    }
}

/// A part with its numbers, and what stands under each of its versions, by vid: how many versions, how many fresh records, how many
/// members.
#[derive(Clone, Copy)]
pub struct Summed<'a> {
    pub nodes: &'a [Node],
    pub part: &'a [u32],
    pub totals: Totals,
    pub counts: &'a [u64],
    pub fresh: &'a [u64],
    pub members: &'a [u64],
}

/// The key of an edge that leaves few versions on one side; `None` where it leaves fewer.
fn key_of(summed: &Summed, child: u32, few: u64) -> Option<Key>
    requires summed { IsSummed summed.now }
    requires child { Has (edges summed.now.part.now) child }
    requires few { IsOfFew (tree_of summed.now.nodes.now) few summed.now.part.now child }
    ensures vid { IfSome result (λ key. key.vid ≡ child) }
    ensures keyed { IfSome result (λ key. IsKeyed (tree_of summed.now.nodes.now) few summed.now.part.now summed.now.part.now key) }
    ensures none { result ≡ None → IsOfFewer (tree_of summed.now.nodes.now) few summed.now.part.now child }
{
    let weight = u64::from(node_of(summed.nodes, child).weight);
    let versions_under = summed.counts[child as usize];
    let fresh_under = summed.fresh[child as usize];
    if versions_under == few {
        let balance = 2 * fresh_under + weight;
        return Some(Key {
            balance,
            vid: child,
        });
    }
    if summed.part.len() as u64 - versions_under != few {
        return None;
    }
    let balance = 2 * (summed.totals.records - fresh_under) - weight;
    Some(Key {
        balance,
        vid: child,
    })
}

/// The keys of the edges of a part that may be cut, where each of these leaves few versions on one side, or fewer.
fn keys_of(
    alloc: Global,
    summed: &Summed,
    threshold: Threshold,
    few: u64,
) -> Result<BTreeSet<Key>, AllocError>
    requires summed { IsSummed summed.now }
    requires few { (vid : ℕ) → Has (edges summed.now.part.now) vid → may_cut (tree_of summed.now.nodes.now) threshold.p threshold.q summed.now.part.now vid ≡ true → IsOfFew (tree_of summed.now.nodes.now) few summed.now.part.now vid }
    ensures { IfOk result (AreKeys (tree_of summed.now.nodes.now) threshold.p threshold.q few summed.now.part.now summed.now.part.now) }
{
    let mut keys = BTreeSet::new(alloc);
    for at in 1..summed.part.len() {
        let vid = summed.part[at];
        let weight = node_of(summed.nodes, vid).weight;
        if may_cut(weight, summed.totals.records, threshold) {
            if let Some(key) = key_of(summed, vid, few) {
                keys.insert(key)?;
            }
        }
    }
    Ok(keys)
}

/// A part off which edges are cut: of what kind, the keys of those that are left, the cuts, and V, R and E of what is left.
#[derive(Drop)]
struct Peeling {
    few: u64,
    keys: BTreeSet<Key>,
    cuts: Vec<u32>,
    versions: usize,
    totals: Totals,
}

/// Cuts off the next edge, where it is one with few versions under it; `false` where it isn't. A key is asked once: that of an edge
/// that is too heavy goes, and the edge stays too heavy, since R falls.
fn peel_one(
    summed: &Summed,
    threshold: Threshold,
    peeling: &mut Peeling,
) -> Result<bool, AllocError>
    requires threshold { threshold.p ≤ threshold.q }
    requires summed { IsSummed summed.now }
    requires peeling { IsPeeling summed.now threshold.p threshold.q peeling.old }
    ensures peeling { IfOk result (λ _. IsPeeling summed.now threshold.p threshold.q peeling.new) }
    ensures fewer { IfOk result (λ more. more ≡ true → btree_set_len peeling.new.keys < btree_set_len peeling.old.keys) }
{
    if stops(peeling.totals, peeling.versions, threshold)
        || 2 * peeling.few > peeling.versions as u64
    {
        return Ok(false);
    }
    let Some(key) = nearest(&peeling.keys, peeling.totals.records) else {
        return Ok(false);
    };
    let weight = node_of(summed.nodes, key.vid).weight;
    if may_cut(weight, peeling.totals.records, threshold) {
        if summed.counts[key.vid as usize] != peeling.few {
            return Ok(false);
        }
        peeling.cuts.push(key.vid)?;
        peeling.versions -= peeling.few as usize;
        peeling.totals.records -= summed.fresh[key.vid as usize];
        peeling.totals.members -= summed.members[key.vid as usize];
    }
    peeling.keys.remove(&key);
    Ok(true)
}

/// The next cuts of a part, one after another: that of an edge that is known to be next, which has at most half of the versions under
/// it, and those that follow it with as many.
///
/// In the time of the part's versions, and of the keys times their logarithm.
pub fn peel(
    alloc: Global,
    summed: &Summed,
    threshold: Threshold,
    child: u32,
) -> Result<Vec<u32>, AllocError>
    requires threshold { threshold.p ≤ threshold.q }
    requires summed { IsSummed summed.now }
    requires next { next_cut_of (tree_of summed.now.nodes.now) threshold.p threshold.q summed.now.part.now ≡ Some child }
    requires half { slice_index summed.now.counts.now child + slice_index summed.now.counts.now child ≤ length summed.now.part.now }
    ensures next { IfOk result (λ cuts. AreNext (tree_of summed.now.nodes.now) threshold.p threshold.q summed.now.part.now cuts.items) }
    ensures some { IfOk result (λ cuts. 0 < length cuts.items) }
{
    let few = summed.counts[child as usize];
    let mut peeling = Peeling {
        few,
        keys: keys_of(alloc, summed, threshold, few)?,
        cuts: Vec::new(alloc),
        versions: summed.part.len(),
        totals: summed.totals,
    };
    while peel_one(summed, threshold, &mut peeling)? {}
    // What was asked first is that edge, so there is a cut.
    if peeling.cuts.is_empty() {
        peeling.cuts.push(child)?;
    }
    Ok(peeling.cuts)
}
