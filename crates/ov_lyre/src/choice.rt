//! The edge at which a part is cut.

ghost use Rattle.std.specs.Prelude.{◌≡◌, ◌+◌, ◌*◌, ◌^◌, ◌<◌, ◌≤◌, nat_le, Option, None, IfSome, length, slice_index};
ghost use Rattle.ov_graph.specs.Trees.{IsSound, tree_of, fresh, total};
ghost use Rattle.ov_graph.specs.Splits.{IsPart, Has, edges, records, lower, stops, may_cut, versions_apart, records_apart, comes_first, chosen, next_cut_of};
ghost use Rattle.ov_lyre.specs.Sums.{Stands, total_under};
ghost use Rattle.ov_lyre.specs.Candidates.{IsCandidate, better_of};

use crate::sums::{Totals, add_totals, add_up, fill, node_of};
use ov_graph::Node;

/// The threshold p/q of a split, from above 0 to 1.
#[derive(Clone, Copy)]
pub struct Threshold {
    pub p: u32,
    pub q: u32,
}

/// An edge that may be cut, by the vid of its child, with how far its two parts are apart.
#[derive(Clone, Copy)]
pub struct Candidate {
    pub child: u32,
    pub versions_apart: u64,
    pub records_apart: u64,
}

/// The better one of a candidate and of what was found among greater vids. At a tie the lesser vid is better.
fn better(candidate: Candidate, found: Option<Candidate>) -> Candidate
    ensures { result ≡ better_of candidate found }
{
    match found {
        None => candidate,
        Some(other) => {
            if candidate.versions_apart < other.versions_apart
                || candidate.versions_apart == other.versions_apart
                    && candidate.records_apart <= other.records_apart
            {
                candidate
            } else {
                other
            }
        }
    }
}

/// Whether a part stops: p * R * V <= q * E.
pub(crate) fn stops(totals: Totals, versions: usize, threshold: Threshold) -> bool
    requires versions { versions ≤ 65535 }
    requires records { totals.records < 2 ^ 49 }
    requires members { totals.members < 2 ^ 49 }
    ensures { result ≡ nat_le (threshold.p * totals.records * versions) (threshold.q * totals.members) }
{
    threshold.p as u128 * totals.records as u128 * versions as u128
        <= threshold.q as u128 * totals.members as u128
}

/// Whether an edge may be cut: q * w <= p * R.
pub(crate) fn may_cut(weight: u32, records: u64, threshold: Threshold) -> bool
    ensures { result ≡ nat_le (threshold.q * weight) (threshold.p * records) }
{
    threshold.q as u128 * weight as u128 <= threshold.p as u128 * records as u128
}

/// What a cut of the edge of a version leaves, from the sums under it.
fn weigh(
    nodes: &[Node],
    part: &[u32],
    part_records: u64,
    child: u32,
    versions_under: u64,
    fresh_under: u64,
) -> Candidate
    requires sound { IsSound nodes.now }
    requires part { IsPart (tree_of nodes.now) (length nodes.now) part.now }
    requires records { part_records ≡ records (tree_of nodes.now) part.now }
    requires small { part_records < 2 ^ 49 }
    requires child { Has (edges part.now) child }
    requires versions_under { versions_under ≡ length (lower (tree_of nodes.now) child part.now) }
    requires fresh_under { fresh_under ≡ total_under (tree_of nodes.now) (fresh (tree_of nodes.now)) part.now child }
    ensures child { result.child ≡ child }
    ensures candidate { IsCandidate (tree_of nodes.now) part.now result }
{
    let weight = u64::from(node_of(nodes, child).weight);
    let versions_above = part.len() as u64 - versions_under;
    let records_above = part_records - fresh_under;
    Candidate {
        child,
        versions_apart: versions_above.abs_diff(versions_under),
        records_apart: records_above.abs_diff(fresh_under + weight),
    }
}

/// The edge that is cut, among those that may be: the one whose parts differ least in their numbers of versions; then
/// least in R; then the one of the least vid. In the time of the part's versions.
fn choose(
    nodes: &[Node],
    part: &[u32],
    part_records: u64,
    counts: &[u64],
    sums: &[u64],
    threshold: Threshold,
) -> Option<u32>
    requires sound { IsSound nodes.now }
    requires part { IsPart (tree_of nodes.now) (length nodes.now) part.now }
    requires records { part_records ≡ records (tree_of nodes.now) part.now }
    requires small { part_records < 2 ^ 49 }
    requires counts_long { length nodes.now < length counts.now }
    requires sums_long { length nodes.now < length sums.now }
    requires counts { Stands (total_under (tree_of nodes.now) (λ _. 1) part.now) part.now counts.now }
    requires sums { Stands (total_under (tree_of nodes.now) (fresh (tree_of nodes.now)) part.now) part.now sums.now }
    ensures { result ≡ chosen (tree_of nodes.now) threshold.p threshold.q part.now }
{
    let mut found: Option<Candidate> = None;
    let mut at = part.len();
    while 1 < at {
        at -= 1;
        let vid = part[at];
        if may_cut(node_of(nodes, vid).weight, part_records, threshold) {
            let candidate = weigh(
                nodes,
                part,
                part_records,
                vid,
                counts[vid as usize],
                sums[vid as usize],
            );
            found = Some(better(candidate, found));
        }
    }
    match found {
        None => None,
        Some(candidate) => Some(candidate.child),
    }
}

/// The edge at which a part is cut next, by the vid of its child; `None` where the part stops. The arrays by vid may
/// hold anything before; behind a cut they have how many versions stand under each version, and how many fresh records.
pub fn next_cut(
    nodes: &[Node],
    part: &[u32],
    threshold: Threshold,
    counts: &mut [u64],
    sums: &mut [u64],
) -> Option<u32>
    requires sound { IsSound nodes.now }
    requires part { IsPart (tree_of nodes.now) (length nodes.now) part.now }
    requires counts { length nodes.now < length counts.old }
    requires sums { length nodes.now < length sums.old }
    ensures next { result ≡ next_cut_of (tree_of nodes.now) threshold.p threshold.q part.now }
    ensures counts { IfSome result (λ _. Stands (total_under (tree_of nodes.now) (λ _. 1) part.now) part.now counts.new) }
    ensures sums { IfSome result (λ _. Stands (total_under (tree_of nodes.now) (fresh (tree_of nodes.now)) part.now) part.now sums.new) }
{
    let totals = add_totals(nodes, part);
    if stops(totals, part.len(), threshold) {
        return None;
    }
    fill(nodes, part, counts, sums);
    add_up(nodes, part, counts);
    add_up(nodes, part, sums);
    choose(nodes, part, totals.records, counts, sums, threshold)
}
