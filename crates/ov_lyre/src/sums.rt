//! Sums over a part, and under each of its versions.

ghost use Rattle.std.specs.Prelude.{◌≡◌, ◌+◌, ◌*◌, ◌^◌, ◌<◌, ◌≤◌, length, slice_index};
ghost use Rattle.ov_graph.specs.Trees.{IsSound, tree_of, fresh, total};
ghost use Rattle.ov_graph.specs.Splits.{IsPart, records, members};
ghost use Rattle.ov_lyre.specs.Sums.{Stands, total_under};

use ov_graph::Node;

/// R and E of a part.
#[derive(Clone, Copy)]
pub struct Totals {
    pub records: u64,
    pub members: u64,
}

/// The node of a version of a sound tree.
pub fn node_of(nodes: &[Node], vid: u32) -> Node
    requires from_one { 1 ≤ vid }
    requires is_there { vid ≤ length nodes.now }
    ensures records { result.records ≡ (tree_of nodes.now).records vid }
    ensures weight { result.weight ≡ (tree_of nodes.now).weight vid }
    ensures parent { result.parent ≡ (tree_of nodes.now).parent vid }
{
    nodes[vid as usize - 1]
}

/// R and E of a part, in the time of its versions. Both are below 2^49.
pub fn add_totals(nodes: &[Node], part: &[u32]) -> Totals
    requires sound { IsSound nodes.now }
    requires part { IsPart (tree_of nodes.now) (length nodes.now) part.now }
    ensures records { result.records ≡ records (tree_of nodes.now) part.now }
    ensures members { result.members ≡ members (tree_of nodes.now) part.now }
    ensures few_records { result.records < 2 ^ 49 }
    ensures few_members { result.members < 2 ^ 49 }
{
    let mut records = 0;
    let mut members = 0;
    for vid in part {
        let node = node_of(nodes, *vid);
        records += u64::from(node.records - node.weight);
        members += u64::from(node.records);
    }
    let top = node_of(nodes, part[0]);
    Totals {
        records: records + u64::from(top.weight),
        members,
    }
}

/// Writes at each version of a part a one, and the number of its records that its tree parent hasn't.
pub fn fill(nodes: &[Node], part: &[u32], counts: &mut [u64], sums: &mut [u64])
    requires sound { IsSound nodes.now }
    requires part { IsPart (tree_of nodes.now) (length nodes.now) part.now }
    requires counts { length nodes.now < length counts.old }
    requires sums { length nodes.now < length sums.old }
    ensures counts { Stands (λ _. 1) part.now counts.new }
    ensures sums { Stands (fresh (tree_of nodes.now)) part.now sums.new }
{
    for vid in part {
        let node = node_of(nodes, *vid);
        counts[*vid as usize] = 1;
        sums[*vid as usize] = u64::from(node.records - node.weight);
    }
}

/// Writes at each version of a part the number of its members.
pub fn fill_members(nodes: &[Node], part: &[u32], members: &mut [u64])
    requires sound { IsSound nodes.now }
    requires part { IsPart (tree_of nodes.now) (length nodes.now) part.now }
    requires members { length nodes.now < length members.old }
    ensures { Stands (tree_of nodes.now).records part.now members.new }
{
    for vid in part {
        members[*vid as usize] = u64::from(node_of(nodes, *vid).records);
    }
}

/// Makes of what stands at each version of a part the sum over the versions under it. From the greatest vid down each
/// version passes its sum on to its tree parent, so this takes the time of the part's versions.
pub fn add_up(nodes: &[Node], part: &[u32], sums: &mut [u64])
    requires sound { IsSound nodes.now }
    requires part { IsPart (tree_of nodes.now) (length nodes.now) part.now }
    requires sums { length nodes.now < length sums.old }
    requires small { total (slice_index sums.old) part.now < 2 ^ 64 }
    ensures { Stands (total_under (tree_of nodes.now) (slice_index sums.old) part.now) part.now sums.new }
{
    let mut at = part.len();
    while 1 < at {
        at -= 1;
        let vid = part[at];
        let parent = node_of(nodes, vid).parent as usize;
        sums[parent] += sums[vid as usize];
    }
}
