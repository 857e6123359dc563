//! What a list of nodes says of each version, and sums over versions.

ghost use Rattle.std.specs.Prelude.{◌≡◌, ◌*◌, ◌^◌, ◌<◌, ◌≤◌, length};
ghost use Rattle.ov_graph.specs.Trees.{node_at, tree_of, fresh, total};
ghost use Rattle.ov_graph.specs.Splits.{records, members, is_under_in, is_under};

use ov_graph::Node;

/// The node of a version; one of zeros where there is none.
pub fn node_at(nodes: &[Node], vid: u32) -> Node
    ensures { result ≡ node_at nodes.now vid }
{
    match nodes.get((vid as usize).saturating_sub(1)) {
        None => Node {
            records: 0,
            parent: 0,
            weight: 0,
        },
        Some(node) => *node,
    }
}

/// The records of a version that its tree parent hasn't.
fn fresh(nodes: &[Node], vid: u32) -> u32
    ensures { result ≡ fresh (tree_of nodes.now) vid }
{
    let node = node_at(nodes, vid);
    node.records.saturating_sub(node.weight)
}

/// The sum of these versions' fresh records.
pub fn all_fresh(nodes: &[Node], vids: &[u32]) -> u64
    requires { length vids.now ≤ 65535 }
    ensures sum { result ≡ total (fresh (tree_of nodes.now)) vids.now }
    ensures few { result ≤ length vids.now * 2 ^ 32 }
{
    match vids {
        [] => 0,
        [vid, rest @ ..] => u64::from(fresh(nodes, *vid)) + all_fresh(nodes, rest),
    }
}

/// R of a part.
pub fn records(nodes: &[Node], part: &[u32]) -> u64
    requires { length part.now ≤ 65535 }
    ensures is { result ≡ records (tree_of nodes.now) part.now }
    ensures few { result ≤ length part.now * 2 ^ 32 }
{
    match part {
        [] => 0,
        [top, rest @ ..] => u64::from(node_at(nodes, *top).records) + all_fresh(nodes, rest),
    }
}

/// E of a part.
pub fn members(nodes: &[Node], part: &[u32]) -> u64
    requires { length part.now ≤ 65535 }
    ensures is { result ≡ members (tree_of nodes.now) part.now }
    ensures few { result ≤ length part.now * 2 ^ 32 }
{
    match part {
        [] => 0,
        [vid, rest @ ..] => u64::from(node_at(nodes, *vid).records) + members(nodes, rest),
    }
}

/// Whether a version is `vid` or has it among the versions on its way up to the root, in so many steps.
fn is_under_in(nodes: &[Node], vid: u32, version: u32, steps: u32) -> bool
    ensures { result ≡ is_under_in steps (tree_of nodes.now) vid version }
{
    if steps == 0 {
        return version == vid;
    }
    version == vid || is_under_in(nodes, vid, node_at(nodes, version).parent, steps - 1)
}

/// Whether a version is `vid` or lies under it.
#[tactic(auto, unfolding(ov_graph::specs::Splits::is_under))]
pub fn is_under(nodes: &[Node], vid: u32, version: u32) -> bool
    ensures { result ≡ is_under (tree_of nodes.now) vid version }
{
    is_under_in(nodes, vid, version, version)
}
