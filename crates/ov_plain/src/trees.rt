//! The reduced tree of a dataset's versions, and its split.

ghost use Rattle.std.specs.Prelude.{◌≡◌, ◌+◌, ◌++◌, ◌≤◌, ◌<◌, length, IfOk, OnOk};
ghost use Rattle.ov_graph.specs.Trees.{all_members, all_records, vids_of};
ghost use Rattle.ov_graph.specs.Versions.{node_of, reduced};
ghost use Rattle.ov_lyre.specs.Parts.{lists_of};
ghost use Rattle.ov_model.specs.Plans.{graph_of, nodes_of_set, parts_at, depth_at};
ghost use Rattle.ov_model.specs.Records.{weights};
ghost use Rattle.ov_plain.specs.Small.{HaveFewRows, IsSmall};

use crate::copies::onto;
use crate::dataset::Dataset;
use crate::placement::heaviest;
use crate::rec::{Rec, Version};
use crate::records::{records_of, weights};
use crate::split::{all_vids, plain_split};
use crate::tree::{all_fresh, members};
use ov_graph::{Node, Tree};
use sqlite_items::Items;
use std::alloc::{AllocError, Global};

/// The node of the next version, whose records are these.
fn node_of(
    alloc: Global,
    version: &Version,
    own: &[Rec],
    done: &[Items<Rec>],
) -> Result<Node, AllocError>
    requires rows { length version.now.rows < 4294967295 }
    requires own { length own.now < 4294967295 }
    ensures { IfOk result (λ node. node ≡ node_of (record { records = length version.now.rows; parents = weights version.now.parents own.now done.now })) }
{
    let edges = weights(alloc, version.parents.as_slice(), own, done)?;
    let (parent, weight) = heaviest(edges.as_slice());
    Ok(Node {
        records: version.rows.len() as u32,
        parent,
        weight,
    })
}

/// Adds the nodes of these versions; `done` are the records of the versions before.
fn add_nodes(
    alloc: Global,
    versions: &[Version],
    mut done: Items<Items<Rec>>,
    nodes: &mut Vec<Node>,
) -> Result<(), AllocError>
    requires few { length done + length versions.now ≤ 65535 }
    requires rows { HaveFewRows versions.now }
    ensures is { OnOk result (nodes.new.items ≡ nodes.old.items ++ reduced (graph_of versions.now done)) }
    ensures count { OnOk result (length nodes.new.items ≡ length nodes.old.items + length versions.now) }
{
    match versions {
        [] => Ok(()),
        [version, rest @ ..] => {
            let own = records_of(alloc, version, done.as_slice())?;
            nodes.push(node_of(alloc, version, own.as_slice(), done.as_slice())?)?;
            done.push(own)?;
            add_nodes(alloc, rest, done, nodes)
        }
    }
}

/// The reduced tree of a dataset's versions.
pub fn tree_of_set(alloc: Global, set: &Dataset) -> Result<Tree, AllocError>
    requires { IsSmall set.now.cvd }
    ensures is { IfOk result (λ tree. tree.nodes.items ≡ nodes_of_set set.now) }
    ensures count { IfOk result (λ tree. length tree.nodes.items ≤ 65535) }
{
    let mut nodes = Vec::new(alloc);
    add_nodes(
        alloc,
        set.cvd.versions.as_slice(),
        Items::new(alloc),
        &mut nodes,
    )?;
    Ok(Tree { nodes })
}

/// Copies of these lists of vids.
fn copies_of_lists(alloc: Global, lists: &[Vec<u32>]) -> Result<Items<Items<u32>>, AllocError>
    ensures { IfOk result (λ found. found ≡ lists_of lists.now) }
{
    match lists {
        [] => Ok(Items::new(alloc)),
        [first, rest @ ..] => {
            let later = copies_of_lists(alloc, rest)?;
            onto(alloc, Items::from_slice(alloc, first)?, later)
        }
    }
}

/// The parts of the split of a dataset's versions at the threshold p/q.
pub fn parts_at(
    alloc: Global,
    set: &Dataset,
    p: u32,
    q: u32,
) -> Result<Items<Items<u32>>, AllocError>
    requires { IsSmall set.now.cvd }
    ensures { IfOk result (λ parts. parts ≡ parts_at set.now p q) }
{
    let tree = tree_of_set(alloc, set)?;
    let split = plain_split(alloc, &tree, p, q)?;
    copies_of_lists(alloc, &split.parts)
}

/// The depth of that split.
pub fn depth_at(alloc: Global, set: &Dataset, p: u32, q: u32) -> Result<u32, AllocError>
    requires { IsSmall set.now.cvd }
    ensures { IfOk result (λ depth. depth ≡ depth_at set.now p q) }
{
    let tree = tree_of_set(alloc, set)?;
    let split = plain_split(alloc, &tree, p, q)?;
    Ok(split.depth)
}

/// The vids of a dataset's versions.
fn vids_of_set(alloc: Global, tree: &Tree) -> Result<Vec<u32>, AllocError>
    requires { length tree.now.nodes.items ≤ 65535 }
    ensures is { IfOk result (λ vids. vids.items ≡ vids_of tree.now.nodes.items) }
    ensures count { IfOk result (λ vids. length vids.items ≤ 65535) }
{
    all_vids(alloc, tree.nodes.len())
}

/// T of the reduced tree: the records of all versions that their tree parents haven't.
pub fn tree_records(alloc: Global, set: &Dataset) -> Result<u64, AllocError>
    requires { IsSmall set.now.cvd }
    ensures { IfOk result (λ sum. sum ≡ all_records (nodes_of_set set.now)) }
{
    let tree = tree_of_set(alloc, set)?;
    let vids = vids_of_set(alloc, &tree)?;
    Ok(all_fresh(&tree.nodes, &vids))
}

/// E of the reduced tree: the records of all versions together.
pub fn tree_members(alloc: Global, set: &Dataset) -> Result<u64, AllocError>
    requires { IsSmall set.now.cvd }
    ensures { IfOk result (λ sum. sum ≡ all_members (nodes_of_set set.now)) }
{
    let tree = tree_of_set(alloc, set)?;
    let vids = vids_of_set(alloc, &tree)?;
    Ok(members(&tree.nodes, &vids))
}
