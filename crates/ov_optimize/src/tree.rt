//! The tree that is split.

ghost use Rattle.std.specs.Prelude.{◌≡◌, map, IfOk};
ghost use Rattle.ov_graph.specs.Trees.{IsSound};
ghost use Rattle.ov_graph.specs.Versions.{IsGraph, reduced};
ghost use Rattle.ov_catalog.specs.Events.{graph_of};
ghost use Rattle.ov_catalog.specs.Sets.{version_in};

use ov_catalog::Version;
use ov_graph::{Graph, Tree};
use std::alloc::{AllocError, Global};

/// The reduced tree of these versions.
pub(crate) fn tree_of(alloc: Global, versions: &[Version]) -> Result<Tree, AllocError>
    requires { IsGraph (graph_of (map version_in versions.now)) }
    ensures nodes { IfOk result (λ tree. tree.nodes.items ≡ reduced (graph_of (map version_in versions.now))) }
    ensures sound { IfOk result (λ tree. IsSound tree.nodes.items) }
{
    let mut graph = Graph::new(alloc);
    for version in versions {
        graph.add(alloc, version.rows, version.parents.as_slice())?;
    }
    graph.tree(alloc)
}
