//! The graph of versions.

ghost use Rattle.std.specs.Prelude.{◌≡◌, ◌+◌, ◌<◌, ◌≤◌, [], ◌∷◌, ◌++◌, ℕ, length, Contains, ◌↔◌, IfOk, OnOk, OnErr};
ghost use Rattle.std.specs.List.Sorted.{IsStrictlyIncreasing};
ghost use Rattle.ov_graph.specs.Versions.{MayFollow, IsAncestor, heaviest, reduced};
ghost use Rattle.ov_graph.specs.Trees.{IsSound};

use crate::lineage;
use crate::nodes::{Node, Tree};
use std::alloc::{AllocError, Global};
use std::marker::Model;

/// A version, with its parents as vids and weights.
#[derive(Drop)]
pub struct Entry {
    pub records: u32,
    pub parents: Vec<(u32, u32)>,
}

/// A graph of versions, which only grows. Contracts see it as the list of its versions.
#[derive(Drop)]
pub struct Graph {
    entries: Vec<Entry>,
}

impl Model for Graph {
    ghost use Rattle.std.specs.Prelude.{List};
    ghost use Rattle.ov_graph.specs.Versions.{Version, IsGraph};
    ghost use Rattle.ov_graph.specs.Entries.{versions_of};

    ghost Value = { List Version };

    ghost view = { λ g. versions_of g.entries.items };

    ghost invariant = { λ g. IsGraph (versions_of g.entries.items) };
}

impl Graph {
    /// A graph without versions.
    pub fn new(alloc: Global) -> Graph
        ensures { result ≡ [] }
    {
        Graph {
            entries: Vec::new(alloc),
        }
    }

    /// Adds the next version, with the vid and the weight of each of its parents, and gives its vid. The first
    /// version has no parents, later ones have at least one. After an error the graph is unchanged.
    pub fn add(
        &mut self,
        alloc: Global,
        records: u32,
        parents: &[(u32, u32)],
    ) -> Result<u32, AllocError>
        requires few { length self.old < 65535 }
        requires may_follow { MayFollow self.old (record { records = records; parents = parents.now }) }
        ensures vid { IfOk result (λ vid. vid ≡ length self.old + 1) }
        ensures added { OnOk result (self.new ≡ self.old ++ record { records = records; parents = parents.now } ∷ []) }
        ensures err { OnErr result (self.new ≡ self.old) }
    {
        let parents = Vec::from_slice(alloc, parents)?;
        self.entries.push(Entry { records, parents })?;
        Ok(self.entries.len() as u32)
    }

    /// The reduced tree: each version keeps its parent of the greatest weight, ties to the one listed first.
    pub fn tree(&self, alloc: Global) -> Result<Tree, AllocError>
        ensures reduced { IfOk result (λ tree. tree.nodes.items ≡ reduced self.now) }
        ensures sound { IfOk result (λ tree. IsSound tree.nodes.items) }
    {
        let mut nodes = Vec::new(alloc);
        for entry in &self.entries {
            let (parent, weight) = heaviest(&entry.parents);
            nodes.push(Node {
                records: entry.records,
                parent,
                weight,
            })?;
        }
        Ok(Tree { nodes })
    }

    /// The vids of the version's parents, of their parents and so on, ascending.
    pub fn ancestors(&self, alloc: Global, vid: u32) -> Result<Vec<u32>, AllocError>
        requires from_one { 1 ≤ vid }
        requires is_there { vid ≤ length self.now }
        ensures ascending { IfOk result (λ vids. IsStrictlyIncreasing vids.items) }
        ensures ancestors { IfOk result (λ vids. (other : ℕ) → Contains vids.items other ↔ IsAncestor self.now other vid) }
    {
        let marks = lineage::ancestor_marks(alloc, &self.entries, vid)?;
        lineage::marked_vids(alloc, &marks)
    }

    /// The vids of the versions of which this one is an ancestor, ascending.
    pub fn descendants(&self, alloc: Global, vid: u32) -> Result<Vec<u32>, AllocError>
        requires from_one { 1 ≤ vid }
        requires is_there { vid ≤ length self.now }
        ensures ascending { IfOk result (λ vids. IsStrictlyIncreasing vids.items) }
        ensures descendants { IfOk result (λ vids. (other : ℕ) → Contains vids.items other ↔ IsAncestor self.now vid other) }
    {
        let marks = lineage::descendant_marks(alloc, &self.entries, vid)?;
        lineage::marked_vids(alloc, &marks)
    }
}

/// The parent of the greatest weight, the first of those that tie, with its weight.
fn heaviest(parents: &[(u32, u32)]) -> (u32, u32)
    ensures { result ≡ heaviest parents.now }
{
    let mut kept = (0, 0);
    let mut at = parents.len();
    while 0 < at {
        at -= 1;
        if kept.1 <= parents[at].1 {
            kept = parents[at];
        }
    }
    kept
}
