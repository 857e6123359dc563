//! What a dataset's versions descend from.

ghost use Rattle.std.specs.Prelude.{◌≡◌, ◌≤◌, IfOk, length, map};
ghost use Rattle.std.specs.List.Sorted.{IsStrictlyIncreasing};
ghost use Rattle.ov_model.specs.declared.query.LineageKind.TheVariants.{Parents};
ghost use Rattle.ov_lineage.specs.Bare.{bare_edge};
ghost use Rattle.ov_lineage.specs.Related.{AreParents, lists_of, relatives_by};

use crate::marks::{mark, marked};
use ov_graph::Graph;
use ov_model::{LineageKind, Seq};
use std::alloc::{AllocError, Global};
use std::marker::Model;

/// The parents of a dataset's versions. Contracts see it as these: a list for each version, as they were named.
#[derive(Drop)]
pub struct Lineage {
    parents: Seq<Seq<u32>>,
    graph: Graph,
}

impl Model for Lineage {
    ghost use Rattle.std.specs.Prelude.{◌≡◌, ℕ, List};
    ghost use Rattle.ov_lineage.specs.Bare.{bare_graph};
    ghost use Rattle.ov_lineage.specs.Related.{AreParents};

    ghost Value = { List (List ℕ) };

    ghost view = { λ l. l.parents };

    ghost invariant = { λ l. AreParents l.parents × (l.graph ≡ bare_graph l.parents) };
}

impl Lineage {
    /// The lineage of versions with these parents: the list at index i has the vids of version i + 1's. The first version has
    /// none, each later one at least one, and each is from 1 to i.
    pub fn of(alloc: Global, parents: &[Vec<u32>]) -> Result<Lineage, AllocError>
        requires { AreParents (lists_of parents.now) }
        ensures { IfOk result (λ made. made ≡ lists_of parents.now) }
    {
        let mut kept = Seq::new(alloc);
        let mut graph = Graph::new(alloc);
        for vids in parents {
            let edges = bare_edges(alloc, vids)?;
            graph.add(alloc, 0, &edges)?;
            kept.push(Seq::from_slice(alloc, vids)?)?;
        }
        Ok(Lineage {
            parents: kept,
            graph,
        })
    }

    /// How many versions there are.
    pub fn count(&self) -> u32
        ensures count { result ≡ length self.now }
        ensures few { result ≤ 65535 }
    {
        self.parents.len() as u32
    }

    /// The relatives of a version, as vids, ascending. In the time of all parents.
    pub fn versions(
        &self,
        alloc: Global,
        kind: LineageKind,
        vid: u32,
    ) -> Result<Vec<u32>, AllocError>
        requires from_one { 1 ≤ vid }
        requires is_there { vid ≤ length self.now }
        ensures relatives { IfOk result (λ vids. vids.items ≡ relatives_by self.now kind vid) }
        ensures ascending { IfOk result (λ vids. IsStrictlyIncreasing vids.items) }
    {
        match kind {
            LineageKind::Parents => self.parents_of(alloc, vid),
            LineageKind::Ancestors => self.graph.ancestors(alloc, vid),
            LineageKind::Descendants => self.graph.descendants(alloc, vid),
        }
    }

    fn parents_of(&self, alloc: Global, vid: u32) -> Result<Vec<u32>, AllocError>
        requires from_one { 1 ≤ vid }
        requires is_there { vid ≤ length self.now }
        ensures { IfOk result (λ vids. vids.items ≡ relatives_by self.now Parents vid) }
    {
        let all = self.parents.as_slice();
        let mut marks = vec![in alloc; false; all.len()]?;
        mark(&mut marks, all[vid as usize - 1].as_slice());
        marked(alloc, &marks)
    }
}

/// Edges to these parents, without weight.
fn bare_edges(alloc: Global, parents: &[u32]) -> Result<Vec<(u32, u32)>, AllocError>
    ensures { IfOk result (λ edges. edges.items ≡ map bare_edge parents.now) }
{
    let mut edges = Vec::new(alloc);
    for parent in parents {
        edges.push((*parent, 0))?;
    }
    Ok(edges)
}
