//! Datasets by their versions, each with the rids that it has.

ghost use Rattle.std.specs.Prelude.{◌≡◌, ◌<◌, length, IfOk};
ghost use Rattle.std.specs.Bool.{OnTrue};
ghost use Rattle.ov_graph.specs.Trees.{IsSound};

use ov_budget::{Line, table};
use ov_graph::{Node, Tree};
use ov_member::Members;
use std::alloc::Global;
use std::test::Fail;

/// A dataset: the tree of its versions, and the rids of each.
#[derive(Drop)]
pub struct Dataset {
    pub tree: Tree,
    pub lists: Vec<Members>,
}

impl Dataset {
    pub fn new(alloc: Global) -> Dataset {
        Dataset {
            tree: Tree {
                nodes: Vec::new(alloc),
            },
            lists: Vec::new(alloc),
        }
    }

    /// Adds a version with this tree parent, 0 for the first one.
    pub fn add(&mut self, alloc: Global, parent: u32, rids: &[u32]) -> Result<(), Fail> {
        let Some(own) = Members::of(alloc, rids)? else {
            return Err("no set of rids")?;
        };
        let weight = match self.lists.get((parent as usize).wrapping_sub(1)) {
            Some(list) => own.common(list),
            None => 0,
        };
        self.tree.nodes.push(Node {
            records: own.len(),
            parent,
            weight,
        })?;
        self.lists.push(own)?;
        Ok(())
    }

    /// Its table.
    pub fn table(&self, alloc: Global) -> Result<Vec<Line>, Fail>
        ensures { IfOk result (λ lines. length lines.items ≡ 100) }
    {
        if !is_sound(&self.tree) || self.lists.len() != self.tree.nodes.len() {
            return Err("no such tree")?;
        }
        let lines = table(alloc, &self.tree, &self.lists)?;
        Ok(lines)
    }
}

/// Whether a tree is sound and not empty.
pub fn is_sound(tree: &Tree) -> bool
    ensures sound { OnTrue result (IsSound tree.now.nodes.items) }
    ensures some { OnTrue result (0 < length tree.now.nodes.items) }
{
    let nodes = tree.nodes.as_slice();
    if nodes.is_empty() || nodes.len() > 65_535 || nodes[0].parent != 0 || nodes[0].weight != 0 {
        return false;
    }
    for k in 1..nodes.len() {
        let node = nodes[k];
        if node.parent == 0
            || node.parent as usize > k
            || node.weight > node.records
            || node.weight > nodes[node.parent as usize - 1].records
        {
            return false;
        }
    }
    true
}

/// The next number of a row of numbers that look random.
pub fn next(random: &mut u32) -> u32 {
    *random = random.wrapping_mul(1_103_515_245).wrapping_add(12_345);
    *random >> 8
}
