//! A tree of versions.

ghost use Rattle.std.specs.Prelude.{◌≡◌};
ghost use Rattle.ov_graph.specs.Trees.{IsSound, all_records, all_members};

/// One version of a tree.
#[derive(Clone, Copy)]
pub struct Node {
    /// How many records the version has.
    pub records: u32,
    /// The vid of the tree parent; 0 for the first version.
    pub parent: u32,
    /// How many of the records its tree parent has too; 0 for the first version.
    pub weight: u32,
}

/// A tree of versions. The node at index i is the version with the vid i + 1.
///
/// It is sound where it has at most 65,535 nodes, the first has the parent 0 and the weight 0, and each later one has a
/// parent below its own vid, from 1 on, and a weight of at most its own records and of its parent's.
#[derive(Drop)]
pub struct Tree {
    pub nodes: Vec<Node>,
}

impl Tree {
    /// T: the sum over versions of their records less the weight to the tree parent. It is below 2^48.
    pub fn records(&self) -> u64
        requires { IsSound self.now.nodes.items }
        ensures { result ≡ all_records self.now.nodes.items }
    {
        let mut sum = 0;
        for node in &self.nodes {
            sum += u64::from(node.records - node.weight);
        }
        sum
    }

    /// E: the sum over versions of their records. It is below 2^48.
    pub fn members(&self) -> u64
        requires { IsSound self.now.nodes.items }
        ensures { result ≡ all_members self.now.nodes.items }
    {
        let mut sum = 0;
        for node in &self.nodes {
            sum += u64::from(node.records);
        }
        sum
    }
}
