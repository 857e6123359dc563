//! Splits of large trees, with their times.

ghost use Rattle.std.specs.Prelude.{◌<◌, length};
ghost use Rattle.std.specs.Bool.{OnTrue};
ghost use Rattle.ov_graph.specs.Trees.{IsSound};

use ov_graph::{Node, Tree};
use ov_lyre::split;
use std::alloc::{AllocError, Global};
use std::test::*;
use std::time::Instant;

/// Whether a tree is sound and not empty.
fn is_sound(tree: &Tree) -> bool
    ensures sound { OnTrue result (IsSound tree.now.nodes.items) }
    ensures some { OnTrue result (0 < length tree.now.nodes.items) }
{
    let nodes = tree.nodes.as_slice();
    if nodes.is_empty() || nodes.len() > 65_535 || nodes[0].parent != 0 || nodes[0].weight != 0 {
        return false;
    }
    for k in 1..nodes.len() {
        let node = nodes[k];
        if node.parent == 0
            || node.parent as usize > k
            || node.weight > node.records
            || node.weight > nodes[node.parent as usize - 1].records
        {
            return false;
        }
    }
    true
}

#[derive(Clone, Copy)]
enum Shape {
    Chain,
    Binary,
    Random,
    Comb,
    Star,
    Handle,
    Stars,
    Broom,
}

/// A tree of versions that share nothing, so that at the threshold 1/1 each edge is cut.
fn shaped_tree(alloc: Global, shape: Shape, count: u32) -> Result<Tree, AllocError> {
    let mut nodes = Vec::new(alloc);
    nodes.push(Node {
        records: 1,
        parent: 0,
        weight: 0,
    })?;
    let mut random = 1u32;
    for before in 1..count {
        random = random.wrapping_mul(1_103_515_245).wrapping_add(12_345);
        let parent = match shape {
            Shape::Chain => before,
            Shape::Binary => (before - 1) / 2 + 1,
            Shape::Random => (random >> 8) % before + 1,
            Shape::Comb => before - before % 2,
            Shape::Star => 1,
            Shape::Handle => before.min(2),
            Shape::Stars => before - before % 256,
            Shape::Broom => before.min(count / 2),
        };
        let parent = parent.max(1);
        nodes.push(Node {
            records: 1,
            parent,
            weight: 0,
        })?;
    }
    Ok(Tree { nodes })
}

// Trees of as many versions as there may be: some are halved by each cut, from others each cut takes a single version. Each prints its
// time.
#[test]
fn large_trees_are_divided(rt: HostRuntime) -> Result<(), Fail> {
    let alloc = rt.alloc();
    let count = 65_535;
    let cases = [
        ("a chain", Shape::Chain, 16),
        ("a binary tree", Shape::Binary, 18),
        ("a random tree", Shape::Random, 23),
        ("a comb", Shape::Comb, 16),
        ("a star", Shape::Star, 65_534),
        ("a star on a handle", Shape::Handle, 65_534),
        ("256 stars", Shape::Stars, 263),
        ("a broom", Shape::Broom, 32_769),
    ];
    for (name, shape, depth) in cases {
        let tree = shaped_tree(alloc, shape, count)?;
        assert!(rt; is_sound(&tree));
        let start = Instant::now(&rt)?;
        let split = split(alloc, &tree, 1, 1)?;
        let taken = start.elapsed(&rt)?.as_millis();
        assert_eq!(rt; split.parts.len(), count as usize);
        assert_eq!(rt; split.cuts.len() + 1, count as usize);
        assert_eq!(rt; split.depth, depth);
        println!(rt; "{name} of {count} versions: {taken} ms")?;
    }
    Ok(())
}
