//! Splits by the definition's words: worked ones, and larger ones beside those of the shipped program.

ghost use Rattle.std.specs.Prelude.{◌<◌, ◌≤◌, length};
ghost use Rattle.std.specs.Bool.{OnTrue};
ghost use Rattle.ov_graph.specs.Trees.{IsSound};

use ov_graph::{Node, Tree};
use ov_lyre::{Split, split};
use ov_plain::plain_split;
use std::alloc::{AllocError, Global};
use std::test::*;

/// Whether a tree is sound and not empty.
fn is_sound(tree: &Tree) -> bool
    ensures sound { OnTrue result (IsSound tree.now.nodes.items) }
    ensures some { OnTrue result (0 < length tree.now.nodes.items) }
    ensures few { OnTrue result (length tree.now.nodes.items ≤ 65535) }
{
    let nodes = tree.nodes.as_slice();
    if nodes.is_empty() || nodes.len() > 65_535 || nodes[0].parent != 0 || nodes[0].weight != 0 {
        return false;
    }
    for k in 1..nodes.len() {
        let node = nodes[k];
        if node.parent == 0
            || node.parent as usize > k
            || node.weight > node.records
            || node.weight > nodes[node.parent as usize - 1].records
        {
            return false;
        }
    }
    true
}

/// A tree of versions, each as its records, its tree parent and its weight.
fn tree_of(alloc: Global, rows: &[(u32, u32, u32)]) -> Result<Tree, AllocError> {
    let mut nodes = Vec::new(alloc);
    for (records, parent, weight) in rows {
        nodes.push(Node {
            records: *records,
            parent: *parent,
            weight: *weight,
        })?;
    }
    Ok(Tree { nodes })
}

/// The vids of each part, with a 0 behind them; then those whose edges are cut, a 0, and the depth.
fn numbers(alloc: Global, split: &Split) -> Result<Vec<u32>, AllocError> {
    let mut numbers = Vec::new(alloc);
    for part in &split.parts {
        numbers.extend_from_slice(part)?;
        numbers.push(0)?;
    }
    numbers.extend_from_slice(&split.cuts)?;
    numbers.push(0)?;
    numbers.push(split.depth)?;
    Ok(numbers)
}

/// The numbers of a tree's split: by the shipped program, or by the plain one.
fn divided(alloc: Global, shipped: bool, tree: &Tree, p: u32, q: u32) -> Result<Vec<u32>, Fail> {
    if !is_sound(tree) || p == 0 || p > q || q > 1_000_000 {
        return Err("no such tree")?;
    }
    let found = if shipped {
        split(alloc, tree, p, q)?
    } else {
        plain_split(alloc, tree, p, q)?
    };
    Ok(numbers(alloc, &found)?)
}

/// A tree's nodes, a threshold, and the numbers of the split.
type Worked = (&'static [(u32, u32, u32)], u32, u32, &'static [u32]);

// A chain of three versions with 4, 4 and 5 records, which share 1 and 4; the dataset of four versions whose last one has the
// tree parent 1; and equality, which stops.
const WORKED: &[Worked] = &[
    (
        &[(4, 0, 0), (4, 1, 1), (5, 2, 4)],
        1,
        2,
        &[1, 2, 3, 0, 0, 0],
    ),
    (
        &[(4, 0, 0), (4, 1, 1), (5, 2, 4)],
        3,
        4,
        &[1, 0, 2, 3, 0, 2, 0, 1],
    ),
    (
        &[(2, 0, 0), (3, 1, 1), (2, 2, 1), (3, 1, 2)],
        1,
        1,
        &[1, 0, 2, 0, 3, 0, 4, 0, 2, 3, 4, 0, 2],
    ),
    (&[(1, 0, 0), (3, 1, 1)], 2, 3, &[1, 2, 0, 0, 0]),
];

#[test]
fn worked_trees_are_divided_by_the_definition(rt: HostRuntime) -> Result<(), Fail> {
    let alloc = rt.alloc();
    for (nodes, p, q, wanted) in WORKED {
        let tree = tree_of(alloc, nodes)?;
        let found = divided(alloc, false, &tree, *p, *q)?;
        assert_eq!(rt; found.as_slice(), *wanted);
    }
    Ok(())
}

#[derive(Clone, Copy)]
enum Shape {
    Chain,
    Star,
    Binary,
    Random,
}

/// Numbers that look random.
#[derive(Drop)]
struct Draws {
    state: u32,
}

impl Draws {
    /// The next one, below a bound; 0 where the bound is 0.
    fn below(&mut self, bound: u32) -> u32 {
        self.state = self.state.wrapping_mul(1_103_515_245).wrapping_add(12_345);
        if bound == 0 {
            0
        } else {
            (self.state >> 8) % bound
        }
    }
}

/// A sound tree of a shape, whose versions have 1 to `most` records each.
fn shaped_tree(
    alloc: Global,
    shape: Shape,
    count: u32,
    most: u32,
    seed: u32,
) -> Result<Tree, AllocError> {
    let mut draws = Draws { state: seed };
    let mut nodes: Vec<Node> = Vec::new(alloc);
    for before in 0..count {
        let records = draws.below(most).saturating_add(1);
        let parent = match shape {
            Shape::Chain => before,
            Shape::Star => before.min(1),
            Shape::Binary => before.saturating_add(1) / 2,
            Shape::Random => draws.below(before).saturating_add(before.min(1)),
        };
        let shared = match nodes.get((parent as usize).saturating_sub(1)) {
            Some(node) => node.records.min(records).saturating_add(1),
            None => 0,
        };
        let weight = draws.below(shared);
        nodes.push(Node {
            records,
            parent,
            weight,
        })?;
    }
    Ok(Tree { nodes })
}

// Each shape with how many versions and how many records at most.
const SHAPES: &[(Shape, u32, u32)] = &[
    (Shape::Chain, 2, 5),
    (Shape::Chain, 30, 3),
    (Shape::Chain, 40, 1000),
    (Shape::Star, 2, 5),
    (Shape::Star, 30, 40),
    (Shape::Binary, 40, 9),
    (Shape::Random, 1, 5),
    (Shape::Random, 3, 2),
    (Shape::Random, 12, 6),
    (Shape::Random, 40, 20),
    (Shape::Random, 50, 4_000_000),
];

const THRESHOLDS: &[(u32, u32)] = &[
    (1, 1_000_000),
    (1, 40),
    (1, 10),
    (1, 4),
    (1, 2),
    (2, 3),
    (9, 10),
    (1, 1),
];

fn are_alike(alloc: Global, tree: &Tree, p: u32, q: u32) -> Result<bool, Fail> {
    let shipped = divided(alloc, true, tree, p, q)?;
    let plain = divided(alloc, false, tree, p, q)?;
    Ok(shipped.as_slice() == plain.as_slice())
}

/// Whether a shape's trees are divided alike at all thresholds, each tree from a seed of its own.
fn is_alike(alloc: Global, shape: Shape, count: u32, most: u32, seed: u32) -> Result<bool, Fail> {
    let mut seed = seed;
    for (p, q) in THRESHOLDS {
        seed = seed.wrapping_add(1);
        let tree = shaped_tree(alloc, shape, count, most, seed)?;
        if !are_alike(alloc, &tree, *p, *q)? {
            return Ok(false);
        }
    }
    Ok(true)
}

// Chains, stars, binary and random trees, at several thresholds: the shipped program, which keeps running sums, divides
// each as the definition does, which takes its sums over a part each time.
#[test]
fn the_shipped_split_is_the_plain_one(rt: HostRuntime) -> Result<(), Fail> {
    let alloc = rt.alloc();
    let mut seed = 1u32;
    for (shape, count, most) in SHAPES {
        assert!(rt; is_alike(alloc, *shape, *count, *most, seed)?);
        seed = seed.wrapping_add(8);
    }
    Ok(())
}
