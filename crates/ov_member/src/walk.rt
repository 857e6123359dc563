//! Walking along the edges of two sets at once: in the time of their ranges, but that a range of one set which the other one
//! keeps out is leapt to by halves.

ghost use Rattle.std.specs.Prelude.{◌≡◌, ◌≢◌, ℕ, ◌<◌, ◌≤◌, ◌+◌, ◌^◌, false, List, [], ◌∷◌, length, IfOk, IfSome, MatchOption};
ghost use Rattle.ov_member.specs.Edges.{Ascend, rids_between};
ghost use Rattle.ov_member.specs.Walks.{takes, nearest, rest_past, inside_past, AreTurns, Awaits, IsAbove, IsLeap, edges_left, taken};

use crate::edges::NEAR;
use std::alloc::{AllocError, Global};

/// What is in a set that is made of two others.
#[derive(Clone, Copy)]
pub enum Rule {
    /// What is in either of them.
    Either,
    /// What is in the left one alone.
    LeftOnly,
    /// What is in both.
    Both,
}

impl Rule {
    fn takes(self, in_left: bool, in_right: bool) -> bool
        ensures { result ≡ takes self in_left in_right }
    {
        match self {
            Rule::Either => in_left || in_right,
            Rule::LeftOnly => in_left && !in_right,
            Rule::Both => in_left && in_right,
        }
    }
}

/// The edges of a set that are still ahead, and whether the rids before them are in it.
#[derive(Clone, Copy)]
pub struct Side<'a> {
    pub edges: &'a [u32],
    pub inside: bool,
}

impl<'a> Side<'a> {
    /// What is ahead past `edge`, the first one or one before it.
    fn past(self, edge: u32) -> Side<'a>
        ensures rest { result.edges.now ≡ rest_past edge self.entry.edges.now }
        ensures turned { result.inside ≡ inside_past edge self.entry.inside self.entry.edges.now }
    {
        match self.edges {
            [first, rest @ ..] if *first == edge => Side {
                edges: rest,
                inside: !self.inside,
            },
            _ => self,
        }
    }

    /// What is ahead from a number on, where that spares many edges; else it as it is.
    fn from(self, number: u32) -> Side<'a>
        ensures { IsLeap number self.entry.inside self.entry.edges.now result.inside result.edges.now }
    {
        if self.edges.len() > NEAR && self.edges[NEAR] <= number {
            self.far(number)
        } else {
            self
        }
    }

    // The same by halves.
    fn far(self, number: u32) -> Side<'a>
        ensures { IsLeap number self.entry.inside self.entry.edges.now result.inside result.edges.now }
    {
        let passed = self.edges.partition_point(|edge| *edge <= number);
        let edges = &self.edges[passed..];
        let inside = if passed % 2 == 1 {
            !self.inside
        } else {
            self.inside
        };
        Side { edges, inside }
    }

    /// Nothing more, and outside.
    fn nothing() -> Side<'a>
        ensures edges { result.edges.now ≡ [] }
        ensures outside { result.inside ≡ false }
    {
        Side {
            edges: &[],
            inside: false,
        }
    }
}

fn nearest(left: &[u32], right: &[u32]) -> Option<u32>
    ensures { result ≡ nearest left.now right.now }
{
    match (left, right) {
        ([], []) => None,
        ([left, ..], []) => Some(*left),
        ([], [right, ..]) => Some(*right),
        ([left, ..], [right, ..]) => Some((*left).min(*right)),
    }
}

/// Two sets with what is still ahead of each.
#[derive(Clone, Copy)]
pub struct Walk<'a> {
    pub rule: Rule,
    pub left: Side<'a>,
    pub right: Side<'a>,
}

impl<'a> Walk<'a> {
    fn new(rule: Rule, left: &'a [u32], right: &'a [u32]) -> Walk<'a>
        ensures turns { (edges : List ℕ) → Awaits result edges → AreTurns rule false left.now false right.now edges }
        ensures above { (low : ℕ) → Ascend low left.now → Ascend low right.now → IsAbove low result }
    {
        Walk {
            rule,
            left: Side {
                edges: left,
                inside: false,
            },
            right: Side {
                edges: right,
                inside: false,
            },
        }
    }

    // Passes what can't be a turn: where one side keeps all rids out up to its next edge, the other one's edges before that.
    fn leap(&mut self)
        ensures turns { (edges : List ℕ) → Awaits self.new edges → Awaits self.old edges }
        ensures above { (low : ℕ) → IsAbove low self.old → IsAbove low self.new }
        ensures fewer { edges_left self.new ≤ edges_left self.old }
        ensures same { taken self.new ≡ taken self.old }
    {
        match self.rule {
            Rule::Either => {}
            Rule::LeftOnly => self.leap_right(),
            Rule::Both => {
                self.leap_right();
                self.leap_left();
            }
        }
    }

    fn leap_right(&mut self)
        requires { self.old.rule ≢ Rule.Either }
        ensures turns { (edges : List ℕ) → Awaits self.new edges → Awaits self.old edges }
        ensures above { (low : ℕ) → IsAbove low self.old → IsAbove low self.new }
        ensures fewer { edges_left self.new ≤ edges_left self.old }
        ensures same { taken self.new ≡ taken self.old }
        ensures rule { self.new.rule ≡ self.old.rule }
    {
        if self.left.inside {
            return;
        }
        self.right = match self.left.edges.first() {
            Some(edge) => self.right.from(*edge),
            None => Side::nothing(),
        };
    }

    fn leap_left(&mut self)
        requires { self.old.rule ≡ Rule.Both }
        ensures turns { (edges : List ℕ) → Awaits self.new edges → Awaits self.old edges }
        ensures above { (low : ℕ) → IsAbove low self.old → IsAbove low self.new }
        ensures fewer { edges_left self.new ≤ edges_left self.old }
        ensures same { taken self.new ≡ taken self.old }
    {
        if self.right.inside {
            return;
        }
        self.left = match self.right.edges.first() {
            Some(edge) => self.left.from(*edge),
            None => Side::nothing(),
        };
    }

    /// The next rid at which the set that is made begins or ends.
    fn next_turn(&mut self) -> Option<u32>
        ensures turns { MatchOption result (Awaits self.old []) (λ edge. (edges : List ℕ) → Awaits self.new edges → Awaits self.old (edge ∷ edges)) }
        ensures above { IfSome result (λ edge. (low : ℕ) → IsAbove low self.old → (low < edge) × (edge ≤ 2 ^ 31 + 1) × IsAbove edge self.new) }
        ensures fewer { IfSome result (λ edge. edges_left self.new < edges_left self.old) }
    {
        self.leap();
        let inside = self.rule.takes(self.left.inside, self.right.inside);
        while let Some(edge) = nearest(self.left.edges, self.right.edges) {
            self.left = self.left.past(edge);
            self.right = self.right.past(edge);
            if self.rule.takes(self.left.inside, self.right.inside) != inside {
                return Some(edge);
            }
            self.leap();
        }
        None
    }
}

/// The edges of the set that `rule` makes of two sets, given by theirs.
pub fn made(alloc: Global, rule: Rule, left: &[u32], right: &[u32]) -> Result<Vec<u32>, AllocError>
    ensures { IfOk result (λ edges. AreTurns rule false left.now false right.now edges.items) }
{
    let mut walk = Walk::new(rule, left, right);
    let mut edges = Vec::new(alloc);
    while let Some(edge) = walk.next_turn() {
        edges.push(edge)?;
    }
    Ok(edges)
}

/// How many rids the set has that `rule` makes of two sets, given by their edges.
pub fn count_made(rule: Rule, left: &[u32], right: &[u32]) -> u32
    requires left_ascends { Ascend 0 left.now }
    requires right_ascends { Ascend 0 right.now }
    ensures { (edges : List ℕ) × AreTurns rule false left.now false right.now edges × (result ≡ length (rids_between edges)) }
{
    let mut walk = Walk::new(rule, left, right);
    let mut count = 0;
    while let Some(first) = walk.next_turn() {
        let Some(past) = walk.next_turn() else {
            break;
        };
        count += past - first;
    }
    count
}
