//! A walk over the ranges of one set, from the least rid on.

ghost use Rattle.std.specs.Prelude.{◌≡◌, ◌<◌, ◌≤◌, ℕ, false, length, slice_index};
ghost use Rattle.ov_member.specs.Edges.{Ascend, is_odd, status};

use crate::edges::NEAR;
use std::marker::Model;

/// What is ahead of a walk over a set: its edges from some rid on, and whether the rids before the first of them are
/// in the set. `status` says of each rid from there on whether it is in the set.
#[derive(Drop)]
pub struct Ahead<'a> {
    // The edges that are left, ascending: where a range begins, and one past where it ends, in turn. All of them are an even
    // number, so the rids before the first of those left are in the set where these are an odd one.
    edges: &'a [u32],
}

impl<'a> Model for Ahead<'a> {
    ghost use Rattle.std.specs.Prelude.{length};
    ghost use Rattle.ov_member.specs.Edges.{Ascend, Left, is_odd};

    ghost Value = { Left };

    ghost view = { λ a. record { inside = is_odd (length a.edges.now); edges = a.edges.now } };

    ghost invariant = { λ a. Ascend 0 a.edges.now };
}

impl<'a> Ahead<'a> {
    /// What is ahead before the first of these edges.
    pub(crate) fn before(edges: &'a [u32]) -> Ahead<'a>
        requires ascend { Ascend 0 edges.now }
        requires even { is_odd (length edges.now) ≡ false }
        ensures inside { result.inside ≡ false }
        ensures edges { result.edges ≡ edges.now }
    {
        Ahead { edges }
    }

    /// Whether the rids before the first edge are in the set.
    pub fn is_inside(&self) -> bool
        ensures { result ≡ self.now.inside }
    {
        self.edges.len() % 2 == 1
    }

    /// What is ahead from this rid on: it is inside where the rid is in the set. A walk over ascending rids passes each
    /// edge once, and where it leaps over many, it takes the logarithm of their number.
    pub fn at(&self, rid: u32) -> Ahead<'a>
        ensures inside { result.inside ≡ status self.now.inside self.now.edges rid }
        ensures ahead { (n : ℕ) → rid ≤ n → status result.inside result.edges n ≡ status self.now.inside self.now.edges n }
    {
        if self.edges.len() > NEAR && self.edges[NEAR] <= rid {
            self.far(rid)
        } else {
            self.near(rid)
        }
    }

    /// Goes on to this rid, as [`Ahead::at`] does. Where it passes no edge, as with most records, nothing changes.
    #[inline(always)]
    pub fn go_to(&mut self, rid: u32)
        ensures inside { self.new.inside ≡ status self.old.inside self.old.edges rid }
        ensures ahead { (n : ℕ) → rid ≤ n → status self.new.inside self.new.edges n ≡ status self.old.inside self.old.edges n }
    {
        if let Some(edge) = self.edges.first() {
            if *edge <= rid {
                *self = self.at(rid);
            }
        }
    }

    // The same, edge by edge.
    fn near(&self, rid: u32) -> Ahead<'a>
        ensures inside { result.inside ≡ status self.now.inside self.now.edges rid }
        ensures ahead { (n : ℕ) → rid ≤ n → status result.inside result.edges n ≡ status self.now.inside self.now.edges n }
    {
        let mut edges = self.edges;
        while let Some((edge, rest)) = edges.split_first() {
            if rid < *edge {
                break;
            }
            edges = rest;
        }
        Ahead { edges }
    }

    // The same, by halves.
    fn far(&self, rid: u32) -> Ahead<'a>
        ensures inside { result.inside ≡ status self.now.inside self.now.edges rid }
        ensures ahead { (n : ℕ) → rid ≤ n → status result.inside result.edges n ≡ status self.now.inside self.now.edges n }
    {
        let passed = edges_up_to(self.edges, rid);
        Ahead {
            edges: &self.edges[passed..],
        }
    }
}

// How many edges aren't above the rid.
fn edges_up_to(edges: &[u32], rid: u32) -> usize
    requires { Ascend 0 edges.now }
    ensures bound { result ≤ length edges.now }
    ensures before { (k : ℕ) → k < result → slice_index edges.now k ≤ rid }
    ensures behind { (k : ℕ) → result ≤ k → k < length edges.now → rid < slice_index edges.now k }
{
    edges.partition_point(|edge| *edge <= rid)
}
