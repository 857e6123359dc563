//! A set of record ids.

ghost use Rattle.std.specs.Prelude.{◌≡◌, ◌≤◌, ◌^◌, ℕ, [], length, IfOk, MatchOption};
ghost use Rattle.std.specs.Option.{SomeIff};
ghost use Rattle.ov_member.specs.Rids.{AreRids, has, shared, left_out, IsGreatest, IsUnion};
ghost use Rattle.ov_member.specs.Lists.{spelling, Spells};
ghost use Rattle.ov_member.specs.Edges.{AreEdges, rids_between, status};

use crate::ahead::Ahead;
use crate::list_bytes::ListBytes;
use crate::walk::Rule;
use crate::{edges, lists, walk};
use std::alloc::{AllocError, Global};
use std::marker::Model;

/// The greatest record id, 2^31. The least is 1.
pub const LAST_RID: u32 = 2_147_483_648;

/// A set of record ids. It is kept as its ranges of successive rids, so that its size, and the time of the calls
/// that take one or two sets, go by the number of ranges. Contracts see it as the list of its rids, ascending.
#[derive(Drop)]
pub struct Members {
    edges: Vec<u32>,
}

impl Model for Members {
    ghost use Rattle.std.specs.Prelude.{List, ℕ};
    ghost use Rattle.ov_member.specs.Edges.{AreEdges, rids_between};

    ghost Value = { List ℕ };

    ghost view = { λ m. rids_between m.edges.items };

    ghost invariant = { λ m. AreEdges m.edges.items };
}

impl Members {
    /// The set of these rids. `None` where they don't ascend strictly, or where one isn't from 1 to
    /// [`LAST_RID`].
    pub fn of(alloc: Global, rids: &[u32]) -> Result<Option<Members>, AllocError>
        ensures { IfOk result (λ found. SomeIff found (AreRids rids.now) rids.now) }
    {
        match edges::edges_of(alloc, rids)? {
            None => Ok(None),
            Some(edges) => Ok(Some(Members { edges })),
        }
    }

    /// The set without a rid. Takes no memory.
    pub fn empty(alloc: Global) -> Members
        ensures { result ≡ [] }
    {
        Members {
            edges: Vec::new(alloc),
        }
    }

    /// The same rids, as a set of its own.
    pub fn copy(&self, alloc: Global) -> Result<Members, AllocError>
        ensures set { IfOk result AreRids }
        ensures same { IfOk result (λ copy. copy ≡ self.now) }
    {
        let edges = Vec::from_slice(alloc, &self.edges)?;
        Ok(Members { edges })
    }

    /// The set with these edges.
    pub(crate) fn kept_by(edges: Vec<u32>) -> Members
        requires { AreEdges edges.items }
        ensures { result ≡ rids_between edges.items }
    {
        Members { edges }
    }

    /// The rids that are in one of the sets, or in both.
    pub fn union(&self, alloc: Global, other: &Members) -> Result<Members, AllocError>
        ensures { IfOk result (IsUnion self.now other.now) }
    {
        let edges = walk::made(alloc, Rule::Either, &self.edges, &other.edges)?;
        Ok(Members { edges })
    }

    /// The rids of this set that are not in the other.
    pub fn without(&self, alloc: Global, other: &Members) -> Result<Members, AllocError>
        ensures set { IfOk result AreRids }
        ensures members { IfOk result (λ members. members ≡ left_out self.now other.now) }
    {
        let edges = walk::made(alloc, Rule::LeftOnly, &self.edges, &other.edges)?;
        Ok(Members { edges })
    }

    /// How many rids are in both sets.
    pub fn common(&self, other: &Members) -> u32
        ensures { result ≡ length (shared self.now other.now) }
    {
        walk::count_made(Rule::Both, &self.edges, &other.edges)
    }

    /// Whether a rid is in the set, in time by the logarithm of its number of ranges.
    pub fn contains(&self, rid: u32) -> bool
        ensures { result ≡ has self.now rid }
    {
        edges::contains(&self.edges, rid)
    }

    /// A walk over the set, before its least rid.
    pub fn ahead(&self) -> Ahead<'_>
        ensures { (n : ℕ) → status result.inside result.edges n ≡ has self.now n }
    {
        Ahead::before(&self.edges)
    }

    /// The greatest rid; `None` where there is no rid.
    pub fn greatest(&self) -> Option<u32>
        ensures { MatchOption result (self.now ≡ []) (IsGreatest self.now) }
    {
        edges::greatest(&self.edges)
    }

    /// How many rids the set has, at most [`LAST_RID`].
    pub fn len(&self) -> u32
        ensures count { result ≡ length self.now }
        ensures at_most { result ≤ 2 ^ 31 }
        ensures set { AreRids self.now }
    {
        edges::count(&self.edges)
    }

    /// The bytes of the set's list: its ranges, ascending, where successive rids share a range. A range takes
    /// eight bytes: its first rid and its number of rids, each in four bytes with the greatest byte first.
    pub fn list_bytes(&self, alloc: Global) -> Result<ListBytes, AllocError>
        ensures spells { IfOk result (λ bytes. Spells bytes self.now) }
        ensures spelling { IfOk result (λ bytes. bytes ≡ spelling self.now) }
    {
        let bytes = lists::list_of(alloc, &self.edges)?;
        Ok(ListBytes::new(bytes))
    }
}
