//! A set as its edges: where each of its ranges begins, and one past where it ends, ascending.

ghost use Rattle.std.specs.Prelude.{◌≡◌, [], ◌∷◌, ◌++◌, length, IfOk, OnOk, OnErr, MatchOption};
ghost use Rattle.ov_member.specs.Rids.{AreRids, IsGreatest, has};
ghost use Rattle.ov_member.specs.Edges.{AreEdges, rids_between};

use crate::members::LAST_RID;
use std::alloc::{AllocError, Global};

/// How many edges a walk passes one by one. Where more are to be passed, they are searched by halves.
pub const NEAR: usize = 8;

/// Puts a rid above all others into a set: into its last range, or as a range of its own.
pub fn push_rid(edges: &mut Vec<u32>, rid: u32) -> Result<(), AllocError>
    requires sound { AreEdges edges.old.items }
    requires above { AreRids (rids_between edges.old.items ++ rid ∷ []) }
    ensures sound { AreEdges edges.new.items }
    ensures put { OnOk result (rids_between edges.new.items ≡ rids_between edges.old.items ++ rid ∷ []) }
    ensures unchanged { OnErr result (edges.new.items ≡ edges.old.items) }
{
    let ends_here = edges.last().copied() == Some(rid);
    if ends_here {
        let last = edges.len() - 1;
        edges[last] = rid + 1;
        return Ok(());
    }
    edges.extend_from_slice(&[rid, rid + 1])?;
    Ok(())
}

/// The edges of these rids, or `None` where they aren't a set.
pub fn edges_of(alloc: Global, rids: &[u32]) -> Result<Option<Vec<u32>>, AllocError>
    ensures { IfOk result (λ found. MatchOption found (AreRids rids.now → ⊥) (λ edges. AreEdges edges.items × AreRids rids.now × (rids_between edges.items ≡ rids.now))) }
{
    let mut edges = Vec::new(alloc);
    let mut least = 1;
    for rid in rids {
        if *rid < least || *rid > LAST_RID {
            return Ok(None);
        }
        push_rid(&mut edges, *rid)?;
        least = *rid + 1;
    }
    Ok(Some(edges))
}

/// Whether a rid is in a set. A search by halves.
pub fn contains(edges: &[u32], rid: u32) -> bool
    requires { AreEdges edges.now }
    ensures { result ≡ has (rids_between edges.now) rid }
{
    edges.partition_point(|edge| *edge <= rid) % 2 == 1
}

/// The greatest rid of a set: the one before its last edge.
pub fn greatest(edges: &[u32]) -> Option<u32>
    requires { AreEdges edges.now }
    ensures { MatchOption result (rids_between edges.now ≡ []) (IsGreatest (rids_between edges.now)) }
{
    match edges.last() {
        Some(past) => Some(*past - 1),
        None => None,
    }
}

/// How many rids a set has.
pub fn count(edges: &[u32]) -> u32
    requires { AreEdges edges.now }
    ensures { result ≡ length (rids_between edges.now) }
{
    let mut count = 0;
    let mut rest = edges;
    while let [first, past, others @ ..] = rest {
        count += past - first;
        rest = others;
    }
    count
}
