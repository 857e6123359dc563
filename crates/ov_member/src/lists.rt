//! Lists of rids in bytes.

ghost use Rattle.std.specs.Prelude.{◌≡◌, ◌↔◌, ℕ, ◌+◌, ◌<◌, ◌≤◌, ◌^◌, List, length, IsTrue, IfOk, IfSome, IfNone, MatchOption};
ghost use Rattle.ov_member.specs.Rids.{AreRids};
ghost use Rattle.ov_member.specs.Lists.{Spells, bytes_of, range_bytes};
ghost use Rattle.ov_member.specs.Edges.{AreEdges, ranges_between, rids_between};

use crate::members::{LAST_RID, Members};
use std::alloc::{AllocError, Global};

/// A range takes eight bytes: its first rid, and how many rids it has.
const RANGE_BYTES: usize = 8;

/// The list of a set, given by its edges.
pub fn list_of(alloc: Global, edges: &[u32]) -> Result<Vec<u8>, AllocError>
    requires { AreEdges edges.now }
    ensures { IfOk result (λ bytes. bytes.items ≡ bytes_of (ranges_between edges.now)) }
{
    let mut bytes = Vec::with_capacity(alloc, edges.len() / 2 * RANGE_BYTES)?;
    let mut rest = edges;
    while let [first, past, others @ ..] = rest {
        bytes.extend_from_slice(&first.to_be_bytes())?;
        bytes.extend_from_slice(&(past - first).to_be_bytes())?;
        rest = others;
    }
    Ok(bytes)
}

/// The two numbers of a range.
fn numbers_of(range: &[u8]) -> (u32, u32)
    requires { length range.now ≡ 8 }
    ensures { range.now ≡ range_bytes (record { first = result.0; count = result.1 }) }
{
    let (first, count) = range.split_at(4);
    (
        u32::from_be_bytes([first[0], first[1], first[2], first[3]]),
        u32::from_be_bytes([count[0], count[1], count[2], count[3]]),
    )
}

/// Whether a range may come next, where `past` is one past the last rid before it.
fn follows(past: u32, first: u32, count: u32) -> bool
    ensures { IsTrue result ↔ ((past < first) × (0 < count) × (first + count ≤ 2 ^ 31 + 1)) }
{
    past < first && first <= LAST_RID && 0 < count && count <= LAST_RID - first + 1
}

/// The edges of the set whose list the bytes are, or `None` where they are none.
fn edges_read(alloc: Global, bytes: &[u8]) -> Result<Option<Vec<u32>>, AllocError>
    ensures { IfOk result (λ found. MatchOption found ((rids : List ℕ) → Spells bytes.now rids → ⊥) (λ edges. AreEdges edges.items × Spells bytes.now (rids_between edges.items))) }
{
    let mut edges = Vec::with_capacity(alloc, bytes.len() / RANGE_BYTES * 2)?;
    let mut past = 0;
    let mut rest = bytes;
    while !rest.is_empty() {
        if rest.len() < RANGE_BYTES {
            return Ok(None);
        }
        let (range, others) = rest.split_at(RANGE_BYTES);
        let (first, count) = numbers_of(range);
        if !follows(past, first, count) {
            return Ok(None);
        }
        past = first + count;
        edges.push(first)?;
        edges.push(past)?;
        rest = others;
    }
    Ok(Some(edges))
}

/// The set whose list the bytes are, all of the bytes, as [`Members::list_bytes`] writes it. `None` where they
/// are no list. It takes no more memory than there are bytes.
pub fn read_list(alloc: Global, bytes: &[u8]) -> Result<Option<Members>, AllocError>
    ensures found { IfOk result (λ found. IfSome found (Spells bytes.now)) }
    ensures none { IfOk result (λ found. IfNone found ((rids : List ℕ) → Spells bytes.now rids → ⊥)) }
    ensures set { IfOk result (λ found. IfSome found AreRids) }
{
    match edges_read(alloc, bytes)? {
        None => Ok(None),
        Some(edges) => Ok(Some(Members::kept_by(edges))),
    }
}
