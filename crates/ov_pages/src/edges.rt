//! A set of pages as its edges: where each of its runs begins, and one past where it ends, ascending.

ghost use Rattle.std.specs.Prelude.{◌≡◌, ℕ, ◌+◌, ◌*◌, ◌<◌, ◌≤◌, ◌^◌, length, vec_capacity, MatchOption};
ghost use Rattle.ov_pages.specs.Sets.{IsFreeRun, IsLowestRun};
ghost use Rattle.ov_pages.specs.Edges.{Ascend, AreEdges, pages_between, turned};

use ov_host::PAGES;

/// Puts an edge in, or takes it out where it is there. The pages from it on turn: those that were in are out.
fn turn(edges: &mut Vec<u32>, edge: u32)
    requires ascend { Ascend 0 edges.old.items }
    requires room { length edges.old.items < vec_capacity edges.old }
    ensures turned { edges.new.items ≡ turned edge edges.old.items }
    ensures capacity { vec_capacity edges.old ≤ vec_capacity edges.new }
{
    let at = edges.partition_point(|x| *x < edge);
    if at < edges.len() && edges[at] == edge {
        edges.remove(at);
    } else {
        // There is room, so this takes no memory.
        let _ = edges.insert(at, edge);
    }
}

/// Turns the pages of a run, up to `past`, which is left out: those that were in are out.
pub fn turn_run(edges: &mut Vec<u32>, first: u32, past: u32)
    requires sound { AreEdges edges.old.items }
    requires order { first < past }
    requires limit { past ≤ 2 ^ 22 }
    requires room { length edges.old.items + 2 ≤ vec_capacity edges.old }
    ensures turned { edges.new.items ≡ turned past (turned first edges.old.items) }
    ensures capacity { vec_capacity edges.old ≤ vec_capacity edges.new }
{
    turn(edges, first);
    turn(edges, past);
}

/// The first page of the lowest free run of `n` pages.
pub fn lowest_run(edges: &[u32], n: u32) -> Option<u32>
    requires sound { AreEdges edges.now }
    requires some { 1 ≤ n }
    ensures { MatchOption result ((first : ℕ) → IsFreeRun (pages_between edges.now) n first → ⊥) (IsLowestRun (pages_between edges.now) n) }
{
    let mut low = 0;
    let mut rest = edges;
    while let [first, past, others @ ..] = rest {
        if first - low >= n {
            return Some(low);
        }
        low = *past;
        rest = others;
    }
    if PAGES - low >= n { Some(low) } else { None }
}
