//! A law about the reduced tree, as the contract of a function that does nothing.

ghost use Rattle.std.specs.Prelude.{ℕ, ◌<◌, List, length};
ghost use Rattle.ov_graph.specs.Versions.{IsKept, heaviest};

/// Of a version's parents the first of the greatest weight is kept.
pub fn heaviest_is_kept()
    ensures { (edges : List (ℕ × ℕ)) → 0 < length edges → IsKept edges (heaviest edges) }
{}
