//! Laws about ranges and what is counted of them. Each is the contract of a function that does nothing.

ghost use Rattle.std.specs.Prelude.{◌≡◌, ◌+◌, ◌*◌, ℕ, ℤ, pos, ◌*ℤ◌, List, cond, filter, length, nat_lt, replicate, slice_index_or};
ghost use Rattle.std.specs.List.{All, AllZip, count_by, flat_map, sum_by};
ghost use Rattle.std.specs.List.Sorted.{IsPermutation};
ghost use Rattle.ov_tally.specs.Ranks.{InKeyOrder, is_low, pair_order, pairs_of, rank_order, rows_of, sorted_by};
ghost use Rattle.ov_tally.specs.Running.{sum_of};
ghost use Rattle.ov_tally.specs.Spans.{AreApart, AreBelow, Spans, covers, has, how_often, places_in, places_of, run, times};
ghost use Rattle.ov_tally.specs.declared.span.Span.{Span};

/// A position is in as many ranges as it is among their positions, whatever the ranges are.
pub fn times_are_places()
    ensures ranges { (spans : List Span) (p : ℕ) → covers spans p ≡ how_often (places_in spans) p }
    ensures versions { (versions : List Spans) (p : ℕ) → times versions p ≡ how_often (places_of versions) p }
{}

/// Of ranges that are apart one at most has a position, so that the ranges of all versions count versions.
pub fn each_once()
    ensures ranges { (spans : List Span) (p : ℕ) → AreApart spans → covers spans p ≡ cond (has (places_in spans) p) 1 0 }
    ensures versions { (versions : List Spans) (p : ℕ) → All (λ spans. AreApart spans.items) versions → times versions p ≡ count_by (λ spans. has (places_in spans.items) p) versions }
{}

/// What is added up over the positions of all versions is added up over the positions once, each as often as versions have it.
pub fn counted_sum()
    ensures counts { (f : ℕ → ℕ) (count : ℕ) (versions : List Spans) → All (AreBelow (count + 1)) versions → sum_by f (places_of versions) ≡ sum_by (λ p. times versions p * f p) (run 0 count) }
    ensures sums { (f : ℕ → ℤ) (count : ℕ) (versions : List Spans) → All (AreBelow (count + 1)) versions → sum_of f (places_of versions) ≡ sum_of (λ p. pos (times versions p) *ℤ f p) (run 0 count) }
{}

/// The positions of all versions are the positions once, each repeated as often as versions have it, in another order.
pub fn counted_places()
    ensures { (count : ℕ) (versions : List Spans) → All (AreBelow (count + 1)) versions → IsPermutation (flat_map (λ p. replicate (times versions p) p) (run 0 count)) (places_of versions) }
{}

/// Pairs in order are the rows of the versions as these are listed, each version's in the order of its keys, in the stable order
/// of the ranks alone, whatever order the pairs and the positions of the versions had.
pub fn ranked_rows()
    ensures { (ranks keys : List ℕ) (versions : List Spans) (picks : List (List ℕ)) → AllZip (InKeyOrder keys) versions picks → sorted_by pair_order (pairs_of ranks keys versions) ≡ sorted_by rank_order (rows_of ranks keys picks) }
{}

/// As many pairs are below a bound as the positions whose rank is below it, each as often as versions have it.
pub fn low_count()
    ensures { (ranks keys : List ℕ) (bound count : ℕ) (versions : List Spans) → All (AreBelow (count + 1)) versions → length (filter (is_low bound) (pairs_of ranks keys versions)) ≡ sum_by (λ p. times versions p * cond (nat_lt (slice_index_or ranks p 0) bound) 1 0) (run 0 count) }
{}
