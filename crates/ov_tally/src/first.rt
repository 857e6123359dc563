//! The first rows of several versions in the order of their ranks.

ghost use Rattle.std.specs.Prelude.{◌≡◌, ◌≤◌, ◌^◌, ◌++◌, ◌∷◌, [], if◌then◌else◌, IfOk, OnOk, filter, length, nat_lt, slice_index_or, take};
ghost use Rattle.ov_tally.specs.Ranks.{is_low, pair_at, pair_order, pairs_in, pairs_of, sorted_by};

use crate::span::Span;
use std::alloc::{AllocError, Global};
use std::cmp::Ordering;

/// A row of a version, with what it is ordered by: the rank first, of equal ranks the version, and of one version the key. It
/// takes 16 bytes.
#[derive(Clone, Copy)]
pub struct Pair {
    /// The number of what rows are ordered by, the same for what is alike.
    pub rank: u32,
    /// The version's place in the list of versions, from 0 on.
    pub version: u32,
    /// The number of the row's key in the order of the table.
    pub key: u32,
    /// The row's position. Nothing is ordered by it.
    pub place: u32,
}

/// The first pairs in order, where as many have a rank below a bound: no other pair is kept or ordered. Pairs that tie by rank,
/// version and key stay as they stood. It takes 16 bytes for each pair below the bound, and what a sort of these takes.
pub fn first_of(
    alloc: Global,
    pairs: &[Pair],
    bound: u32,
    count: usize,
) -> Result<Vec<Pair>, AllocError>
    requires { count ≤ length (filter (is_low bound) pairs.now) }
    ensures { IfOk result (λ made. made.items ≡ take count (sorted_by pair_order pairs.now)) }
{
    let mut kept = low_pairs(alloc, pairs, bound)?;
    keep_first(&mut kept, count)?;
    Ok(kept)
}

/// The first pairs in order of versions at their ranges, as [`first_of`] gives them, where as many have a rank below a bound: a
/// step for each position of each version. Ranks and keys are those of the positions; where a list ends before one, that
/// number is 0. It takes 16 bytes for each pair below the bound, and what a sort of these takes.
pub fn first_in(
    alloc: Global,
    ranks: &[u32],
    keys: &[u32],
    versions: &[Vec<Span>],
    bound: u32,
    count: usize,
) -> Result<Vec<Pair>, AllocError>
    requires few { length versions.now ≤ 2 ^ 29 }
    requires enough { count ≤ length (filter (is_low bound) (pairs_of ranks.now keys.now versions.now)) }
    ensures { IfOk result (λ made. made.items ≡ take count (sorted_by pair_order (pairs_of ranks.now keys.now versions.now))) }
{
    let mut kept = low_of(alloc, ranks, keys, versions, bound)?;
    keep_first(&mut kept, count)?;
    Ok(kept)
}

/// Adds the pairs of a version in one range whose rank is below a bound, a step for each position. Ranks and keys are those of
/// the positions; where a list ends before one, that number is 0. It takes 16 bytes for each pair that is added.
pub fn low_in(
    ranks: &[u32],
    keys: &[u32],
    span: Span,
    version: u32,
    bound: u32,
    kept: &mut Vec<Pair>,
) -> Result<(), AllocError>
    ensures { OnOk result (kept.new.items ≡ kept.old.items ++ filter (is_low bound) (pairs_in version ranks.now keys.now (span ∷ []))) }
{
    for place in span.first..span.past {
        let rank = number_at(ranks, place);
        push_low(rank, keys, place, version, bound, kept)?;
    }
    Ok(())
}

// The pairs of all versions whose rank is below a bound.
fn low_of(
    alloc: Global,
    ranks: &[u32],
    keys: &[u32],
    versions: &[Vec<Span>],
    bound: u32,
) -> Result<Vec<Pair>, AllocError>
    requires { length versions.now ≤ 2 ^ 29 }
    ensures { IfOk result (λ kept. kept.items ≡ filter (is_low bound) (pairs_of ranks.now keys.now versions.now)) }
{
    let mut kept = Vec::new(alloc);
    let mut version: u32 = 0;
    for spans in versions {
        low_spans(ranks, keys, spans.as_slice(), version, bound, &mut kept)?;
        version += 1;
    }
    Ok(kept)
}

// Adds those of one version.
fn low_spans(
    ranks: &[u32],
    keys: &[u32],
    spans: &[Span],
    version: u32,
    bound: u32,
    kept: &mut Vec<Pair>,
) -> Result<(), AllocError>
    ensures { OnOk result (kept.new.items ≡ kept.old.items ++ filter (is_low bound) (pairs_in version ranks.now keys.now spans.now)) }
{
    for span in spans {
        low_in(ranks, keys, *span, version, bound, kept)?;
    }
    Ok(())
}

// Adds the pair of a position, where its rank is below the bound: only then its key is looked up.
fn push_low(
    rank: u32,
    keys: &[u32],
    place: u32,
    version: u32,
    bound: u32,
    kept: &mut Vec<Pair>,
) -> Result<(), AllocError>
    ensures { OnOk result (kept.new.items ≡ kept.old.items ++ (if nat_lt rank bound then record { rank = rank; version = version; key = slice_index_or keys.now place 0; place = place } ∷ [] else [])) }
{
    if rank < bound {
        let key = number_at(keys, place);
        kept.push(Pair {
            rank,
            version,
            key,
            place,
        })?;
    }
    Ok(())
}

fn push_if(taken: bool, pair: Pair, kept: &mut Vec<Pair>) -> Result<(), AllocError>
    ensures { OnOk result (kept.new.items ≡ kept.old.items ++ (if taken then pair ∷ [] else [])) }
{
    if taken {
        kept.push(pair)?;
    }
    Ok(())
}

fn low_pairs(alloc: Global, pairs: &[Pair], bound: u32) -> Result<Vec<Pair>, AllocError>
    ensures { IfOk result (λ kept. kept.items ≡ filter (is_low bound) pairs.now) }
{
    let mut kept = Vec::new(alloc);
    for pair in pairs {
        push_if(pair.rank < bound, *pair, &mut kept)?;
    }
    Ok(kept)
}

// Puts pairs in order, and drops all but the first ones.
fn keep_first(pairs: &mut Vec<Pair>, count: usize) -> Result<(), AllocError>
    ensures { OnOk result (pairs.new.items ≡ take count (sorted_by pair_order pairs.old.items)) }
{
    sort_pairs(pairs)?;
    pairs.truncate(count);
    Ok(())
}

fn sort_pairs(pairs: &mut Vec<Pair>) -> Result<(), AllocError>
    ensures { OnOk result (pairs.new.items ≡ sorted_by pair_order pairs.old.items) }
{
    pairs.sort_by(|a, b| compare(a, b))?;
    Ok(())
}

fn compare(a: &Pair, b: &Pair) -> Ordering
    ensures { result ≡ pair_order a.now b.now }
{
    a.rank
        .cmp(&b.rank)
        .then(a.version.cmp(&b.version))
        .then(a.key.cmp(&b.key))
}

// The number of a position; 0 where there is none.
fn number_at(numbers: &[u32], place: u32) -> u32
    ensures { result ≡ slice_index_or numbers.now place 0 }
{
    match numbers.get(place as usize) {
        Some(number) => *number,
        None => 0,
    }
}
