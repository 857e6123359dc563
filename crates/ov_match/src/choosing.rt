//! The choice among partitions.

ghost use Rattle.std.specs.Prelude.{◌≡◌, ◌↔◌, None, length, option_copied, IfOk, IfSome, MatchOption};
ghost use Rattle.ov_member.specs.Rids.{AreRids};
ghost use Rattle.ov_model.specs.Plans.{source_of};
ghost use Rattle.ov_match.specs.Matching.{NumbersAscend, AllSound, IsBest, IsChoice, NoneIsCheap, below, cheapest, number_of};

use crate::costs::cost_of;
use crate::keeping::keep;
use ov_member::Members;
use std::alloc::{AllocError, Global};

/// An old partition that a target empties: its number, and the rids of each of its segments.
#[derive(Drop)]
pub struct Candidate {
    pub part: u32,
    pub segments: Vec<Members>,
}

/// What a target begins with: the partition that it takes segments from, which of those it keeps, counted from 0, and how many
/// records are in them.
#[derive(Drop)]
pub struct Choice {
    pub part: u32,
    pub kept: Vec<u32>,
    pub records: u32,
}

/// The candidate of the least cost, the first of those, where it costs less than to build anew.
fn best_of<'a>(target: &Members, candidates: &'a [Candidate]) -> Option<&'a Candidate>
    requires segments { AllSound candidates.now }
    ensures set { AreRids target.now }
    ensures best { MatchOption (option_copied result) (below (length target.now) (cheapest target.now candidates.now) ≡ None) (IsBest target.now candidates.now) }
{
    let mut best = None;
    let mut least = target.len() as u64;
    for candidate in candidates {
        let cost = cost_of(target, &candidate.segments);
        if cost < least {
            least = cost;
            best = Some(candidate);
        }
    }
    best
}

/// The partition that a target takes segments from: of those that it empties the one that costs least to make into it, ties to
/// the least number, where that costs less than to build the target anew. None where no such partition costs less.
pub fn choose(
    alloc: Global,
    target: &Members,
    candidates: &[Candidate],
) -> Result<Option<Choice>, AllocError>
    requires numbers { NumbersAscend 0 candidates.now }
    requires segments { AllSound candidates.now }
    ensures choice { IfOk result (λ found. IfSome found (IsChoice target.now candidates.now)) }
    ensures none { IfOk result (λ found. (found ≡ None) ↔ NoneIsCheap target.now candidates.now) }
    ensures source { IfOk result (λ found. number_of found ≡ source_of (length target.now) (cheapest target.now candidates.now)) }
{
    match best_of(target, candidates) {
        None => Ok(None),
        Some(candidate) => {
            let kept = keep(alloc, target, &candidate.segments)?;
            Ok(Some(Choice {
                part: candidate.part,
                kept: kept.places,
                records: kept.records,
            }))
        }
    }
}
