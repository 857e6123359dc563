// Versions as they are listed.

ghost use Rattle.std.specs.Prelude.{◌≡◌, ◌≤◌, ◌<◌, ◌∷◌, ◌+◌, ◌^◌, ℕ, List, [], Some, IfOk, IfErr, MatchResult, OnOk, vec_len};
ghost use Rattle.ov_model.specs.Records.{counted};
ghost use Rattle.ov_store.specs.declared.errors.StoreErr.TheVariants as why;
ghost use Rattle.ov_store.specs.Listing.{IsListed, Sees};
ghost use Rattle.ov_store.specs.Refusals.{IsVidOff, vids_off};

use crate::errors::StoreErr;
use std::alloc::{AllocError, Global};

/// The numbers of these versions, of a dataset that has so many: per version from the left `NoVersion`, `RepeatedVersion`.
pub(crate) fn listed(alloc: Global, count: usize, vids: &[u64]) -> Result<Vec<u32>, StoreErr>
    requires few { count ≤ 65535 }
    ensures { MatchResult result (λ made. IsListed count vids.now made.items) (IsVidOff count vids.now) }
{
    let mut seen = none_seen(alloc, count)?;
    let mut made = Vec::with_capacity(alloc, vids.len())?;
    for vid in vids {
        see(&mut seen, count, *vid)?;
        made.push(*vid as u32)?;
    }
    Ok(made)
}

/// The numbers of all versions of a dataset that has so many, ascending.
pub(crate) fn all_listed(alloc: Global, count: usize) -> Result<Vec<u32>, AllocError>
    requires few { count ≤ 65535 }
    ensures { IfOk result (λ made. made.items ≡ counted 1 count) }
{
    let mut made = Vec::with_capacity(alloc, count)?;
    for place in 0..count as u32 {
        made.push(place + 1)?;
    }
    Ok(made)
}

// No version was listed yet.
fn none_seen(alloc: Global, count: usize) -> Result<Vec<bool>, AllocError>
    requires { count ≤ 65535 }
    ensures { IfOk result (λ seen. Sees count [] seen.items) }
{
    vec![in alloc; false; count + 1]
}

// Takes one more.
fn see(seen: &mut Vec<bool>, count: usize, vid: u64) -> Result<(), StoreErr>
    requires few { count ≤ 65535 }
    requires size { vec_len seen.old ≡ count + 1 }
    ensures { (before : List ℕ) → Sees count before seen.old.items → MatchResult result
        (λ done. (1 ≤ vid) × (vid ≤ count) × Sees count (vid ∷ before) seen.new.items
        × ((rest : List ℕ) → vids_off count before (vid ∷ rest) ≡ vids_off count (vid ∷ before) rest))
        (λ off. (rest : List ℕ) → vids_off count before (vid ∷ rest) ≡ Some off) }
{
    if vid == 0 || vid > count as u64 {
        return Err(StoreErr::NoVersion { vid });
    }
    let place = vid as usize;
    if seen[place] {
        return Err(StoreErr::RepeatedVersion { vid });
    }
    seen[place] = true;
    Ok(())
}
