//! Which target is the last that has a version.

ghost use Rattle.std.specs.Prelude.{◌≡◌, ◌+◌, ◌<◌, length, map, All, IfOk};
ghost use Rattle.ov_targets.specs.Emptying.{AreLasts, AreMarked, place_in, greatest};
ghost use Rattle.ov_targets.specs.Targets.{AreBelow, versions_in};

use std::alloc::{AllocError, Global};

/// These versions get a place.
fn mark(lasts: &mut Vec<usize>, versions: &[u32], place: usize)
    requires { AreBelow (length lasts.old.items) versions.now }
    ensures marked { AreMarked versions.now place lasts.old.items lasts.new.items }
    ensures long { length lasts.new.items ≡ length lasts.old.items }
{
    for vid in versions {
        lasts[*vid as usize] = place;
    }
}

/// Of each version below a limit the place of the last part that has it, counted from 1; 0 where none has it. It walks the parts
/// once.
pub(crate) fn lasts_of(
    alloc: Global,
    limit: usize,
    parts: &[Vec<u32>],
) -> Result<Vec<usize>, AllocError>
    requires { All (λ part. AreBelow limit part.items) parts.now }
    ensures long { IfOk result (λ lasts. length lasts.items ≡ limit) }
    ensures lasts { IfOk result (λ lasts. AreLasts (map versions_in parts.now) (place_in lasts.items)) }
{
    let mut lasts = vec![in alloc; 0usize; limit]?;
    for (at, part) in parts.iter().enumerate() {
        mark(&mut lasts, part, at + 1);
    }
    Ok(lasts)
}

/// The greatest place of these versions.
pub(crate) fn greatest_of(lasts: &[usize], versions: &[u32]) -> usize
    requires { AreBelow (length lasts.now) versions.now }
    ensures { result ≡ greatest (place_in lasts.now) versions.now }
{
    let mut last = 0;
    for vid in versions {
        let place = lasts[*vid as usize];
        if place > last {
            last = place;
        }
    }
    last
}
