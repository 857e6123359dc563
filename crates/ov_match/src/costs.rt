//! What it costs to make the target of a partition's segments.

ghost use Rattle.std.specs.Prelude.{◌≡◌, ◌<◌, ◌^◌, length};
ghost use Rattle.ov_match.specs.Matching.{modification, AreApart};

use ov_member::Members;

/// The rids that have to come and those that have to go. It walks each segment once, and takes no memory.
pub(crate) fn cost_of(target: &Members, segments: &[Members]) -> u64
    requires few { length segments.now < 2 ^ 32 }
    requires apart { AreApart segments.now }
    ensures { result ≡ modification target.now segments.now }
{
    let mut coming = target.len() as u64;
    let mut going = 0;
    for segment in segments {
        let shared = segment.common(target);
        coming -= shared as u64;
        going += (segment.len() - shared) as u64;
    }
    coming + going
}
