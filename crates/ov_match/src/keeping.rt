//! Which segments a target keeps.

ghost use Rattle.std.specs.Prelude.{◌≡◌, ◌<◌, ◌≤◌, ◌^◌, length, IfOk};
ghost use Rattle.ov_model.specs.Lists.{joined};
ghost use Rattle.ov_match.specs.Matching.{lies_within, places_within, kept_of};

use ov_member::Members;
use std::alloc::{AllocError, Global};

/// The segments that a target keeps: their places, and how many rids they have together.
#[derive(Drop)]
pub(crate) struct Kept {
    pub places: Vec<u32>,
    pub records: u32,
}

/// Whether each rid of the segment is one of the target's.
fn is_within(target: &Members, segment: &Members) -> bool
    ensures { result ≡ lies_within target.now segment.now }
{
    segment.common(target) == segment.len()
}

/// Those segments that lie whole within the target.
pub(crate) fn keep(
    alloc: Global,
    target: &Members,
    segments: &[Members],
) -> Result<Kept, AllocError>
    requires few { length segments.now < 2 ^ 32 }
    requires fit { length (joined (kept_of target.now segments.now)) ≤ 2 ^ 31 }
    ensures places { IfOk result (λ kept. kept.places.items ≡ places_within 0 target.now segments.now) }
    ensures records { IfOk result (λ kept. kept.records ≡ length (joined (kept_of target.now segments.now))) }
{
    let mut places = Vec::new(alloc);
    let mut records = 0;
    for (place, segment) in segments.iter().enumerate() {
        if is_within(target, segment) {
            places.push(place as u32)?;
            records += segment.len();
        }
    }
    Ok(Kept { places, records })
}
