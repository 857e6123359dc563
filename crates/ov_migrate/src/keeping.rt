// The segments that a target keeps.

ghost use Rattle.std.specs.Prelude.{◌≡◌, map, IfOk};
ghost use Rattle.ov_catalog.specs.Events.{chosen, segments_at as segments_at_of};
ghost use Rattle.ov_catalog.specs.Sets.{part_in};

use ov_catalog::Target;
use ov_host::Extent;
use ov_layout::Part;
use std::alloc::{AllocError, Global};

/// The segments that a target keeps of its source.
pub(crate) fn kept_segments(
    alloc: Global,
    parts: &[Part],
    target: &Target,
) -> Result<Vec<Extent>, AllocError>
    ensures { IfOk result (λ found. found.items ≡ chosen target.now.kept (segments_at_of target.now.source (map part_in parts.now))) }
{
    let segments = segments_at(parts, target.source);
    let kept = target.kept.as_slice();
    let mut found = Vec::with_capacity(alloc, kept.len())?;
    for place in kept {
        let place = *place as usize;
        if place < segments.len() {
            found.push(segments[place])?;
        }
    }
    Ok(found)
}

// The segments of the partition with a number; none where there is no such partition.
fn segments_at(parts: &[Part], id: u32) -> &[Extent]
    ensures { result.now ≡ segments_at_of id (map part_in parts.now) }
{
    for part in parts {
        if part.id == id {
            return part.segments.as_slice();
        }
    }
    &[]
}
