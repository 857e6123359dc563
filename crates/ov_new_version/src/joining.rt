// What the partition that a version joins holds already.

ghost use Rattle.std.specs.Prelude.{◌≡◌, ◌<◌, ℕ, true, List, None, IfOk, IfErr, MatchOption, MatchResult, [], length, slice_get};
ghost use Rattle.ov_layout.specs.Parts.{AreParts, part_numbered};
ghost use Rattle.ov_member.specs.Rids.{AreRids};
ghost use Rattle.ov_place.specs.declared.place_facts.Place.TheVariants as at;
ghost use Rattle.ov_catalog.specs.Sets.{set_in};
ghost use Rattle.ov_value.specs.Shapes.{Shape};
ghost use Rattle.ov_fetch.specs.Rows.{HaveRids};
ghost use Rattle.law_commits.specs.Committing.{JoinedAgrees};
ghost use Rattle.ov_read.specs.Agreement.{IsBorneOut};
ghost use Rattle.ov_read.specs.Damages.{first_page};
ghost use Rattle.ov_read.specs.Partitions.{AreHeld, IsPartRead};
ghost use Rattle.ov_new_version.specs.Held.{IsOfHeld, IsServed, RefusesHeld, RefusesRids};
ghost use Rattle.ov_new_version.specs.Joined.{part_at, IsPlaceThere, IsReadOf};

use crate::errors::CommitErr;
use ov_catalog::Cvd;
use ov_host::Extent;
use ov_layout::Part;
use ov_member::Members;
use ov_place::Place;
use ov_read::{PartRids, rids_together};
use std::alloc::{AllocError, Global};

/// The rids of the records that are there already where a version goes: none for a partition of its own, and else those of
/// the partition that it joins, out of what was read of the dataset's partitions.
pub(crate) fn held_at(
    alloc: Global,
    d: &Cvd,
    place: Place,
    held: &[PartRids],
) -> Result<Members, CommitErr>
    requires there { IsPlaceThere (set_in d.now) place }
    requires held { length held.now ≡ length d.now.layout.parts }
    ensures sound { AreParts d.now.layout.parts d.now.layout.next }
    ensures agrees { IfOk result (JoinedAgrees (set_in d.now) place) }
    ensures own { IfOk result (λ rids. place ≡ at.Own → rids ≡ []) }
    ensures cause { IfErr result IsOfHeld }
    ensures answer { (area vids : List ℕ) → AreHeld true area (set_in d.now) vids held.now → IsServed vids (part_at (set_in d.now) place)
        → MatchResult result (IsReadOf (set_in d.now) area (part_at (set_in d.now) place))
        (λ e. RefusesHeld e (set_in d.now) area (part_at (set_in d.now) place)) }
{
    let parts = d.layout.parts();
    match place {
        Place::Own => Ok(Members::empty(alloc)),
        Place::Join(id) => match place_with(parts, id) {
            Some(at) => rids_of(alloc, &parts[at], held[at].as_slice(), d.records),
            None => unreachable!(),
        },
    }
}

// Where the partition with a number stands.
fn place_with(parts: &[Part], id: u32) -> Option<usize>
    ensures { MatchOption result (part_numbered id parts.now ≡ None)
        (λ place. (place < length parts.now) × (part_numbered id parts.now ≡ slice_get parts.now place)) }
{
    for (place, part) in parts.iter().enumerate() {
        if part.id == id {
            return Some(place);
        }
    }
    None
}

// The rids of a partition, out of those of each of its segments.
fn rids_of(alloc: Global, part: &Part, sets: &[Members], last: u32) -> Result<Members, CommitErr>
    ensures set { IfOk result AreRids }
    ensures agree { IfOk result (IsBorneOut part.now.records last) }
    ensures cause { IfErr result IsOfHeld }
    ensures answer { (schema : Shape) (area : List ℕ) → HaveRids schema area part.now.segments sets.now → MatchResult result
        (IsPartRead schema area part.now.segments) (λ e. RefusesRids e schema area part.now.segments part.now.records last) }
{
    match rids_together(alloc, sets, part.records, last)? {
        Some(all) => Ok(all),
        None => Err(CommitErr::Damaged {
            page: page_of(part.segments.as_slice()),
        }),
    }
}

// The page that names a partition: the first one of its first segment.
fn page_of(segments: &[Extent]) -> u32
    ensures { result ≡ first_page segments.now }
{
    match segments {
        [first, ..] => first.page,
        [] => 0,
    }
}
