//! Changes of one partition.

ghost use Rattle.std.specs.Prelude.{◌≡◌, ◌*◌, ◌+◌, ◌<◌, ◌^◌, [], length, MatchOption};
ghost use Rattle.ov_host.specs.Extent.{pages_of};
ghost use Rattle.ov_layout.specs.Parts.{Ascend, pages_in};
ghost use Rattle.ov_layout.specs.Changes.{extents_of, joined_part, own_part};
ghost use Rattle.ov_layout.specs.Flips.{leaving};
ghost use Rattle.ov_layout.specs.Spares.{AreEmpty, FitsPart, HaveRoom};

use crate::lists::{Extents, Vids, leave, push_to};
use crate::part::Part;
use crate::spares::Spares;
use ov_host::Extent;
use std::alloc::Global;
use std::mem;

/// A partition's versions times its records.
pub fn cost_of(part: &Part) -> u64
    requires { length part.now.versions * part.now.records < 2 ^ 64 }
    ensures { result ≡ length part.now.versions * part.now.records }
{
    part.versions.as_slice().len() as u64 * u64::from(part.records)
}

/// The pages of a partition's segments.
pub fn pages_of(part: &Part) -> u64
    requires { length part.now.segments < 2 ^ 32 }
    ensures { result ≡ pages_in part.now.segments }
{
    let mut pages = 0;
    for segment in part.segments.as_slice() {
        pages += u64::from(segment.pages());
    }
    pages
}

/// A partition that a version has of its own. Takes no memory: its lists are the spare ones.
pub fn own_part(
    alloc: Global,
    id: u32,
    vid: u32,
    records: u32,
    segment: Extent,
    fresh: &mut Spares,
) -> Part
    requires empty { AreEmpty fresh.old }
    requires room { HaveRoom 1 1 1 fresh.old }
    ensures made { result ≡ own_part id vid records segment }
    ensures empty { AreEmpty fresh.new }
{
    let mut versions = mem::replace(&mut fresh.versions, Vec::new(alloc));
    let mut holds = mem::replace(&mut fresh.holds, Vec::new(alloc));
    let mut segments = mem::replace(&mut fresh.segments, Vec::new(alloc));
    // There is room, so this takes no memory.
    let _ = versions.push(vid);
    let _ = holds.push(vid);
    if segment.bytes > 0 {
        let _ = segments.push(segment);
    }
    Part {
        id,
        versions: Vids::new(versions),
        holds: Vids::new(holds),
        records,
        segments: Extents::new(segments),
    }
}

/// A version joins a partition.
pub fn join_part(part: &mut Part, vid: u32, added: u32, segment: Extent, spare: &mut Spares)
    requires empty { AreEmpty spare.old }
    requires room { FitsPart spare.old part.old }
    requires records { part.old.records + added < 2 ^ 32 }
    ensures joined { part.new ≡ joined_part vid added segment part.old }
    ensures empty { AreEmpty spare.new }
{
    push_to(&mut part.versions, vid, &mut spare.versions);
    push_to(&mut part.holds, vid, &mut spare.holds);
    part.records += added;
    if segment.bytes > 0 {
        push_to(&mut part.segments, segment, &mut spare.segments);
    }
}

/// Versions leave a partition. Answers by how much its cost falls.
pub fn leave_part(part: &mut Part, versions: &[u32]) -> u64
    requires ascend { Ascend 0 versions.now }
    requires own { Ascend 0 part.old.versions }
    requires cost { length part.old.versions * part.old.records < 2 ^ 64 }
    ensures left { part.new ≡ leaving versions.now part.old }
    ensures saved { result + length part.new.versions * part.new.records ≡ length part.old.versions * part.old.records }
{
    let before = part.versions.as_slice().len();
    leave(&mut part.versions, versions);
    let gone = before - part.versions.as_slice().len();
    gone as u64 * u64::from(part.records)
}
