//! A Commit.

ghost use Rattle.std.specs.Prelude.{◌≡◌, ◌+◌, ◌^◌, ◌&&◌, None, nat_le, map, find, All, OnOk};
ghost use Rattle.ov_graph.specs.Versions.{heaviest as heaviest_of};
ghost use Rattle.ov_layout.specs.Changes.{IsThere, extents_of};
ghost use Rattle.ov_layout.specs.Parts.{Ascend};
ghost use Rattle.ov_place.specs.Placement.{placed};
ghost use Rattle.ov_catalog.specs.Answers.{Answers};
ghost use Rattle.ov_catalog.specs.Applying.{copied_in, facts_of, is_count as is_count_by, id_in, is_place as is_place_by, is_unmoved as is_unmoved_by, message_off, of_live, part_serving as part_serving_in, stored as stored_by, version_off, vid_off};
ghost use Rattle.ov_catalog.specs.Events.{change, numbered, version_of, with_version};
ghost use Rattle.ov_catalog.specs.Raw.{place_in};
ghost use Rattle.ov_catalog.specs.Ready.{FitsNumbered, FitsVersion, IsSet};
ghost use Rattle.ov_catalog.specs.Running.{is_in_target};
ghost use Rattle.ov_catalog.specs.Sets.{numbers_of, part_in, plan_in, set_in, sets_in};
ghost use Rattle.ov_catalog.specs.Arriving.{arrival_off, part_asked};

use crate::arrival::Arrival;
use crate::cvd::{Cvd, Plan, Target, Version};
use crate::error::ApplyErr;
use crate::extents::{is_list, is_segment};
use crate::field::Field;
use crate::finding::{is_among, place_of, records_at};
use crate::parents::{check_parents, heaviest};
use crate::placing::place_version;
use crate::refusing::unless;
use ov_event::{Items, Placed};
use ov_layout::Layout;
use ov_model::{MESSAGE_BYTES, MOST_RECORDS, MOST_ROWS, MOST_VERSIONS};
use ov_place::{Place, PlaceFacts, place};
use ov_value::Txt;
use std::alloc::{AllocError, Global};

fn are_rows(new: &Arrival, records: u32) -> bool
    ensures { result ≡ (nat_le new.now.rows 1000000 && (nat_le new.now.fresh new.now.rows && (nat_le new.now.rows (records + new.now.fresh) && nat_le (records + new.now.fresh) (2 ^ 31)))) }
{
    let all = u64::from(records) + u64::from(new.fresh);
    new.rows <= MOST_ROWS
        && new.fresh <= new.rows
        && u64::from(new.rows) <= all
        && all <= MOST_RECORDS
}

// The number of the partition that serves a version; 0 where none does.
fn part_serving(layout: &Layout, vid: u32) -> u32
    ensures { result ≡ id_in (part_serving_in (map part_in layout.now.parts) vid) }
{
    match layout.part_of(vid) {
        Some(part) => part.id,
        None => 0,
    }
}

// Whether a version is in one of these targets.
fn is_in(targets: &[Target], vid: u32) -> bool
    requires { All (λ t. Ascend 0 t.versions) targets.now }
    ensures { result ≡ is_in_target targets.now vid }
{
    for target in targets {
        if is_among(target.versions.as_slice(), vid) {
            return true;
        }
    }
    false
}

// Whether a version is in a target that wasn't flipped yet while a plan runs.
fn is_unmoved(d: &Cvd, vid: u32) -> bool
    requires { IsSet d.now }
    ensures { result ≡ is_unmoved_by (plan_in d.now.plan) vid }
{
    match &d.plan {
        None => false,
        Some(plan) => is_in(&plan.targets.as_slice()[plan.at as usize..], vid),
    }
}

// How many records were copied for the current target of a plan.
fn copied_records(plan: &Option<Plan>) -> u32
    ensures { result ≡ copied_in (plan_in plan.now) }
{
    match plan {
        None => 0,
        Some(plan) => plan.copied,
    }
}

// How many records are kept, with those copied for the current target of a plan.
fn stored(d: &Cvd) -> u64
    ensures { result ≡ stored_by (set_in d.now) }
{
    d.layout.stored() + u64::from(copied_records(&d.plan))
}

/// Where the dataset's next version goes, with these parents, each a version and the weight of its edge.
pub fn next_place(d: &Cvd, parents: &[(u32, u32)]) -> Place
    requires { IsSet d.now }
    ensures { result ≡ placed (facts_of (set_in d.now) (heaviest_of parents.now)) }
{
    let (parent, weight) = heaviest(parents);
    place(&PlaceFacts {
        threshold: d.threshold,
        unmoved: is_unmoved(d, parent),
        weight,
        records: u64::from(d.records),
        stored: stored(d),
        parent: part_serving(&d.layout, parent),
    })
}

fn is_place(a: Placed, b: Place) -> bool
    ensures { result ≡ is_place_by (place_in a) b }
{
    match (a, b) {
        (Placed::Own, Place::Own) => true,
        (Placed::Join(a), Place::Join(b)) => a == b,
        _ => false,
    }
}

// Whether so many records may come to a partition that holds so many, of those of the dataset.
fn may_join(held: u32, records: u32, new: &Arrival) -> bool
    ensures { result ≡ ((nat_le new.now.fresh new.now.added && nat_le new.now.added new.now.rows) && nat_le (held + new.now.added) (records + new.now.fresh)) }
{
    new.fresh <= new.added
        && new.added <= new.rows
        && u64::from(held) + u64::from(new.added) <= u64::from(records) + u64::from(new.fresh)
}

fn is_count(d: &Cvd, new: &Arrival) -> bool
    ensures { result ≡ is_count_by (set_in d.now) new.now.rows new.now.fresh new.now.added (place_in new.now.place) }
{
    match new.place {
        Placed::Own => new.added == new.rows,
        Placed::Join(id) => {
            let held = records_at(d.layout.parts(), id);
            may_join(held, d.records, new)
        }
    }
}

/// Whether the dataset's next version has this number.
pub fn check_vid(d: &Cvd, vid: u32) -> Result<(), ApplyErr>
    ensures { Answers result (vid_off vid (set_in d.now)) }
{
    unless(
        vid as usize == d.versions.len() + 1 && vid <= MOST_VERSIONS,
        Field::Vid,
    )
}

/// Whether a version may have the message.
pub fn check_message(message: &Txt) -> Result<(), ApplyErr>
    ensures { Answers result (message_off message.now) }
{
    unless(message.len() <= MESSAGE_BYTES, Field::Message)
}

/// Whether the version may be the next one of a dataset, by what is asked behind its number and its message.
pub fn check_version(
    alloc: Global,
    d: &Cvd,
    parents: &[(u32, u32)],
    new: &Arrival,
) -> Result<(), ApplyErr>
    requires { IsSet d.now }
    ensures { Answers result (version_off parents.now new.now.rows new.now.fresh (place_in new.now.place) new.now.added new.now.list new.now.segment (set_in d.now)) }
{
    check_parents(alloc, &d.versions, new.rows, parents)?;
    unless(are_rows(new, d.records), Field::Rows)?;
    unless(is_place(new.place, next_place(d, parents)), Field::Placing)?;
    unless(is_count(d, new), Field::Count)?;
    unless(
        is_list(new.rows, new.list) && is_segment(new.added, new.segment),
        Field::Place,
    )
}

// Whether the version may be the next one of a dataset.
fn check_commit(
    alloc: Global,
    d: &Cvd,
    message: &Txt,
    parents: &[(u32, u32)],
    new: &Arrival,
) -> Result<(), ApplyErr>
    requires { IsSet d.now }
    ensures { Answers result (arrival_off message.now parents.now new.now (set_in d.now)) }
{
    check_vid(d, new.vid)?;
    check_message(message)?;
    check_version(alloc, d, parents, new)
}

fn part_asked(place: Placed) -> Option<u32>
    ensures { result ≡ part_asked (place_in place) }
{
    match place {
        Placed::Own => None,
        Placed::Join(id) => Some(id),
    }
}

/// Makes room for a version more, at this place.
pub fn make_room(d: &mut Cvd, place: Placed) -> Result<(), AllocError>
    requires set { IsSet d.old }
    requires there { IsThere (part_asked (place_in place)) d.old.layout.parts }
    ensures same { set_in d.new ≡ set_in d.old }
    ensures set { IsSet d.new }
    ensures room { OnOk result (FitsVersion (place_in place) d.new) }
{
    d.versions.reserve(1)?;
    d.layout.reserve(0, part_asked(place))
}

// Makes room for a version more, if it may follow.
fn room_in(
    alloc: Global,
    d: &mut Cvd,
    message: &Txt,
    parents: &[(u32, u32)],
    new: &Arrival,
) -> Result<(), ApplyErr>
    requires { IsSet d.old }
    ensures answer { Answers result (arrival_off message.now parents.now new.now (set_in d.old)) }
    ensures same { set_in d.new ≡ set_in d.old }
    ensures set { IsSet d.new }
    ensures room { OnOk result (FitsVersion (place_in new.now.place) d.new) }
{
    check_commit(alloc, d, message, parents, new)?;
    make_room(d, new.place)?;
    Ok(())
}

/// Makes room for a version more of the dataset with this number, if it may follow.
pub fn room_for_commit(
    alloc: Global,
    sets: &mut [Cvd],
    cvd: u32,
    message: &Txt,
    parents: &[(u32, u32)],
    new: &Arrival,
) -> Result<(), ApplyErr>
    requires ascend { Ascend 0 (numbers_of sets.old) }
    requires sound { All IsSet sets.old }
    ensures answer { Answers result (of_live (arrival_off message.now parents.now new.now) (find (numbered cvd) (sets_in sets.old))) }
    ensures same { sets_in sets.new ≡ sets_in sets.old }
    ensures sound { All IsSet sets.new }
    ensures room { OnOk result (All (FitsNumbered cvd (place_in new.now.place)) sets.new) }
{
    let Some(at) = place_of(sets, cvd) else {
        return Err(ApplyErr::NotNext {
            field: Field::Number,
        });
    };
    room_in(alloc, &mut sets[at], message, parents, new)
}

/// The version becomes the next one of a dataset. Takes no memory.
pub fn commit(d: &mut Cvd, message: Txt, parents: Items<(u32, u32)>, new: &Arrival)
    requires set { IsSet d.old }
    requires room { FitsVersion (place_in new.now.place) d.old }
    requires applies { arrival_off message parents new.now (set_in d.old) ≡ None }
    ensures committed { set_in d.new ≡ with_version (version_of parents message new.now.rows new.now.fresh new.now.list) (place_in new.now.place) new.now.added (extents_of new.now.segment) (set_in d.old) }
    ensures set { IsSet d.new }
{
    place_version(&mut d.layout, new);
    d.records += new.fresh;
    // There is room, so this takes no memory.
    let _ = d.versions.push(Version {
        parents,
        message,
        rows: new.rows,
        fresh: new.fresh,
        list: new.list,
    });
}

/// The version becomes the next one of the dataset with this number. Takes no memory.
pub fn commit_in(
    sets: &mut [Cvd],
    cvd: u32,
    message: Txt,
    parents: Items<(u32, u32)>,
    new: &Arrival,
)
    requires ascend { Ascend 0 (numbers_of sets.old) }
    requires sound { All IsSet sets.old }
    requires room { All (FitsNumbered cvd (place_in new.now.place)) sets.old }
    requires applies { of_live (arrival_off message parents new.now) (find (numbered cvd) (sets_in sets.old)) ≡ None }
    ensures committed { sets_in sets.new ≡ change cvd (with_version (version_of parents message new.now.rows new.now.fresh new.now.list) (place_in new.now.place) new.now.added (extents_of new.now.segment)) (sets_in sets.old) }
    ensures numbers { numbers_of sets.new ≡ numbers_of sets.old }
    ensures sound { All IsSet sets.new }
{
    if let Some(at) = place_of(sets, cvd) {
        commit(&mut sets[at], message, parents, new);
    }
}
