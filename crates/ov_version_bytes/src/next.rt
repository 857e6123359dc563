//! One more version of a dataset.

ghost use Rattle.std.specs.Prelude.{◌≡◌, ◌⊎◌, ◌≤◌, ◌<◌, ◌^◌, IfOk, IfErr, IsUtf8, length, Some, []};
ghost use Rattle.std.specs.List.{All, zip};
ghost use Rattle.ov_value.specs.Shapes.{Shape};
ghost use Rattle.ov_event.specs.declared.event.Event.TheVariants as says;
ghost use Rattle.ov_event.specs.Spelling.{AreParents, IsEvent, IsPlaced};
ghost use Rattle.ov_member.specs.Rids.{left_out};
ghost use Rattle.ov_model.specs.Moves.{Commit, numbered as is_numbered, version_of, wide};
ghost use Rattle.ov_model.specs.World.{Dataset, World, first_set};
ghost use Rattle.ov_catalog.specs.Raw.{adding, event_in};
ghost use Rattle.ov_catalog.specs.Reached.{AreRows, Reached};
ghost use Rattle.ov_catalog.specs.Stands.{asked_event};
ghost use Rattle.ov_core.specs.Brought.{IsUnplaced, content, extent_at};
ghost use Rattle.law_events.specs.Fitting.{IsSoundEvent};
ghost use Rattle.ov_version_bytes.specs.Next.{AreLast, IsNext, spelled_place};
ghost use Rattle.ov_version_bytes.specs.Written.{AreGiven, IsWhy, list_written, segment_written};

use crate::first::copies_of;
use crate::runs::{Runs, runs_of, unplaced};
use crate::write_err::WriteErr;
use ov_core::Brought;
use ov_event::{Event, Items, Placed};
use ov_member::Members;
use ov_place::Place;
use ov_records::Assigned;
use ov_segment::RowTable;
use ov_value::{Column, Txt};
use std::alloc::{AllocError, Global};

/// A version that is committed, and what is known of it.
#[derive(Drop)]
pub struct Next<'a> {
    /// The number of its dataset.
    pub cvd: u32,
    /// Its number.
    pub vid: u32,
    pub message: &'a Txt,
    /// The columns that are added to its dataset.
    pub added: &'a [Column],
    /// The numbers of its parents, in the order in which they were listed.
    pub parents: &'a [u32],
    /// Its rows, in key order.
    pub rows: &'a RowTable,
    /// The rids of its rows, and what they say of its parents.
    pub made: Assigned,
    /// Where its records go.
    pub place: Place,
    /// The rids of the records that are there already: those of the partition that it joins, and none for one of its own.
    pub held: &'a Members,
}

/// The event, list and segment of one more version of a dataset, to which columns may be added. The list has all of its rids,
/// and the segment the records that aren't held, both in the order of the rids.
///
/// `TooLong` comes exactly where the segment has 2^20 pages or more.
pub fn next_version(alloc: Global, next: Next) -> Result<Brought, WriteErr>
    requires columns { next.added.now ≡ [] ⊎ AreLast next.added.now }
    requires rows { (schema : Shape) × AreRows schema next.rows.now }
    requires given { AreGiven next.made.rids next.rows.now }
    requires message { length next.message.now < 2 ^ 32 }
    requires parents { length next.parents.now < 2 ^ 16 }
    ensures unplaced { IfOk result IsUnplaced }
    ensures event { IfOk result (λ b. IsEvent b.event) }
    ensures sound { IfOk result (λ b. IsSoundEvent b.event) }
    ensures says { IfOk result (λ b. (w : World) (d : Dataset) → Reached w → first_set (is_numbered next.entry.cvd) w.sets ≡ Some d
        → IsNext (wide next.entry.added.now d) (version_of next.entry.parents.now next.entry.message.now next.entry.rows.now) next.entry.vid next.entry.made next.entry.place next.entry.held.now
        → Some (content (event_in b.event) b.list.items b.segment.items)
        ≡ asked_event (Commit next.entry.cvd next.entry.parents.now next.entry.message.now next.entry.added.now next.entry.rows.now) w) }
    ensures event_is { IfOk result (λ b. b.event ≡ adding next.entry.added.now (says.Commit next.entry.cvd next.entry.vid next.entry.message.now (zip next.entry.parents.now next.entry.made.weights) (length next.entry.rows.now)
        next.entry.made.fresh (spelled_place next.entry.place) (length (left_out next.entry.made.rids next.entry.held.now)) (extent_at 0 b.list.items) (extent_at 0 b.segment.items))) }
    ensures list { IfOk result (λ b. b.list.items ≡ list_written next.entry.made.rids) }
    ensures segment { IfOk result (λ b. b.segment.items ≡ segment_written next.entry.held.now next.entry.made.rids next.entry.rows.now) }
    ensures cause { IfErr result (λ why. IsWhy why next.entry.held.now next.entry.made.rids next.entry.rows.now) }
{
    let Next {
        cvd,
        vid,
        message,
        added,
        parents,
        rows,
        made,
        place,
        held,
    } = next;
    let count = rows.len() as u32;
    let runs = runs_of(alloc, made.rids.as_slice(), rows, held)?;
    let edges = edges_of(alloc, parents, made.weights.as_slice())?;
    let commit = commit_of(
        alloc, cvd, vid, message, edges, count, made.fresh, place, &runs,
    )?;
    Ok(Brought {
        event: with_columns(alloc, commit, added)?,
        list: runs.list,
        segment: runs.segment,
    })
}

// The event of a version, with its runs not placed yet.
fn commit_of(
    alloc: Global,
    cvd: u32,
    vid: u32,
    message: &Txt,
    parents: Items<(u32, u32)>,
    rows: u32,
    fresh: u32,
    place: Place,
    runs: &Runs,
) -> Result<Event, AllocError>
    requires message { length message.now < 2 ^ 32 }
    requires parents { AreParents parents }
    requires added { runs.now.added ≤ rows }
    requires list { length runs.now.list.items < 2 ^ 32 }
    requires segment { length runs.now.segment.items < 2 ^ 32 }
    ensures made { IfOk result (λ e. e ≡ says.Commit cvd vid message.now parents rows fresh (spelled_place place) runs.now.added
        (extent_at 0 runs.now.list.items) (extent_at 0 runs.now.segment.items)) }
    ensures event { IfOk result IsEvent }
{
    Ok(Event::Commit {
        cvd,
        vid,
        message: copy_of(alloc, message)?,
        parents,
        rows,
        fresh,
        place: placed_of(place),
        added: runs.added,
        list: unplaced(runs.list.as_slice()),
        segment: unplaced(runs.segment.as_slice()),
    })
}

// The event of a version to whose dataset these columns are added. With none it is as it was.
fn with_columns(alloc: Global, event: Event, added: &[Column]) -> Result<Event, AllocError>
    requires columns { added.now ≡ [] ⊎ AreLast added.now }
    requires event { IsEvent event }
    ensures made { IfOk result (λ e. e ≡ adding added.now event) }
    ensures spelled { IfOk result IsEvent }
{
    if added.is_empty() {
        return Ok(event);
    }
    match event {
        Event::Commit {
            cvd,
            vid,
            message,
            parents,
            rows,
            fresh,
            place,
            added: records,
            list,
            segment,
        } => Ok(Event::Wide {
            cvd,
            vid,
            message,
            columns: Items::new(copies_of(alloc, added)?),
            parents,
            rows,
            fresh,
            place,
            added: records,
            list,
            segment,
        }),
        other => Ok(other),
    }
}

fn copy_of(alloc: Global, message: &Txt) -> Result<Txt, AllocError>
    ensures copy { IfOk result (λ copy. copy ≡ message.now) }
    ensures text { IsUtf8 message.now }
{
    Txt::new(alloc, message.as_str())
}

// The parents with the weights of their edges.
fn edges_of(
    alloc: Global,
    parents: &[u32],
    weights: &[u32],
) -> Result<Items<(u32, u32)>, AllocError>
    ensures edges { IfOk result (λ edges. edges ≡ zip parents.now weights.now) }
    ensures vids { All (λ vid. vid < 2 ^ 32) parents.now }
    ensures weights { All (λ weight. weight < 2 ^ 32) weights.now }
{
    let count = parents.len().min(weights.len());
    let mut edges = Vec::with_capacity(alloc, count)?;
    for at in 0..count {
        edges.push((parents[at], weights[at]))?;
    }
    Ok(Items::new(edges))
}

// The place as an event has it.
fn placed_of(place: Place) -> Placed
    ensures same { result ≡ spelled_place place }
    ensures spelled { IsPlaced result }
{
    match place {
        Place::Own => Placed::Own,
        Place::Join(id) => Placed::Join(id),
    }
}
