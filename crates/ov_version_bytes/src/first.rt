//! The first version of a dataset.

ghost use Rattle.std.specs.Prelude.{◌≡◌, ◌<◌, ◌≤◌, ℕ, IsTrue, IfOk, IfErr, false, length, None, Some, [], map};
ghost use Rattle.std.specs.List.{list_any};
ghost use Rattle.ov_event.specs.Spelling.{IsEvent};
ghost use Rattle.ov_host.specs.declared.area.Extent.{Extent as AnExtent};
ghost use Rattle.ov_value.specs.Naming.{is_name as is_name_of};
ghost use Rattle.ov_value.specs.Shapes.{IsSound};
ghost use Rattle.ov_model.specs.Moves.{Init};
ghost use Rattle.ov_model.specs.Records.{counted};
ghost use Rattle.ov_model.specs.World.{World};
ghost use Rattle.ov_catalog.specs.Applying.{first_off, is_named};
ghost use Rattle.ov_catalog.specs.Numbers.{Numbers};
ghost use Rattle.ov_catalog.specs.Raw.{event_in};
ghost use Rattle.ov_catalog.specs.Reached.{AreRows};
ghost use Rattle.ov_catalog.specs.Stands.{asked_event};
ghost use Rattle.ov_core.specs.Brought.{IsUnplaced, content};
ghost use Rattle.ov_version_bytes.specs.Written.{IsWhy, first_event, list_written, segment_written, spelled_schema};

use crate::runs::{runs_of, unplaced};
use crate::write_err::WriteErr;
use ov_core::Brought;
use ov_event::{Event, Items, RawSchema};
use ov_member::Members;
use ov_segment::RowTable;
use ov_value::{Column, Schema, Txt};
use std::alloc::{AllocError, Global};

/// The event, list and segment of a dataset's first version. The rows stand in key order; their rids are 1, 2, 3 and so on.
/// Takes time by their number and that of their bytes.
///
/// `TooLong` comes exactly where the segment has 2^20 pages or more.
pub fn first_version(
    alloc: Global,
    name: &Txt,
    schema: &Schema,
    rows: &RowTable,
) -> Result<Brought, WriteErr>
    requires rows { AreRows schema.now rows.now }
    requires name { IsTrue (is_name_of name.now) }
    ensures unplaced { IfOk result IsUnplaced }
    ensures event { IfOk result (λ b. IsEvent b.event) }
    ensures says { IfOk result (λ b. (w : World) → Some (content (event_in b.event) b.list.items b.segment.items) ≡ asked_event (Init name.now schema.now rows.now) w) }
    ensures applies { IfOk result (λ b. (n : Numbers AnExtent AnExtent) → n.next < 4294967295 → list_any (is_named name.now) n.sets ≡ false → length n.sets < 1024
        → (format : ℕ) → first_off format b.event n ≡ None) }
    ensures event_is { IfOk result (λ b. b.event ≡ first_event name.now schema.now rows.now b.list.items b.segment.items) }
    ensures list { IfOk result (λ b. b.list.items ≡ list_written (counted 1 (length rows.now))) }
    ensures segment { IfOk result (λ b. b.segment.items ≡ segment_written [] (counted 1 (length rows.now)) rows.now) }
    ensures cause { IfErr result (λ why. IsWhy why [] (counted 1 (length rows.now)) rows.now) }
{
    let count = rows.len() as u32;
    let rids = first_rids(alloc, count)?;
    let none = Members::empty(alloc);
    let runs = runs_of(alloc, rids.as_slice(), rows, &none)?;
    let event = Event::Init {
        name: name.copy(alloc)?,
        schema: schema_of(alloc, schema)?,
        rows: count,
        list: unplaced(runs.list.as_slice()),
        segment: unplaced(runs.segment.as_slice()),
    };
    Ok(Brought {
        event,
        list: runs.list,
        segment: runs.segment,
    })
}

// The rids of so many records.
fn first_rids(alloc: Global, count: u32) -> Result<Vec<u32>, AllocError>
    requires { count ≤ 1000000 }
    ensures { IfOk result (λ rids. rids.items ≡ counted 1 count) }
{
    let mut rids = Vec::with_capacity(alloc, count as usize)?;
    for place in 0..count {
        rids.push(place + 1)?;
    }
    Ok(rids)
}

// The schema as an event has it.
fn schema_of(alloc: Global, schema: &Schema) -> Result<RawSchema, AllocError>
    ensures made { IfOk result (λ made. made ≡ spelled_schema schema.now) }
    ensures sound { IsSound schema.now }
{
    Ok(RawSchema {
        columns: Items::new(copies_of(alloc, schema.columns())?),
        key: Items::new(Vec::from_slice(alloc, schema.key())?),
    })
}

pub(crate) fn copies_of(alloc: Global, columns: &[Column]) -> Result<Vec<Column>, AllocError>
    ensures { IfOk result (λ copies. copies.items ≡ columns.now) }
{
    let mut copies = Vec::with_capacity(alloc, columns.len())?;
    for column in columns {
        copies.push(column.copy(alloc)?)?;
    }
    Ok(copies)
}
