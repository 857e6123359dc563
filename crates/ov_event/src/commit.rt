//! Commits in bytes.

ghost use Rattle.std.specs.Prelude.{◌≡◌, ◌++◌, ◌<◌, ◌^◌, length, OnOk, ◌∷◌, []};
ghost use Rattle.ov_event.specs.Fields.{fields, u8, u32, text, extent, IsU32, IsText, IsExtent};
ghost use Rattle.ov_event.specs.Fitting.{Few};
ghost use Rattle.ov_event.specs.Spelling.{place, parents as parents_bytes, IsPlaced, AreParents};
ghost use Rattle.ov_event.specs.Reading.{Gives};
ghost use Rattle.ov_event.specs.Records.{place_at};
ghost use Rattle.ov_event.specs.Events.{tail_at, commit_at, wide_at};

use crate::event::{Event, Placed};
use crate::field::Field;
use crate::list::{few_of, parents_of, write_parents};
use crate::stop::Stop;
use ov_host::Extent;
use ov_items::Items;
use ov_value::Txt;
use std::alloc::{AllocError, Global};

/// What a commit has behind its message and its columns.
#[derive(Drop)]
pub(crate) struct Tail {
    parents: Items<(u32, u32)>,
    rows: u32,
    fresh: u32,
    place: Placed,
    added: u32,
    list: Extent,
    segment: Extent,
}

#[tactic(auto, unfolding(crate::specs::Records::place_at))]
fn place_of(alloc: Global, bytes: &[u8]) -> Result<(Placed, &[u8]), Stop>
    ensures { Gives (λ x. (x.0, x.1.now)) result (place_at bytes.now) }
{
    match bytes {
        [0, rest @ ..] => Ok((Placed::Own, rest)),
        [1, rest @ ..] => {
            let (partition, rest) = u32::read(alloc, rest)?;
            Ok((Placed::Join(partition), rest))
        }
        _ => Err(Stop::Unspelled),
    }
}

#[tactic(auto, unfolding(crate::specs::Spelling::place))]
fn write_place(placed: Placed, out: &mut Vec<u8>) -> Result<(), AllocError>
    ensures written { OnOk result (out.new.items ≡ out.old.items ++ place placed) }
    ensures sound { OnOk result (IsPlaced placed) }
{
    match placed {
        Placed::Own => 0u8.write(out),
        Placed::Join(partition) => {
            1u8.write(out)?;
            partition.write(out)
        }
    }
}

#[tactic(auto, unfolding(crate::specs::Events::tail_at))]
fn tail_of(alloc: Global, bytes: &[u8]) -> Result<(Tail, &[u8]), Stop>
    ensures { Gives (λ x. (x.0, x.1.now)) result (tail_at bytes.now) }
{
    let (parents, rest) = parents_of(alloc, bytes)?;
    let (rows, rest) = u32::read(alloc, rest)?;
    let (fresh, rest) = u32::read(alloc, rest)?;
    let (place, rest) = place_of(alloc, rest)?;
    let (added, rest) = u32::read(alloc, rest)?;
    let (list, rest) = Extent::read(alloc, rest)?;
    let (segment, rest) = Extent::read(alloc, rest)?;
    let tail = Tail {
        parents,
        rows,
        fresh,
        place,
        added,
        list,
        segment,
    };
    Ok((tail, rest))
}

#[tactic(auto, unfolding(crate::specs::Events::commit_at))]
pub(crate) fn commit_of(alloc: Global, bytes: &[u8]) -> Result<(Event, &[u8]), Stop>
    ensures { Gives (λ x. (x.0, x.1.now)) result (commit_at bytes.now) }
{
    let (cvd, rest) = u32::read(alloc, bytes)?;
    let (vid, rest) = u32::read(alloc, rest)?;
    let (message, rest) = Txt::read(alloc, rest)?;
    let (tail, rest) = tail_of(alloc, rest)?;
    let event = Event::Commit {
        cvd,
        vid,
        message,
        parents: tail.parents,
        rows: tail.rows,
        fresh: tail.fresh,
        place: tail.place,
        added: tail.added,
        list: tail.list,
        segment: tail.segment,
    };
    Ok((event, rest))
}

#[tactic(auto, unfolding(crate::specs::Events::wide_at))]
pub(crate) fn wide_of(alloc: Global, bytes: &[u8]) -> Result<(Event, &[u8]), Stop>
    ensures { Gives (λ x. (x.0, x.1.now)) result (wide_at bytes.now) }
{
    let (cvd, rest) = u32::read(alloc, bytes)?;
    let (vid, rest) = u32::read(alloc, rest)?;
    let (message, rest) = Txt::read(alloc, rest)?;
    let (columns, rest) = few_of(alloc, rest)?;
    let (tail, rest) = tail_of(alloc, rest)?;
    let event = Event::Wide {
        cvd,
        vid,
        message,
        columns,
        parents: tail.parents,
        rows: tail.rows,
        fresh: tail.fresh,
        place: tail.place,
        added: tail.added,
        list: tail.list,
        segment: tail.segment,
    };
    Ok((event, rest))
}

/// The fields up to the message.
pub(crate) fn write_head(
    cvd: u32,
    vid: u32,
    message: &Txt,
    out: &mut Vec<u8>,
) -> Result<(), AllocError>
    requires { Few 32 message.now }
    ensures written { OnOk result (out.new.items ≡ out.old.items ++ fields (u32 cvd ∷ u32 vid ∷ text message.now ∷ [])) }
    ensures sound { OnOk result (IsU32 cvd × IsU32 vid × IsText message.now) }
{
    cvd.write(out)?;
    vid.write(out)?;
    message.write(out)
}

/// The parents, and how many rows there are and are new.
pub(crate) fn write_rows(
    parents: &Items<(u32, u32)>,
    rows: u32,
    fresh: u32,
    out: &mut Vec<u8>,
) -> Result<(), AllocError>
    requires { Few 16 parents.now }
    ensures written { OnOk result (out.new.items ≡ out.old.items ++ fields (parents_bytes parents.now ∷ u32 rows ∷ u32 fresh ∷ [])) }
    ensures sound { OnOk result (AreParents parents.now × IsU32 rows × IsU32 fresh) }
{
    write_parents(parents.as_slice(), out)?;
    rows.write(out)?;
    fresh.write(out)
}

/// The fields from the place on.
pub(crate) fn write_placed(
    placed: Placed,
    added: u32,
    list: &Extent,
    segment: &Extent,
    out: &mut Vec<u8>,
) -> Result<(), AllocError>
    ensures written { OnOk result (out.new.items ≡ out.old.items ++ fields (place placed ∷ u32 added ∷ extent list.now ∷ extent segment.now ∷ [])) }
    ensures sound { OnOk result (IsPlaced placed × IsU32 added × IsExtent list.now × IsExtent segment.now) }
{
    write_place(placed, out)?;
    added.write(out)?;
    list.write(out)?;
    segment.write(out)
}
