//! From bytes to the event that they spell.

ghost use Rattle.std.specs.Prelude.{◌≡◌, Some, None, IfOk, IfSome, IfNone, IsSomeAnd};
ghost use Rattle.ov_event.specs.declared.event.Event.{Event as AnEvent};
ghost use Rattle.ov_event.specs.Fitting.{Fits};
ghost use Rattle.ov_event.specs.Spelling.{IsEvent, spelling};
ghost use Rattle.ov_event.specs.Reading.{Gives};
ghost use Rattle.ov_event.specs.Events.{init_at, plan_at, copy_at, fields_at, event_at, all_of};

use crate::commit::{commit_of, wide_of};
use crate::event::{Event, RawSchema};
use crate::field::Field;
use crate::stop::Stop;
use crate::whole::Whole;
use ov_host::Extent;
use ov_items::Items;
use ov_value::Txt;
use std::alloc::{AllocError, Global};

/// The event that all of the bytes spell, or `None` where they spell none. It takes memory for the event alone:
/// a number that passes the bytes takes none.
pub fn read_event(alloc: Global, bytes: &[u8]) -> Result<Option<Event>, AllocError>
    // What is read is an event, and is spelled so.
    ensures found { IfOk result (λ read. IfSome read (λ e. IsEvent e × (bytes.now ≡ spelling e))) }
    // What is spelled so is read.
    ensures only { (e : AnEvent) → IsEvent e → bytes.now ≡ spelling e → IfOk result (λ read. read ≡ Some e) }
    // What is read can be written.
    ensures fits { IfOk result (λ read. IfSome read Fits) }
{
    match whole_event(alloc, bytes) {
        Ok(event) => Ok(Some(event)),
        Err(Stop::Unspelled) => Ok(None),
        Err(Stop::Memory) => Err(AllocError),
    }
}

#[tactic(auto, unfolding(crate::specs::Events::all_of))]
fn whole_event(alloc: Global, bytes: &[u8]) -> Result<Event, Stop>
    ensures { Gives (λ e. e) result (all_of bytes.now) }
{
    let (event, rest) = event_of(alloc, bytes)?;
    if !rest.is_empty() {
        return Err(Stop::Unspelled);
    }
    Ok(event)
}

#[tactic(auto, unfolding(crate::specs::Events::event_at))]
fn event_of(alloc: Global, bytes: &[u8]) -> Result<(Event, &[u8]), Stop>
    ensures { Gives (λ x. (x.0, x.1.now)) result (event_at bytes.now) }
{
    let (tag, rest) = u8::read(alloc, bytes)?;
    fields_of(alloc, tag, rest)
}

/// The fields behind a tag.
#[tactic(auto, unfolding(crate::specs::Events::fields_at))]
fn fields_of(alloc: Global, tag: u8, bytes: &[u8]) -> Result<(Event, &[u8]), Stop>
    ensures { Gives (λ x. (x.0, x.1.now)) result (fields_at tag bytes.now) }
{
    match tag {
        1 => init_of(alloc, bytes),
        2 => commit_of(alloc, bytes),
        3 => plan_of(alloc, bytes),
        4 => copy_of(alloc, bytes),
        5 => {
            let (cvd, rest) = u32::read(alloc, bytes)?;
            Ok((Event::Flip { cvd }, rest))
        }
        6 => {
            let (cvd, rest) = u32::read(alloc, bytes)?;
            Ok((Event::Drop { cvd }, rest))
        }
        7 => {
            let (next, rest) = u32::read(alloc, bytes)?;
            Ok((Event::Base { next }, rest))
        }
        8 => {
            let (whole, rest) = Whole::read(alloc, bytes)?;
            Ok((Event::Whole(whole), rest))
        }
        9 => wide_of(alloc, bytes),
        _ => Err(Stop::Unspelled),
    }
}

#[tactic(auto, unfolding(crate::specs::Events::init_at))]
fn init_of(alloc: Global, bytes: &[u8]) -> Result<(Event, &[u8]), Stop>
    ensures { Gives (λ x. (x.0, x.1.now)) result (init_at bytes.now) }
{
    let (name, rest) = Txt::read(alloc, bytes)?;
    let (schema, rest) = RawSchema::read(alloc, rest)?;
    let (rows, rest) = u32::read(alloc, rest)?;
    let (list, rest) = Extent::read(alloc, rest)?;
    let (segment, rest) = Extent::read(alloc, rest)?;
    let event = Event::Init {
        name,
        schema,
        rows,
        list,
        segment,
    };
    Ok((event, rest))
}

#[tactic(auto, unfolding(crate::specs::Events::plan_at))]
fn plan_of(alloc: Global, bytes: &[u8]) -> Result<(Event, &[u8]), Stop>
    ensures { Gives (λ x. (x.0, x.1.now)) result (plan_at bytes.now) }
{
    let (cvd, rest) = u32::read(alloc, bytes)?;
    let (p, rest) = u32::read(alloc, rest)?;
    let (q, rest) = u32::read(alloc, rest)?;
    let (targets, rest) = Items::read(alloc, rest)?;
    let event = Event::Plan { cvd, p, q, targets };
    Ok((event, rest))
}

#[tactic(auto, unfolding(crate::specs::Events::copy_at))]
fn copy_of(alloc: Global, bytes: &[u8]) -> Result<(Event, &[u8]), Stop>
    ensures { Gives (λ x. (x.0, x.1.now)) result (copy_at bytes.now) }
{
    let (cvd, rest) = u32::read(alloc, bytes)?;
    let (count, rest) = u32::read(alloc, rest)?;
    let (segment, rest) = Extent::read(alloc, rest)?;
    let event = Event::Copy {
        cvd,
        count,
        segment,
    };
    Ok((event, rest))
}
