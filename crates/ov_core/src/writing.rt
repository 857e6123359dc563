// A change's record: all memory for it is taken, then it is written, then the catalog applies its event.
ghost use Rattle.std.specs.Prelude.{◌≡◌, ◌+◌, ◌<◌, ◌≤◌, ◌^◌, ◌++◌, ◌∷◌, [], ℕ, List, None, true, length, vec_capacity, IfOk, IfErr, OnOk, OnErr};
ghost use Rattle.ov_host.specs.Host.{bytes_of as area_bytes};
ghost use Rattle.ov_host.specs.Stops.{Only};
ghost use Rattle.ov_event.specs.Fitting.{Fits};
ghost use Rattle.ov_event.specs.Spelling.{spelling};
ghost use Rattle.ov_journal.specs.Held.{Passes, IsAt, kept_by};
ghost use Rattle.ov_journal.specs.Journal.{and_one};
ghost use Rattle.ov_publish.specs.Steps.{IsAdded, IsFree, IsStored, with_runs, ranges_of};
ghost use Rattle.ov_catalog.specs.Applying.{first_off};
ghost use Rattle.ov_catalog.specs.Events.{applied};
ghost use Rattle.ov_catalog.specs.Extents.{given_up};
ghost use Rattle.ov_catalog.specs.Raw.{event_in};
ghost use Rattle.ov_catalog.specs.Ready.{HasRoom};
ghost use Rattle.ov_core.specs.Brought.{BringsRuns, with_extents};
ghost use Rattle.ov_core.specs.Rooms.{IsWhyNotReady, IsWhyNotWritten, PassesEnd};

use crate::errors::ChangeErr;
use crate::runs::Placing;
use ov_catalog::Catalog;
use ov_event::{Event, bytes_of};
use ov_host::{Area, Extent, Host};
use ov_journal::{Framed, Journal, frame};
use ov_publish::Run;
use std::alloc::Global;

// The greatest length of the journal, in bytes.
const JOURNAL_BYTES: usize = ov_journal::JOURNAL_BYTES as usize;

/// The event with its extents where its runs go.
pub fn placed(event: Event, at: Placing) -> Event
    ensures { result ≡ with_extents at.list at.segment event }
{
    let Placing { list, segment } = at;
    match event {
        Event::Init {
            name,
            schema,
            rows,
            ..
        } => Event::Init {
            name,
            schema,
            rows,
            list,
            segment,
        },
        Event::Commit {
            cvd,
            vid,
            message,
            parents,
            rows,
            fresh,
            place,
            added,
            ..
        } => Event::Commit {
            cvd,
            vid,
            message,
            parents,
            rows,
            fresh,
            place,
            added,
            list,
            segment,
        },
        Event::Copy { cvd, count, .. } => Event::Copy {
            cvd,
            count,
            segment,
        },
        Event::Wide {
            cvd,
            vid,
            message,
            columns,
            parents,
            rows,
            fresh,
            place,
            added,
            ..
        } => Event::Wide {
            cvd,
            vid,
            message,
            columns,
            parents,
            rows,
            fresh,
            place,
            added,
            list,
            segment,
        },
        other => other,
    }
}

// The record of an event, where the journal has room for it.
fn record_for(alloc: Global, journal: &Journal, event: &Event) -> Result<Framed, ChangeErr>
    requires { Fits event.now }
    ensures record { IfOk result (λ framed. framed ≡ spelling event.now) }
    ensures fits { OnOk result (PassesEnd journal.now event.now → ⊥) }
    ensures why { IfErr result (IsWhyNotReady journal.now event.now) }
{
    let bytes = bytes_of(alloc, event)?;
    if bytes.as_slice().len() > JOURNAL_BYTES {
        return Err(ChangeErr::JournalFull);
    }
    let framed = frame(alloc, bytes.as_slice())?;
    if !journal.fits(&framed) {
        return Err(ChangeErr::JournalFull);
    }
    Ok(framed)
}

/// Takes all memory for an event that applies: room in the catalog, room behind `freed` for the extents that it gives up, and
/// its record.
pub fn ready(
    alloc: Global,
    journal: &Journal,
    catalog: &mut Catalog,
    event: &Event,
    freed: &mut Vec<Extent>,
) -> Result<Framed, ChangeErr>
    requires applies { first_off journal.now.format event.now catalog.old.numbers ≡ None }
    requires spelled { Fits event.now }
    ensures record { IfOk result (λ framed. framed ≡ spelling event.now) }
    ensures fits { OnOk result (PassesEnd journal.now event.now → ⊥) }
    ensures ready { OnOk result (HasRoom event.now catalog.new.numbers catalog.new.ready) }
    ensures room { OnOk result (length freed.new.items + length (given_up (event_in event.now) catalog.old.numbers) ≤ vec_capacity freed.new) }
    ensures numbers { catalog.new.numbers ≡ catalog.old.numbers }
    ensures freed { freed.new.items ≡ freed.old.items }
    ensures why { IfErr result (IsWhyNotReady journal.now event.now) }
{
    // An event that applies is refused for want of memory alone.
    if catalog.room_for(journal.format(), event, freed).is_err() {
        return Err(ChangeErr::Memory);
    }
    record_for(alloc, journal, event)
}

/// Writes the runs and the record of an event that brings them, and applies it.
///
/// After any error but `Host` nothing is written.
pub fn write_change<H: Host>(
    alloc: Global,
    host: &mut H,
    journal: &mut Journal,
    catalog: &mut Catalog,
    event: Event,
    list: Run,
    segment: Run,
) -> Result<(), ChangeErr>
    requires end { (H.state host.old).tells ≡ true → journal.old.end < length (area_bytes Area.Journal (H.state host.old)) }
    requires brings { BringsRuns event list.bytes.now }
    requires applies { first_off journal.old.format event catalog.old.numbers ≡ None }
    requires spelled { Fits event }
    requires list { length list.bytes.now < 2 ^ 32 }
    requires segment { length segment.bytes.now < 2 ^ 32 }
    ensures passes { Passes (H.state host.old) (H.state host.new) }
    ensures why { IfErr result (IsWhyNotWritten journal.old event (H.state host.old) (H.state host.new)) }
    ensures fits { OnOk result (PassesEnd journal.old event → ⊥) }
    ensures applied { OnOk result (catalog.new.numbers ≡ applied (event_in event) catalog.old.numbers) }
    ensures numbers { OnErr result (catalog.new.numbers ≡ catalog.old.numbers) }
    ensures journal { IfErr result (λ why. (why ≡ ChangeErr.Host → ⊥) → journal.new ≡ journal.old) }
    ensures untouched { IfErr result (λ why. (why ≡ ChangeErr.Host → ⊥) → H.state host.new ≡ H.state host.old) }
    ensures format { journal.new.format ≡ journal.old.format }
    ensures room { (H.state host.old).tells ≡ true → OnOk result (journal.new.end < length (area_bytes Area.Journal (H.state host.new))) }
    ensures stops { (payloads : List (List ℕ)) (live : List (ℕ × ℕ)) → IsAt payloads journal.old (H.state host.old)
        → IsFree live (ranges_of list.entry segment.entry) (H.state host.old).tape.disk
        → Only (H.state host.old).tape (H.state host.new).tape
        (IsStored (kept_by journal.old payloads) (and_one (kept_by journal.old payloads) (spelling event)) live
        (area_bytes Area.Pages (H.state host.old)) (with_runs list.entry segment.entry (area_bytes Area.Pages (H.state host.old)))
        (H.state host.old).tape.disk.printed) }
    ensures done { (payloads : List (List ℕ)) → IsAt payloads journal.old (H.state host.old)
        → OnOk result (IsAdded (payloads ++ spelling event ∷ []) (with_runs list.entry segment.entry (area_bytes Area.Pages (H.state host.old)))
        (H.state host.old).tape.disk.printed journal.new (H.state host.new)) }
{
    let mut freed = Vec::new(alloc);
    let framed = ready(alloc, journal, catalog, &event, &mut freed)?;
    ov_publish::add(journal, host, list, segment, &framed)?;
    catalog.apply_reserved(event, &mut freed);
    Ok(())
}
