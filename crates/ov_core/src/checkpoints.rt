// A checkpoint: the snapshot of the catalog, in the place of the journal's records.
ghost use Rattle.std.specs.Prelude.{◌≡◌, ◌↔◌, ◌<◌, ◌^◌, ℕ, List, All, IsTrue, true, map, IfOk, IfErr, IfSome, IfNone, OnOk};
ghost use Rattle.std.specs.List.{AllByRecursion};
ghost use Rattle.ov_event.specs.Fitting.{Fits};
ghost use Rattle.ov_event.specs.Spelling.{IsEvent, spelling};
ghost use Rattle.ov_host.specs.Stops.{Only};
ghost use Rattle.ov_journal.specs.Held.{Passes, IsAt};
ghost use Rattle.ov_journal.specs.Snapshots.{size_of};
ghost use Rattle.ov_model.specs.Moves.{Checkpoint, moved};
ghost use Rattle.ov_model.specs.World.{World};
ghost use Rattle.law_snapshots.specs.Said.{snapshot_in};
ghost use Rattle.law_snapshots.specs.Whole.{AreWhole};
ghost use Rattle.ov_core.specs.AtWorld.{IsAtWorld, IsEither, IsAtNext};
ghost use Rattle.ov_core.specs.Held.{GoesOn, IsBeside, IsByJournal};
ghost use Rattle.ov_core.specs.Rooms.{IsTaken, IsWhyNoSnapshot, IsWhyNotTaken, KeepsPages, snapshot_payloads};
ghost use Rattle.ov_core.specs.Snapshots.{IsOfSnapshot};

use crate::errors::ChangeErr;
use crate::parts::Core;
use ov_catalog::Catalog;
use ov_event::{Event, bytes_of, whole_fits};
use ov_host::Host;
use ov_journal::{Journal, Payload, Snapshot, can_snapshot, snapshot};
use std::alloc::{AllocError, Global};

// Whether each list of an event of a snapshot is short enough for its count.
fn fits(event: &Event) -> bool
    requires { IsOfSnapshot event.now }
    ensures { IsTrue result ↔ Fits event.now }
{
    match event {
        Event::Whole(said) => whole_fits(said),
        _ => true,
    }
}

// The payloads of a snapshot's events; none where a list is too long for its count, since a snapshot is longer than a journal then.
fn payloads_of(alloc: Global, events: &[Event]) -> Result<Option<Vec<Payload>>, AllocError>
    requires { All IsOfSnapshot events.now }
    ensures payloads { IfOk result (λ said. IfSome said (λ payloads. payloads.items ≡ map spelling events.now)) }
    ensures events { IfOk result (λ said. IfSome said (λ payloads. AllByRecursion IsEvent events.now)) }
    ensures long { IfOk result (λ said. IfNone said (2 ^ 28 < size_of (map spelling events.now))) }
{
    let mut payloads = Vec::with_capacity(alloc, events.len())?;
    for event in events {
        if !fits(event) {
            return Ok(None);
        }
        payloads.push(bytes_of(alloc, event)?)?;
    }
    Ok(Some(payloads))
}

// The snapshot of a catalog. One that is longer than a journal has no place in this one.
fn snapshot_of(alloc: Global, journal: &Journal, catalog: &Catalog) -> Result<Snapshot, ChangeErr>
    requires { AreWhole catalog.now.numbers }
    ensures payloads { IfOk result (λ snapshot. snapshot ≡ snapshot_payloads catalog.now.numbers) }
    ensures events { OnOk result (AllByRecursion IsEvent (snapshot_in catalog.now.numbers)) }
    ensures why { IfErr result (IsWhyNoSnapshot journal.now (snapshot_payloads catalog.now.numbers)) }
{
    journal.lies_within();
    let Some(payloads) = payloads_of(alloc, &catalog.events()?)? else {
        return Err(ChangeErr::JournalFull);
    };
    if !can_snapshot(&payloads) {
        return Err(ChangeErr::JournalFull);
    }
    Ok(snapshot(alloc, &payloads)?)
}

impl Core {
    /// Puts a snapshot in the place of the journal's records: one event with the next dataset's number, and one for each dataset
    /// as it stands. The store is of format 2 then. No page is written.
    ///
    /// `JournalFull` exactly where no epoch is left, or no place for the snapshot; `Full` never. After `JournalFull` and `Memory`
    /// nothing is changed. At `Host` a stop leaves the World before the checkpoint or the one after it, and the core isn't used
    /// again.
    ///
    /// Time and memory go by what the snapshot says.
    pub fn checkpoint<H: Host>(&mut self, alloc: Global, host: &mut H) -> Result<(), ChangeErr>
        requires goes_on { (H.state host.old).tells ≡ true → GoesOn self.old (H.state host.old) }
        ensures passes { Passes (H.state host.old) (H.state host.new) }
        ensures taken { OnOk result (IsTaken self.old self.new) }
        ensures why { IfErr result (λ why. IsWhyNotTaken why self.old (H.state host.old) (H.state host.new)) }
        ensures same { IfErr result (λ why. (why ≡ ChangeErr.Host → ⊥) → self.new ≡ self.old) }
        ensures untouched { IfErr result (λ why. (why ≡ ChangeErr.Host → ⊥) → H.state host.new ≡ H.state host.old) }
        ensures goes_on { (H.state host.old).tells ≡ true → OnOk result (GoesOn self.new (H.state host.new)) }
        ensures beside { (payloads : List (List ℕ)) → IsAt payloads self.old.journal (H.state host.old) → IsBeside self.old (H.state host.old)
            → OnOk result (IsBeside self.new (H.state host.new)) }
        ensures by_journal { IsByJournal self.old (H.state host.old) → OnOk result (IsByJournal self.new (H.state host.new)) }
        ensures stops { (w : World) → IsAtWorld w self.old (H.state host.old)
            → Only (H.state host.old).tape (H.state host.new).tape (IsEither w (moved Checkpoint w) (H.state host.old).tape.disk.printed) }
        ensures done { (w : World) → IsAtWorld w self.old (H.state host.old)
            → OnOk result (IsAtNext (moved Checkpoint w) self.new (H.state host.old) (H.state host.new)) }
        ensures pages { (payloads : List (List ℕ)) → IsAt payloads self.old.journal (H.state host.old)
            → Only (H.state host.old).tape (H.state host.new).tape (KeepsPages (H.state host.old).tape.disk) }
    {
        let snapshot = snapshot_of(alloc, &self.journal, &self.catalog)?;
        // An epoch is a number of 32 bits, so one that isn't the last has a next one.
        let _ = self.journal.epoch();
        self.journal.checkpoint(host, &snapshot)?;
        Ok(())
    }
}
