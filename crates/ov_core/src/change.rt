// The changes of a store.
ghost use Rattle.std.specs.Prelude.{◌≡◌, ◌<◌, ◌≤◌, ◌+◌, ◌++◌, ◌∷◌, [], ℕ, List, None, true, length, IfErr, OnOk};
ghost use Rattle.ov_event.specs.declared.event.Event.TheVariants as says;
ghost use Rattle.ov_event.specs.Spelling.{IsEvent, spelling};
ghost use Rattle.ov_host.specs.Stops.{Only};
ghost use Rattle.ov_journal.specs.Held.{Passes, IsAt};
ghost use Rattle.ov_publish.specs.Puts.{PagesAtRest};
ghost use Rattle.ov_model.specs.Moves.{Move, Drop as DropMove, moved};
ghost use Rattle.ov_model.specs.World.{World};
ghost use Rattle.ov_catalog.specs.Applying.{first_off};
ghost use Rattle.ov_catalog.specs.Reached.{Fits};
ghost use Rattle.ov_core.specs.AtWorld.{IsAtWorld, IsEither, IsAtNext};
ghost use Rattle.ov_core.specs.Brought.{Asks, Brings, IsBare, IsUnplaced};
ghost use Rattle.ov_core.specs.Held.{GoesOn, IsBeside, IsByJournal};
ghost use Rattle.ov_core.specs.Rooms.{IsDropped, IsMade, IsRecorded, IsWhy, IsWhyKept, IsWhyNotRecorded};

use crate::brought::Brought;
use crate::errors::ChangeErr;
use crate::parts::Core;
use crate::runs::{free_all, free_runs, reserve_runs};
use crate::writing::{placed, ready, write_change};
use ov_event::Event;
use ov_host::Host;
use ov_publish::{Run, add_bare};
use std::alloc::Global;

impl Core {
    /// Makes the change that an event with runs says, an Init, a Commit, with columns added or not, or a Copy.
    ///
    /// `Full` with the number of pages of the run that finds none: the list's, or else the segment's. `JournalFull` exactly
    /// where there are runs for both, and the record and a closed gate behind it would pass 2^28 bytes. After these and
    /// `Memory` nothing is changed. At `Host` a stop leaves the World before the change or the one after it, and the core isn't
    /// used again.
    ///
    /// Time and memory go by the bytes that are brought, and by the runs of reserved pages.
    pub fn add<H: Host>(
        &mut self,
        alloc: Global,
        host: &mut H,
        brought: Brought,
    ) -> Result<(), ChangeErr>
        requires unplaced { IsUnplaced brought }
        requires event { IsEvent brought.event }
        requires applies { first_off self.old.journal.format brought.event self.old.numbers ≡ None }
        requires goes_on { (H.state host.old).tells ≡ true → GoesOn self.old (H.state host.old) }
        ensures passes { Passes (H.state host.old) (H.state host.new) }
        ensures made { OnOk result (IsMade self.old self.new brought) }
        ensures why { IfErr result (λ why. IsWhy why self.old brought (H.state host.old) (H.state host.new)) }
        ensures same { IfErr result (λ why. (why ≡ ChangeErr.Host → ⊥) → self.new ≡ self.old) }
        ensures untouched { IfErr result (λ why. (why ≡ ChangeErr.Host → ⊥) → H.state host.new ≡ H.state host.old) }
        ensures goes_on { (H.state host.old).tells ≡ true → OnOk result (GoesOn self.new (H.state host.new)) }
        ensures beside { (payloads : List (List ℕ)) → IsAt payloads self.old.journal (H.state host.old) → IsBeside self.old (H.state host.old)
            → OnOk result (IsBeside self.new (H.state host.new)) }
        ensures grows { (payloads : List (List ℕ)) → IsAt payloads self.old.journal (H.state host.old) → PagesAtRest (H.state host.old)
            → OnOk result (self.new.journal.end ≤ self.old.journal.end + 6 + length (spelling brought.event)) }
        ensures by_journal { IsByJournal self.old (H.state host.old) → OnOk result (IsByJournal self.new (H.state host.new)) }
        ensures stops { (w : World) (m : Move) → IsAtWorld w self.old (H.state host.old) → Brings m w brought
            → Only (H.state host.old).tape (H.state host.new).tape (IsEither w (moved m w) (H.state host.old).tape.disk.printed) }
        ensures done { (w : World) (m : Move) → IsAtWorld w self.old (H.state host.old) → Brings m w brought
            → OnOk result (IsAtNext (moved m w) self.new (H.state host.old) (H.state host.new)) }
    {
        let Brought {
            event,
            list,
            segment,
        } = brought;
        let at = reserve_runs(&mut self.pages, &list, &segment)?;
        let list = Run {
            page: at.list.page,
            bytes: &list,
        };
        let segment = Run {
            page: at.segment.page,
            bytes: &segment,
        };
        let event = placed(event, at);
        let (journal, catalog) = (&mut self.journal, &mut self.catalog);
        match write_change(alloc, host, journal, catalog, event, list, segment) {
            Ok(()) => Ok(()),
            Err(why) => {
                free_runs(&mut self.pages, at);
                Err(why)
            }
        }
    }

    /// Makes the change that an event without runs says, a Plan, a Flip or a Drop, and gives the pages of the extents back that
    /// go with it.
    ///
    /// `JournalFull` exactly where the record and a closed gate behind it would pass 2^28 bytes; `Full` never. After
    /// `JournalFull` and `Memory` nothing is changed. At `Host` a stop leaves the World before the change or the one after it,
    /// and the core isn't used again.
    ///
    /// Time goes by what the event says, by the extents that go and by the runs of reserved pages.
    pub fn add_bare<H: Host>(
        &mut self,
        alloc: Global,
        host: &mut H,
        event: Event,
    ) -> Result<(), ChangeErr>
        requires bare { IsBare event }
        requires event { IsEvent event }
        requires applies { first_off self.old.journal.format event self.old.numbers ≡ None }
        requires goes_on { (H.state host.old).tells ≡ true → GoesOn self.old (H.state host.old) }
        ensures passes { Passes (H.state host.old) (H.state host.new) }
        ensures made { OnOk result (IsRecorded self.old self.new event) }
        ensures why { IfErr result (λ why. IsWhyNotRecorded why self.old event (H.state host.old) (H.state host.new)) }
        ensures same { IfErr result (λ why. (why ≡ ChangeErr.Host → ⊥) → self.new ≡ self.old) }
        ensures untouched { IfErr result (λ why. (why ≡ ChangeErr.Host → ⊥) → H.state host.new ≡ H.state host.old) }
        ensures goes_on { (H.state host.old).tells ≡ true → OnOk result (GoesOn self.new (H.state host.new)) }
        ensures beside { (payloads : List (List ℕ)) → IsAt payloads self.old.journal (H.state host.old) → PagesAtRest (H.state host.old)
            → IsBeside self.old (H.state host.old) → OnOk result (IsBeside self.new (H.state host.new)) }
        ensures grows { (payloads : List (List ℕ)) → IsAt payloads self.old.journal (H.state host.old) → PagesAtRest (H.state host.old)
            → OnOk result (self.new.journal.end ≤ self.old.journal.end + 6 + length (spelling event)) }
        ensures by_journal { IsByJournal self.old (H.state host.old) → OnOk result (IsByJournal self.new (H.state host.new)) }
        ensures stops { (w : World) (m : Move) → IsAtWorld w self.old (H.state host.old) → Asks m w event
            → Only (H.state host.old).tape (H.state host.new).tape (IsEither w (moved m w) (H.state host.old).tape.disk.printed) }
        ensures done { (w : World) (m : Move) → IsAtWorld w self.old (H.state host.old) → Asks m w event
            → OnOk result (IsAtNext (moved m w) self.new (H.state host.old) (H.state host.new)) }
    {
        let mut freed = Vec::new(alloc);
        let framed = ready(alloc, &self.journal, &mut self.catalog, &event, &mut freed)?;
        add_bare(&mut self.journal, host, &framed)?;
        // What a flip keeps isn't among what it gives up.
        self.catalog.is_apart(&event);
        self.catalog.apply_reserved(event, &mut freed);
        // Only now may the next change write to these pages.
        free_all(&mut self.pages, &freed);
        Ok(())
    }

    /// Drops the dataset with this number, and gives its pages back.
    ///
    /// It is a change as `add_bare` makes it, which says when it isn't made and what it takes.
    pub fn drop_cvd<H: Host>(
        &mut self,
        alloc: Global,
        host: &mut H,
        cvd: u32,
    ) -> Result<(), ChangeErr>
        requires applies { first_off self.old.journal.format (says.Drop cvd) self.old.numbers ≡ None }
        requires goes_on { (H.state host.old).tells ≡ true → GoesOn self.old (H.state host.old) }
        ensures passes { Passes (H.state host.old) (H.state host.new) }
        ensures made { OnOk result (IsDropped self.old self.new cvd) }
        ensures why { IfErr result (λ why. IsWhyKept why self.old cvd (H.state host.old) (H.state host.new)) }
        ensures same { IfErr result (λ why. (why ≡ ChangeErr.Host → ⊥) → self.new ≡ self.old) }
        ensures untouched { IfErr result (λ why. (why ≡ ChangeErr.Host → ⊥) → H.state host.new ≡ H.state host.old) }
        ensures goes_on { (H.state host.old).tells ≡ true → OnOk result (GoesOn self.new (H.state host.new)) }
        ensures beside { (payloads : List (List ℕ)) → IsAt payloads self.old.journal (H.state host.old) → PagesAtRest (H.state host.old)
            → IsBeside self.old (H.state host.old) → OnOk result (IsBeside self.new (H.state host.new)) }
        ensures grows { (payloads : List (List ℕ)) → IsAt payloads self.old.journal (H.state host.old) → PagesAtRest (H.state host.old)
            → OnOk result (self.new.journal.end ≤ self.old.journal.end + 6 + length (spelling (says.Drop cvd))) }
        ensures by_journal { IsByJournal self.old (H.state host.old) → OnOk result (IsByJournal self.new (H.state host.new)) }
        ensures stops { (w : World) → IsAtWorld w self.old (H.state host.old) → Fits (DropMove cvd) w
            → Only (H.state host.old).tape (H.state host.new).tape (IsEither w (moved (DropMove cvd) w) (H.state host.old).tape.disk.printed) }
        ensures done { (w : World) → IsAtWorld w self.old (H.state host.old) → Fits (DropMove cvd) w
            → OnOk result (IsAtNext (moved (DropMove cvd) w) self.new (H.state host.old) (H.state host.new)) }
    {
        self.add_bare(alloc, host, Event::Drop { cvd })
    }
}
