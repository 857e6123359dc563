// Changes of the core, after which a store knows whether it can be used.

ghost use Rattle.std.specs.Prelude.{◌≡◌, ◌≤◌, ◌+◌, ◌&&◌, ℕ, not, false, None, length, IfErr, IsErrOf, OnOk};
ghost use Rattle.ov_event.specs.Spelling.{IsEvent, spelling};
ghost use Rattle.ov_host.specs.Stops.{Only};
ghost use Rattle.ov_journal.specs.Held.{Passes};
ghost use Rattle.ov_model.specs.Moves.{Move, moved};
ghost use Rattle.ov_model.specs.World.{World};
ghost use Rattle.ov_catalog.specs.Applying.{first_off};
ghost use Rattle.ov_core.specs.AtWorld.{IsAtNext, IsAtWorld, IsEither};
ghost use Rattle.ov_core.specs.Brought.{Asks, Brings, IsBare};
ghost use Rattle.ov_core.specs.Held.{IsByJournal};
ghost use Rattle.ov_core.specs.Rooms.{IsMade, IsRecorded, IsWhy, IsWhyNotRecorded};
ghost use Rattle.ov_store.specs.Changes.{IsReady};
ghost use Rattle.ov_store.specs.Errors.{is_host};
ghost use Rattle.ov_store.specs.Kept.{MayCall};

use crate::store::Store;
use ov_core::{Brought, ChangeErr};
use ov_event::Event;
use ov_host::Host;

impl Store {
    // Why a change isn't made. After a fault of the host the store isn't used again.
    fn unmade(&mut self, off: ChangeErr) -> ChangeErr
        ensures answer { result ≡ off }
        ensures held { self.new.held ≡ self.old.held }
        ensures usable { self.new.usable ≡ (self.old.usable && not (is_host off)) }
    {
        if off == ChangeErr::Host {
            self.usable = false;
        }
        off
    }

    // Stores what was brought.
    pub(crate) fn bring<H: Host>(&mut self, host: &mut H, brought: Brought) -> Result<(), ChangeErr>
        requires call { MayCall self.old (H.state host.old) }
        requires ready { IsReady brought self.old.held }
        ensures passes { Passes (H.state host.old) (H.state host.new) }
        ensures made { OnOk result (IsMade self.old.held self.new.held brought) }
        ensures why { IfErr result (λ off. IsWhy off self.old.held brought (H.state host.old) (H.state host.new)) }
        ensures same { IfErr result (λ off. (off ≡ ChangeErr.Host → ⊥) → self.new ≡ self.old) }
        ensures untouched { IfErr result (λ off. (off ≡ ChangeErr.Host → ⊥) → H.state host.new ≡ H.state host.old) }
        ensures usable { OnOk result (MayCall self.new (H.state host.new)) }
        ensures unusable { IsErrOf result ChangeErr.Host → self.new.usable ≡ false }
        ensures stops { (w : World) (m : Move) → IsAtWorld w self.old.held (H.state host.old) → Brings m w brought
            → Only (H.state host.old).tape (H.state host.new).tape (IsEither w (moved m w) (H.state host.old).tape.disk.printed) }
        ensures moves { (w : World) (m : Move) → IsAtWorld w self.old.held (H.state host.old) → Brings m w brought
            → OnOk result (IsAtNext (moved m w) self.new.held (H.state host.old) (H.state host.new)) }
        ensures grows { (w : World) → IsAtWorld w self.old.held (H.state host.old)
            → OnOk result (self.new.held.journal.end ≤ self.old.held.journal.end + 6 + length (spelling brought.event)) }
        ensures by_journal { IsByJournal self.old.held (H.state host.old) → OnOk result (IsByJournal self.new.held (H.state host.new)) }
    {
        match self.core.add(self.alloc, host, brought) {
            Ok(()) => Ok(()),
            Err(off) => Err(self.unmade(off)),
        }
    }

    // Stores an event that brings no run.
    pub(crate) fn record_bare<H: Host>(
        &mut self,
        host: &mut H,
        event: Event,
    ) -> Result<(), ChangeErr>
        requires call { MayCall self.old (H.state host.old) }
        requires bare { IsBare event }
        requires event { IsEvent event }
        requires applies { first_off self.old.held.journal.format event self.old.held.numbers ≡ None }
        ensures passes { Passes (H.state host.old) (H.state host.new) }
        ensures made { OnOk result (IsRecorded self.old.held self.new.held event) }
        ensures why { IfErr result (λ off. IsWhyNotRecorded off self.old.held event (H.state host.old) (H.state host.new)) }
        ensures same { IfErr result (λ off. (off ≡ ChangeErr.Host → ⊥) → self.new ≡ self.old) }
        ensures untouched { IfErr result (λ off. (off ≡ ChangeErr.Host → ⊥) → H.state host.new ≡ H.state host.old) }
        ensures usable { OnOk result (MayCall self.new (H.state host.new)) }
        ensures unusable { IsErrOf result ChangeErr.Host → self.new.usable ≡ false }
        ensures stops { (w : World) (m : Move) → IsAtWorld w self.old.held (H.state host.old) → Asks m w event
            → Only (H.state host.old).tape (H.state host.new).tape (IsEither w (moved m w) (H.state host.old).tape.disk.printed) }
        ensures moves { (w : World) (m : Move) → IsAtWorld w self.old.held (H.state host.old) → Asks m w event
            → OnOk result (IsAtNext (moved m w) self.new.held (H.state host.old) (H.state host.new)) }
        ensures grows { (w : World) → IsAtWorld w self.old.held (H.state host.old)
            → OnOk result (self.new.held.journal.end ≤ self.old.held.journal.end + 6 + length (spelling event)) }
        ensures by_journal { IsByJournal self.old.held (H.state host.old) → OnOk result (IsByJournal self.new.held (H.state host.new)) }
    {
        match self.core.add_bare(self.alloc, host, event) {
            Ok(()) => Ok(()),
            Err(off) => Err(self.unmade(off)),
        }
    }
}
