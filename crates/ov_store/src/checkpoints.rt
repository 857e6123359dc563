// A checkpoint.

ghost use Rattle.std.specs.Prelude.{◌≡◌, ℕ, List, false, length, IfOk, IfErr, IsErrOf, MatchResult, OnOk};
ghost use Rattle.ov_host.specs.Stops.{Only};
ghost use Rattle.ov_journal.specs.Held.{IsAt, Passes};
ghost use Rattle.ov_model.specs.Moves.{Checkpoint, moved};
ghost use Rattle.ov_model.specs.World.{World};
ghost use Rattle.law_room.specs.Room.{Entry, IsWithin, Made};
ghost use Rattle.ov_core.specs.AtWorld.{IsAtNext, IsAtWorld, IsEither};
ghost use Rattle.ov_core.specs.Held.{IsByJournal};
ghost use Rattle.ov_core.specs.Rooms.{IsTaken, KeepsPages};
ghost use Rattle.ov_store.specs.Checkpoints.{IsUntaken};
ghost use Rattle.ov_store.specs.Kept.{MayCall, Stays};
ghost use Rattle.ov_store.specs.Worlds.{IsLack, and_made};

use crate::errors::StoreErr;
use crate::store::Store;
use ov_host::Host;

impl Store {
    /// Puts a snapshot in the place of the journal's records, and tells how many datasets are live. The store is of format 2
    /// then. No page is written.
    ///
    /// `JournalFull` exactly where no epoch is left, or no place for the snapshot. Time and memory go by what the snapshot says.
    pub fn checkpoint<H: Host>(&mut self, host: &mut H) -> Result<u32, StoreErr>
        requires call { MayCall self.old (H.state host.old) }
        ensures passes { Passes (H.state host.old) (H.state host.new) }
        ensures answer { IfOk result (λ datasets. datasets ≡ length self.old.held.numbers.sets) }
        ensures taken { OnOk result (IsTaken self.old.held self.new.held) }
        ensures why { IfErr result (IsUntaken self.old.held (H.state host.old) (H.state host.new)) }
        ensures stays { IfErr result (λ off. Stays off self.old self.new (H.state host.old) (H.state host.new)) }
        ensures usable { OnOk result (MayCall self.new (H.state host.new)) }
        ensures unusable { IsErrOf result StoreErr.Host → self.new.usable ≡ false }
        ensures by_journal { IsByJournal self.old.held (H.state host.old) → OnOk result (IsByJournal self.new.held (H.state host.new)) }
        ensures stops { (w : World) → IsAtWorld w self.old.held (H.state host.old)
            → Only (H.state host.old).tape (H.state host.new).tape (IsEither w (moved Checkpoint w) (H.state host.old).tape.disk.printed) }
        ensures moves { (w : World) → IsAtWorld w self.old.held (H.state host.old)
            → OnOk result (IsAtNext (moved Checkpoint w) self.new.held (H.state host.old) (H.state host.new)) }
        ensures pages { (payloads : List (List ℕ)) → IsAt payloads self.old.held.journal (H.state host.old)
            → Only (H.state host.old).tape (H.state host.new).tape (KeepsPages (H.state host.old).tape.disk) }
        ensures world { (w : World) → IsAtWorld w self.old.held (H.state host.old) → IfOk result (λ datasets. datasets ≡ length w.sets) }
        ensures room { (w : World) (entry : Entry) (past : List Made) → IsAtWorld w self.old.held (H.state host.old) → IsWithin entry past self.old.held
            → MatchResult result (λ done. IsWithin entry (and_made past Checkpoint w) self.new.held) (IsLack entry past Checkpoint w) }
    {
        // There are few, so that their number has 32 bits.
        self.core.is_replayed();
        let datasets = self.core.catalog().cvds().len() as u32;
        match self.core.checkpoint(self.alloc, host) {
            Ok(()) => Ok(datasets),
            Err(off) => Err(self.refusal(off)),
        }
    }
}
