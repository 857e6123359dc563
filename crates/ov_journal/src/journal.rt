// The journal: where its next record goes, and what its live slot says.
ghost use Rattle.std.specs.Prelude.{◌≡◌, ◌<◌, ◌≤◌, ◌↔◌, ◌+◌, ◌^◌, ◌++◌, ◌∷◌, [], ℕ, List, IsTrue, true, false, length, IfOk, IfErr, IsErr, IsErrOf, OnOk};
ghost use Rattle.ov_host.specs.Host.{Rose, bytes_of};
ghost use Rattle.ov_host.specs.Stops.{Only};
ghost use Rattle.ov_journal.specs.Checkpoints.{HasNoRoom, IsRoom, start_for, snapshot_kept, turned_to};
ghost use Rattle.ov_journal.specs.Held.{Numbers, Passes, AtRest, IsAt, IsOldOrNew, IsStill, SameButJournal, kept_by};
ghost use Rattle.ov_journal.specs.Journal.{IsKnown, and_one};
ghost use Rattle.ov_journal.specs.Snapshots.{size_of};

use crate::errors::AppendErr;
use crate::framed::Framed;
use crate::header::{FORMAT, HEADER_BYTES, Live, OPEN};
use crate::snapshots::Snapshot;
use crate::staging::write_both_synced;
use crate::writing::write_synced;
use ov_host::{Area, Failed, Host};
use std::marker::Model;

// The greatest length of the journal, in bytes.
pub const JOURNAL_BYTES: u64 = 1 << 28;

/// The journal of a store: the place of its first closed gate, and its live slot.
#[derive(Drop)]
pub struct Journal {
    end: u64,
    live: Live,
}

impl Model for Journal {
    ghost use Rattle.std.specs.Prelude.{◌<◌, ◌≤◌, ◌^◌};
    ghost use Rattle.ov_journal.specs.Held.{Numbers};
    ghost use Rattle.ov_journal.specs.Journal.{IsKnown};

    ghost Value = { Numbers };

    ghost view = { λ j. record {
      end = j.end;
      epoch = j.live.epoch;
      start = j.live.start;
      format = j.live.format;
      side = j.live.side;
      spare_open = j.live.spare_open;
    } };

    ghost invariant = { λ j. (38 ≤ j.live.start) × (j.live.start ≤ j.end) × (j.end < 2 ^ 28) × IsKnown j.live.format };
}

impl Journal {
    // The journal with this first closed gate and this live slot.
    pub(crate) fn at(end: u64, live: Live) -> Journal
        requires { (38 ≤ live.start) × (live.start ≤ end) × (end < 2 ^ 28) × IsKnown live.format }
        ensures { result ≡ record {
          end = end;
          epoch = live.epoch;
          start = live.start;
          format = live.format;
          side = live.side;
          spare_open = live.spare_open;
        } }
    {
        Journal { end, live }
    }

    /// The place of the first closed gate.
    pub fn end(&self) -> u64
        ensures { result ≡ self.now.end }
    {
        self.end
    }

    /// The epoch of the live half.
    pub fn epoch(&self) -> u32
        ensures { result ≡ self.now.epoch }
    {
        self.live.epoch
    }

    /// The place where the live half begins.
    pub fn start(&self) -> u32
        ensures { result ≡ self.now.start }
    {
        self.live.start
    }

    /// The format number of the live slot.
    pub fn format(&self) -> u32
        ensures { result ≡ self.now.format }
    {
        self.live.format
    }

    /// The live half lies behind the header, and its first closed gate before 2^28.
    pub fn lies_within(&self)
        ensures { (38 ≤ self.now.start) × (self.now.start ≤ self.now.end) × (self.now.end < 2 ^ 28) }
    {
        let _ = &self.end;
    }

    /// The live slot's format is one that is known.
    pub fn is_known(&self)
        ensures { IsKnown self.now.format }
    {
        let _ = &self.live;
    }

    /// Whether the record and a closed gate behind it end at 2^28 or before.
    pub fn fits(&self, framed: &Framed) -> bool
        ensures { IsTrue result ↔ (self.now.end + 6 + length framed.now ≤ 2 ^ 28) }
    {
        (framed.as_bytes().len() as u64) < JOURNAL_BYTES - self.end
    }

    /// Appends a record: writes it behind the closed gate, and then opens that gate.
    ///
    /// `JournalFull` where the record and the closed gate behind it would pass 2^28 bytes; then nothing is changed. At
    /// `Host` a stop leaves the old records, or the old ones and this one, and the journal isn't used again.
    pub fn append<H: Host>(&mut self, host: &mut H, framed: &Framed) -> Result<(), AppendErr>
        requires { (H.state host.old).tells ≡ true → self.old.end < length (bytes_of Area.Journal (H.state host.old)) }
        ensures passes { Passes (H.state host.old) (H.state host.new) }
        ensures full { IsErrOf result AppendErr.JournalFull ↔ (2 ^ 28 < self.old.end + 6 + length framed.now) }
        ensures cause { IsErrOf result AppendErr.Host → Rose (H.state host.old).faults (H.state host.new).faults }
        ensures stops { (payloads : List (List ℕ)) → IsAt payloads self.old (H.state host.old)
            → Only (H.state host.old).tape (H.state host.new).tape
            (IsOldOrNew (kept_by self.old payloads) (and_one (kept_by self.old payloads) framed.now) (H.state host.old).tape.disk) }
        ensures done { (payloads : List (List ℕ)) → IsAt payloads self.old (H.state host.old)
            → OnOk result (IsAt (payloads ++ framed.now ∷ []) self.new (H.state host.new)) }
        ensures same { AtRest (H.state host.old) → OnOk result (SameButJournal (H.state host.old).tape.disk (H.state host.new).tape.disk) }
        ensures room { (H.state host.old).tells ≡ true → OnOk result (self.new.end < length (bytes_of Area.Journal (H.state host.new))) }
        ensures format { self.new.format ≡ self.old.format }
        ensures full_same { IsErrOf result AppendErr.JournalFull → self.new ≡ self.old }
        ensures full_untouched { IsErrOf result AppendErr.JournalFull → H.state host.new ≡ H.state host.old }
    {
        if !self.fits(framed) {
            return Err(AppendErr::JournalFull);
        }
        let bytes = framed.as_bytes();
        // The gate stays closed until what stands behind it is settled: only then may the record count.
        write_synced(host, self.end + 1, bytes)?;
        write_synced(host, self.end, &[OPEN])?;
        self.end += bytes.len() as u64;
        Ok(())
    }

    // The place for a snapshot's records: before the live half where they end there, else behind its closed gate. Full
    // where they end past 2^28 there, or no epoch is left.
    fn place_for(&self, snapshot: &Snapshot) -> Result<u32, AppendErr>
        ensures full { IsErrOf result AppendErr.JournalFull ↔ HasNoRoom self.now snapshot.now }
        ensures kind { IfErr result (λ e. e ≡ AppendErr.JournalFull) }
        ensures place { IfOk result (λ at. at ≡ start_for self.now snapshot.now) }
        ensures room { IfOk result (λ at. IsRoom self.now at (size_of snapshot.now)) }
        ensures epoch { IfOk result (λ at. self.now.epoch + 1 < 2 ^ 32) }
    {
        let size = snapshot.as_bytes().len() as u64;
        if self.live.epoch == u32::MAX {
            Err(AppendErr::JournalFull)
        } else if HEADER_BYTES as u64 + size <= u64::from(self.live.start) {
            Ok(HEADER_BYTES as u32)
        } else if self.end + 1 + size <= JOURNAL_BYTES {
            Ok((self.end + 1) as u32)
        } else {
            Err(AppendErr::JournalFull)
        }
    }

    // Closes the gate of the slot that isn't live, where it is open. A closed one isn't written: a stop within that write
    // could open it, over fields that an earlier stop tore.
    fn close_spare<H: Host>(&self, host: &mut H) -> Result<(), Failed>
        requires { (H.state host.old).tells ≡ true → self.now.end < length (bytes_of Area.Journal (H.state host.old)) }
        ensures passes { Passes (H.state host.old) (H.state host.new) }
        ensures cause { IsErr result → Rose (H.state host.old).faults (H.state host.new).faults }
        ensures room { (H.state host.old).tells ≡ true → OnOk result (self.now.end < length (bytes_of Area.Journal (H.state host.new))) }
        ensures stops { (payloads : List (List ℕ)) → IsAt payloads self.now (H.state host.old)
            → Only (H.state host.old).tape (H.state host.new).tape
            (IsStill (kept_by self.now payloads) (H.state host.old).tape.disk) }
        ensures done { (payloads : List (List ℕ)) → IsAt payloads self.now (H.state host.old)
            → OnOk result (IsAt payloads (record self.now { spare_open = false }) (H.state host.new)) }
        ensures same { AtRest (H.state host.old) → OnOk result (SameButJournal (H.state host.old).tape.disk (H.state host.new).tape.disk) }
        ensures rest { AtRest (H.state host.old) → OnOk result (AtRest (H.state host.new)) }
    {
        if self.live.spare_open {
            write_synced(host, self.live.side.other().place() as u64, &[0])?;
        }
        Ok(())
    }

    /// Puts a snapshot in the place of the records: in the other half, under the next epoch and with format number 2.
    ///
    /// Its records go to place 38 where they and the closed gate behind them end before the live half, else behind the live
    /// half's closed gate. `JournalFull` where they pass 2^28 there, or the epoch is 2^32 - 1; then nothing is changed. At
    /// `Host` a stop leaves the old records or the snapshot's, and the journal isn't used again.
    pub fn checkpoint<H: Host>(
        &mut self,
        host: &mut H,
        snapshot: &Snapshot,
    ) -> Result<(), AppendErr>
        requires { (H.state host.old).tells ≡ true → self.old.end < length (bytes_of Area.Journal (H.state host.old)) }
        ensures passes { Passes (H.state host.old) (H.state host.new) }
        ensures full { IsErrOf result AppendErr.JournalFull ↔ HasNoRoom self.old snapshot.now }
        ensures cause { IsErrOf result AppendErr.Host → Rose (H.state host.old).faults (H.state host.new).faults }
        ensures stops { (payloads : List (List ℕ)) → IsAt payloads self.old (H.state host.old)
            → Only (H.state host.old).tape (H.state host.new).tape
            (IsOldOrNew (kept_by self.old payloads) (snapshot_kept self.old snapshot.now) (H.state host.old).tape.disk) }
        ensures done { (payloads : List (List ℕ)) → IsAt payloads self.old (H.state host.old)
            → OnOk result (IsAt snapshot.now self.new (H.state host.new)) }
        ensures numbers { OnOk result (self.new ≡ turned_to self.old snapshot.now) }
        ensures same { AtRest (H.state host.old) → OnOk result (SameButJournal (H.state host.old).tape.disk (H.state host.new).tape.disk) }
        ensures room { (H.state host.old).tells ≡ true → OnOk result (self.new.end < length (bytes_of Area.Journal (H.state host.new))) }
        ensures full_same { IsErrOf result AppendErr.JournalFull → self.new ≡ self.old }
        ensures full_untouched { IsErrOf result AppendErr.JournalFull → H.state host.new ≡ H.state host.old }
    {
        let start = self.place_for(snapshot)?;
        let next = Live {
            side: self.live.side.other(),
            epoch: self.live.epoch + 1,
            start,
            format: FORMAT,
            spare_open: true,
        };
        let gate = next.side.place() as u64;
        let frames = snapshot.as_bytes();
        self.close_spare(host)?;
        // The gate stays closed until the records and the slot's fields are settled: only then may they count.
        write_both_synced(host, u64::from(start), frames, gate + 1, &next.fields())?;
        write_synced(host, gate, &[OPEN])?;
        self.end = u64::from(start) + frames.len() as u64 - 1;
        self.live = next;
        Ok(())
    }
}
