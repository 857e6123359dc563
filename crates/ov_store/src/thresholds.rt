// What is read to choose a threshold, and a plan that begins from it.

ghost use Rattle.std.specs.Prelude.{◌≡◌, ◌≤◌, ◌+◌, ◌-◌, ◌^◌, min, ℕ, List, true, false, None, Some, IfOk, IfErr, IsErrOf, MatchResult, OnOk};
ghost use Rattle.ov_event.specs.Spelling.{IsEvent};
ghost use Rattle.ov_host.specs.Host.{State};
ghost use Rattle.ov_host.specs.Stops.{Only};
ghost use Rattle.ov_model.specs.Moves.{BeginPlan};
ghost use Rattle.ov_model.specs.World.{Dataset, World, set_named};
ghost use Rattle.ov_catalog.specs.Applying.{first_off};
ghost use Rattle.ov_core.specs.AtWorld.{IsAtNext, IsAtWorld, IsEither};
ghost use Rattle.ov_core.specs.Brought.{Asks, IsBare};
ghost use Rattle.ov_core.specs.Held.{IsByJournal};
ghost use Rattle.ov_fetch.specs.Extents.{Looked, page_bytes};
ghost use Rattle.ov_optimize.specs.Damages.{HasBadPart, IsListDamage};
ghost use Rattle.ov_optimize.specs.Planned.{IsReport, IsSplitFor};
ghost use Rattle.ov_read.specs.Sizes.{list_bytes_for, segment_bytes_for};
ghost use Rattle.law_room.specs.Room.{Entry, IsWithin, Made};
ghost use Rattle.ov_store.specs.Committing.{Set};
ghost use Rattle.ov_store.specs.Kept.{MayCall};
ghost use Rattle.ov_store.specs.Planning.{IsBegun, IsPlanBy, IsPlanLack, IsPlanRefused, begun_in, optimize_off, optimize_refused};
ghost use Rattle.ov_store.specs.Scanning.{IsUndamaged, all_off, set_in, vids_in};
ghost use Rattle.ov_store.specs.Thresholds.{AreListsOf, IsUnbegunWith, IsUnlisted, IsUnreadied, lists_of};
ghost use Rattle.ov_store.specs.Worlds.{and_made};

use crate::errors::StoreErr;
use crate::plan_errors::PlanErr;
use crate::planning::unrecorded;
use crate::store::Store;
use ov_host::Host;
use ov_lyre::Split;
use ov_member::Members;
use ov_optimize::{Planned, Report, all_lists, plan_with};

impl Store {
    /// The lists of all versions of a dataset, ascending: of each version the rids of its records. Each is read once, and nothing
    /// else is.
    ///
    /// `NoCvd` before anything is read. Then `Damaged` where a list is damaged, with the first page of one such.
    pub fn lists<H: Host>(&self, host: &mut H, name: &str) -> Result<Vec<Members>, StoreErr>
        requires usable { self.now.usable ≡ true }
        ensures looked { Looked (H.state host.old) (H.state host.new) }
        ensures allowed { OnOk result (all_off (set_in self.now.held.numbers name.now) ≡ None) }
        ensures why { IfErr result (IsUnlisted (set_in self.now.held.numbers name.now) (H.state host.old) (H.state host.new)) }
        ensures fetched { (s : Set) → set_in self.now.held.numbers name.now ≡ Some s
            → (H.state host.new).fetched ≤ (H.state host.old).fetched + list_bytes_for s (vids_in s) }
        ensures unread { set_in self.now.held.numbers name.now ≡ None → H.state host.new ≡ H.state host.old }
        ensures listed { (s : Set) → set_in self.now.held.numbers name.now ≡ Some s → IfOk result (λ lists. AreListsOf s (H.state host.old) lists.items) }
        ensures undamaged { (s : Set) → (H.state host.old).tells ≡ true → set_in self.now.held.numbers name.now ≡ Some s
            → OnOk result ((page : ℕ) → IsListDamage (page_bytes (H.state host.old)) s page → ⊥) }

        // At a World nothing is damaged, and the lists are those of the versions.
        ensures world { (w : World) (d : Dataset) → IsAtWorld w self.now.held (H.state host.old) → set_named w name.now ≡ Some d
            → MatchResult result (λ lists. lists.items ≡ lists_of d) IsUndamaged }
    {
        let Some(d) = self.core.catalog().cvd(name) else {
            return Err(StoreErr::NoCvd);
        };
        Ok(all_lists(self.alloc, host, d)?)
    }

    /// Whether a plan at the threshold p / q may begin: `NoCvd`, `BadThreshold`, `Migrating`, `NoNumbers`, in this order. Nothing is
    /// read for it.
    pub fn may_optimize(&self, name: &str, p: u64, q: u64) -> Result<(), PlanErr>
        ensures answer { MatchResult result (λ done. optimize_off self.now.held.numbers name.now p q ≡ None)
            (λ off. optimize_off self.now.held.numbers name.now p q ≡ Some off) }
        ensures world { (w : World) (s : State) → IsAtWorld w self.now.held s → MatchResult result
            (λ done. optimize_refused w name.now p q ≡ None) (IsPlanRefused name.now (optimize_refused w name.now p q)) }
    {
        let _d = self.may_plan(name, p, q)?;
        Ok(())
    }

    // The plan of a dataset from its lists, ready to be recorded.
    fn plan_from<H: Host>(
        &self,
        host: &mut H,
        name: &str,
        p: u64,
        q: u64,
        lists: &[Members],
        split: &Split,
    ) -> Result<Planned, PlanErr>
        requires allowed { optimize_off self.now.held.numbers name.now p q ≡ None }
        requires listed { (s : Set) → set_in self.now.held.numbers name.now ≡ Some s → AreListsOf s (H.state host.old) lists.now }
        requires split { (s : Set) → set_in self.now.held.numbers name.now ≡ Some s → IsSplitFor s p q split.now }
        ensures looked { Looked (H.state host.old) (H.state host.new) }
        ensures fetched { (s : Set) → set_in self.now.held.numbers name.now ≡ Some s
            → (H.state host.new).fetched ≤ (H.state host.old).fetched + segment_bytes_for s (vids_in s) }
        ensures by { (s : Set) → set_in self.now.held.numbers name.now ≡ Some s → IfOk result (IsPlanBy s p q (H.state host.old)) }
        ensures bare { IfOk result (λ planned. IsBare planned.event) }
        ensures event { IfOk result (λ planned. IsEvent planned.event) }
        ensures applies { IfOk result (λ planned. first_off self.now.held.journal.format planned.event self.now.held.numbers ≡ None) }
        ensures why { IfErr result (IsUnreadied (H.state host.old) (H.state host.new) (set_in self.now.held.numbers name.now)) }
        ensures asks { (w : World) (d : Dataset) → IsAtWorld w self.now.held (H.state host.old) → set_named w name.now ≡ Some d
            → IfOk result (λ planned. Asks (BeginPlan d.cvd.number p q) w planned.event) }
        ensures report { (w : World) (d : Dataset) → IsAtWorld w self.now.held (H.state host.old) → set_named w name.now ≡ Some d
            → IfOk result (λ planned. IsReport d p q planned.report) }
        ensures refused { (w : World) → IsAtWorld w self.now.held (H.state host.old) → IfErr result (IsPlanRefused name.now None) }
    {
        let d = self.may_plan(name, p, q)?;
        self.core.is_replayed();
        Ok(plan_with(self.alloc, host, d, lists, split, p as u32, q as u32)?)
    }

    /// Begins a plan at the threshold p / q, as [`Store::optimize`] does, from the lists that [`Store::lists`] gave, and from the split
    /// there that was made of them: these aren't read again, and it isn't made again. It is for a threshold that was chosen by them,
    /// once [`Store::may_optimize`] has allowed it.
    ///
    /// `Damaged` where a segment of the dataset is damaged, and then `JournalFull`. All memory is taken before the first write. It
    /// costs the pages of the segments of all partitions, each read once; the write of its record; and two syncs.
    pub fn begin_plan<H: Host>(
        &mut self,
        host: &mut H,
        name: &str,
        p: u64,
        q: u64,
        lists: &[Members],
        split: &Split,
    ) -> Result<Report, PlanErr>
        requires call { MayCall self.old (H.state host.old) }
        requires allowed { optimize_off self.old.held.numbers name.now p q ≡ None }
        requires listed { (s : Set) → set_in self.old.held.numbers name.now ≡ Some s → AreListsOf s (H.state host.old) lists.now }
        requires split { (s : Set) → set_in self.old.held.numbers name.now ≡ Some s → IsSplitFor s p q split.now }
        ensures told { (H.state host.new).tells ≡ (H.state host.old).tells }
        ensures kept { (H.state host.new).keeps ≡ (H.state host.old).keeps }
        ensures faults { (H.state host.old).faults ≤ (H.state host.new).faults }
        ensures fetched { (s : Set) → set_in self.old.held.numbers name.now ≡ Some s
            → (H.state host.new).fetched ≤ (H.state host.old).fetched + segment_bytes_for s (vids_in s) }
        ensures counted { min (H.state host.old).fetched (2 ^ 64 - 1) ≤ (H.state host.new).fetched }
        ensures done { (s : Set) → set_in self.old.held.numbers name.now ≡ Some s
            → IfOk result (IsBegun s p q (H.state host.old) self.old.held self.new.held) }
        ensures why { IfErr result (IsUnbegunWith (set_in self.old.held.numbers name.now) p q (H.state host.old) (H.state host.new) self.old.held) }
        ensures undamaged { (s : Set) → (H.state host.old).tells ≡ true → set_in self.old.held.numbers name.now ≡ Some s
            → OnOk result ((page : ℕ) → HasBadPart (page_bytes (H.state host.old)) s page → ⊥) }
        ensures stays { IfErr result (λ off. (off ≡ PlanErr.Host → ⊥) → (self.new ≡ self.old) × Looked (H.state host.old) (H.state host.new)) }
        ensures usable { OnOk result (MayCall self.new (H.state host.new)) }
        ensures by_journal { IsByJournal self.old.held (H.state host.old) → OnOk result (IsByJournal self.new.held (H.state host.new)) }
        ensures unusable { IsErrOf result PlanErr.Host → self.new.usable ≡ false }

        // Where the store is at a World: a stop at any moment, the plan that began, what is told of it, and why none began.
        ensures stops { (w : World) → IsAtWorld w self.old.held (H.state host.old)
            → Only (H.state host.old).tape (H.state host.new).tape (IsEither w (begun_in name.now p q w) (H.state host.old).tape.disk.printed) }
        ensures moves { (w : World) → IsAtWorld w self.old.held (H.state host.old)
            → OnOk result (IsAtNext (begun_in name.now p q w) self.new.held (H.state host.old) (H.state host.new)) }
        ensures report { (w : World) (d : Dataset) → IsAtWorld w self.old.held (H.state host.old) → set_named w name.now ≡ Some d
            → IfOk result (IsReport d p q) }
        ensures refused { (w : World) → IsAtWorld w self.old.held (H.state host.old) → IfErr result (IsPlanRefused name.now None) }
        ensures room { (w : World) (d : Dataset) (entry : Entry) (past : List Made) → IsAtWorld w self.old.held (H.state host.old)
            → set_named w name.now ≡ Some d → IsWithin entry past self.old.held
            → MatchResult result (λ made. IsWithin entry (and_made past (BeginPlan d.cvd.number p q) w) self.new.held)
            (IsPlanLack entry past (BeginPlan d.cvd.number p q) w) }
    {
        let planned = match self.plan_from(host, name, p, q, lists, split) {
            Ok(planned) => planned,
            Err(off) => return Err(self.unplanned(off)),
        };
        let Planned { event, report } = planned;
        match self.record_bare(host, event) {
            Ok(()) => Ok(report),
            Err(off) => Err(unrecorded(off)),
        }
    }
}
