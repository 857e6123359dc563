// Plans that begin.

ghost use Rattle.std.specs.Prelude.{◌≡◌, ◌≤◌, ◌+◌, ◌-◌, ◌^◌, min, ℕ, List, true, false, None, Some, IfOk, IfErr, IsErrOf, IsTrue, MatchResult, OnOk};
ghost use Rattle.ov_event.specs.Spelling.{IsEvent};
ghost use Rattle.ov_host.specs.Stops.{Only};
ghost use Rattle.ov_model.specs.Act.{is_threshold as is_threshold_by};
ghost use Rattle.ov_model.specs.Moves.{BeginPlan};
ghost use Rattle.ov_model.specs.World.{Dataset, World, set_named};
ghost use Rattle.ov_model.specs.declared.refusal.Refusal.{Refusal};
ghost use Rattle.ov_catalog.specs.Applying.{first_off};
ghost use Rattle.ov_catalog.specs.Ready.{IsSet};
ghost use Rattle.ov_catalog.specs.Sets.{set_in as numbers_of};
ghost use Rattle.ov_core.specs.AtWorld.{IsAtNext, IsAtWorld, IsEither};
ghost use Rattle.ov_core.specs.Brought.{Asks, IsBare};
ghost use Rattle.ov_core.specs.Held.{IsByJournal};
ghost use Rattle.ov_core.specs.declared.errors.ChangeErr.TheVariants as change;
ghost use Rattle.ov_fetch.specs.declared.errors.FetchErr.TheVariants as fetch;
ghost use Rattle.ov_fetch.specs.Extents.{Looked, page_bytes};
ghost use Rattle.ov_open.specs.Opening.{IsWorld};
ghost use Rattle.ov_optimize.specs.Damages.{RefusesPlan};
ghost use Rattle.ov_optimize.specs.Planned.{IsReport};
ghost use Rattle.ov_read.specs.Sizes.{bytes_for};
ghost use Rattle.law_room.specs.Room.{Entry, IsWithin, Made};
ghost use Rattle.ov_store.specs.Committing.{Set};
ghost use Rattle.ov_store.specs.Kept.{MayCall};
ghost use Rattle.ov_store.specs.Planning.{IsBegun, IsPlanBy, IsPlanLack, IsPlanRefused, IsUnbegun, IsUnplanned, IsUnrecorded, begun_in, optimize_off, optimize_refused};
ghost use Rattle.ov_store.specs.Scanning.{set_in, vids_in};
ghost use Rattle.ov_store.specs.Worlds.{and_made};
ghost use Rattle.ov_store.specs.declared.plan_errors.PlanErr.{PlanErr as PlanErrValue};
ghost use Rattle.ov_store.specs.declared.plan_errors.PlanErr.TheVariants as why;

use crate::plan_errors::PlanErr;
use crate::store::Store;
use ov_catalog::Cvd;
use ov_core::ChangeErr;
use ov_host::Host;
use ov_optimize::{Planned, Report, plan_of};

/// The greatest q of a threshold p / q.
const MOST_PARTS: u64 = 1_000_000;

/// No plan begins where the next partition's number is greater, so that numbers are left for its targets and later versions.
const MOST_NEXT: u32 = 4_294_000_000;

/// Whether p / q is a threshold: 1 ≤ p ≤ q ≤ 1,000,000.
pub fn is_threshold(p: u64, q: u64) -> bool
    ensures { result ≡ is_threshold_by p q }
{
    1 <= p && p <= q && q <= MOST_PARTS
}

// Why no plan is recorded, for which no run is asked.
pub(crate) fn unrecorded(off: ChangeErr) -> PlanErr
    requires { (pages : ℕ) → off ≡ change.Full pages → ⊥ }
    ensures { IsUnrecorded off result }
{
    match off {
        ChangeErr::Host => PlanErr::Host,
        ChangeErr::Memory => PlanErr::Memory,
        ChangeErr::JournalFull => PlanErr::JournalFull,
        ChangeErr::Full { .. } => unreachable!(),
    }
}

impl Store {
    // The dataset with this name, where a plan at p / q may begin.
    pub(crate) fn may_plan(&self, name: &str, p: u64, q: u64) -> Result<&Cvd, PlanErr>
        ensures found { IfOk result (λ d. set_in self.now.held.numbers name.now ≡ Some (numbers_of d.now)) }
        ensures sound { IfOk result (λ d. IsSet d.now) }
        ensures idle { IfOk result (λ d. d.now.plan ≡ None) }
        ensures threshold { OnOk result (IsTrue (is_threshold_by p q)) }
        ensures numbers { IfOk result (λ d. d.now.layout.next ≤ 4294000000) }
        ensures allowed { OnOk result (optimize_off self.now.held.numbers name.now p q ≡ None) }
        ensures why { IfErr result (λ off. optimize_off self.now.held.numbers name.now p q ≡ Some off) }
    {
        let Some(d) = self.core.catalog().cvd(name) else {
            return Err(PlanErr::NoCvd);
        };
        if !is_threshold(p, q) {
            return Err(PlanErr::BadThreshold);
        }
        if d.plan.is_some() {
            return Err(PlanErr::Migrating);
        }
        if d.layout.next_id() > MOST_NEXT {
            return Err(PlanErr::NoNumbers);
        }
        Ok(d)
    }

    // The plan of a dataset, ready to be recorded.
    fn plan_for<H: Host>(
        &self,
        host: &mut H,
        name: &str,
        p: u64,
        q: u64,
    ) -> Result<Planned, PlanErr>
        ensures looked { Looked (H.state host.old) (H.state host.new) }
        ensures fetched { (s : Set) → set_in self.now.held.numbers name.now ≡ Some s
            → (H.state host.new).fetched ≤ (H.state host.old).fetched + bytes_for s (vids_in s) }
        ensures unread { (off : PlanErrValue) → optimize_off self.now.held.numbers name.now p q ≡ Some off → H.state host.new ≡ H.state host.old }
        ensures allowed { OnOk result (optimize_off self.now.held.numbers name.now p q ≡ None) }
        ensures by { (s : Set) → set_in self.now.held.numbers name.now ≡ Some s → IfOk result (IsPlanBy s p q (H.state host.old)) }
        ensures bare { IfOk result (λ planned. IsBare planned.event) }
        ensures event { IfOk result (λ planned. IsEvent planned.event) }
        ensures applies { IfOk result (λ planned. first_off self.now.held.journal.format planned.event self.now.held.numbers ≡ None) }
        ensures why { IfErr result (IsUnplanned name.now p q self.now.held (H.state host.old) (H.state host.new)) }
        ensures asks { (w : World) (d : Dataset) → IsAtWorld w self.now.held (H.state host.old) → set_named w name.now ≡ Some d
            → IfOk result (λ planned. Asks (BeginPlan d.cvd.number p q) w planned.event) }
        ensures report { (w : World) (d : Dataset) → IsAtWorld w self.now.held (H.state host.old) → set_named w name.now ≡ Some d
            → IfOk result (λ planned. IsReport d p q planned.report) }
        ensures refused { (w : World) → IsAtWorld w self.now.held (H.state host.old)
            → IfErr result (IsPlanRefused name.now (optimize_refused w name.now p q)) }
    {
        let d = self.may_plan(name, p, q)?;
        self.core.is_replayed();
        Ok(plan_of(self.alloc, host, d, p as u32, q as u32)?)
    }

    // Why no plan is ready. After a fault of the host the store isn't used again.
    pub(crate) fn unplanned(&mut self, off: PlanErr) -> PlanErr
        ensures answer { result ≡ off }
        ensures same { (off ≡ why.Host → ⊥) → self.new ≡ self.old }
        ensures unusable { off ≡ why.Host → self.new.usable ≡ false }
    {
        if off == PlanErr::Host {
            self.usable = false;
        }
        off
    }

    /// Begins a plan: the dataset's partitions become the parts of the split of its versions at the threshold p / q, step by step
    /// as `step` takes them. The report tells what will stand then.
    ///
    /// Refusals in their order: `NoCvd`, `BadThreshold`, `Migrating`, `NoNumbers`; before these nothing is read. Then `Damaged`
    /// where a list or a segment of the dataset is damaged, and `JournalFull`. All memory is taken before the first write.
    ///
    /// An optimize costs the pages of the lists of all versions and of the segments of all partitions, each read once; the write
    /// of its record; and two syncs.
    pub fn optimize<H: Host>(
        &mut self,
        host: &mut H,
        name: &str,
        p: u64,
        q: u64,
    ) -> Result<Report, PlanErr>
        requires call { MayCall self.old (H.state host.old) }
        ensures told { (H.state host.new).tells ≡ (H.state host.old).tells }
        ensures kept { (H.state host.new).keeps ≡ (H.state host.old).keeps }
        ensures faults { (H.state host.old).faults ≤ (H.state host.new).faults }
        ensures fetched { (s : Set) → set_in self.old.held.numbers name.now ≡ Some s
            → (H.state host.new).fetched ≤ (H.state host.old).fetched + bytes_for s (vids_in s) }
        ensures counted { min (H.state host.old).fetched (2 ^ 64 - 1) ≤ (H.state host.new).fetched }
        ensures unread { (off : PlanErrValue) → optimize_off self.old.held.numbers name.now p q ≡ Some off → H.state host.new ≡ H.state host.old }
        ensures done { (s : Set) → set_in self.old.held.numbers name.now ≡ Some s
            → IfOk result (IsBegun s p q (H.state host.old) self.old.held self.new.held) }
        ensures allowed { OnOk result (optimize_off self.old.held.numbers name.now p q ≡ None) }
        ensures why { IfErr result (IsUnbegun name.now p q self.old.held (H.state host.old) (H.state host.new)) }
        ensures undamaged { (s : Set) → (H.state host.old).tells ≡ true → set_in self.old.held.numbers name.now ≡ Some s
            → OnOk result ((page : ℕ) → RefusesPlan (fetch.Damaged page) (page_bytes (H.state host.old)) s → ⊥) }
        ensures stays { IfErr result (λ off. (off ≡ PlanErr.Host → ⊥) → (self.new ≡ self.old) × Looked (H.state host.old) (H.state host.new)) }
        ensures usable { OnOk result (MayCall self.new (H.state host.new)) }
        ensures by_journal { IsByJournal self.old.held (H.state host.old) → OnOk result (IsByJournal self.new.held (H.state host.new)) }
        ensures unusable { IsErrOf result PlanErr.Host → self.new.usable ≡ false }

        // Where the store is at a World: a stop at any moment, the plan that began, what is told of it, and why none began.
        ensures stops { (w : World) → IsAtWorld w self.old.held (H.state host.old)
            → Only (H.state host.old).tape (H.state host.new).tape (IsEither w (begun_in name.now p q w) (H.state host.old).tape.disk.printed) }
        ensures moves { (w : World) → IsAtWorld w self.old.held (H.state host.old)
            → OnOk result (IsAtNext (begun_in name.now p q w) self.new.held (H.state host.old) (H.state host.new)) }
        ensures report { (w : World) (d : Dataset) → IsAtWorld w self.old.held (H.state host.old) → set_named w name.now ≡ Some d
            → IfOk result (IsReport d p q) }
        ensures refused { (w : World) → IsAtWorld w self.old.held (H.state host.old) → MatchResult result
            (λ made. optimize_refused w name.now p q ≡ None) (IsPlanRefused name.now (optimize_refused w name.now p q)) }

        // So an optimize that the World refuses reads nothing and begins nothing; and the room that is taken.
        ensures untouched { (w : World) (refusal : Refusal) → IsAtWorld w self.old.held (H.state host.old)
            → optimize_refused w name.now p q ≡ Some refusal → H.state host.new ≡ H.state host.old }
        ensures still { (w : World) (refusal : Refusal) → IsAtWorld w self.old.held (H.state host.old)
            → optimize_refused w name.now p q ≡ Some refusal
            → Only (H.state host.old).tape (H.state host.new).tape (IsWorld w (H.state host.old).tape.disk.printed) }
        ensures room { (w : World) (d : Dataset) (entry : Entry) (past : List Made) → IsAtWorld w self.old.held (H.state host.old)
            → set_named w name.now ≡ Some d → IsWithin entry past self.old.held
            → MatchResult result (λ made. IsWithin entry (and_made past (BeginPlan d.cvd.number p q) w) self.new.held)
            (IsPlanLack entry past (BeginPlan d.cvd.number p q) w) }
    {
        let planned = match self.plan_for(host, name, p, q) {
            Ok(planned) => planned,
            Err(off) => return Err(self.unplanned(off)),
        };
        let Planned { event, report } = planned;
        match self.record_bare(host, event) {
            Ok(()) => Ok(report),
            Err(off) => Err(unrecorded(off)),
        }
    }
}
