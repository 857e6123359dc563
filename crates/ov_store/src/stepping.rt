// Migration steps.

ghost use Rattle.std.specs.Prelude.{◌≡◌, ◌≤◌, ◌+◌, ◌-◌, ◌^◌, min, ℕ, List, true, false, None, Some, Ok, IfOk, IfErr, IsErrOf, MatchResult, OnOk, length};
ghost use Rattle.ov_host.specs.Stops.{Only};
ghost use Rattle.ov_model.specs.Moves.{Move, moved};
ghost use Rattle.ov_model.specs.Steps.{next_step as next_step_of};
ghost use Rattle.ov_model.specs.World.{World};
ghost use Rattle.ov_catalog.specs.Sets.{plan_numbers};
ghost use Rattle.ov_catalog.specs.Steps.{steps_left};
ghost use Rattle.ov_core.specs.AtWorld.{IsAtNext, IsAtWorld, IsEither};
ghost use Rattle.ov_core.specs.Brought.{Asks};
ghost use Rattle.ov_core.specs.Held.{IsByJournal};
ghost use Rattle.ov_core.specs.Rooms.{IsRecorded, IsWhyNotRecorded};
ghost use Rattle.ov_catalog.specs.Applying.{first_off};
ghost use Rattle.ov_event.specs.Spelling.{spelling};
ghost use Rattle.ov_event.specs.declared.event.Event.TheVariants as says;
ghost use Rattle.ov_journal.specs.Held.{Passes};
ghost use Rattle.ov_fetch.specs.Extents.{Looked, page_bytes};
ghost use Rattle.ov_host.specs.Host.{Rose};
ghost use Rattle.ov_migrate.specs.Steps.{IsNextOf, IsReady, IsTested, RefusesStep};
ghost use Rattle.ov_read.specs.OfWorld.{IsSpared};
ghost use Rattle.law_steps.specs.Turns.{running};
ghost use Rattle.law_room.specs.Room.{Entry, IsWithin, Made};
ghost use Rattle.ov_store.specs.Kept.{MayCall};
ghost use Rattle.ov_store.specs.Stepping.{IsAnswer, IsStepLack, IsStepped, IsStepSpared, IsUnstepped, IsWanting, ends, flip_answer as flip_answer_by, is_last as is_last_by};
ghost use Rattle.ov_store.specs.Worlds.{and_made};
ghost use Rattle.ov_store.specs.declared.step_errors.StepErr.TheVariants as why;
ghost use Rattle.ov_store.specs.declared.stepping.Stepped.TheVariants as stepped;

use crate::step_errors::StepErr;
use crate::store::Store;
use ov_catalog::Plan;
use ov_core::ChangeErr;
use ov_event::Event;
use ov_fetch::FetchErr;
use ov_host::Host;
use ov_migrate::{Step, next_step};

/// What a migration step did.
#[derive(Clone, Copy, PartialEq, Eq)]
pub enum Stepped {
    /// No plan runs, and nothing was done.
    Nothing,
    /// The current target of a plan took its next records.
    Copied,
    /// A plan's target became a partition, and the next one follows.
    Flipped,
    /// So did a plan's last target, and the plan ended.
    Finished,
}

// Whether a plan has one target left.
fn is_last(plan: &Plan) -> bool
    ensures { result ≡ is_last_by (Some (plan_numbers plan.now)) }
{
    let next = plan.at as usize + 1;
    next >= plan.targets.len()
}

impl Store {
    // Whether the plan whose turn it is has one target left.
    fn is_at_last(&self) -> bool
        ensures { result ≡ ends self.now.held.numbers }
    {
        let sets = self.core.catalog().cvds();
        for d in sets {
            if let Some(plan) = &d.plan {
                return is_last(plan);
            }
        }
        false
    }

    // How the flip is answered that is next.
    fn flip_answer(&self) -> Stepped
        ensures { result ≡ flip_answer_by (ends self.now.held.numbers) }
    {
        if self.is_at_last() {
            Stepped::Finished
        } else {
            Stepped::Flipped
        }
    }

    // The step that is next, ready to be taken.
    fn step_for<H: Host>(&self, host: &mut H) -> Result<Option<Step>, FetchErr>
        ensures looked { Looked (H.state host.old) (H.state host.new) }
        ensures cause { IsErrOf result FetchErr.Host → Rose (H.state host.old).faults (H.state host.new).faults }
        ensures ready { IfOk result (IsReady self.now.held.numbers) }
        ensures idle { running self.now.held.numbers ≡ None → H.state host.new ≡ H.state host.old }
        ensures none { running self.now.held.numbers ≡ None → result ≡ Ok None }
        ensures answer { (H.state host.old).tells ≡ true → MatchResult result
            (IsTested (page_bytes (H.state host.old)) self.now.held.numbers) (λ e. RefusesStep e (page_bytes (H.state host.old)) self.now.held.numbers) }
        ensures world { (w : World) → IsAtWorld w self.now.held (H.state host.old) → MatchResult result (IsNextOf w) IsSpared }
    {
        next_step(self.alloc, host, &self.core)
    }

    // Records the flip of the current target of the dataset with this number.
    fn record_flip<H: Host>(&mut self, host: &mut H, cvd: u32) -> Result<(), ChangeErr>
        requires call { MayCall self.old (H.state host.old) }
        requires applies { first_off self.old.held.journal.format (says.Flip cvd) self.old.held.numbers ≡ None }
        ensures passes { Passes (H.state host.old) (H.state host.new) }
        ensures made { OnOk result (IsRecorded self.old.held self.new.held (says.Flip cvd)) }
        ensures why { IfErr result (λ off. IsWhyNotRecorded off self.old.held (says.Flip cvd) (H.state host.old) (H.state host.new)) }
        ensures same { IfErr result (λ off. (off ≡ ChangeErr.Host → ⊥) → self.new ≡ self.old) }
        ensures untouched { IfErr result (λ off. (off ≡ ChangeErr.Host → ⊥) → H.state host.new ≡ H.state host.old) }
        ensures usable { OnOk result (MayCall self.new (H.state host.new)) }
        ensures unusable { IsErrOf result ChangeErr.Host → self.new.usable ≡ false }
        ensures stops { (w : World) (m : Move) → IsAtWorld w self.old.held (H.state host.old) → Asks m w (says.Flip cvd)
            → Only (H.state host.old).tape (H.state host.new).tape (IsEither w (moved m w) (H.state host.old).tape.disk.printed) }
        ensures moves { (w : World) (m : Move) → IsAtWorld w self.old.held (H.state host.old) → Asks m w (says.Flip cvd)
            → OnOk result (IsAtNext (moved m w) self.new.held (H.state host.old) (H.state host.new)) }
        ensures grows { (w : World) → IsAtWorld w self.old.held (H.state host.old)
            → OnOk result (self.new.held.journal.end ≤ self.old.held.journal.end + 6 + length (spelling (says.Flip cvd))) }
        ensures by_journal { IsByJournal self.old.held (H.state host.old) → OnOk result (IsByJournal self.new.held (H.state host.new)) }
    {
        self.record_bare(host, Event::Flip { cvd })
    }

    // Why no step is ready. After a fault of the host the store isn't used again.
    fn unready_step(&mut self, off: StepErr) -> StepErr
        ensures answer { result ≡ off }
        ensures same { (off ≡ why.Host → ⊥) → self.new ≡ self.old }
        ensures unusable { off ≡ why.Host → self.new.usable ≡ false }
    {
        if off == StepErr::Host {
            self.usable = false;
        }
        off
    }

    /// Takes the next migration step: of the first dataset, in order of creation, in which a plan runs. While the plan's current
    /// target lacks records, that is a copy of the next 256 of them, or of all that are left; then it is the target's flip.
    ///
    /// `Nothing` where no plan runs, and nothing is read then. `Damaged` where a list or a segment of the target is damaged or
    /// doesn't bear out its numbers; `Full`, which only a copy can be; `JournalFull`. All memory is taken before the first write.
    ///
    /// A step costs the pages of the lists of the target's versions, of the segments that it keeps, and, for a copy, of the
    /// partitions that have its records, the pages of the first segments until these are found; the writes of a copy's segment and of its record; and its syncs, three or two.
    pub fn step<H: Host>(&mut self, host: &mut H) -> Result<Stepped, StepErr>
        requires call { MayCall self.old (H.state host.old) }
        ensures told { (H.state host.new).tells ≡ (H.state host.old).tells }
        ensures kept { (H.state host.new).keeps ≡ (H.state host.old).keeps }
        ensures faults { (H.state host.old).faults ≤ (H.state host.new).faults }
        ensures counted { min (H.state host.old).fetched (2 ^ 64 - 1) ≤ (H.state host.new).fetched }
        ensures idle { running self.old.held.numbers ≡ None
            → (result ≡ Ok stepped.Nothing) × (self.new ≡ self.old) × (H.state host.new ≡ H.state host.old) }
        ensures nothing { IfOk result (λ s. s ≡ stepped.Nothing → running self.old.held.numbers ≡ None) }
        ensures done { IfOk result (IsStepped (H.state host.old) self.old.held self.new.held) }
        ensures why { IfErr result (IsUnstepped self.old.held (H.state host.old) (H.state host.new)) }
        ensures stays { IfErr result (λ off. (off ≡ StepErr.Host → ⊥) → (self.new ≡ self.old) × Looked (H.state host.old) (H.state host.new)) }
        ensures usable { OnOk result (MayCall self.new (H.state host.new)) }
        ensures by_journal { IsByJournal self.old.held (H.state host.old) → OnOk result (IsByJournal self.new.held (H.state host.new)) }
        ensures unusable { IsErrOf result StepErr.Host → self.new.usable ≡ false }

        // Where the store is at a World: a stop at any moment, the step that was taken, how it is answered, and why none was.
        ensures stops { (w : World) (m : Move) → IsAtWorld w self.old.held (H.state host.old) → next_step_of w ≡ Some m
            → Only (H.state host.old).tape (H.state host.new).tape (IsEither w (moved m w) (H.state host.old).tape.disk.printed) }
        ensures moves { (w : World) (m : Move) → IsAtWorld w self.old.held (H.state host.old) → next_step_of w ≡ Some m
            → OnOk result (IsAtNext (moved m w) self.new.held (H.state host.old) (H.state host.new)) }
        ensures stepped { (w : World) → IsAtWorld w self.old.held (H.state host.old) → IfOk result (IsAnswer w (next_step_of w)) }
        ensures spared { (w : World) → IsAtWorld w self.old.held (H.state host.old) → IfErr result IsStepSpared }

        // Each step leaves one step less; where none is next there is nothing to refuse; and the room that is taken.
        ensures fewer { (w : World) → IsAtWorld w self.old.held (H.state host.old) → IfOk result
            (λ s. (s ≡ stepped.Nothing → ⊥) → steps_left self.new.held.numbers + 1 ≡ steps_left self.old.held.numbers) }
        ensures begins_none { (w : World) → IsAtWorld w self.old.held (H.state host.old) → IfErr result (IsWanting w) }
        ensures room { (w : World) (m : Move) (entry : Entry) (past : List Made) → IsAtWorld w self.old.held (H.state host.old)
            → next_step_of w ≡ Some m → IsWithin entry past self.old.held
            → MatchResult result (λ s. IsWithin entry (and_made past m w) self.new.held) (IsStepLack entry past m w) }
    {
        let step = match self.step_for(host) {
            Ok(step) => step,
            Err(off) => return Err(self.unready_step(StepErr::from(off))),
        };
        match step {
            None => Ok(Stepped::Nothing),
            Some(Step::Copy(brought)) => match self.bring(host, brought) {
                Ok(()) => Ok(Stepped::Copied),
                Err(off) => Err(StepErr::from(off)),
            },
            Some(Step::Flip { cvd }) => {
                let answer = self.flip_answer();
                match self.record_flip(host, cvd) {
                    Ok(()) => Ok(answer),
                    Err(off) => Err(StepErr::from(off)),
                }
            }
        }
    }
}
