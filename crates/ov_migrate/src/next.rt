//! The next step.

ghost use Rattle.std.specs.Prelude.{◌≡◌, ◌+◌, ◌≤◌, ℕ, None, Ok, Some, true, IfOk, IsErrOf, MatchResult};
ghost use Rattle.ov_host.specs.declared.area.Extent.{Extent};
ghost use Rattle.ov_host.specs.Host.{Rose};
ghost use Rattle.ov_model.specs.World.{World};
ghost use Rattle.ov_catalog.specs.Applying.{first_off, set_numbered};
ghost use Rattle.ov_catalog.specs.Events.{current};
ghost use Rattle.ov_catalog.specs.Numbers.{Numbers};
ghost use Rattle.ov_catalog.specs.Ready.{IsSet};
ghost use Rattle.ov_catalog.specs.Sets.{plan_numbers, set_in};
ghost use Rattle.ov_core.specs.AtWorld.{IsAtWorld};
ghost use Rattle.ov_fetch.specs.Extents.{Looked, page_bytes};
ghost use Rattle.ov_read.specs.OfWorld.{IsSpared};
ghost use Rattle.law_steps.specs.Turns.{IsSeenTurn, running};
ghost use Rattle.ov_migrate.specs.Steps.{IsMove, IsNextOf, IsReady, IsStepOf, IsTested, IsTestedBy, RefusesBy, RefusesStep, event_in};

use crate::picking::picked;
use crate::running::running_of;
use crate::step::Step;
use crate::targets::{Lacking, lacking_of};
use ov_catalog::{Cvd, Plan};
use ov_copies::{Wanted, copy_of};
use ov_core::Core;
use ov_event::Event;
use ov_fetch::FetchErr;
use ov_host::Host;
use std::alloc::Global;

/// A copy brings so many records at most.
const MOST_COPIED: u32 = 256;

/// The next step of the first dataset, in order of creation, that has a running plan; `None` where no plan runs, and then
/// nothing is read. Before each step, a flip too, its target is read and tested.
///
/// `Damaged` only where a list of the target's versions is short, off its grammar or doesn't agree, or a segment that the
/// target keeps is short or off its grammar, with the first page of that; where all of these are whole and don't bear out
/// the target's numbers, with the first page of the list of its least version; or where a record that is to be copied can't
/// be had, as [`copy_of`] says.
///
/// It reads the lists of the target's versions and the segments that it keeps, and for a copy, of the partitions that have the
/// records, the first segments until these are found. Time beside that: by the datasets, the ranges of the lists, and the records of the copy.
pub fn next_step<H: Host>(
    alloc: Global,
    host: &mut H,
    core: &Core,
) -> Result<Option<Step>, FetchErr>
    ensures looked { Looked (H.state host.old) (H.state host.new) }
    ensures cause { IsErrOf result FetchErr.Host → Rose (H.state host.old).faults (H.state host.new).faults }

    // On every host.
    ensures idle { running core.now.numbers ≡ None → H.state host.new ≡ H.state host.old }
    ensures none { running core.now.numbers ≡ None → result ≡ Ok None }
    ensures ready { IfOk result (IsReady core.now.numbers) }

    // Where the host tells its bytes.
    ensures answer { (H.state host.old).tells ≡ true → MatchResult result
        (IsTested (page_bytes (H.state host.old)) core.now.numbers)
        (λ e. RefusesStep e (page_bytes (H.state host.old)) core.now.numbers) }

    // Where the store is at a World.
    ensures world { (w : World) → IsAtWorld w core.now (H.state host.old) → MatchResult result (IsNextOf w) IsSpared }
{
    let catalog = core.catalog();
    core.is_replayed();
    let Some(d) = running_of(catalog) else {
        return Ok(None);
    };
    let Some(plan) = &d.plan else {
        unreachable!();
    };
    // No other dataset has its number.
    catalog.is_apart(&Event::Flip { cvd: d.number });
    let step = step_of(alloc, host, d, plan)?;
    Ok(Some(step))
}

// The next step of a dataset's plan.
fn step_of<H: Host>(alloc: Global, host: &mut H, d: &Cvd, plan: &Plan) -> Result<Step, FetchErr>
    requires set { IsSet d.now }
    requires runs { d.now.plan ≡ Some plan.now }
    requires most { (current (plan_numbers plan.now)).kept_records + plan.now.copied ≤ (current (plan_numbers plan.now)).size }
    ensures looked { Looked (H.state host.old) (H.state host.new) }
    ensures cause { IsErrOf result FetchErr.Host → Rose (H.state host.old).faults (H.state host.new).faults }
    ensures is { IfOk result (IsStepOf (set_in d.now) (plan_numbers plan.now)) }
    ensures applies { IfOk result (λ step. (n : Numbers Extent Extent) → set_numbered d.now.number n ≡ Some (set_in d.now) → (format : ℕ) → first_off format (event_in step) n ≡ None) }
    ensures answer { (H.state host.old).tells ≡ true → MatchResult result
        (IsTestedBy (page_bytes (H.state host.old)) (set_in d.now) (plan_numbers plan.now))
        (λ e. RefusesBy e (page_bytes (H.state host.old)) (set_in d.now) (plan_numbers plan.now)) }
    ensures world { (H.state host.old).tells ≡ true → (w : World) → IsSeenTurn w (page_bytes (H.state host.old)) (set_in d.now)
        → MatchResult result (IsMove w) IsSpared }
{
    let target = &plan.targets.as_slice()[plan.at as usize];
    let Lacking { lists, rids } = lacking_of(alloc, host, d, target)?;
    if plan.copied >= rids.len() {
        return Ok(Step::Flip { cvd: d.number });
    }
    let next = picked(alloc, &rids, plan.copied, MOST_COPIED)?;
    let wanted = Wanted {
        versions: target.versions.as_slice(),
        lists: &lists,
        rids: &next,
    };
    Ok(Step::Copy(copy_of(alloc, host, d, wanted)?))
}
