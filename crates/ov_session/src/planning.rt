// The commands of storage migration.
ghost use Rattle.std.specs.Prelude.{◌≡◌, ◌≤◌, ◌+◌, ℕ, true, None, Some, Ok, IsErrOf, IfOk, IfErr, OnOk, is_some};
ghost use Rattle.ov_host.specs.Host.{Rose};
ghost use Rattle.ov_model.specs.Act.{Session};
ghost use Rattle.ov_model.specs.Deed.{permitted};
ghost use Rattle.ov_model.specs.World.{World};
ghost use Rattle.ov_model.specs.declared.command.Command.TheVariants as asks;
ghost use Rattle.ov_model.specs.declared.reply.Reply.TheVariants as says;
ghost use Rattle.ov_core.specs.AtWorld.{IsAtWorld};
ghost use Rattle.ov_core.specs.Held.{IsByJournal};
ghost use Rattle.law_steps.specs.Turns.{running};
ghost use Rattle.ov_store.specs.Kept.{MayCall};
ghost use Rattle.ov_store.specs.Planning.{optimize_off};
ghost use Rattle.ov_store.specs.declared.plan_errors.PlanErr.{PlanErr as PlanErrValue};
ghost use Rattle.ov_session.specs.Bounds.{plan_fetch};
ghost use Rattle.ov_session.specs.Commands.{Acts, Goes, IfDamaged, IfNoFile, IsDamageOf, IsNoDamage, IsPlanDamaged};
ghost use Rattle.ov_session.specs.Standing.{Idle, IsAtSilently};
ghost use Rattle.ov_session.specs.Stepping.{IsStepDamaged, TakesNoStep, migrated};

use crate::errors::{EndErr, plan_refused};
use crate::stepping::{Lack, Ran, run_steps};
use ov_host::Host;
use ov_model::{Refusal, Reply};
use ov_store::Store;
use ov_value::Txt;

/// Begins a plan at the threshold p / q. The reply tells what will stand once its steps are taken.
pub fn optimize<H: Host>(
    store: &mut Store,
    host: &mut H,
    cvd: Txt,
    p: u64,
    q: u64,
) -> Result<Reply, EndErr>
    requires call { MayCall store.old (H.state host.old) }
    ensures goes { Goes (H.state host.old) (H.state host.new) }
    ensures fetched { (H.state host.new).fetched ≤ (H.state host.old).fetched + plan_fetch store.old.held.numbers cvd p q }
    ensures unread { (off : PlanErrValue) → optimize_off store.old.held.numbers cvd p q ≡ Some off → H.state host.new ≡ H.state host.old }
    ensures cause { IsErrOf result EndErr.Host → Rose (H.state host.old).faults (H.state host.new).faults }
    ensures host_alone { IsErrOf result EndErr.Stage → ⊥ }
    ensures damaged { IfErr result (IsDamageOf (IsPlanDamaged cvd p q store.old.held (H.state host.new))) }
    ensures whole { (page : ℕ) → (H.state host.old).tells ≡ true → OnOk result (IsPlanDamaged cvd p q store.old.held (H.state host.old) page → ⊥) }
    ensures undamaged { (w : World) → IsAtWorld w store.old.held (H.state host.old) → IfErr result IsNoDamage }
    ensures usable { OnOk result (MayCall store.new (H.state host.new)) }
    ensures begins_none { is_some (optimize_off store.old.held.numbers cvd p q) ≡ true → OnOk result (store.new ≡ store.old) }
    ensures by_journal { IsByJournal store.old.held (H.state host.old) → (IsErrOf result EndErr.Host → ⊥) → IsByJournal store.new.held (H.state host.new) }
    ensures at { (w : World) → IsAtWorld w store.old.held (H.state host.old) → OnOk result (IsAtSilently store.new.held (H.state host.old) (H.state host.new)) }
    ensures seen { IfOk result (IfNoFile ⊥) }
    ensures idle { IfErr result (IfDamaged (Idle store.old store.new (H.state host.old) (H.state host.new))) }
    ensures acts { (w : World) (s : Session) → IsAtWorld w store.old.held (H.state host.old)
        → Acts (permitted w s (asks.Optimize cvd p q)) s s w result store.old.held store.new.held (H.state host.old) (H.state host.new) }
{
    match store.optimize(host, cvd.as_str(), p, q) {
        Ok(report) => Ok(Reply::Optimize {
            depth: report.depth,
            partitions: report.partitions,
            stored: report.stored,
            records: report.records,
            members: report.members,
            cost: report.cost,
            steps: report.steps,
        }),
        Err(off) => plan_refused(off, cvd),
    }
}

// What a `migrate` tells of its steps: a refusal where there is no room for the next one.
fn told(ran: Ran, left: u64) -> Reply
    ensures { result ≡ migrated ran left }
{
    let steps = Some((ran.taken, left));
    match ran.lacks {
        None => Reply::Migrate {
            taken: ran.taken,
            left,
        },
        Some(Lack::Run { pages }) => Reply::Refused(Refusal::NoRun {
            pages: u64::from(pages),
            steps,
        }),
        Some(Lack::Record) => Reply::Refused(Refusal::JournalFull { steps }),
    }
}

/// Takes up to so many migration steps, until no plan runs. A step for which there is no room ends it: the refusal tells the steps
/// taken and those left. The steps before a refusal or the end of the run stay.
pub fn migrate<H: Host>(store: &mut Store, host: &mut H, count: u32) -> Result<Reply, EndErr>
    requires call { MayCall store.old (H.state host.old) }
    ensures goes { Goes (H.state host.old) (H.state host.new) }
    ensures none { running store.old.held.numbers ≡ None
        → (result ≡ Ok (says.Migrate 0 0)) × (store.new ≡ store.old) × (H.state host.new ≡ H.state host.old) }
    ensures unread { TakesNoStep count store.old.held.numbers → H.state host.new ≡ H.state host.old }
    ensures cause { IsErrOf result EndErr.Host → Rose (H.state host.old).faults (H.state host.new).faults }
    ensures host_alone { IsErrOf result EndErr.Stage → ⊥ }
    ensures damaged { IfErr result (IsDamageOf (IsStepDamaged count store.new.held (H.state host.new))) }
    ensures undamaged { (w : World) → IsAtWorld w store.old.held (H.state host.old) → IfErr result IsNoDamage }
    ensures usable { OnOk result (MayCall store.new (H.state host.new)) }
    ensures by_journal { IsByJournal store.old.held (H.state host.old) → (IsErrOf result EndErr.Host → ⊥) → IsByJournal store.new.held (H.state host.new) }
    ensures at { (w : World) → IsAtWorld w store.old.held (H.state host.old) → OnOk result (IsAtSilently store.new.held (H.state host.old) (H.state host.new)) }
    ensures seen { IfOk result (IfNoFile ⊥) }
    ensures acts { (w : World) (s : Session) → IsAtWorld w store.old.held (H.state host.old)
        → Acts (permitted w s (asks.Migrate count)) s s w result store.old.held store.new.held (H.state host.old) (H.state host.new) }
{
    let ran = run_steps(store, host, count)?;
    Ok(told(ran, store.catalog().steps_left()))
}
