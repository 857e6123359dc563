// The commands of a storage budget.
ghost use Rattle.std.specs.Prelude.{◌≡◌, ◌≤◌, ◌+◌, ℕ, true, Some, IsErrOf, IfOk, IfErr, OnOk, is_some};
ghost use Rattle.ov_host.specs.Host.{Rose};
ghost use Rattle.ov_model.specs.Act.{Session, tells};
ghost use Rattle.ov_model.specs.Budget.{advise_deed};
ghost use Rattle.ov_model.specs.Deed.{permitted};
ghost use Rattle.ov_model.specs.World.{World, set_named};
ghost use Rattle.ov_model.specs.declared.command.Command.TheVariants as asks;
ghost use Rattle.ov_core.specs.AtWorld.{IsAtWorld};
ghost use Rattle.ov_core.specs.Held.{IsByJournal};
ghost use Rattle.ov_fetch.specs.Extents.{Looked};
ghost use Rattle.ov_store.specs.Kept.{MayCall};
ghost use Rattle.ov_store.specs.Scanning.{set_in};
ghost use Rattle.ov_choose.specs.Choices.{advise_off, within_off};
ghost use Rattle.ov_choose.specs.declared.errors.ChooseErr.{ChooseErr as ChooseErrValue};
ghost use Rattle.ov_session.specs.Bounds.{advise_fetch, within_fetch};
ghost use Rattle.ov_session.specs.Commands.{Acts, AreListsDamaged, Goes, IfDamaged, IfNoFile, IsAdviceDamaged, IsDamageOf, IsNoDamage, IsWithinDamaged};
ghost use Rattle.ov_session.specs.Standing.{Idle, IsAtSilently};

use crate::errors::{EndErr, choose_refused};
use ov_choose::{advise as advice_on, optimize_within as begin_within};
use ov_host::Host;
use ov_model::Reply;
use ov_store::Store;
use ov_value::Txt;
use std::alloc::Global;

/// Begins the plan of the cheapest one of a hundred thresholds that stores at most so many records as the budget says. The reply tells
/// what each of them comes to, and what will stand once the plan's steps are taken.
pub fn optimize_within<H: Host>(
    alloc: Global,
    store: &mut Store,
    host: &mut H,
    cvd: Txt,
    budget: u64,
) -> Result<Reply, EndErr>
    requires call { MayCall store.old (H.state host.old) }
    ensures goes { Goes (H.state host.old) (H.state host.new) }
    ensures fetched { (H.state host.new).fetched ≤ (H.state host.old).fetched + within_fetch store.old.held.numbers cvd }
    ensures unread { (off : ChooseErrValue) → within_off (set_in store.old.held.numbers cvd) ≡ Some off → H.state host.new ≡ H.state host.old }
    ensures cause { IsErrOf result EndErr.Host → Rose (H.state host.old).faults (H.state host.new).faults }
    ensures host_alone { IsErrOf result EndErr.Stage → ⊥ }
    ensures damaged { IfErr result (IsDamageOf (IsWithinDamaged cvd store.old.held (H.state host.new))) }
    ensures whole { (page : ℕ) → (H.state host.old).tells ≡ true → OnOk result (AreListsDamaged cvd store.old.held (H.state host.old) page → ⊥) }
    ensures undamaged { (w : World) → IsAtWorld w store.old.held (H.state host.old) → IfErr result IsNoDamage }
    ensures usable { OnOk result (MayCall store.new (H.state host.new)) }
    ensures begins_none { is_some (within_off (set_in store.old.held.numbers cvd)) ≡ true → OnOk result (store.new ≡ store.old) }
    ensures by_journal { IsByJournal store.old.held (H.state host.old) → (IsErrOf result EndErr.Host → ⊥) → IsByJournal store.new.held (H.state host.new) }
    ensures at { (w : World) → IsAtWorld w store.old.held (H.state host.old) → OnOk result (IsAtSilently store.new.held (H.state host.old) (H.state host.new)) }
    ensures seen { IfOk result (IfNoFile ⊥) }
    ensures idle { IfErr result (IfDamaged (Idle store.old store.new (H.state host.old) (H.state host.new))) }
    ensures acts { (w : World) (s : Session) → IsAtWorld w store.old.held (H.state host.old)
        → Acts (permitted w s (asks.OptimizeWithin cvd budget)) s s w result store.old.held store.new.held (H.state host.old) (H.state host.new) }
{
    match begin_within(alloc, store, host, cvd.as_str(), budget) {
        Ok(chosen) => Ok(Reply::Within {
            lines: chosen.lines,
            chosen: chosen.p,
            depth: chosen.report.depth,
            partitions: chosen.report.partitions,
            stored: chosen.report.stored,
            records: chosen.report.records,
            members: chosen.report.members,
            cost: chosen.report.cost,
            steps: chosen.report.steps,
        }),
        Err(off) => choose_refused(off, cvd, budget),
    }
}

/// Whether an optimize within the budget is worth it: whether the present cost is over a / b of the best one. Nothing is changed.
pub fn advise<H: Host>(
    alloc: Global,
    store: &Store,
    host: &mut H,
    cvd: Txt,
    budget: u64,
    a: u64,
    b: u64,
) -> Result<Reply, EndErr>
    requires usable { store.now.usable ≡ true }
    ensures looked { Looked (H.state host.old) (H.state host.new) }
    ensures fetched { (H.state host.new).fetched ≤ (H.state host.old).fetched + advise_fetch store.now.held.numbers cvd a b }
    ensures unread { (off : ChooseErrValue) → advise_off a b (set_in store.now.held.numbers cvd) ≡ Some off → H.state host.new ≡ H.state host.old }
    ensures cause { IsErrOf result EndErr.Host → Rose (H.state host.old).faults (H.state host.new).faults }
    ensures host_alone { IsErrOf result EndErr.Stage → ⊥ }
    ensures damaged { IfErr result (IsDamageOf (IsAdviceDamaged cvd a b store.now.held (H.state host.new))) }
    ensures whole { (page : ℕ) → (H.state host.old).tells ≡ true → OnOk result (IsAdviceDamaged cvd a b store.now.held (H.state host.old) page → ⊥) }
    ensures undamaged { (w : World) → IsAtWorld w store.now.held (H.state host.old) → IfErr result IsNoDamage }
    ensures seen { IfOk result (IfNoFile ⊥) }
    ensures told { (w : World) (s : Session) → IsAtWorld w store.now.held (H.state host.old)
        → IfOk result (λ reply. advise_deed s cvd budget a b (set_named w cvd) ≡ tells s reply) }
{
    match advice_on(alloc, store, host, cvd.as_str(), budget, a, b) {
        Ok(advice) => Ok(Reply::Advise {
            cost: advice.cost,
            best: advice.best,
            optimize: advice.worth,
        }),
        Err(off) => choose_refused(off, cvd, budget),
    }
}
