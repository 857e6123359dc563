// Migration steps: those behind a reply, and those of a `migrate`.
ghost use Rattle.std.specs.Prelude.{◌≡◌, ℕ, true, None, Ok, IsErrOf, IfErr, OnOk, is_ok};
ghost use Rattle.ov_host.specs.Host.{Rose};
ghost use Rattle.ov_core.specs.AtWorld.{IsAtWorld};
ghost use Rattle.ov_core.specs.Held.{IsByJournal};
ghost use Rattle.law_runs.specs.Stepping.{IsStepped};
ghost use Rattle.law_steps.specs.Turns.{running};
ghost use Rattle.ov_model.specs.World.{World};
ghost use Rattle.ov_store.specs.Kept.{MayCall};
ghost use Rattle.ov_session.specs.Commands.{Goes, IsDamageOf, IsNoDamage};
ghost use Rattle.ov_session.specs.Standing.{IsAtSilently};
ghost use Rattle.ov_session.specs.Stepping.{IsRan, IsStep, IsStepDamaged, TakesNoStep, by_step};
ghost use Rattle.ov_session.specs.declared.stepping.Turn.TheVariants as turn;

use crate::errors::EndErr;
use ov_host::Host;
use ov_store::{StepErr, Stepped, Store};

/// What there is no room for.
#[derive(Clone, Copy)]
pub(crate) enum Lack {
    /// A run of so many pages, for the segment of a copy.
    Run { pages: u32 },
    /// The record of the step, in the journal.
    Record,
}

/// What came of a step that was asked for.
#[derive(Clone, Copy)]
pub(crate) enum Turn {
    /// It was taken.
    Taken,
    /// No plan runs.
    Idle,
    /// There is no room for it.
    Lacks(Lack),
}

/// Steps that were taken.
#[derive(Clone, Copy)]
pub(crate) struct Ran {
    /// How many.
    pub(crate) taken: u32,
    /// What the next one lacks room for, where that is why no more were.
    pub(crate) lacks: Option<Lack>,
}

// What a step comes to, or why the run ends.
fn outcome(stepped: Result<Stepped, StepErr>) -> Result<Turn, EndErr>
    ensures { result ≡ by_step stepped }
{
    match stepped {
        Ok(Stepped::Nothing) => Ok(Turn::Idle),
        Ok(Stepped::Copied | Stepped::Flipped | Stepped::Finished) => Ok(Turn::Taken),
        Err(StepErr::Full { pages }) => Ok(Turn::Lacks(Lack::Run { pages })),
        Err(StepErr::JournalFull) => Ok(Turn::Lacks(Lack::Record)),
        Err(StepErr::Host) => Err(EndErr::Host),
        Err(StepErr::Memory) => Err(EndErr::Memory),
        Err(StepErr::Damaged { area, at }) => Err(EndErr::Damaged { area, at }),
    }
}

// Takes the next step, where a plan runs and there is room for it.
fn take_step<H: Host>(store: &mut Store, host: &mut H) -> Result<Turn, EndErr>
    requires call { MayCall store.old (H.state host.old) }
    ensures goes { Goes (H.state host.old) (H.state host.new) }
    ensures cause { IsErrOf result EndErr.Host → Rose (H.state host.old).faults (H.state host.new).faults }
    ensures host_alone { IsErrOf result EndErr.Stage → ⊥ }
    ensures none { running store.old.held.numbers ≡ None
        → (result ≡ Ok turn.Idle) × (store.new ≡ store.old) × (H.state host.new ≡ H.state host.old) }
    ensures damaged { IfErr result (IsDamageOf (IsStepDamaged 1 store.new.held (H.state host.new))) }
    ensures undamaged { (w : World) → IsAtWorld w store.old.held (H.state host.old) → IfErr result IsNoDamage }
    ensures usable { OnOk result (MayCall store.new (H.state host.new)) }
    ensures by_journal { IsByJournal store.old.held (H.state host.old) → (IsErrOf result EndErr.Host → ⊥) → IsByJournal store.new.held (H.state host.new) }
    ensures step { (w : World) → IsAtWorld w store.old.held (H.state host.old)
        → IsStep w result store.old.held store.new.held (H.state host.old) (H.state host.new) }
{
    outcome(store.step(host))
}

/// Takes up to so many migration steps, until no plan runs or there is no room for the next one.
///
/// `Host`, `Memory` and `Damaged` by a step end it; the steps before stay. It costs what its steps cost.
pub(crate) fn run_steps<H: Host>(store: &mut Store, host: &mut H, count: u32) -> Result<Ran, EndErr>
    requires call { MayCall store.old (H.state host.old) }
    ensures goes { Goes (H.state host.old) (H.state host.new) }
    ensures cause { IsErrOf result EndErr.Host → Rose (H.state host.old).faults (H.state host.new).faults }
    ensures host_alone { IsErrOf result EndErr.Stage → ⊥ }
    ensures none { TakesNoStep count store.old.held.numbers → (result ≡ Ok (record { taken = 0; lacks = None }))
        × (store.new ≡ store.old) × (H.state host.new ≡ H.state host.old) }
    ensures damaged { IfErr result (IsDamageOf (IsStepDamaged count store.new.held (H.state host.new))) }
    ensures undamaged { (w : World) → IsAtWorld w store.old.held (H.state host.old) → IfErr result IsNoDamage }
    ensures usable { OnOk result (MayCall store.new (H.state host.new)) }
    ensures by_journal { IsByJournal store.old.held (H.state host.old) → (IsErrOf result EndErr.Host → ⊥) → IsByJournal store.new.held (H.state host.new) }
    ensures ran { (w : World) → IsAtWorld w store.old.held (H.state host.old)
        → IsRan count w result store.old.held store.new.held (H.state host.old) (H.state host.new) }
{
    let mut taken = 0;
    while taken < count {
        match take_step(store, host)? {
            Turn::Taken => taken += 1,
            Turn::Idle => return Ok(Ran { taken, lacks: None }),
            Turn::Lacks(lack) => {
                return Ok(Ran {
                    taken,
                    lacks: Some(lack),
                });
            }
        }
    }
    Ok(Ran { taken, lacks: None })
}

/// Takes up to so many migration steps behind a reply, which say nothing.
pub(crate) fn take_steps<H: Host>(store: &mut Store, host: &mut H, steps: u32) -> Result<(), EndErr>
    requires call { MayCall store.old (H.state host.old) }
    ensures goes { Goes (H.state host.old) (H.state host.new) }
    ensures cause { IsErrOf result EndErr.Host → Rose (H.state host.old).faults (H.state host.new).faults }
    ensures host_alone { IsErrOf result EndErr.Stage → ⊥ }
    ensures none { TakesNoStep steps store.old.held.numbers
        → (is_ok result ≡ true) × (store.new ≡ store.old) × (H.state host.new ≡ H.state host.old) }
    ensures damaged { IfErr result (IsDamageOf (IsStepDamaged steps store.new.held (H.state host.new))) }
    ensures undamaged { (w : World) → IsAtWorld w store.old.held (H.state host.old) → IfErr result IsNoDamage }
    ensures usable { OnOk result (MayCall store.new (H.state host.new)) }
    ensures by_journal { IsByJournal store.old.held (H.state host.old) → (IsErrOf result EndErr.Host → ⊥) → IsByJournal store.new.held (H.state host.new) }
    ensures at { (w : World) → IsAtWorld w store.old.held (H.state host.old) → OnOk result (IsAtSilently store.new.held (H.state host.old) (H.state host.new)) }
    ensures stepped { (w : World) → IsAtWorld w store.old.held (H.state host.old)
        → IsStepped steps w (is_ok result) store.old.held store.new.held (H.state host.old) (H.state host.new) }
{
    run_steps(store, host, steps)?;
    Ok(())
}
