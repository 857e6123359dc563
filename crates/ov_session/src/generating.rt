// The command that makes a dataset with versions that look random.
ghost use Rattle.std.specs.Prelude.{◌≡◌, ◌≤◌, ◌+◌, ℕ, Some, IsTrue, IsErrOf, IfOk, IfErr, OnOk};
ghost use Rattle.ov_host.specs.Host.{Rose};
ghost use Rattle.ov_value.specs.Naming.{is_name};
ghost use Rattle.ov_model.specs.Act.{Session};
ghost use Rattle.ov_model.specs.Deed.{permitted};
ghost use Rattle.ov_model.specs.World.{World};
ghost use Rattle.ov_model.specs.declared.command.Command.TheVariants as asks;
ghost use Rattle.ov_core.specs.AtWorld.{IsAtWorld};
ghost use Rattle.ov_core.specs.Held.{IsByJournal};
ghost use Rattle.law_steps.specs.Turns.{running};
ghost use Rattle.ov_store.specs.Kept.{MayCall};
ghost use Rattle.ov_store.specs.Refusals.{new_off};
ghost use Rattle.ov_store.specs.declared.errors.StoreErr.{StoreErr as StoreErrValue};
ghost use Rattle.ov_generate.specs.Making.{IsWanted};
ghost use Rattle.ov_generate.specs.Reads.{HasDamagedVersion, HasFetched};
ghost use Rattle.ov_session.specs.Commands.{Acts, Goes, IfNoFile, IsDamageOf, IsNoDamage};
ghost use Rattle.ov_session.specs.Standing.{IsAtSilently};

use crate::errors::{EndErr, refused};
use ov_generate::{Wanted, generate};
use ov_host::Host;
use ov_model::Reply;
use ov_store::Store;
use std::alloc::Global;

/// Makes a dataset with its versions, each a move of its own: those that were made before a refusal or the end of the run stay.
pub fn make_versions<H: Host>(
    alloc: Global,
    store: &mut Store,
    host: &mut H,
    wanted: Wanted,
) -> Result<Reply, EndErr>
    requires call { MayCall store.old (H.state host.old) }
    requires name { IsTrue (is_name wanted.cvd) }
    requires wanted { IsWanted wanted }
    ensures goes { Goes (H.state host.old) (H.state host.new) }
    ensures fetched { HasFetched wanted.cvd wanted.seed wanted.rows wanted.versions store.old.held store.new.held
        (IsErrOf result EndErr.Host) (H.state host.old) (H.state host.new) }
    ensures unread { (off : StoreErrValue) → new_off store.old.held.numbers wanted.cvd ≡ Some off → H.state host.new ≡ H.state host.old }
    ensures cause { IsErrOf result EndErr.Host → Rose (H.state host.old).faults (H.state host.new).faults }
    ensures host_alone { IsErrOf result EndErr.Stage → ⊥ }
    ensures damaged { IfErr result (IsDamageOf (HasDamagedVersion wanted.cvd wanted.seed wanted.rows wanted.versions store.old.held store.new.held
        (H.state host.new))) }
    ensures undamaged { (w : World) → IsAtWorld w store.old.held (H.state host.old) → IfErr result IsNoDamage }
    ensures usable { OnOk result (MayCall store.new (H.state host.new)) }
    ensures begins_none { running store.old.held.numbers ≡ None → OnOk result (running store.new.held.numbers ≡ None) }
    ensures by_journal { IsByJournal store.old.held (H.state host.old) → (IsErrOf result EndErr.Host → ⊥) → IsByJournal store.new.held (H.state host.new) }
    ensures at { (w : World) → IsAtWorld w store.old.held (H.state host.old) → OnOk result (IsAtSilently store.new.held (H.state host.old) (H.state host.new)) }
    ensures seen { IfOk result (IfNoFile ⊥) }
    ensures acts { (w : World) (s : Session) → IsAtWorld w store.old.held (H.state host.old)
        → Acts (permitted w s (asks.Generate wanted.cvd wanted.seed wanted.rows wanted.versions)) s s w result
        store.old.held store.new.held (H.state host.old) (H.state host.new) }
{
    match generate(alloc, store, host, &wanted) {
        Ok(made) => Ok(Reply::Generate {
            cvd: wanted.cvd,
            versions: made.versions,
            records: made.records,
            members: made.members,
        }),
        Err(off) => refused(off, wanted.cvd),
    }
}
