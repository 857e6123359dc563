// The command that puts a snapshot in the place of the journal's records.
ghost use Rattle.std.specs.Prelude.{◌≡◌, None, IsErrOf, IfOk, IfErr, OnOk};
ghost use Rattle.ov_host.specs.Host.{Rose};
ghost use Rattle.ov_model.specs.Act.{Session, checkpoint_deed};
ghost use Rattle.ov_model.specs.World.{World};
ghost use Rattle.ov_core.specs.AtWorld.{IsAtWorld};
ghost use Rattle.ov_core.specs.Held.{IsByJournal};
ghost use Rattle.law_steps.specs.Turns.{running};
ghost use Rattle.ov_store.specs.Kept.{MayCall};
ghost use Rattle.ov_session.specs.Commands.{Acts, Goes, IfNoFile, IsNoDamage};
ghost use Rattle.ov_session.specs.Standing.{IsAtSilently};

use crate::errors::{EndErr, untaken};
use ov_host::Host;
use ov_model::Reply;
use ov_store::Store;

/// Takes a checkpoint. The reply tells how many datasets are live.
pub fn checkpoint<H: Host>(store: &mut Store, host: &mut H) -> Result<Reply, EndErr>
    requires call { MayCall store.old (H.state host.old) }
    ensures goes { Goes (H.state host.old) (H.state host.new) }
    ensures fetched { (H.state host.new).fetched ≡ (H.state host.old).fetched }
    ensures cause { IsErrOf result EndErr.Host → Rose (H.state host.old).faults (H.state host.new).faults }
    ensures host_alone { IsErrOf result EndErr.Stage → ⊥ }
    ensures undamaged { IfErr result IsNoDamage }
    ensures usable { OnOk result (MayCall store.new (H.state host.new)) }
    ensures begins_none { running store.old.held.numbers ≡ None → OnOk result (running store.new.held.numbers ≡ None) }
    ensures by_journal { IsByJournal store.old.held (H.state host.old) → (IsErrOf result EndErr.Host → ⊥) → IsByJournal store.new.held (H.state host.new) }
    ensures at { (w : World) → IsAtWorld w store.old.held (H.state host.old) → OnOk result (IsAtSilently store.new.held (H.state host.old) (H.state host.new)) }
    ensures seen { IfOk result (IfNoFile ⊥) }
    ensures acts { (w : World) (s : Session) → IsAtWorld w store.old.held (H.state host.old)
        → Acts (checkpoint_deed w s) s s w result store.old.held store.new.held (H.state host.old) (H.state host.new) }
{
    match store.checkpoint(host) {
        Ok(datasets) => Ok(Reply::Checkpoint { datasets }),
        Err(off) => untaken(off),
    }
}
