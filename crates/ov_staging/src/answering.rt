//! A change that is asked for, from the read to the reply.

ghost use Rattle.std.specs.Prelude.{◌≡◌, ◌≤◌, ◌+◌, ◌-◌, ◌^◌, min, ℕ, true, None, Some, IfOk, IfErr, OnOk};
ghost use Rattle.ov_core.specs.AtWorld.{IsAtWorld};
ghost use Rattle.ov_core.specs.Held.{IsByJournal};
ghost use Rattle.ov_model.specs.Act.{Session};
ghost use Rattle.ov_model.specs.World.{World, set_named};
ghost use Rattle.ov_model.specs.declared.refusal.Refusal.{Refusal as RefusalValue};
ghost use Rattle.ov_model.specs.declared.reply.Reply.TheVariants as says;
ghost use Rattle.ov_registry.specs.Last.{IsLastDamaged, bytes_in, last_vid, name_of, schema_of};
ghost use Rattle.ov_store.specs.Kept.{MayCall};
ghost use Rattle.ov_store.specs.Scanning.{set_in};
ghost use Rattle.ov_staging.specs.Changing.{IsAnswered, IsDamagedBy, change_deed};
ghost use Rattle.ov_staging.specs.Deciding.{change_of, said_of as said_by, which_of as dataset_of};
ghost use Rattle.ov_staging.specs.Errors.{Acts, IsEnd, IsNoDamage, Stays};
ghost use Rattle.ov_staging.specs.Reading.{foreign_off};

use crate::changing::keep;
use crate::deciding::{Asked, next_of, said_of};
use crate::errors::StagingErr;
use ov_host::Host;
use ov_model::Reply;
use ov_registry::Registry;
use ov_store::Store;
use std::alloc::Global;

/// Reads the last rows of the dataset, and does what they make of the change: its reply is what is said of it, or a refusal, which
/// leaves all as it was.
pub(crate) fn changed<H: Host>(
    alloc: Global,
    store: &mut Store,
    host: &mut H,
    which: Registry,
    asked: Asked,
) -> Result<Reply, StagingErr>
    requires call { MayCall store.old (H.state host.old) }
    requires which { which ≡ dataset_of asked }
    ensures told { (H.state host.new).tells ≡ (H.state host.old).tells }
    ensures kept { (H.state host.new).keeps ≡ (H.state host.old).keeps }
    ensures faults { (H.state host.old).faults ≤ (H.state host.new).faults }
    ensures counted { min (H.state host.old).fetched (2 ^ 64 - 1) ≤ (H.state host.new).fetched }
    ensures fetched { (H.state host.new).fetched ≤ (H.state host.old).fetched
        + (bytes_in (set_in store.old.held.numbers (name_of which)) (last_vid (set_in store.old.held.numbers (name_of which)))
        + bytes_in (set_in store.old.held.numbers (name_of which)) (last_vid (set_in store.old.held.numbers (name_of which)))) }
    ensures unread { (refusal : RefusalValue) → foreign_off (schema_of which) (set_in store.old.held.numbers (name_of which)) ≡ Some refusal
        → (H.state host.new ≡ H.state host.old) × IfOk result (λ reply. reply ≡ says.Refused refusal) }
    ensures done { IfOk result (λ reply. IsAnswered which (set_in store.old.held.numbers (name_of which)) (change_of asked) (said_by asked) reply
        store.old store.new (H.state host.old) (H.state host.new)) }
    ensures why { IfErr result (IsEnd (λ page. (foreign_off (schema_of which) (set_in store.old.held.numbers (name_of which)) ≡ None)
        × IsDamagedBy which (set_in store.old.held.numbers (name_of which)) (change_of asked).rows store.old.held (H.state host.new) page)
        (H.state host.old) (H.state host.new)) }
    ensures whole { (page : ℕ) → (H.state host.old).tells ≡ true
        → OnOk result (foreign_off (schema_of which) (set_in store.old.held.numbers (name_of which)) ≡ None
        → IsLastDamaged (set_in store.old.held.numbers (name_of which)) (H.state host.old) page → ⊥) }
    ensures stays { IfErr result (λ e. Stays e store.old store.new (H.state host.old) (H.state host.new)) }
    ensures usable { OnOk result (MayCall store.new (H.state host.new)) }
    ensures by_journal { IsByJournal store.old.held (H.state host.old) → OnOk result (IsByJournal store.new.held (H.state host.new)) }
    ensures undamaged { (w : World) → IsAtWorld w store.old.held (H.state host.old) → IfErr result IsNoDamage }
    ensures acts { (w : World) (s : Session) → IsAtWorld w store.old.held (H.state host.old)
        → Acts (change_deed w s which (change_of asked) (said_by asked) (set_named w (name_of which))) s w result
        store.old.held store.new.held (H.state host.old) (H.state host.new) }
{
    match next_of(alloc, store, host, which, &asked) {
        Ok(next) => keep(alloc, store, host, which, next, said_of(asked)),
        Err(off) => Err(off),
    }
}
