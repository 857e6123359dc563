//! A change of a dataset of the registry, and the reply to it.

ghost use Rattle.std.specs.Prelude.{◌≡◌, ◌≤◌, ◌+◌, ◌-◌, ◌^◌, min, [], false, None, Ok, IfOk, IfErr, IsErrOf, OnOk};
ghost use Rattle.ov_core.specs.AtWorld.{IsAtWorld};
ghost use Rattle.ov_core.specs.Held.{IsByJournal};
ghost use Rattle.ov_host.specs.Host.{State};
ghost use Rattle.ov_model.specs.Act.{Session, repeated_key};
ghost use Rattle.ov_model.specs.Deed.{changes};
ghost use Rattle.ov_model.specs.World.{World, set_named};
ghost use Rattle.ov_model.specs.declared.refusal.Refusal.{Refusal as RefusalValue};
ghost use Rattle.ov_model.specs.declared.reply.Reply.TheVariants as says;
ghost use Rattle.ov_registry.specs.Last.{bytes_in, is_foreign_in, last_vid, name_of, schema_of};
ghost use Rattle.ov_store.specs.Kept.{MayCall};
ghost use Rattle.ov_store.specs.Scanning.{set_in};
ghost use Rattle.ov_staging.specs.Changing.{AreRowsDamaged, IfNext, IsChangedAs, IsKeptBy, IsNextDamaged, next_deed};
ghost use Rattle.ov_staging.specs.Errors.{Acts, IsEnd, IsNoDamage, Stays};
ghost use Rattle.ov_staging.specs.declared.changing.Next.TheVariants as comes;

use crate::errors::{StagingErr, refused};
use ov_host::Host;
use ov_model::{Refusal, Reply};
use ov_registry::{Registry, change};
use ov_store::Store;
use ov_value::{Row, Txt};
use std::alloc::{AllocError, Global};

/// What a command makes of the last rows of its dataset.
#[derive(Drop)]
pub enum Next {
    /// It is refused by them.
    Refused(Refusal),
    /// These come in their place.
    Rows(Vec<Row>),
}

// The name of a dataset, for a refusal that names it.
fn name_in(alloc: Global, which: Registry) -> Result<Txt, AllocError>
    ensures { IfOk result (λ name. name ≡ name_of which) }
{
    match which {
        Registry::Users => Txt::new(alloc, "orpheus_users"),
        Registry::Stage => Txt::new(alloc, "orpheus_stage"),
    }
}

// Changes a dataset to these rows, which have no key twice; the reply is `said`, or the store's refusal, which names the dataset.
fn change_named<H: Host>(
    alloc: Global,
    store: &mut Store,
    host: &mut H,
    which: Registry,
    rows: &[Row],
    name: Txt,
    said: Reply,
) -> Result<Reply, StagingErr>
    requires call { MayCall store.old (H.state host.old) }
    requires own { is_foreign_in (schema_of which) (set_in store.old.held.numbers (name_of which)) ≡ false }
    requires once { repeated_key (schema_of which) [] 1 rows.now ≡ None }
    requires name { name ≡ name_of which }
    ensures told { (H.state host.new).tells ≡ (H.state host.old).tells }
    ensures kept { (H.state host.new).keeps ≡ (H.state host.old).keeps }
    ensures faults { (H.state host.old).faults ≤ (H.state host.new).faults }
    ensures counted { min (H.state host.old).fetched (2 ^ 64 - 1) ≤ (H.state host.new).fetched }
    ensures fetched { (H.state host.new).fetched ≤ (H.state host.old).fetched
        + bytes_in (set_in store.old.held.numbers (name_of which)) (last_vid (set_in store.old.held.numbers (name_of which))) }
    ensures done { IfOk result (λ reply. IsChangedAs which (set_in store.old.held.numbers (name_of which)) rows.now said reply
        store.old store.new (H.state host.old) (H.state host.new)) }
    ensures why { IfErr result (IsEnd (AreRowsDamaged which (set_in store.old.held.numbers (name_of which)) rows.now store.old.held (H.state host.old))
        (H.state host.old) (H.state host.new)) }
    ensures stays { IfErr result (λ e. Stays e store.old store.new (H.state host.old) (H.state host.new)) }
    ensures usable { OnOk result (MayCall store.new (H.state host.new)) }
    ensures by_journal { IsByJournal store.old.held (H.state host.old) → OnOk result (IsByJournal store.new.held (H.state host.new)) }
    ensures undamaged { (w : World) → IsAtWorld w store.old.held (H.state host.old) → IfErr result IsNoDamage }
    ensures acts { (w : World) (s : Session) → IsAtWorld w store.old.held (H.state host.old)
        → Acts (changes w s s (name_of which) (schema_of which) rows.now said (set_named w (name_of which))) s w result
        store.old.held store.new.held (H.state host.old) (H.state host.new) }
{
    match change(alloc, store, host, which, rows) {
        Ok(()) => Ok(said),
        Err(off) => refused(off, name),
    }
}

/// Does what comes next: nothing where that is a refusal, which is the reply, and else the change, whose reply is `said`.
pub(crate) fn keep<H: Host>(
    alloc: Global,
    store: &mut Store,
    host: &mut H,
    which: Registry,
    next: Next,
    said: Reply,
) -> Result<Reply, StagingErr>
    requires call { MayCall store.old (H.state host.old) }
    requires own { IfNext (λ rows. is_foreign_in (schema_of which) (set_in store.old.held.numbers (name_of which)) ≡ false) next }
    requires once { IfNext (λ rows. repeated_key (schema_of which) [] 1 rows ≡ None) next }
    ensures told { (H.state host.new).tells ≡ (H.state host.old).tells }
    ensures kept { (H.state host.new).keeps ≡ (H.state host.old).keeps }
    ensures faults { (H.state host.old).faults ≤ (H.state host.new).faults }
    ensures counted { min (H.state host.old).fetched (2 ^ 64 - 1) ≤ (H.state host.new).fetched }
    ensures fetched { (H.state host.new).fetched ≤ (H.state host.old).fetched
        + bytes_in (set_in store.old.held.numbers (name_of which)) (last_vid (set_in store.old.held.numbers (name_of which))) }
    ensures unread { (refusal : RefusalValue) → next ≡ comes.Refused refusal → (H.state host.new ≡ H.state host.old) × (result ≡ Ok (says.Refused refusal)) }
    ensures done { IfOk result (λ reply. IsKeptBy which (set_in store.old.held.numbers (name_of which)) next said reply
        store.old store.new (H.state host.old) (H.state host.new)) }
    ensures why { IfErr result (IsEnd (IsNextDamaged which (set_in store.old.held.numbers (name_of which)) next store.old.held (H.state host.old))
        (H.state host.old) (H.state host.new)) }
    ensures stays { IfErr result (λ e. Stays e store.old store.new (H.state host.old) (H.state host.new)) }
    ensures usable { OnOk result (MayCall store.new (H.state host.new)) }
    ensures by_journal { IsByJournal store.old.held (H.state host.old) → OnOk result (IsByJournal store.new.held (H.state host.new)) }
    ensures undamaged { (w : World) → IsAtWorld w store.old.held (H.state host.old) → IfErr result IsNoDamage }
    ensures acts { (w : World) (s : Session) → IsAtWorld w store.old.held (H.state host.old)
        → Acts (next_deed w s which next said) s w result store.old.held store.new.held (H.state host.old) (H.state host.new) }
{
    match next {
        Next::Refused(refusal) => Ok(Reply::Refused(refusal)),
        Next::Rows(rows) => match name_in(alloc, which) {
            Ok(name) => change_named(alloc, store, host, which, rows.as_slice(), name, said),
            Err(_) => Err(StagingErr::Memory),
        },
    }
}
