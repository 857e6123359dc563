//! The commands on users.

ghost use Rattle.std.specs.Prelude.{◌≡◌, ◌≤◌, ◌+◌, ◌-◌, ◌^◌, min, ℕ, true, false, None, Some, IfOk, IfErr, OnOk, MatchResult};
ghost use Rattle.ov_core.specs.AtWorld.{IsAtWorld};
ghost use Rattle.ov_core.specs.Held.{IsByJournal};
ghost use Rattle.ov_fetch.specs.Extents.{Looked};
ghost use Rattle.ov_host.specs.Host.{State};
ghost use Rattle.ov_model.specs.Act.{Session};
ghost use Rattle.ov_model.specs.Deed.{config_refusal, create_user_deed};
ghost use Rattle.ov_model.specs.Registry.{users_name};
ghost use Rattle.ov_model.specs.World.{World, set_named};
ghost use Rattle.ov_model.specs.declared.refusal.Refusal.{Refusal as RefusalValue};
ghost use Rattle.ov_model.specs.declared.reply.Reply.TheVariants as says;
ghost use Rattle.ov_registry.specs.Last.{IsLastDamaged, bytes_in, last_vid};
ghost use Rattle.ov_registry.specs.declared.registry.Registry.TheVariants as registry;
ghost use Rattle.ov_store.specs.Kept.{MayCall};
ghost use Rattle.ov_store.specs.Scanning.{set_in};
ghost use Rattle.ov_value.specs.Naming.{is_name as is_name_of};
ghost use Rattle.ov_staging.specs.Changing.{IsDamagedBy};
ghost use Rattle.ov_staging.specs.Errors.{Acts, IsEnd, IsNoDamage, Stays};
ghost use Rattle.ov_staging.specs.Reading.{answer_or};
ghost use Rattle.ov_staging.specs.Users.{IsConfigured, IsConfiguredBy, IsCreated, config_off, create_off, user_rows};

use crate::answering::changed;
use crate::deciding::Asked;
use crate::errors::StagingErr;
use crate::reading::{Found, read};
use ov_host::Host;
use ov_model::{Refusal, Reply};
use ov_registry::{Registry, is_foreign};
use ov_store::Store;
use ov_users::is_user;
use ov_value::{Txt, is_name};
use std::alloc::Global;

/// Adds a user, by one Init or one Commit of the users.
///
/// Refusals in their order: `BadName` and `ForeignRegistry`, before anything is read; `UserExists`; and then those of the change:
/// `TooManyCvds`, `NoNumbers`, `TooManyVersions`, `TooManyRows`, `TooManyRecords`, `NoRun`, `JournalFull`. A refusal leaves all as
/// it was. The last version of the users is read once, and once more as the parent of a Commit. `Host`, `Memory` and `Damaged` end
/// the command.
pub fn create_user<H: Host>(
    alloc: Global,
    store: &mut Store,
    host: &mut H,
    name: Txt,
) -> Result<Reply, StagingErr>
    requires call { MayCall store.old (H.state host.old) }
    ensures told { (H.state host.new).tells ≡ (H.state host.old).tells }
    ensures kept { (H.state host.new).keeps ≡ (H.state host.old).keeps }
    ensures faults { (H.state host.old).faults ≤ (H.state host.new).faults }
    ensures counted { min (H.state host.old).fetched (2 ^ 64 - 1) ≤ (H.state host.new).fetched }
    ensures fetched { (H.state host.new).fetched ≤ (H.state host.old).fetched
        + (bytes_in (set_in store.old.held.numbers users_name) (last_vid (set_in store.old.held.numbers users_name))
        + bytes_in (set_in store.old.held.numbers users_name) (last_vid (set_in store.old.held.numbers users_name))) }
    ensures unread { (refusal : RefusalValue) → create_off name (set_in store.old.held.numbers users_name) ≡ Some refusal
        → (H.state host.new ≡ H.state host.old) × IfOk result (λ reply. reply ≡ says.Refused refusal) }
    ensures done { IfOk result (λ reply. IsCreated name (set_in store.old.held.numbers users_name) reply
        store.old store.new (H.state host.old) (H.state host.new)) }
    ensures why { IfErr result (IsEnd (λ page. (create_off name (set_in store.old.held.numbers users_name) ≡ None)
        × IsDamagedBy registry.Users (set_in store.old.held.numbers users_name) (user_rows name) store.old.held (H.state host.new) page)
        (H.state host.old) (H.state host.new)) }
    ensures whole { (page : ℕ) → (H.state host.old).tells ≡ true
        → OnOk result (create_off name (set_in store.old.held.numbers users_name) ≡ None
        → IsLastDamaged (set_in store.old.held.numbers users_name) (H.state host.old) page → ⊥) }
    ensures stays { IfErr result (λ e. Stays e store.old store.new (H.state host.old) (H.state host.new)) }
    ensures usable { OnOk result (MayCall store.new (H.state host.new)) }
    ensures by_journal { IsByJournal store.old.held (H.state host.old) → OnOk result (IsByJournal store.new.held (H.state host.new)) }
    ensures undamaged { (w : World) → IsAtWorld w store.old.held (H.state host.old) → IfErr result IsNoDamage }
    ensures acts { (w : World) (s : Session) → IsAtWorld w store.old.held (H.state host.old)
        → Acts (create_user_deed w s name (set_named w users_name)) s w result
        store.old.held store.new.held (H.state host.old) (H.state host.new) }
{
    if is_name(name.as_str()) {
        return changed(alloc, store, host, Registry::Users, Asked::User { name });
    }
    Ok(Reply::Refused(Refusal::BadName { name }))
}

// The reply to a `config` of what is no name.
fn unnamed(alloc: Global, store: &Store, name: Txt) -> Result<Reply, StagingErr>
    requires bad { is_name_of name ≡ false }
    ensures reply { IfOk result (λ reply. (refusal : RefusalValue) × (config_off name (set_in store.now.held.numbers users_name) ≡ Some refusal)
        × (reply ≡ says.Refused refusal)) }
    ensures memory { IfErr result (λ e. e ≡ StagingErr.Memory) }
    ensures world { (w : World) (t : State) → IsAtWorld w store.now.held t
        → IfOk result (λ reply. reply ≡ answer_or (config_refusal name (set_named w users_name)) (says.User name)) }
{
    match is_foreign(alloc, store, Registry::Users) {
        Ok(true) => Ok(Reply::Refused(Refusal::ForeignRegistry)),
        Ok(false) => Ok(Reply::Refused(Refusal::NoUser { name })),
        Err(_) => Err(StagingErr::Memory),
    }
}

// The reply to a `config`, by what was found of the users.
fn configured(found: Found, name: Txt) -> Reply
    ensures { IsConfiguredBy name found result }
{
    match found {
        Found::Foreign => Reply::Refused(Refusal::ForeignRegistry),
        Found::Rows(rows) => {
            if is_user(rows.as_slice(), name.as_str()) {
                Reply::User { name }
            } else {
                Reply::Refused(Refusal::NoUser { name })
            }
        }
    }
}

/// The reply to a `config`: that the name is the user from here on, which the caller makes it, or a refusal: `ForeignRegistry`,
/// and `NoUser` where it is no name or is neither `admin` nor among the users.
///
/// Of a name the last version of the users is read once, of what is none nothing is. `Host`, `Memory` and `Damaged` end the
/// command. Nothing is changed.
pub fn config<H: Host>(
    alloc: Global,
    store: &Store,
    host: &mut H,
    name: Txt,
) -> Result<Reply, StagingErr>
    requires usable { store.now.usable ≡ true }
    ensures looked { Looked (H.state host.old) (H.state host.new) }
    ensures fetched { (H.state host.new).fetched ≤ (H.state host.old).fetched
        + bytes_in (set_in store.now.held.numbers users_name) (last_vid (set_in store.now.held.numbers users_name)) }
    ensures unread { (refusal : RefusalValue) → config_off name (set_in store.now.held.numbers users_name) ≡ Some refusal → H.state host.new ≡ H.state host.old }
    ensures reply { IfOk result (IsConfigured name (set_in store.now.held.numbers users_name) (H.state host.old)) }
    ensures why { IfErr result (IsEnd (λ page. (config_off name (set_in store.now.held.numbers users_name) ≡ None)
        × IsLastDamaged (set_in store.now.held.numbers users_name) (H.state host.new) page) (H.state host.old) (H.state host.new)) }
    ensures whole { (page : ℕ) → (H.state host.old).tells ≡ true
        → OnOk result (config_off name (set_in store.now.held.numbers users_name) ≡ None
        → IsLastDamaged (set_in store.now.held.numbers users_name) (H.state host.old) page → ⊥) }
    ensures world { (w : World) → IsAtWorld w store.now.held (H.state host.old)
        → MatchResult result (λ reply. reply ≡ answer_or (config_refusal name (set_named w users_name)) (says.User name)) IsNoDamage }
{
    if !is_name(name.as_str()) {
        return unnamed(alloc, store, name);
    }
    match read(alloc, store, host, Registry::Users) {
        Ok(found) => Ok(configured(found, name)),
        Err(off) => Err(off),
    }
}
