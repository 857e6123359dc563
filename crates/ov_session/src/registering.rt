// The commands on users and staged tables.
ghost use Rattle.std.specs.Prelude.{◌≡◌, ℕ, List, Some, IsTrue, IfOk, IfErr};
ghost use Rattle.ov_model.specs.declared.command.Command.TheVariants as asks;
ghost use Rattle.ov_model.specs.declared.reply.Reply.TheVariants as says;
ghost use Rattle.ov_store.specs.Kept.{MayCall};
ghost use Rattle.ov_value.specs.Naming.{is_name};
ghost use Rattle.ov_session.specs.declared.serving.Served.TheVariants as served;
ghost use Rattle.ov_session.specs.Acting.{kind_of, user_by};
ghost use Rattle.ov_session.specs.Registering.{IsRegistered, next_by};

use crate::errors::{EndErr, ended};
use ov_host::Host;
use ov_model::Reply;
use ov_reply::is_error;
use ov_staging::{
    config, create_user as create_user_in, tables as tables_in, unstage as unstage_in,
};
use ov_store::Store;
use ov_value::Txt;
use std::alloc::Global;

/// Adds a user.
pub fn create_user<H: Host>(
    alloc: Global,
    store: &mut Store,
    host: &mut H,
    name: Txt,
) -> Result<Reply, EndErr>
    requires call { MayCall store.old (H.state host.old) }
    ensures { (user : List ℕ) → IsRegistered user user (asks.CreateUser name) result store.old store.new (H.state host.old) (H.state host.new) }
{
    ended(create_user_in(alloc, store, host, name))
}

// Whether the name may be the user.
fn configured<H: Host>(
    alloc: Global,
    store: &Store,
    host: &mut H,
    name: Txt,
) -> Result<Reply, EndErr>
    requires call { MayCall store.now (H.state host.old) }
    ensures serves { (user : List ℕ) → IsRegistered user (next_by user name result) (asks.Config name) result store.now store.now (H.state host.old) (H.state host.new) }
    ensures named { IfOk result (λ reply. kind_of reply ≡ served.Done → IsTrue (is_name name)) }
{
    ended(config(alloc, store, host, name))
}

// The user from here on, by the reply.
fn follow(user: &mut Txt, next: Txt, reply: &Reply)
    ensures { user.new ≡ user_by (Some next) (kind_of reply.now) user.old }
{
    if !is_error(reply) {
        *user = next;
    }
}

/// Makes the name the user from here on, where it is `admin` or a user's; else the user stays.
pub fn become_user<H: Host>(
    alloc: Global,
    store: &Store,
    host: &mut H,
    user: &mut Txt,
    name: Txt,
) -> Result<Reply, EndErr>
    requires call { MayCall store.now (H.state host.old) }
    requires user { IsTrue (is_name user.old) }
    ensures serves { IsRegistered user.old user.new (asks.Config name) result store.now store.now (H.state host.old) (H.state host.new) }
    ensures next { user.new ≡ next_by user.old name result }
    ensures named { IsTrue (is_name user.new) }
{
    match name.copy(alloc) {
        Ok(next) => match configured(alloc, store, host, name) {
            Ok(reply) => {
                follow(user, next, &reply);
                Ok(reply)
            }
            Err(why) => Err(why),
        },
        Err(_) => Err(EndErr::Memory),
    }
}

/// Takes a staged table off.
pub fn unstage<H: Host>(
    alloc: Global,
    store: &mut Store,
    host: &mut H,
    owner: Txt,
    table: Txt,
) -> Result<Reply, EndErr>
    requires call { MayCall store.old (H.state host.old) }
    ensures { (user : List ℕ) → IsRegistered user user (asks.Unstage owner table) result store.old store.new (H.state host.old) (H.state host.new) }
{
    ended(unstage_in(alloc, store, host, owner, table))
}

/// The user's own staged tables.
pub fn tables<H: Host>(
    alloc: Global,
    store: &Store,
    host: &mut H,
    user: &Txt,
) -> Result<Reply, EndErr>
    requires call { MayCall store.now (H.state host.old) }
    ensures { IsRegistered user.now user.now asks.Tables result store.now store.now (H.state host.old) (H.state host.new) }
{
    ended(tables_in(alloc, store, host, user.as_str()))
}

/// The user.
pub fn whoami(alloc: Global, user: &Txt) -> Result<Reply, EndErr>
    ensures reply { IfOk result (λ reply. reply ≡ says.Whoami user.now) }
    ensures memory { IfErr result (λ why. why ≡ EndErr.Memory) }
{
    match user.copy(alloc) {
        Ok(name) => Ok(Reply::Whoami { name }),
        Err(_) => Err(EndErr::Memory),
    }
}
