//! What `create_user`, `config` and `whoami` do.

ghost use Rattle.std.specs.Prelude.{◌≡◌, IfOk, IfSome};
ghost use Rattle.std.specs.Option.{option_copied};
ghost use Rattle.ov_model.specs.Act.{tells};
ghost use Rattle.ov_model.specs.Deed.{config_deed, config_refusal, create_refusal, create_user_deed};
ghost use Rattle.ov_model.specs.Registry.{user_row, users_name};
ghost use Rattle.ov_model.specs.World.{set_named};
ghost use Rattle.ov_model.specs.declared.reply.Reply.TheVariants as says;
ghost use Rattle.ov_plain_act.specs.Acts.{deed_of, session_of};
ghost use Rattle.ov_plain_act.specs.Small.{AreSmall, AreSmallMoves, IsSmallSet};

use crate::deed::{Deed, refuses, tells, tells_in};
use crate::registry::{changes, is_foreign, last_rows, users_name, users_schema};
use crate::session::Session;
use crate::world::{World, first_named};
use ov_model::{Refusal, Reply};
use ov_plain::Dataset;
use ov_users::{is_user, with_row};
use ov_value::{Row, Txt, Value, is_name};
use std::alloc::{AllocError, Global};

/// The row of a user.
fn user_row(alloc: Global, name: &Txt) -> Result<Row, AllocError>
    ensures { IfOk result (λ row. row ≡ user_row name.now) }
{
    let mut values = Vec::with_capacity(alloc, 1)?;
    values.push(Value::Text(name.copy(alloc)?))?;
    Ok(Row::new(values))
}

/// Why there can't be a user of this name more.
fn create_refusal(
    alloc: Global,
    name: &Txt,
    users: Option<&Dataset>,
) -> Result<Option<Refusal>, AllocError>
    ensures { IfOk result (λ refusal. refusal ≡ create_refusal name.now (option_copied users.entry)) }
{
    let schema = users_schema(alloc)?;
    let copy = name.copy(alloc)?;
    if !is_name(name.as_str()) {
        return Ok(Some(Refusal::BadName { name: copy }));
    }
    if is_foreign(&schema, users) {
        return Ok(Some(Refusal::ForeignRegistry));
    }
    if is_user(last_rows(users), name.as_str()) {
        return Ok(Some(Refusal::UserExists { name: copy }));
    }
    Ok(None)
}

/// What a `create_user` does over these users.
fn create_user_of(
    alloc: Global,
    world: &World,
    session: &Session,
    name: &Txt,
    users: Option<&Dataset>,
) -> Result<Deed, AllocError>
    requires { IfSome users (λ set. IsSmallSet set.now) }
    ensures is { IfOk result (λ deed. deed_of deed ≡ create_user_deed world.now (session_of session.now) name.now (option_copied users.entry)) }
    ensures small { IfOk result (λ deed. AreSmallMoves deed.moves) }
{
    match create_refusal(alloc, name, users)? {
        Some(refusal) => refuses(alloc, session, refusal),
        None => {
            let rows = with_row(alloc, last_rows(users), &user_row(alloc, name)?)?;
            let reply = Reply::User {
                name: name.copy(alloc)?,
            };
            let own = users_name(alloc)?;
            let schema = users_schema(alloc)?;
            changes(
                alloc,
                world,
                session,
                session,
                &own,
                &schema,
                rows.as_slice(),
                reply,
                users,
            )
        }
    }
}

/// What a `create_user` does.
pub fn create_user_deed(
    alloc: Global,
    world: &World,
    session: &Session,
    name: &Txt,
) -> Result<Deed, AllocError>
    requires { AreSmall world.now.sets }
    ensures is { IfOk result (λ deed. deed_of deed ≡ create_user_deed world.now (session_of session.now) name.now (set_named world.now users_name)) }
    ensures small { IfOk result (λ deed. AreSmallMoves deed.moves) }
{
    let own = users_name(alloc)?;
    let users = first_named(world.sets.as_slice(), &own);
    create_user_of(alloc, world, session, name, users)
}

/// Why nobody goes on as the user of this name.
fn config_refusal(
    alloc: Global,
    name: &Txt,
    users: Option<&Dataset>,
) -> Result<Option<Refusal>, AllocError>
    ensures { IfOk result (λ refusal. refusal ≡ config_refusal name.now (option_copied users.entry)) }
{
    let schema = users_schema(alloc)?;
    let copy = name.copy(alloc)?;
    if is_foreign(&schema, users) {
        return Ok(Some(Refusal::ForeignRegistry));
    }
    if !(is_name(name.as_str()) && is_user(last_rows(users), name.as_str())) {
        return Ok(Some(Refusal::NoUser { name: copy }));
    }
    Ok(None)
}

/// What a `config` does over these users.
fn config_of(
    alloc: Global,
    session: &Session,
    name: &Txt,
    users: Option<&Dataset>,
) -> Result<Deed, AllocError>
    ensures is { IfOk result (λ deed. deed_of deed ≡ config_deed (session_of session.now) name.now (option_copied users.entry)) }
    ensures small { IfOk result (λ deed. AreSmallMoves deed.moves) }
{
    match config_refusal(alloc, name, users)? {
        Some(refusal) => refuses(alloc, session, refusal),
        None => {
            let later = session.with_user(alloc, name)?;
            let name = name.copy(alloc)?;
            Ok(tells_in(alloc, later, Reply::User { name }))
        }
    }
}

/// What a `config` does.
pub fn config_deed(
    alloc: Global,
    world: &World,
    session: &Session,
    name: &Txt,
) -> Result<Deed, AllocError>
    requires { AreSmall world.now.sets }
    ensures is { IfOk result (λ deed. deed_of deed ≡ config_deed (session_of session.now) name.now (set_named world.now users_name)) }
    ensures small { IfOk result (λ deed. AreSmallMoves deed.moves) }
{
    let own = users_name(alloc)?;
    let users = first_named(world.sets.as_slice(), &own);
    config_of(alloc, session, name, users)
}

/// What a `whoami` does.
pub fn whoami_deed(alloc: Global, session: &Session) -> Result<Deed, AllocError>
    ensures is { IfOk result (λ deed. deed_of deed ≡ tells (session_of session.now) (says.Whoami (session_of session.now).user)) }
    ensures small { IfOk result (λ deed. AreSmallMoves deed.moves) }
{
    let name = session.user.copy(alloc)?;
    tells(alloc, session, Reply::Whoami { name })
}
