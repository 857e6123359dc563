//! What a command does: a dataset more, a version more, a dataset less, a checkpoint, and whichever command it is.

ghost use Rattle.std.specs.Prelude.{◌≡◌, ◌≤◌, ◌^◌, length, Some, is_some, IfOk, IfSome};
ghost use Rattle.ov_model.specs.Act.{columns_of, does, init_refusal, init_deed, drop_deed, checkpoint_deed, more_refusal, refuses};
ghost use Rattle.ov_model.specs.Deed.{deed, permitted};
ghost use Rattle.ov_model.specs.Moves.{Init};
ghost use Rattle.ov_model.specs.World.{set_named};
ghost use Rattle.ov_model.specs.declared.refusal.Refusal.TheVariants as no;
ghost use Rattle.ov_model.specs.declared.reply.Reply.TheVariants as says;
ghost use Rattle.ov_plain_act.specs.Acts.{deed_of, session_of, is_plain};
ghost use Rattle.ov_plain_act.specs.Small.{AreSmall, AreSmallMoves, IsSmallCommand};

use crate::accepted::accepted;
use crate::budget::{advise_deed, within_deed};
use crate::committing::{Asked, commit_deed};
use crate::counts::count_of;
use crate::deed::{Deed, Move, does, no_cvd, refuses};
use crate::laying::layout_deed;
use crate::planning::optimize_deed;
use crate::session::Session;
use crate::showing::checkout_deed;
use crate::staging::{commit_staged_deed, stage_deed};
use crate::stepping::migrate_deed;
use crate::tables::{tables_deed, unstage_deed};
use crate::telling::{log_deed, ls_deed};
use crate::users::{config_deed, create_user_deed, whoami_deed};
use crate::world::{World, first_named};
use ov_model::{Command, Refusal, Reply, Seq};
use ov_plain::Dataset;
use ov_users::permit;
use ov_value::{Column, Row, Schema, Txt};
use sqlite_items::Items;
use std::alloc::{AllocError, Global};

/// Why there can't be a dataset more.
pub fn more_refusal(alloc: Global, world: &World, name: &Txt) -> Result<Option<Refusal>, AllocError>
    ensures { IfOk result (λ refusal. refusal ≡ more_refusal world.now name.now) }
{
    let cvd = name.copy(alloc)?;
    if 1024 <= world.sets.len() {
        return Ok(Some(Refusal::TooManyCvds));
    }
    if world.next == 4_294_967_295 {
        return Ok(Some(Refusal::NoNumbers { cvd }));
    }
    Ok(None)
}

/// Why there can't be a dataset of this name more.
fn init_refusal(alloc: Global, world: &World, name: &Txt) -> Result<Option<Refusal>, AllocError>
    requires { AreSmall world.now.sets }
    ensures { IfOk result (λ refusal. refusal ≡ init_refusal world.now name.now) }
{
    if first_named(world.sets.as_slice(), name).is_some() {
        let cvd = name.copy(alloc)?;
        return Ok(Some(Refusal::CvdExists { cvd }));
    }
    more_refusal(alloc, world, name)
}

/// A dataset more, of these rows.
fn begins(
    alloc: Global,
    session: &Session,
    cvd: &Txt,
    schema: &Schema,
    rows: Items<Row>,
) -> Result<Deed, AllocError>
    requires { length rows ≤ 1000000 }
    ensures is { IfOk result (λ deed. deed_of deed ≡ does (session_of session.now) (Init cvd.now schema.now rows) (says.Init cvd.now (length rows))) }
    ensures small { IfOk result (λ deed. AreSmallMoves deed.moves) }
{
    let reply = Reply::Init {
        cvd: cvd.copy(alloc)?,
        rows: rows.len() as u32,
    };
    let the_move = Move::Init {
        name: cvd.copy(alloc)?,
        schema: schema.copy(alloc)?,
        rows,
    };
    does(alloc, session, the_move, reply)
}

/// What an Init does.
fn init_deed(
    alloc: Global,
    world: &World,
    session: &Session,
    cvd: &Txt,
    schema: &Schema,
    file: &Txt,
) -> Result<Deed, AllocError>
    requires { AreSmall world.now.sets }
    ensures is { IfOk result (λ deed. deed_of deed ≡ init_deed world.now (session_of session.now) cvd.now schema.now file.now) }
    ensures small { IfOk result (λ deed. AreSmallMoves deed.moves) }
{
    match init_refusal(alloc, world, cvd)? {
        Some(refusal) => refuses(alloc, session, refusal),
        None => match accepted(alloc, world, session, schema, false, file)? {
            Err(refusal) => refuses(alloc, session, refusal),
            Ok(rows) => begins(alloc, session, cvd, schema, rows),
        },
    }
}

/// What a drop of this dataset does.
fn drop_of(alloc: Global, session: &Session, name: &Txt, set: &Dataset) -> Result<Deed, AllocError>
    ensures is { IfOk result (λ deed. deed_of deed ≡ drop_deed (session_of session.now) name.now (Some set.now)) }
    ensures small { IfOk result (λ deed. AreSmallMoves deed.moves) }
{
    let reply = Reply::Dropped {
        cvd: name.copy(alloc)?,
    };
    does(
        alloc,
        session,
        Move::Drop {
            cvd: set.cvd.number,
        },
        reply,
    )
}

/// What a drop does.
fn drop_deed(
    alloc: Global,
    world: &World,
    session: &Session,
    name: &Txt,
) -> Result<Deed, AllocError>
    requires { AreSmall world.now.sets }
    ensures is { IfOk result (λ deed. deed_of deed ≡ drop_deed (session_of session.now) name.now (set_named world.now name.now)) }
    ensures small { IfOk result (λ deed. AreSmallMoves deed.moves) }
{
    match first_named(world.sets.as_slice(), name) {
        None => no_cvd(alloc, session, name),
        Some(set) => drop_of(alloc, session, name, set),
    }
}

/// What a checkpoint does.
fn checkpoint_deed(alloc: Global, world: &World, session: &Session) -> Result<Deed, AllocError>
    ensures is { IfOk result (λ deed. deed_of deed ≡ checkpoint_deed world.now (session_of session.now)) }
    ensures small { IfOk result (λ deed. AreSmallMoves deed.moves) }
{
    let datasets = count_of(world.sets.len())?;
    does(
        alloc,
        session,
        Move::Checkpoint,
        Reply::Checkpoint { datasets },
    )
}

/// Whether a command's act is computed here.
fn is_plain(command: &Command) -> bool
    ensures { result ≡ is_plain command.now }
{
    match command {
        Command::Init { .. } => true,
        Command::Checkout { .. } => true,
        Command::Commit { .. } => true,
        Command::CommitStaged { .. } => true,
        Command::Run { .. } => false,
        Command::Optimize { .. } => true,
        Command::OptimizeWithin { .. } => true,
        Command::Advise { .. } => true,
        Command::Migrate { .. } => true,
        Command::Layout { .. } => true,
        Command::Log { .. } => true,
        Command::Ls => true,
        Command::DropCvd { .. } => true,
        Command::Checkpoint => true,
        Command::Generate { .. } => false,
        Command::CreateUser { .. } => true,
        Command::Config { .. } => true,
        Command::Whoami => true,
        Command::Unstage { .. } => true,
        Command::Tables => true,
    }
}

/// The columns that a commit adds.
fn columns_of(added: &Option<Seq<Column>>) -> &[Column]
    ensures { result.now ≡ columns_of added.now }
{
    match added {
        None => &[],
        Some(added) => added.as_slice(),
    }
}

/// What a command of users and staged tables does that no rule denies. Another one is answered as want of memory.
fn user_deed(
    alloc: Global,
    world: &World,
    session: &Session,
    command: &Command,
) -> Result<Deed, AllocError>
    requires world { AreSmall world.now.sets }
    requires command { IsSmallCommand command.now }
    ensures is { IfOk result (λ d. deed_of d ≡ permitted world.now (session_of session.now) command.now) }
    ensures small { IfOk result (λ d. AreSmallMoves d.moves) }
{
    match command {
        Command::Checkout {
            cvd,
            vids,
            table: Some(table),
            ..
        } => stage_deed(alloc, world, session, cvd, vids.as_slice(), table),
        Command::CommitStaged {
            user,
            table,
            message,
        } => commit_staged_deed(alloc, world, session, user, table, message),
        Command::CreateUser { name } => create_user_deed(alloc, world, session, name),
        Command::Config { name } => config_deed(alloc, world, session, name),
        Command::Whoami => whoami_deed(alloc, session),
        Command::Unstage { user, table } => unstage_deed(alloc, world, session, user, table),
        Command::Tables => tables_deed(alloc, world, session),
        _ => Err(AllocError),
    }
}

/// What a command of plans, of users or of staged tables does that no rule denies. Another one is answered as want of memory.
fn plan_deed(
    alloc: Global,
    world: &World,
    session: &Session,
    command: &Command,
) -> Result<Deed, AllocError>
    requires world { AreSmall world.now.sets }
    requires command { IsSmallCommand command.now }
    ensures is { IfOk result (λ d. deed_of d ≡ permitted world.now (session_of session.now) command.now) }
    ensures small { IfOk result (λ d. AreSmallMoves d.moves) }
{
    match command {
        Command::Optimize { cvd, p, q } => optimize_deed(alloc, world, session, cvd, *p, *q),
        Command::OptimizeWithin { cvd, budget } => {
            within_deed(alloc, world, session, cvd, *budget)
        }
        Command::Advise { cvd, budget, a, b } => {
            advise_deed(alloc, world, session, cvd, *budget, *a, *b)
        }
        Command::Migrate { count } => migrate_deed(alloc, world, session, *count),
        _ => user_deed(alloc, world, session, command),
    }
}

/// What a command that no rule denies does over a World and a session. One that isn't computed here is answered as want of
/// memory.
fn permitted_deed(
    alloc: Global,
    world: &World,
    session: &Session,
    command: &Command,
) -> Result<Deed, AllocError>
    requires world { AreSmall world.now.sets }
    requires command { IsSmallCommand command.now }
    ensures is { IfOk result (λ d. deed_of d ≡ permitted world.now (session_of session.now) command.now) }
    ensures small { IfOk result (λ d. AreSmallMoves d.moves) }
{
    match command {
        Command::Init { cvd, schema, file } => {
            init_deed(alloc, world, session, cvd, schema, file)
        }
        Command::Checkout {
            cvd,
            vids,
            file,
            table: None,
        } => checkout_deed(alloc, world, session, cvd, vids.as_slice(), file),
        Command::Commit {
            cvd,
            vids,
            file,
            message,
            added,
        } => {
            let asked = Asked {
                vids: vids.as_slice(),
                message,
                added: columns_of(added),
                file,
            };
            commit_deed(alloc, world, session, cvd, &asked)
        }
        Command::Layout { cvd } => layout_deed(alloc, world, session, cvd),
        Command::Log { cvd } => log_deed(alloc, world, session, cvd),
        Command::Ls => ls_deed(alloc, world, session),
        Command::DropCvd { cvd } => drop_deed(alloc, world, session, cvd),
        Command::Checkpoint => checkpoint_deed(alloc, world, session),
        _ => plan_deed(alloc, world, session, command),
    }
}

/// The refusal of a command that a rule denies.
fn denied(alloc: Global, session: &Session, rule: u32) -> Result<Deed, AllocError>
    ensures is { IfOk result (λ d. deed_of d ≡ refuses (session_of session.now) (no.Denied rule)) }
    ensures small { IfOk result (λ d. AreSmallMoves d.moves) }
{
    let rule = u64::from(rule);
    refuses(alloc, session, Refusal::Denied { rule })
}

/// What a command does over a World and a session: it is denied by the least rule that denies it, or does what it means by
/// itself. None where it isn't computed here.
pub fn plain_deed(
    alloc: Global,
    world: &World,
    session: &Session,
    command: &Command,
) -> Result<Option<Deed>, AllocError>
    requires world { AreSmall world.now.sets }
    requires command { IsSmallCommand command.now }
    ensures is { IfOk result (λ found. IfSome found (λ d. deed_of d ≡ deed world.now (session_of session.now) command.now)) }
    ensures plain { IfOk result (λ found. is_some found ≡ is_plain command.now) }
    ensures small { IfOk result (λ found. IfSome found (λ d. AreSmallMoves d.moves)) }
{
    if !is_plain(command) {
        return Ok(None);
    }
    match permit(session.user.as_str(), command) {
        Ok(()) => Ok(Some(permitted_deed(alloc, world, session, command)?)),
        Err(off) => Ok(Some(denied(alloc, session, off.rule)?)),
    }
}
