//! Staged tables: their names and files, and what `unstage` and `tables` do.

ghost use Rattle.std.specs.Prelude.{◌≡◌, filter, map, IfOk, IfSome};
ghost use Rattle.std.specs.Option.{option_copied};
ghost use Rattle.ov_model.specs.Deed.{file_of_table, is_own, table_named, table_shown, tables_deed, text_in_row, unstage_deed, unstage_refusal};
ghost use Rattle.ov_model.specs.Registry.{stage_name};
ghost use Rattle.ov_model.specs.World.{set_named};
ghost use Rattle.ov_model.specs.declared.reply.Reply.TheVariants as says;
ghost use Rattle.ov_plain_act.specs.Acts.{deed_of, session_of};
ghost use Rattle.ov_plain_act.specs.Small.{AreSmall, AreSmallMoves, IsSmallSet};

use crate::deed::{Deed, refuses, tells};
use crate::registry::{
    changes, is_foreign, last_rows, stage_name, stage_schema, table_in, text_in_row,
};
use crate::session::Session;
use crate::world::{World, first_named};
use ov_model::{Refusal, Reply, TableLine};
use ov_plain::{Dataset, onto};
use ov_users::without_row;
use ov_value::{Row, Txt};
use sqlite_items::Items;
use std::alloc::{AllocError, Global};

/// A table's name with its user's.
pub fn table_named(alloc: Global, user: &Txt, table: &Txt) -> Result<Txt, AllocError>
    ensures { IfOk result (λ name. name ≡ table_named user.now table.now) }
{
    let mut text = String::from_str(alloc, user.as_str())?;
    text.push('.')?;
    text.push_str(table.as_str())?;
    Txt::from_string(text)
}

/// The name of a table's file.
pub fn file_of_table(alloc: Global, user: &Txt, table: &Txt) -> Result<Txt, AllocError>
    ensures { IfOk result (λ name. name ≡ file_of_table user.now table.now) }
{
    let mut text = String::from_str(alloc, table_named(alloc, user, table)?.as_str())?;
    text.push_str(".staged")?;
    Txt::from_string(text)
}

/// Why this table isn't taken off.
fn unstage_refusal(
    alloc: Global,
    user: &Txt,
    table: &Txt,
    stage: Option<&Dataset>,
) -> Result<Option<Refusal>, AllocError>
    ensures { IfOk result (λ refusal. refusal ≡ unstage_refusal user.now table.now (option_copied stage.entry)) }
{
    let schema = stage_schema(alloc)?;
    if is_foreign(&schema, stage) {
        return Ok(Some(Refusal::ForeignRegistry));
    }
    match table_in(last_rows(stage), user, table)? {
        Some(_) => Ok(None),
        None => {
            let table = table_named(alloc, user, table)?;
            Ok(Some(Refusal::NoTable { table }))
        }
    }
}

/// What is told of a table that is taken off.
fn unstaged(alloc: Global, user: &Txt, table: &Txt) -> Result<Reply, AllocError>
    ensures { IfOk result (λ reply. reply ≡ says.Unstaged user.now table.now) }
{
    Ok(Reply::Unstaged {
        user: user.copy(alloc)?,
        table: table.copy(alloc)?,
    })
}

/// What an `unstage` does over these staged tables.
fn unstage_of(
    alloc: Global,
    world: &World,
    session: &Session,
    user: &Txt,
    table: &Txt,
    stage: Option<&Dataset>,
) -> Result<Deed, AllocError>
    requires { IfSome stage (λ set. IsSmallSet set.now) }
    ensures is { IfOk result (λ deed. deed_of deed ≡ unstage_deed world.now (session_of session.now) user.now table.now (option_copied stage.entry)) }
    ensures small { IfOk result (λ deed. AreSmallMoves deed.moves) }
{
    match unstage_refusal(alloc, user, table, stage)? {
        Some(refusal) => refuses(alloc, session, refusal),
        None => {
            let rows = without_row(alloc, last_rows(stage), user.as_str(), table.as_str())?;
            let reply = unstaged(alloc, user, table)?;
            let own = stage_name(alloc)?;
            let schema = stage_schema(alloc)?;
            changes(
                alloc,
                world,
                session,
                session,
                &own,
                &schema,
                rows.as_slice(),
                reply,
                stage,
            )
        }
    }
}

/// What an `unstage` does.
pub fn unstage_deed(
    alloc: Global,
    world: &World,
    session: &Session,
    user: &Txt,
    table: &Txt,
) -> Result<Deed, AllocError>
    requires { AreSmall world.now.sets }
    ensures is { IfOk result (λ deed. deed_of deed ≡ unstage_deed world.now (session_of session.now) user.now table.now (set_named world.now stage_name)) }
    ensures small { IfOk result (λ deed. AreSmallMoves deed.moves) }
{
    let own = stage_name(alloc)?;
    let stage = first_named(world.sets.as_slice(), &own);
    unstage_of(alloc, world, session, user, table, stage)
}

/// The text of a row at a place.
fn own_text(alloc: Global, row: &Row, place: usize) -> Result<Txt, AllocError>
    ensures { IfOk result (λ text. text ≡ text_in_row row.now place) }
{
    Txt::new(alloc, text_in_row(row, place))
}

/// What is told of a table by its row.
fn table_shown(alloc: Global, row: &Row) -> Result<TableLine, AllocError>
    ensures { IfOk result (λ line. line ≡ table_shown row.now) }
{
    Ok(TableLine {
        user: own_text(alloc, row, 0)?,
        table: own_text(alloc, row, 1)?,
        cvd: own_text(alloc, row, 2)?,
        vids: own_text(alloc, row, 4)?,
    })
}

/// What is told of those of these tables that are the user's.
fn own_shown(alloc: Global, user: &Txt, rows: &[Row]) -> Result<Items<TableLine>, AllocError>
    ensures { IfOk result (λ lines. lines ≡ map table_shown (filter (is_own user.now) rows.now)) }
{
    match rows {
        [] => Ok(Items::new(alloc)),
        [row, rest @ ..] => {
            let later = own_shown(alloc, user, rest)?;
            if text_in_row(row, 0) == user.as_str() {
                onto(alloc, table_shown(alloc, row)?, later)
            } else {
                Ok(later)
            }
        }
    }
}

/// What a `tables` does over these staged tables.
fn tables_of(alloc: Global, session: &Session, stage: Option<&Dataset>) -> Result<Deed, AllocError>
    ensures is { IfOk result (λ deed. deed_of deed ≡ tables_deed (session_of session.now) (option_copied stage.entry)) }
    ensures small { IfOk result (λ deed. AreSmallMoves deed.moves) }
{
    let schema = stage_schema(alloc)?;
    if is_foreign(&schema, stage) {
        return refuses(alloc, session, Refusal::ForeignRegistry);
    }
    let tables = own_shown(alloc, &session.user, last_rows(stage))?;
    tells(alloc, session, Reply::Tables { tables })
}

/// What a `tables` does.
pub fn tables_deed(alloc: Global, world: &World, session: &Session) -> Result<Deed, AllocError>
    requires { AreSmall world.now.sets }
    ensures is { IfOk result (λ deed. deed_of deed ≡ tables_deed (session_of session.now) (set_named world.now stage_name)) }
    ensures small { IfOk result (λ deed. AreSmallMoves deed.moves) }
{
    let own = stage_name(alloc)?;
    let stage = first_named(world.sets.as_slice(), &own);
    tables_of(alloc, session, stage)
}
