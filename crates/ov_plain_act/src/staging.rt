//! What `checkout -t` and `commit -t` do: a merge as a table of the user's, and the next version from such a table.

ghost use Rattle.std.specs.Prelude.{◌≡◌, ◌++◌, ◌≤◌, length, flat_map, string_bytes, decimal, Some, IfOk, IfSome, OnOk, codes};
ghost use Rattle.std.specs.Option.{option_copied};
ghost use Rattle.ov_value.specs.Rows.{value_at};
ghost use Rattle.ov_model.specs.Act.{merge_of, refuses};
ghost use Rattle.ov_model.specs.Deed.{commit_from, commit_staged_deed, file_of_table, stage_deed, stage_of, stage_refusal, staged, staged_by, staged_refusal, table_named, with_staged};
ghost use Rattle.ov_model.specs.Registry.{is_number, set_staged, stage_name, table_row, unreserved, vids_staged};
ghost use Rattle.ov_model.specs.Replies.{numbers};
ghost use Rattle.ov_model.specs.World.{set_named};
ghost use Rattle.ov_model.specs.declared.refusal.Refusal.TheVariants as no;
ghost use Rattle.ov_model.specs.declared.reply.Reply.TheVariants as says;
ghost use Rattle.ov_plain_act.specs.Acts.{deed_of, session_of};
ghost use Rattle.ov_plain_act.specs.Small.{AreSmall, AreSmallMoves, IsSmallSet};

use crate::committing::{Asked, commit_of};
use crate::deed::{Deed, no_cvd, refuses};
use crate::registry::{changes, is_foreign, last_rows, stage_name, stage_schema, table_in};
use crate::session::Session;
use crate::showing::{rows_merged, to_file};
use crate::tables::{file_of_table, table_named};
use crate::world::{World, first_named};
use itoa::Buffer;
use ov_answers::vids_refusal;
use ov_cmd::vids_of;
use ov_model::{Refusal, Reply};
use ov_plain::{Cvd, Dataset};
use ov_plain_csv::text_of;
use ov_users::with_row;
use ov_value::{Row, Txt, Value, is_name};
use sqlite_items::Items;
use std::alloc::{AllocError, Global};

/// Adds a number.
fn add_number(number: u64, text: &mut String) -> Result<(), AllocError>
    ensures { OnOk result (string_bytes text.new ≡ string_bytes text.old ++ decimal number) }
{
    let mut digits = Buffer::new();
    text.push_str(digits.format(number))
}

/// Adds these numbers, each behind a comma.
fn add_numbers(vids: &[u64], text: &mut String) -> Result<(), AllocError>
    ensures { OnOk result (string_bytes text.new ≡ string_bytes text.old ++ flat_map (λ n. codes "," ++ decimal n) vids.now) }
{
    match vids {
        [] => Ok(()),
        [first, rest @ ..] => {
            text.push(',')?;
            add_number(*first, text)?;
            add_numbers(rest, text)
        }
    }
}

/// These numbers with commas between them.
fn numbers_text(alloc: Global, vids: &[u64]) -> Result<Txt, AllocError>
    ensures { IfOk result (λ text. text ≡ numbers vids.now) }
{
    let mut text = String::new(alloc);
    match vids {
        [] => {}
        [first, rest @ ..] => {
            add_number(*first, &mut text)?;
            add_numbers(rest, &mut text)?;
        }
    }
    Txt::from_string(text)
}

/// The row of a table that is checked out from these versions.
fn table_row(
    alloc: Global,
    owner: &Txt,
    name: &Txt,
    cvd: &Cvd,
    vids: &[u64],
) -> Result<Row, AllocError>
    ensures { IfOk result (λ row. row ≡ table_row owner.now name.now cvd.now.name cvd.now.number vids.now) }
{
    let mut values = Vec::with_capacity(alloc, 5)?;
    values.push(Value::Text(owner.copy(alloc)?))?;
    values.push(Value::Text(name.copy(alloc)?))?;
    values.push(Value::Text(cvd.name.copy(alloc)?))?;
    values.push(Value::Int(cvd.number as i64))?;
    values.push(Value::Text(numbers_text(alloc, vids)?))?;
    Ok(Row::new(values))
}

/// Why there can't be a table of this name with so many versions, whatever they are of.
fn stage_refusal(
    alloc: Global,
    table: &Txt,
    vids: &[u64],
    stage: Option<&Dataset>,
) -> Result<Option<Refusal>, AllocError>
    ensures { IfOk result (λ refusal. refusal ≡ stage_refusal table.now vids.now (option_copied stage.entry)) }
{
    let schema = stage_schema(alloc)?;
    if !is_name(table.as_str()) {
        let name = table.copy(alloc)?;
        return Ok(Some(Refusal::BadName { name }));
    }
    if is_foreign(&schema, stage) {
        return Ok(Some(Refusal::ForeignRegistry));
    }
    if 1000 < vids.len() {
        return Ok(Some(Refusal::TooManyListed));
    }
    Ok(None)
}

/// Why these versions aren't staged as a table of the user's.
fn staged_refusal(
    alloc: Global,
    session: &Session,
    table: &Txt,
    vids: &[u64],
    set: &Dataset,
    stage: Option<&Dataset>,
) -> Result<Option<Refusal>, AllocError>
    ensures { IfOk result (λ refusal. refusal ≡ staged_refusal (session_of session.now) table.now vids.now set.now (option_copied stage.entry)) }
{
    let count = set.cvd.versions.len() as u64;
    match vids_refusal(alloc, count, &[], vids)? {
        Some(refusal) => Ok(Some(refusal)),
        None => {
            if table_in(last_rows(stage), &session.user, table)?.is_none() {
                return Ok(None);
            }
            let table = table_named(alloc, &session.user, table)?;
            Ok(Some(Refusal::TableStaged { table }))
        }
    }
}

/// The session in which the table's file has the merge.
fn with_staged(
    alloc: Global,
    session: &Session,
    table: &Txt,
    vids: &[u64],
    set: &Dataset,
) -> Result<Session, AllocError>
    requires small { IsSmallSet set.now }
    requires few { length vids.now ≤ 65535 }
    ensures { IfOk result (λ made. session_of made ≡ with_staged (session_of session.now) table.now vids.now set.now) }
{
    let rows = rows_merged(alloc, set, vids)?;
    let text = text_of(alloc, &set.cvd.schema, rows.as_slice())?;
    let file = file_of_table(alloc, &session.user, table)?;
    session.with_file(alloc, &file, text)
}

/// What is told of a merge that is put into the table's file.
fn staged_reply(
    alloc: Global,
    session: &Session,
    table: &Txt,
    vids: &[u64],
    set: &Dataset,
) -> Result<Reply, AllocError>
    requires small { IsSmallSet set.now }
    requires few { length vids.now ≤ 65535 }
    ensures { IfOk result (λ reply. reply ≡ says.ToFile set.now.cvd.name (length (merge_of set.now.cvd vids.now)) (file_of_table (session_of session.now).user table.now)) }
{
    let rows = rows_merged(alloc, set, vids)?;
    let file = file_of_table(alloc, &session.user, table)?;
    to_file(alloc, &set.cvd, rows.as_slice(), &file)
}

/// Stages the merge of these versions as a table of the user's.
fn staged(
    alloc: Global,
    world: &World,
    session: &Session,
    table: &Txt,
    vids: &[u64],
    set: &Dataset,
    stage: Option<&Dataset>,
) -> Result<Deed, AllocError>
    requires stage { IfSome stage (λ set. IsSmallSet set.now) }
    requires small { IsSmallSet set.now }
    requires few { length vids.now ≤ 65535 }
    ensures is { IfOk result (λ deed. deed_of deed ≡ staged world.now (session_of session.now) table.now vids.now set.now (option_copied stage.entry)) }
    ensures small { IfOk result (λ deed. AreSmallMoves deed.moves) }
{
    let after = with_staged(alloc, session, table, vids, set)?;
    let reply = staged_reply(alloc, session, table, vids, set)?;
    let row = table_row(alloc, &session.user, table, &set.cvd, vids)?;
    let rows = with_row(alloc, last_rows(stage), &row)?;
    let own = stage_name(alloc)?;
    let schema = stage_schema(alloc)?;
    changes(
        alloc,
        world,
        session,
        &after,
        &own,
        &schema,
        rows.as_slice(),
        reply,
        stage,
    )
}

/// What a `checkout -t` of this dataset does, where there may be such a table.
fn stage_of(
    alloc: Global,
    world: &World,
    session: &Session,
    cvd: &Txt,
    table: &Txt,
    vids: &[u64],
    stage: Option<&Dataset>,
    set: Option<&Dataset>,
) -> Result<Deed, AllocError>
    requires stage { IfSome stage (λ set. IsSmallSet set.now) }
    requires small { IfSome set (λ set. IsSmallSet set.now) }
    requires few { length vids.now ≤ 65535 }
    ensures is { IfOk result (λ deed. deed_of deed ≡ stage_of world.now (session_of session.now) cvd.now table.now vids.now (option_copied stage.entry) (option_copied set.entry)) }
    ensures small { IfOk result (λ deed. AreSmallMoves deed.moves) }
{
    match set {
        None => no_cvd(alloc, session, cvd),
        Some(set) => match staged_refusal(alloc, session, table, vids, set, stage)? {
            Some(refusal) => refuses(alloc, session, refusal),
            None => staged(alloc, world, session, table, vids, set, stage),
        },
    }
}

/// What a `checkout -t` does.
pub fn stage_deed(
    alloc: Global,
    world: &World,
    session: &Session,
    cvd: &Txt,
    vids: &[u64],
    table: &Txt,
) -> Result<Deed, AllocError>
    requires small { AreSmall world.now.sets }
    requires few { length vids.now ≤ 65535 }
    ensures is { IfOk result (λ deed. deed_of deed ≡ stage_deed world.now (session_of session.now) cvd.now table.now vids.now (set_named world.now stage_name) (set_named world.now cvd.now)) }
    ensures small { IfOk result (λ deed. AreSmallMoves deed.moves) }
{
    let own = stage_name(alloc)?;
    let stage = first_named(world.sets.as_slice(), &own);
    match stage_refusal(alloc, table, vids, stage)? {
        Some(refusal) => refuses(alloc, session, refusal),
        None => {
            let set = first_named(world.sets.as_slice(), cvd);
            stage_of(alloc, world, session, cvd, table, vids, stage, set)
        }
    }
}

/// The live dataset of this name, where it is none of the store's own.
fn unreserved<'a>(world: &'a World, name: &Txt) -> Option<&'a Dataset>
    requires { AreSmall world.now.sets }
    ensures { option_copied result ≡ unreserved world.now name.now }
{
    if name.as_bytes().starts_with(b"orpheus_") {
        return None;
    }
    first_named(world.sets.as_slice(), name)
}

/// Whether a row names the number of a dataset.
fn is_made_as(row: &Row, set: &Dataset) -> bool
    ensures { result ≡ is_number (value_at row.now 3) set.now.cvd.number }
{
    match row.values().get(3) {
        Some(Value::Int(number)) => *number == set.cvd.number as i64,
        _ => false,
    }
}

/// The dataset that a table was checked out from.
fn set_staged<'a>(world: &'a World, row: &Row) -> Option<&'a Dataset>
    requires { AreSmall world.now.sets }
    ensures { option_copied result ≡ set_staged world.now row.now }
{
    match row.values().get(2) {
        Some(Value::Text(name)) => match unreserved(world, name) {
            Some(set) if is_made_as(row, set) => Some(set),
            _ => None,
        },
        _ => None,
    }
}

/// The versions that a table was checked out from.
fn vids_staged(alloc: Global, row: &Row) -> Result<Option<Items<u64>>, AllocError>
    ensures { IfOk result (λ vids. vids ≡ vids_staged row.now) }
{
    match row.values().get(4) {
        Some(Value::Text(text)) => vids_of(alloc, text.as_str()),
        _ => Ok(None),
    }
}

/// The refusal of a table that isn't there.
fn no_table(alloc: Global, session: &Session, user: &Txt, table: &Txt) -> Result<Deed, AllocError>
    ensures is { IfOk result (λ deed. deed_of deed ≡ refuses (session_of session.now) (no.NoTable (table_named user.now table.now))) }
    ensures small { IfOk result (λ deed. AreSmallMoves deed.moves) }
{
    let table = table_named(alloc, user, table)?;
    refuses(alloc, session, Refusal::NoTable { table })
}

/// What a commit of the table of this row does.
fn commit_row(
    alloc: Global,
    world: &World,
    session: &Session,
    user: &Txt,
    table: &Txt,
    message: &Txt,
    row: &Row,
) -> Result<Deed, AllocError>
    requires { AreSmall world.now.sets }
    ensures is { IfOk result (λ deed. deed_of deed ≡ commit_from world.now (session_of session.now) user.now table.now message.now (staged_by world.now (Some row.now))) }
    ensures small { IfOk result (λ deed. AreSmallMoves deed.moves) }
{
    let file = file_of_table(alloc, user, table)?;
    match set_staged(world, row) {
        None => no_table(alloc, session, user, table),
        Some(set) => match vids_staged(alloc, row)? {
            None => no_table(alloc, session, user, table),
            Some(vids) => {
                let asked = Asked {
                    vids: vids.as_slice(),
                    message,
                    added: &[],
                    file: &file,
                };
                commit_of(alloc, world, session, &set.cvd.name, &asked, set)
            }
        },
    }
}

/// What a `commit -t` does.
pub fn commit_staged_deed(
    alloc: Global,
    world: &World,
    session: &Session,
    user: &Txt,
    table: &Txt,
    message: &Txt,
) -> Result<Deed, AllocError>
    requires { AreSmall world.now.sets }
    ensures is { IfOk result (λ deed. deed_of deed ≡ commit_staged_deed world.now (session_of session.now) user.now table.now message.now (set_named world.now stage_name)) }
    ensures small { IfOk result (λ deed. AreSmallMoves deed.moves) }
{
    let own = stage_name(alloc)?;
    let schema = stage_schema(alloc)?;
    let stage = first_named(world.sets.as_slice(), &own);
    if is_foreign(&schema, stage) {
        return refuses(alloc, session, Refusal::ForeignRegistry);
    }
    match table_in(last_rows(stage), user, table)? {
        None => no_table(alloc, session, user, table),
        Some(row) => commit_row(alloc, world, session, user, table, message, row),
    }
}
