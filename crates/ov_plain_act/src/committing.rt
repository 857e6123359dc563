//! Commits: a version more of a file's rows, with columns added at the right, or why there is none.

ghost use Rattle.std.specs.Prelude.{◌≡◌, ◌≢◌, ◌==◌, ◌+◌, ◌≤◌, ◌<◌, not, length, Ok, Err, Some, None, IfOk, IfErr};
ghost use Rattle.ov_value.specs.declared.schema_err.SchemaErr.TheVariants as off;
ghost use Rattle.ov_model.specs.Act.{commit_refusal, commit_rows, commit_under, commit_deed, fresh_of, schema_with};
ghost use Rattle.ov_model.specs.Forms.{schema_refusal};
ghost use Rattle.ov_model.specs.Moves.{version_of};
ghost use Rattle.ov_model.specs.World.{set_named};
ghost use Rattle.ov_model.specs.declared.reply.Reply.TheVariants as says;
ghost use Rattle.ov_plain_act.specs.Acts.{deed_of, session_of};
ghost use Rattle.ov_plain_act.specs.Small.{AllFit, AreSmall, AreSmallMoves};

use crate::accepted::accepted;
use crate::deed::{Deed, Move, does, no_cvd, refuses};
use crate::session::Session;
use crate::telling::count_fresh;
use crate::world::{World, first_named};
use ov_answers::{commit_refusal, records_refusal};
use ov_model::{Refusal, Reply};
use ov_plain::{Dataset, Version, copies_of, onto, own_records, wide};
use ov_value::{Column, Row, Schema, SchemaErr, Txt};
use sqlite_items::Items;
use std::alloc::{AllocError, Global};

/// What a commit asks: its parents, its message, the columns that it adds, and the file of its rows.
#[derive(Drop)]
pub struct Asked<'a> {
    pub vids: &'a [u64],
    pub message: &'a Txt,
    pub added: &'a [Column],
    pub file: &'a Txt,
}

/// These numbers, each of which fits 32 bits.
fn fitting(alloc: Global, vids: &[u64]) -> Result<Items<u32>, AllocError>
    requires { AllFit vids.now }
    ensures { IfOk result (λ found. found ≡ vids.now) }
{
    match vids {
        [] => Ok(Items::new(alloc)),
        [vid, rest @ ..] => {
            let later = fitting(alloc, rest)?;
            onto(alloc, *vid as u32, later)
        }
    }
}

/// A version of these parents, message and rows.
fn version_of(
    alloc: Global,
    vids: &[u64],
    message: &Txt,
    rows: Items<Row>,
) -> Result<Version, AllocError>
    requires { AllFit vids.now }
    ensures { IfOk result (λ version. version ≡ version_of vids.now message.now rows) }
{
    let parents = fitting(alloc, vids)?;
    let message = message.copy(alloc)?;
    Ok(Version {
        parents,
        message,
        rows,
    })
}

/// How many records of a new version no parent gives it.
pub fn fresh_of(alloc: Global, set: &Dataset, version: &Version) -> Result<u32, AllocError>
    requires versions { length set.now.cvd.versions < 65535 }
    requires rows { length version.now.rows ≤ 1000000 }
    ensures { IfOk result (λ fresh. fresh ≡ fresh_of set.now version.now.parents version.now.message version.now.rows) }
{
    let own = own_records(alloc, set.cvd.versions.as_slice(), version)?;
    Ok(count_fresh(own.as_slice(), set.cvd.versions.len() as u32 + 1))
}

/// What is told of a commit of a version, of whose records so many are new.
fn committed(
    alloc: Global,
    set: &Dataset,
    version: &Version,
    fresh: u32,
) -> Result<Reply, AllocError>
    requires versions { length set.now.cvd.versions < 65535 }
    requires rows { length version.now.rows ≤ 1000000 }
    ensures { IfOk result (λ reply. reply ≡ says.Commit set.now.cvd.name (length set.now.cvd.versions + 1) (length version.now.rows) fresh) }
{
    Ok(Reply::Commit {
        cvd: set.cvd.name.copy(alloc)?,
        vid: set.cvd.versions.len() as u32 + 1,
        rows: version.rows.len() as u32,
        fresh,
    })
}

/// What a commit of this version does.
fn commit_version(
    alloc: Global,
    session: &Session,
    set: &Dataset,
    added: &[Column],
    version: Version,
) -> Result<Deed, AllocError>
    requires versions { length set.now.cvd.versions < 65535 }
    requires rows { length version.rows ≤ 1000000 }
    ensures is { IfOk result (λ deed. deed_of deed ≡ commit_rows (session_of session.now) set.now version.parents version.message added.now version.rows) }
    ensures small { IfOk result (λ deed. AreSmallMoves deed.moves) }
{
    let wider = wide(alloc, added, set)?;
    let fresh = fresh_of(alloc, &wider, &version)?;
    match records_refusal(alloc, &wider, fresh)? {
        Some(refusal) => refuses(alloc, session, refusal),
        None => {
            let reply = committed(alloc, set, &version, fresh)?;
            let the_move = Move::Commit {
                cvd: set.cvd.number,
                added: copies_of(alloc, added)?,
                version,
            };
            does(alloc, session, the_move, reply)
        }
    }
}

/// A schema with the added columns, where they are accepted; none are.
fn schema_with(alloc: Global, schema: &Schema, added: &[Column]) -> Result<Schema, SchemaErr>
    ensures ok { IfOk result (λ made. schema_with schema.now added.now ≡ Ok made) }
    ensures err { IfErr result (λ why. why ≢ off.Memory → schema_with schema.now added.now ≡ Err why) }
{
    match added {
        [] => Ok(schema.copy(alloc)?),
        [_, ..] => schema.widen(alloc, added),
    }
}

/// The refusal of columns. Want of memory is none.
fn schema_refusal(why: SchemaErr) -> Result<Refusal, AllocError>
    ensures is { IfOk result (λ refusal. refusal ≡ schema_refusal why) }
    ensures told { IfOk result (λ refusal. why ≢ off.Memory) }
{
    match why {
        SchemaErr::NoColumns => Ok(Refusal::NoColumns),
        SchemaErr::TooManyColumns => Ok(Refusal::TooManyColumns),
        SchemaErr::BadName { name } => Ok(Refusal::BadName { name }),
        SchemaErr::RepeatedName { name } => Ok(Refusal::RepeatedName { name }),
        SchemaErr::NoKey => Ok(Refusal::NoKey),
        SchemaErr::UnknownKey { name } => Ok(Refusal::UnknownKey { name }),
        SchemaErr::RepeatedKey { name } => Ok(Refusal::RepeatedKey { name }),
        SchemaErr::Memory => Err(AllocError),
    }
}

/// What a commit to this dataset does, with parents that are accepted, under the schema with the added columns.
fn commit_file(
    alloc: Global,
    world: &World,
    session: &Session,
    asked: &Asked,
    schema: &Schema,
    set: &Dataset,
) -> Result<Deed, AllocError>
    requires fit { AllFit asked.now.vids.now }
    requires versions { length set.now.cvd.versions < 65535 }
    ensures is { IfOk result (λ deed. deed_of deed ≡ commit_under world.now (session_of session.now) set.now asked.now.vids.now asked.now.message.now asked.now.added.now asked.now.file.now (Ok schema.now)) }
    ensures small { IfOk result (λ deed. AreSmallMoves deed.moves) }
{
    let adds = !asked.added.is_empty();
    match accepted(alloc, world, session, schema, adds, asked.file)? {
        Err(reason) => refuses(alloc, session, reason),
        Ok(rows) => {
            let version = version_of(alloc, asked.vids, asked.message, rows)?;
            commit_version(alloc, session, set, asked.added, version)
        }
    }
}

/// What a commit to this dataset does, with parents that are accepted.
fn commit_onto(
    alloc: Global,
    world: &World,
    session: &Session,
    asked: &Asked,
    set: &Dataset,
) -> Result<Deed, AllocError>
    requires fit { AllFit asked.now.vids.now }
    requires versions { length set.now.cvd.versions < 65535 }
    ensures is { IfOk result (λ deed. deed_of deed ≡ commit_under world.now (session_of session.now) set.now asked.now.vids.now asked.now.message.now asked.now.added.now asked.now.file.now (schema_with set.now.cvd.schema asked.now.added.now)) }
    ensures small { IfOk result (λ deed. AreSmallMoves deed.moves) }
{
    match schema_with(alloc, &set.cvd.schema, asked.added) {
        Ok(schema) => commit_file(alloc, world, session, asked, &schema, set),
        Err(why) => {
            let refusal = schema_refusal(why)?;
            refuses(alloc, session, refusal)
        }
    }
}

/// What a commit to this dataset does.
pub fn commit_of(
    alloc: Global,
    world: &World,
    session: &Session,
    name: &Txt,
    asked: &Asked,
    set: &Dataset,
) -> Result<Deed, AllocError>
    ensures is { IfOk result (λ deed. deed_of deed ≡ commit_deed world.now (session_of session.now) name.now asked.now.vids.now asked.now.message.now asked.now.added.now asked.now.file.now (Some set.now)) }
    ensures small { IfOk result (λ deed. AreSmallMoves deed.moves) }
{
    match commit_refusal(alloc, set, asked.vids)? {
        Some(refusal) => refuses(alloc, session, refusal),
        None => commit_onto(alloc, world, session, asked, set),
    }
}

/// What a commit does.
pub fn commit_deed(
    alloc: Global,
    world: &World,
    session: &Session,
    name: &Txt,
    asked: &Asked,
) -> Result<Deed, AllocError>
    requires { AreSmall world.now.sets }
    ensures is { IfOk result (λ deed. deed_of deed ≡ commit_deed world.now (session_of session.now) name.now asked.now.vids.now asked.now.message.now asked.now.added.now asked.now.file.now (set_named world.now name.now)) }
    ensures small { IfOk result (λ deed. AreSmallMoves deed.moves) }
{
    match first_named(world.sets.as_slice(), name) {
        None => no_cvd(alloc, session, name),
        Some(set) => commit_of(alloc, world, session, name, asked, set),
    }
}
