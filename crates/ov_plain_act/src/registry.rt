//! The registry: the users and the staged tables, each kept as the rows of a dataset of the store's own; and a change of one.

ghost use Rattle.std.specs.Prelude.{◌≡◌, ◌≤◌, length, Some, None, IfOk, IfSome, codes};
ghost use Rattle.std.specs.Cmp.Lexicographic.{pointwise};
ghost use Rattle.std.specs.Option.{option_copied};
ghost use Rattle.ov_model.specs.Deed.{changes, text_in_row};
ghost use Rattle.ov_model.specs.Kinds.{is_same_kind};
ghost use Rattle.ov_model.specs.Registry.{change_refusal, is_foreign, is_same_column, is_same_schema, last_alone, last_rows, stage_name, stage_schema, table_in, users_name, users_schema, version_rows};
ghost use Rattle.ov_plain_act.specs.Acts.{deed_of, session_of};
ghost use Rattle.ov_plain_act.specs.Small.{AreSmallMoves, IsSmallSet};

use crate::acting::more_refusal;
use crate::committing::fresh_of;
use crate::deed::{Deed, Move, does, refuses};
use crate::session::Session;
use crate::world::World;
use ov_answers::{format_one, records_refusal, rows_at};
use ov_model::{Refusal, Reply};
use ov_plain::{Dataset, Version, copies_of, merged, onto};
use ov_users::find;
use ov_value::{Column, Kind, Row, Schema, Txt, Value};
use sqlite_items::Items;
use std::alloc::{AllocError, Global};

/// The name of the dataset of the users.
pub fn users_name(alloc: Global) -> Result<Txt, AllocError>
    ensures { IfOk result (λ name. name ≡ users_name) }
{
    Txt::new(alloc, "orpheus_users")
}

/// The name of the dataset of the staged tables.
pub fn stage_name(alloc: Global) -> Result<Txt, AllocError>
    ensures { IfOk result (λ name. name ≡ stage_name) }
{
    Txt::new(alloc, "orpheus_stage")
}

/// A column of this name and kind.
fn column(alloc: Global, name: &str, kind: Kind) -> Result<Column, AllocError>
    ensures { IfOk result (λ made. made ≡ record { name = name.now; kind = kind }) }
{
    let name = Txt::new(alloc, name)?;
    Ok(Column { name, kind })
}

/// The schema of the users.
pub fn users_schema(alloc: Global) -> Result<Schema, AllocError>
    ensures { IfOk result (λ made. made ≡ users_schema) }
{
    let mut columns = Vec::with_capacity(alloc, 1)?;
    columns.push(column(alloc, "name", Kind::Text)?)?;
    let mut key = Vec::with_capacity(alloc, 1)?;
    key.push(Txt::new(alloc, "name")?)?;
    match Schema::new(alloc, columns, key) {
        Ok(schema) => Ok(schema),
        Err(_) => Err(AllocError),
    }
}

/// The schema of the staged tables.
pub fn stage_schema(alloc: Global) -> Result<Schema, AllocError>
    ensures { IfOk result (λ made. made ≡ stage_schema) }
{
    let mut columns = Vec::with_capacity(alloc, 5)?;
    columns.push(column(alloc, "owner", Kind::Text)?)?;
    columns.push(column(alloc, "name", Kind::Text)?)?;
    columns.push(column(alloc, "cvd", Kind::Text)?)?;
    columns.push(column(alloc, "made", Kind::Int)?)?;
    columns.push(column(alloc, "vids", Kind::Text)?)?;
    let mut key = Vec::with_capacity(alloc, 2)?;
    key.push(Txt::new(alloc, "owner")?)?;
    key.push(Txt::new(alloc, "name")?)?;
    match Schema::new(alloc, columns, key) {
        Ok(schema) => Ok(schema),
        Err(_) => Err(AllocError),
    }
}

/// Whether two kinds are the same.
fn is_same_kind(a: Kind, b: Kind) -> bool
    ensures { result ≡ is_same_kind a b }
{
    match (a, b) {
        (Kind::Int, Kind::Int) => true,
        (Kind::Text, Kind::Text) => true,
        (Kind::Flag, Kind::Flag) => true,
        _ => false,
    }
}

/// Whether two columns are the same.
fn is_same_column(a: &Column, b: &Column) -> bool
    ensures { result ≡ is_same_column a.now b.now }
{
    a.name.as_str() == b.name.as_str() && is_same_kind(a.kind, b.kind)
}

/// Whether these columns are the same, one by one.
fn are_same_columns(a: &[Column], b: &[Column]) -> bool
    ensures { result ≡ pointwise is_same_column a.now b.now }
{
    match (a, b) {
        ([], []) => true,
        ([x, xs @ ..], [y, ys @ ..]) => is_same_column(x, y) && are_same_columns(xs, ys),
        _ => false,
    }
}

/// Whether two schemas are the same.
fn is_same_schema(a: &Schema, b: &Schema) -> bool
    ensures { result ≡ is_same_schema a.now b.now }
{
    are_same_columns(a.columns(), b.columns()) && a.key() == b.key()
}

/// Whether the dataset is live with another schema.
pub fn is_foreign(schema: &Schema, set: Option<&Dataset>) -> bool
    ensures { result ≡ is_foreign schema.now (option_copied set.entry) }
{
    match set {
        None => false,
        Some(set) => !is_same_schema(&set.cvd.schema, schema),
    }
}

/// The rows of the dataset's last version; none where it isn't live.
pub fn last_rows(set: Option<&Dataset>) -> &[Row]
    ensures { result.now ≡ last_rows (option_copied set.entry) }
{
    match set {
        None => &[],
        Some(set) => rows_at(set.cvd.versions.as_slice(), set.cvd.versions.len() as u64),
    }
}

/// The row of this owner's table of this name.
pub fn table_in<'a>(rows: &'a [Row], owner: &Txt, name: &Txt) -> Result<Option<&'a Row>, AllocError>
    ensures { IfOk result (λ found. option_copied found ≡ table_in rows.now owner.now name.now) }
{
    if rows.len() >= 4_294_967_296 {
        return Err(AllocError);
    }
    match find(rows, owner.as_str(), name.as_str()) {
        None => Ok(None),
        Some(place) => Ok(rows.get(place as usize)),
    }
}

/// The text of a row at a place; none of a value that is no text.
pub fn text_in_row(row: &Row, place: usize) -> &str
    ensures { result.now ≡ text_in_row row.now place }
{
    match row.values().get(place) {
        Some(Value::Text(text)) => text.as_str(),
        _ => "",
    }
}

/// These rows as a version has them.
fn version_rows(alloc: Global, schema: &Schema, rows: &[Row]) -> Result<Items<Row>, AllocError>
    ensures { IfOk result (λ found. found ≡ version_rows schema.now rows.now) }
{
    let lists = onto(alloc, copies_of(alloc, rows)?, Items::new(alloc))?;
    merged(alloc, schema, lists.as_slice())
}

/// Why there can't be a dataset of this name with these rows.
fn new_refusal(
    alloc: Global,
    world: &World,
    name: &Txt,
    rows: &[Row],
) -> Result<Option<Refusal>, AllocError>
    ensures { IfOk result (λ refusal. refusal ≡ change_refusal world.now name.now rows.now None) }
{
    match more_refusal(alloc, world, name)? {
        Some(refusal) => Ok(Some(refusal)),
        None => {
            if rows.len() > 1_000_000 {
                Ok(Some(Refusal::TooManyRows))
            } else {
                Ok(format_one(world.format, false, rows))
            }
        }
    }
}

/// Makes the dataset of this name of these rows.
fn begins(
    alloc: Global,
    world: &World,
    session: &Session,
    after: &Session,
    name: &Txt,
    schema: &Schema,
    rows: &[Row],
    reply: Reply,
) -> Result<Deed, AllocError>
    ensures is { IfOk result (λ deed. deed_of deed ≡ changes world.now (session_of session.now) (session_of after.now) name.now schema.now rows.now reply None) }
    ensures small { IfOk result (λ deed. AreSmallMoves deed.moves) }
{
    let rows = version_rows(alloc, schema, rows)?;
    match new_refusal(alloc, world, name, rows.as_slice())? {
        Some(refusal) => refuses(alloc, session, refusal),
        None => {
            let name = name.copy(alloc)?;
            let schema = schema.copy(alloc)?;
            does(alloc, after, Move::Init { name, schema, rows }, reply)
        }
    }
}

/// The next version of a dataset of the registry, whose one parent is the last one.
fn next_version(alloc: Global, set: &Dataset, rows: Items<Row>) -> Result<Version, AllocError>
    requires { length set.now.cvd.versions ≤ 65535 }
    ensures parents { IfOk result (λ version. version.parents ≡ last_alone set.now) }
    ensures message { IfOk result (λ version. version.message ≡ codes "stage") }
    ensures rows { IfOk result (λ version. version.rows ≡ rows) }
{
    let last = set.cvd.versions.len() as u32;
    let parents = onto(alloc, last, Items::new(alloc))?;
    let message = Txt::new(alloc, "stage")?;
    Ok(Version {
        parents,
        message,
        rows,
    })
}

/// Why the dataset of this name doesn't take this version.
fn next_refusal(
    alloc: Global,
    world: &World,
    name: &Txt,
    set: &Dataset,
    version: &Version,
) -> Result<Option<Refusal>, AllocError>
    requires parents { version.now.parents ≡ last_alone set.now }
    requires message { version.now.message ≡ codes "stage" }
    ensures is { IfOk result (λ refusal. refusal ≡ change_refusal world.now name.now version.now.rows (Some set.now)) }
    ensures few { IfOk result (λ refusal. refusal ≡ None → length version.now.rows ≤ 1000000) }
{
    if 65_535 <= set.cvd.versions.len() {
        let cvd = name.copy(alloc)?;
        return Ok(Some(Refusal::TooManyVersions { cvd }));
    }
    if version.rows.len() > 1_000_000 {
        return Ok(Some(Refusal::TooManyRows));
    }
    match format_one(world.format, false, version.rows.as_slice()) {
        Some(refusal) => Ok(Some(refusal)),
        None => {
            let fresh = fresh_of(alloc, set, version)?;
            records_refusal(alloc, set, fresh)
        }
    }
}

/// Gives a dataset of the registry these rows in place of those of its last version.
fn goes_on(
    alloc: Global,
    world: &World,
    session: &Session,
    after: &Session,
    name: &Txt,
    schema: &Schema,
    rows: &[Row],
    reply: Reply,
    set: &Dataset,
) -> Result<Deed, AllocError>
    requires { length set.now.cvd.versions ≤ 65535 }
    ensures is { IfOk result (λ deed. deed_of deed ≡ changes world.now (session_of session.now) (session_of after.now) name.now schema.now rows.now reply (Some set.now)) }
    ensures small { IfOk result (λ deed. AreSmallMoves deed.moves) }
{
    let version = next_version(alloc, set, version_rows(alloc, schema, rows)?)?;
    match next_refusal(alloc, world, name, set, &version)? {
        Some(refusal) => refuses(alloc, session, refusal),
        None => {
            let the_move = Move::Commit {
                cvd: set.cvd.number,
                added: Items::new(alloc),
                version,
            };
            does(alloc, after, the_move, reply)
        }
    }
}

/// Gives the dataset of this name, live or not, these rows in place of those of its last version, after which `after` is the
/// session.
pub fn changes(
    alloc: Global,
    world: &World,
    session: &Session,
    after: &Session,
    name: &Txt,
    schema: &Schema,
    rows: &[Row],
    reply: Reply,
    set: Option<&Dataset>,
) -> Result<Deed, AllocError>
    requires { IfSome set (λ set. IsSmallSet set.now) }
    ensures is { IfOk result (λ deed. deed_of deed ≡ changes world.now (session_of session.now) (session_of after.now) name.now schema.now rows.now reply (option_copied set.entry)) }
    ensures small { IfOk result (λ deed. AreSmallMoves deed.moves) }
{
    match set {
        None => begins(alloc, world, session, after, name, schema, rows, reply),
        Some(set) => goes_on(alloc, world, session, after, name, schema, rows, reply, set),
    }
}
