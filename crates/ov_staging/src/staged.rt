//! The commands on staged tables.

ghost use Rattle.std.specs.Prelude.{◌≡◌, ◌≤◌, ◌+◌, ◌-◌, ◌^◌, min, ℕ, true, None, Some, IfOk, IfErr, OnOk, MatchResult, filter, map};
ghost use Rattle.ov_core.specs.AtWorld.{IsAtWorld};
ghost use Rattle.ov_core.specs.Held.{IsByJournal};
ghost use Rattle.ov_fetch.specs.Extents.{Looked};
ghost use Rattle.ov_model.specs.Act.{Session, if_so};
ghost use Rattle.ov_model.specs.Deed.{is_own as is_own_of, table_shown, text_in_row, unstage_deed};
ghost use Rattle.ov_model.specs.Registry.{is_foreign as is_foreign_of, last_rows as last_rows_of, stage_name, stage_schema};
ghost use Rattle.ov_model.specs.World.{World, set_named};
ghost use Rattle.ov_model.specs.declared.refusal.Refusal.{Refusal as RefusalValue};
ghost use Rattle.ov_model.specs.declared.refusal.Refusal.TheVariants as no;
ghost use Rattle.ov_model.specs.declared.reply.Reply.TheVariants as says;
ghost use Rattle.ov_registry.specs.Last.{IsLastDamaged, bytes_in, last_vid};
ghost use Rattle.ov_registry.specs.declared.registry.Registry.TheVariants as registry;
ghost use Rattle.ov_store.specs.Kept.{MayCall};
ghost use Rattle.ov_store.specs.Scanning.{set_in};
ghost use Rattle.ov_staging.specs.Changing.{IsAnswered, IsDamagedBy};
ghost use Rattle.ov_staging.specs.Errors.{Acts, IsEnd, IsNoDamage, Stays};
ghost use Rattle.ov_staging.specs.Reading.{answer_or, foreign_off};
ghost use Rattle.ov_staging.specs.Tables.{AreShown, AreShownBy, table_change, table_rows, tables_reply};

use crate::answering::changed;
use crate::deciding::Asked;
use crate::errors::StagingErr;
use crate::reading::{Found, read};
use ov_host::Host;
use ov_model::{Refusal, Reply, Seq, TableLine};
use ov_registry::Registry;
use ov_store::Store;
use ov_value::{Row, Txt, Value};
use std::alloc::{AllocError, Global};

/// Takes a staged table off, by one Commit of the staged tables.
///
/// Refusals in their order: `ForeignRegistry`, before anything is read; `NoTable`; and then those of the change: `TooManyVersions`,
/// `TooManyRecords`, `NoRun`, `JournalFull`. A refusal leaves all as it was. The last version of the staged tables is read once, and
/// once more as the parent of the Commit. `Host`, `Memory` and `Damaged` end the command.
pub fn unstage<H: Host>(
    alloc: Global,
    store: &mut Store,
    host: &mut H,
    owner: Txt,
    table: Txt,
) -> Result<Reply, StagingErr>
    requires call { MayCall store.old (H.state host.old) }
    ensures told { (H.state host.new).tells ≡ (H.state host.old).tells }
    ensures kept { (H.state host.new).keeps ≡ (H.state host.old).keeps }
    ensures faults { (H.state host.old).faults ≤ (H.state host.new).faults }
    ensures counted { min (H.state host.old).fetched (2 ^ 64 - 1) ≤ (H.state host.new).fetched }
    ensures fetched { (H.state host.new).fetched ≤ (H.state host.old).fetched
        + (bytes_in (set_in store.old.held.numbers stage_name) (last_vid (set_in store.old.held.numbers stage_name))
        + bytes_in (set_in store.old.held.numbers stage_name) (last_vid (set_in store.old.held.numbers stage_name))) }
    ensures unread { (refusal : RefusalValue) → foreign_off stage_schema (set_in store.old.held.numbers stage_name) ≡ Some refusal
        → (H.state host.new ≡ H.state host.old) × IfOk result (λ reply. reply ≡ says.Refused refusal) }
    ensures done { IfOk result (λ reply. IsAnswered registry.Stage (set_in store.old.held.numbers stage_name) (table_change owner table)
        (says.Unstaged owner table) reply store.old store.new (H.state host.old) (H.state host.new)) }
    ensures why { IfErr result (IsEnd (λ page. (foreign_off stage_schema (set_in store.old.held.numbers stage_name) ≡ None)
        × IsDamagedBy registry.Stage (set_in store.old.held.numbers stage_name) (table_rows owner table) store.old.held (H.state host.new) page)
        (H.state host.old) (H.state host.new)) }
    ensures whole { (page : ℕ) → (H.state host.old).tells ≡ true
        → OnOk result (foreign_off stage_schema (set_in store.old.held.numbers stage_name) ≡ None
        → IsLastDamaged (set_in store.old.held.numbers stage_name) (H.state host.old) page → ⊥) }
    ensures stays { IfErr result (λ e. Stays e store.old store.new (H.state host.old) (H.state host.new)) }
    ensures usable { OnOk result (MayCall store.new (H.state host.new)) }
    ensures by_journal { IsByJournal store.old.held (H.state host.old) → OnOk result (IsByJournal store.new.held (H.state host.new)) }
    ensures undamaged { (w : World) → IsAtWorld w store.old.held (H.state host.old) → IfErr result IsNoDamage }
    ensures acts { (w : World) (s : Session) → IsAtWorld w store.old.held (H.state host.old)
        → Acts (unstage_deed w s owner table (set_named w stage_name)) s w result
        store.old.held store.new.held (H.state host.old) (H.state host.new) }
{
    changed(
        alloc,
        store,
        host,
        Registry::Stage,
        Asked::Unstage { owner, table },
    )
}

// The text at a place of a row; none where another value stands there.
fn text_at(alloc: Global, row: &Row, place: usize) -> Result<Txt, AllocError>
    ensures { IfOk result (λ text. text ≡ text_in_row row.now place) }
{
    match row.values().get(place) {
        Some(Value::Text(text)) => text.copy(alloc),
        _ => Txt::new(alloc, ""),
    }
}

// Whether it is the row of a user's table.
fn is_own(row: &Row, user: &str) -> bool
    ensures { result ≡ is_own_of user.now row.now }
{
    match row.values().get(0) {
        Some(Value::Text(owner)) => owner.as_str() == user,
        _ => user.len() == 0,
    }
}

fn line_of(alloc: Global, row: &Row) -> Result<TableLine, AllocError>
    ensures { IfOk result (λ line. line ≡ table_shown row.now) }
{
    Ok(TableLine {
        user: text_at(alloc, row, 0)?,
        table: text_at(alloc, row, 1)?,
        cvd: text_at(alloc, row, 2)?,
        vids: text_at(alloc, row, 4)?,
    })
}

// A line for each of the user's own tables.
fn own_lines(alloc: Global, rows: &[Row], user: &str) -> Result<Seq<TableLine>, AllocError>
    ensures { IfOk result (λ lines. lines ≡ map table_shown (filter (is_own_of user.now) rows.now)) }
{
    let mut lines = Vec::new(alloc);
    for row in rows {
        if is_own(row, user) {
            lines.push(line_of(alloc, row)?)?;
        }
    }
    Ok(Seq::from_vec(lines))
}

// The reply to `tables`, by what was found of the staged tables.
fn shown(alloc: Global, found: Found, user: &str) -> Result<Reply, AllocError>
    ensures { IfOk result (AreShownBy user.now found) }
{
    match found {
        Found::Foreign => Ok(Reply::Refused(Refusal::ForeignRegistry)),
        Found::Rows(rows) => Ok(Reply::Tables {
            tables: own_lines(alloc, rows.as_slice(), user)?,
        }),
    }
}

/// A user's own staged tables, by name, each with the dataset and the versions that it was checked out from; or the refusal
/// `ForeignRegistry`, before anything is read.
///
/// The last version of the staged tables is read once. `Host`, `Memory` and `Damaged` end the command. Nothing is changed.
pub fn tables<H: Host>(
    alloc: Global,
    store: &Store,
    host: &mut H,
    user: &str,
) -> Result<Reply, StagingErr>
    requires usable { store.now.usable ≡ true }
    ensures looked { Looked (H.state host.old) (H.state host.new) }
    ensures fetched { (H.state host.new).fetched ≤ (H.state host.old).fetched
        + bytes_in (set_in store.now.held.numbers stage_name) (last_vid (set_in store.now.held.numbers stage_name)) }
    ensures unread { (refusal : RefusalValue) → foreign_off stage_schema (set_in store.now.held.numbers stage_name) ≡ Some refusal → H.state host.new ≡ H.state host.old }
    ensures reply { IfOk result (AreShown user.now (set_in store.now.held.numbers stage_name) (H.state host.old)) }
    ensures why { IfErr result (IsEnd (λ page. (foreign_off stage_schema (set_in store.now.held.numbers stage_name) ≡ None)
        × IsLastDamaged (set_in store.now.held.numbers stage_name) (H.state host.new) page) (H.state host.old) (H.state host.new)) }
    ensures whole { (page : ℕ) → (H.state host.old).tells ≡ true
        → OnOk result (foreign_off stage_schema (set_in store.now.held.numbers stage_name) ≡ None
        → IsLastDamaged (set_in store.now.held.numbers stage_name) (H.state host.old) page → ⊥) }
    ensures world { (w : World) → IsAtWorld w store.now.held (H.state host.old)
        → MatchResult result (λ reply. reply ≡ answer_or (if_so (is_foreign_of stage_schema (set_named w stage_name)) no.ForeignRegistry)
        (tables_reply user.now (last_rows_of (set_named w stage_name)))) IsNoDamage }
{
    match read(alloc, store, host, Registry::Stage) {
        Ok(found) => match shown(alloc, found, user) {
            Ok(reply) => Ok(reply),
            Err(_) => Err(StagingErr::Memory),
        },
        Err(off) => Err(off),
    }
}
