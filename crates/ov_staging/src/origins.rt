//! Where a staged table came from.

ghost use Rattle.std.specs.Prelude.{◌≡◌, ◌≢◌, ◌≤◌, ◌+◌, ℕ, [], true, None, Some, IfOk, IfErr, IfSome, OnOk, MatchResult, option_map};
ghost use Rattle.std.specs.Option.{option_copied};
ghost use Rattle.ov_catalog.specs.Sets.{set_in as numbers_of};
ghost use Rattle.ov_core.specs.AtWorld.{IsAtWorld};
ghost use Rattle.ov_fetch.specs.Extents.{Looked};
ghost use Rattle.ov_model.specs.Deed.{table_named as table_named_of};
ghost use Rattle.ov_model.specs.Registry.{is_number, stage_name, stage_schema, table_in, vids_staged as vids_staged_of};
ghost use Rattle.ov_model.specs.World.{World};
ghost use Rattle.ov_model.specs.declared.refusal.Refusal.{Refusal as RefusalValue};
ghost use Rattle.ov_model.specs.declared.refusal.Refusal.TheVariants as no;
ghost use Rattle.ov_registry.specs.Last.{IsLastDamaged, bytes_in, last_vid};
ghost use Rattle.ov_store.specs.Scanning.{set_in};
ghost use Rattle.ov_value.specs.Rows.{value_at};
ghost use Rattle.ov_staging.specs.Errors.{IsEnd, IsNoDamage};
ghost use Rattle.ov_staging.specs.Origins.{HasVersions, IsOriginBy, IsOriginIn, IsOriginOf, set_staged_in, unreserved_in};
ghost use Rattle.ov_staging.specs.Reading.{foreign_off};
ghost use Rattle.ov_staging.specs.declared.origins.Origin.TheVariants as origin;

use crate::errors::StagingErr;
use crate::names::table_named;
use crate::reading::{Found, read};
use ov_catalog::Cvd;
use ov_cmd::vids_of;
use ov_host::Host;
use ov_model::{Refusal, Seq};
use ov_registry::Registry;
use ov_store::Store;
use ov_users::find;
use ov_value::{Row, Txt, Value};
use std::alloc::{AllocError, Global};

/// Where a staged table came from.
#[derive(Drop)]
pub enum Origin {
    /// There is none to commit: `ForeignRegistry` or `NoTable`.
    Refused(Refusal),
    /// From versions of a dataset, as they were listed.
    From { cvd: Txt, vids: Seq<u64> },
}

// The live dataset of this name, where it is none of the store's own.
fn unreserved<'a>(store: &'a Store, name: &str) -> Option<&'a Cvd>
    ensures { option_map numbers_of (option_copied result) ≡ unreserved_in store.entry.now.held.numbers name.now }
{
    if name.as_bytes().starts_with(b"orpheus_") {
        return None;
    }
    store.catalog().cvd(name)
}

// Whether a row names the number of a dataset.
fn is_made_as(row: &Row, d: &Cvd) -> bool
    ensures { result ≡ is_number (value_at row.now 3) (numbers_of d.now).number }
{
    match row.values().get(3) {
        Some(Value::Int(number)) => *number == i64::from(d.number),
        _ => false,
    }
}

// The dataset that the table of a row came from.
fn set_staged<'a>(store: &'a Store, row: &Row) -> Option<&'a Cvd>
    ensures { option_map numbers_of (option_copied result) ≡ set_staged_in store.entry.now.held.numbers row.now }
{
    match row.values().get(2) {
        Some(Value::Text(name)) => match unreserved(store, name.as_str()) {
            Some(d) if is_made_as(row, d) => Some(d),
            _ => None,
        },
        _ => None,
    }
}

// The versions that it came from.
fn vids_staged(alloc: Global, row: &Row) -> Result<Option<Seq<u64>>, AllocError>
    ensures { IfOk result (λ vids. vids ≡ vids_staged_of row.now) }
{
    match row.values().get(4) {
        Some(Value::Text(text)) => vids_of(alloc, text.as_str()),
        _ => Ok(None),
    }
}

// The table isn't there, or what its row names isn't.
fn no_table(alloc: Global, owner: &Txt, table: &Txt) -> Result<Origin, AllocError>
    ensures { IfOk result (λ from. from ≡ origin.Refused (no.NoTable (table_named_of owner.now table.now))) }
{
    let table = table_named(alloc, owner.as_str(), table.as_str())?;
    Ok(Origin::Refused(Refusal::NoTable { table }))
}

// By the table's row.
fn origin_of_row(
    alloc: Global,
    store: &Store,
    row: &Row,
    owner: &Txt,
    table: &Txt,
) -> Result<Origin, AllocError>
    ensures of { IfOk result (IsOriginOf store.now.held.numbers owner.now table.now (Some row.now)) }
    ensures some { IfOk result HasVersions }
{
    let Some(d) = set_staged(store, row) else {
        return no_table(alloc, owner, table);
    };
    match vids_staged(alloc, row)? {
        Some(vids) => {
            let cvd = d.name.copy(alloc)?;
            Ok(Origin::From { cvd, vids })
        }
        None => no_table(alloc, owner, table),
    }
}

// By these rows of the staged tables. No version has as many as can't be counted.
fn origin_by(
    alloc: Global,
    store: &Store,
    rows: &[Row],
    owner: &Txt,
    table: &Txt,
) -> Result<Origin, AllocError>
    ensures of { IfOk result (IsOriginOf store.now.held.numbers owner.now table.now (table_in rows.now owner.now table.now)) }
    ensures some { IfOk result HasVersions }
{
    if rows.len() > u32::MAX as usize {
        return Err(AllocError);
    }
    let Some(place) = find(rows, owner.as_str(), table.as_str()) else {
        return no_table(alloc, owner, table);
    };
    match rows.get(place as usize) {
        Some(row) => origin_of_row(alloc, store, row, owner, table),
        None => no_table(alloc, owner, table),
    }
}

/// Where a user's staged table came from, for its commit: a dataset that is live under the name and the number that the table's row
/// has, and is none of the store's own, and the versions that were listed, whether they are there or not.
///
/// Else a refusal: `ForeignRegistry`, before anything is read; `NoTable`, where the table isn't there, or its row names no such
/// dataset or has no list of versions. The last version of the staged tables is read once. `Host`, `Memory` and `Damaged` end the
/// command. Nothing is changed.
pub fn origin_of<H: Host>(
    alloc: Global,
    store: &Store,
    host: &mut H,
    owner: &Txt,
    table: &Txt,
) -> Result<Origin, StagingErr>
    requires usable { store.now.usable ≡ true }
    ensures looked { Looked (H.state host.old) (H.state host.new) }
    ensures fetched { (H.state host.new).fetched ≤ (H.state host.old).fetched
        + bytes_in (set_in store.now.held.numbers stage_name) (last_vid (set_in store.now.held.numbers stage_name)) }
    ensures unread { (refusal : RefusalValue) → foreign_off stage_schema (set_in store.now.held.numbers stage_name) ≡ Some refusal
        → (H.state host.new ≡ H.state host.old) × IfOk result (λ from. from ≡ origin.Refused refusal) }
    ensures from { IfOk result (IsOriginBy store.now.held.numbers owner.now table.now (H.state host.old)) }
    ensures some { IfOk result HasVersions }
    ensures why { IfErr result (IsEnd (λ page. (foreign_off stage_schema (set_in store.now.held.numbers stage_name) ≡ None)
        × IsLastDamaged (set_in store.now.held.numbers stage_name) (H.state host.new) page) (H.state host.old) (H.state host.new)) }
    ensures whole { (page : ℕ) → (H.state host.old).tells ≡ true
        → OnOk result (foreign_off stage_schema (set_in store.now.held.numbers stage_name) ≡ None
        → IsLastDamaged (set_in store.now.held.numbers stage_name) (H.state host.old) page → ⊥) }
    ensures world { (w : World) → IsAtWorld w store.now.held (H.state host.old)
        → MatchResult result (IsOriginIn w owner.now table.now) IsNoDamage }
{
    match read(alloc, store, host, Registry::Stage) {
        Ok(Found::Foreign) => Ok(Origin::Refused(Refusal::ForeignRegistry)),
        Ok(Found::Rows(rows)) => match origin_by(alloc, store, rows.as_slice(), owner, table) {
            Ok(from) => Ok(from),
            Err(_) => Err(StagingErr::Memory),
        },
        Err(off) => Err(off),
    }
}
