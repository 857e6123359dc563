//! A checkout as a staged table, up to its change.

ghost use Rattle.std.specs.Prelude.{◌≡◌, ◌≤◌, ◌+◌, ◌++◌, ℕ, [], true, false, None, Some, IfOk, IfErr, OnOk, MatchResult, codes, decimal, flat_map, string_bytes};
ghost use Rattle.ov_core.specs.AtWorld.{IsAtWorld};
ghost use Rattle.ov_fetch.specs.Extents.{Looked};
ghost use Rattle.ov_host.specs.Host.{State};
ghost use Rattle.ov_model.specs.Act.{repeated_key};
ghost use Rattle.ov_model.specs.Lists.{Rises};
ghost use Rattle.ov_model.specs.Registry.{stage_name, stage_schema, table_row as table_row_of};
ghost use Rattle.ov_model.specs.Replies.{numbers};
ghost use Rattle.ov_model.specs.World.{World, set_named};
ghost use Rattle.ov_model.specs.declared.refusal.Refusal.{Refusal as RefusalValue};
ghost use Rattle.ov_registry.specs.Last.{IsLastDamaged, bytes_in, is_foreign_in, last_vid};
ghost use Rattle.ov_store.specs.Refusals.{refused as refused_of};
ghost use Rattle.ov_store.specs.Scanning.{scan_off, set_in};
ghost use Rattle.ov_value.specs.Rows.{key_cmp};
ghost use Rattle.ov_staging.specs.Changing.{IfNext, IsNextBy, IsNextIn};
ghost use Rattle.ov_staging.specs.Deciding.{IsDecided, IsDecidedBy};
ghost use Rattle.ov_staging.specs.Errors.{IsEnd, IsNoDamage};
ghost use Rattle.ov_staging.specs.Reading.{IfRows, foreign_off};
ghost use Rattle.ov_staging.specs.Taking.{IsTableRow, IsTakenBy, IsTakenIn, number_in, stage_change, stage_off, staged_row as staged_row_in, unfit_off as unfit_of};
ghost use Rattle.ov_staging.specs.declared.changing.Next.TheVariants as comes;

use crate::changing::Next;
use crate::deciding::has_table;
use crate::errors::{StagingErr, refusal_in};
use crate::names::table_named;
use crate::reading::{Found, read};
use itoa::Buffer;
use ov_host::Host;
use ov_model::Refusal;
use ov_registry::{Registry, is_foreign};
use ov_store::Store;
use ov_users::with_row;
use ov_value::{Row, Txt, Value, is_name};
use std::alloc::{AllocError, Global};

/// The most versions of a staged table.
const MOST_LISTED: usize = 1_000;

// Adds a number.
fn add_number(number: u64, text: &mut String) -> Result<(), AllocError>
    ensures { OnOk result (string_bytes text.new ≡ string_bytes text.old ++ decimal number) }
{
    let mut digits = Buffer::new();
    text.push_str(digits.format(number))
}

// Adds these numbers, each behind a comma.
fn add_numbers(vids: &[u64], text: &mut String) -> Result<(), AllocError>
    ensures { OnOk result (string_bytes text.new ≡ string_bytes text.old ++ flat_map (λ n. codes "," ++ decimal n) vids.now) }
{
    for vid in vids {
        text.push_str(",")?;
        add_number(*vid, text)?;
    }
    Ok(())
}

// These numbers with commas between them.
fn numbers_text(alloc: Global, vids: &[u64]) -> Result<Txt, AllocError>
    ensures { IfOk result (λ text. text ≡ numbers vids.now) }
{
    let mut text = String::new(alloc);
    match vids {
        [] => {}
        [first, rest @ ..] => {
            add_number(*first, &mut text)?;
            add_numbers(rest, &mut text)?;
        }
    }
    Txt::from_string(text)
}

// The number of a dataset, where it is there.
fn number_of(store: &Store, cvd: &str) -> u32
    ensures { result ≡ number_in (set_in store.now.held.numbers cvd.now) }
{
    match store.catalog().cvd(cvd) {
        Some(d) => d.number,
        None => 0,
    }
}

// The row of a table.
fn table_row(
    alloc: Global,
    owner: &Txt,
    table: &Txt,
    cvd: &Txt,
    made: u32,
    vids: &[u64],
) -> Result<Row, AllocError>
    ensures { IfOk result (λ row. row ≡ table_row_of owner.now table.now cvd.now made vids.now) }
{
    let mut values = Vec::with_capacity(alloc, 5)?;
    values.push(Value::Text(owner.copy(alloc)?))?;
    values.push(Value::Text(table.copy(alloc)?))?;
    values.push(Value::Text(cvd.copy(alloc)?))?;
    values.push(Value::Int(i64::from(made)))?;
    values.push(Value::Text(numbers_text(alloc, vids)?))?;
    Ok(Row::new(values))
}

// The row of the table, by the numbers.
fn staged_row(
    alloc: Global,
    store: &Store,
    owner: &Txt,
    table: &Txt,
    cvd: &Txt,
    vids: &[u64],
) -> Result<Row, AllocError>
    ensures { IfOk result (λ row. row ≡ staged_row_in store.now.held.numbers owner.now cvd.now vids.now table.now) }
{
    let made = number_of(store, cvd.as_str());
    table_row(alloc, owner, table, cvd, made, vids)
}

// A staged table more, which isn't there.
fn with_table(
    alloc: Global,
    rows: &[Row],
    owner: &Txt,
    table: &Txt,
    row: &Row,
) -> Result<Next, AllocError>
    requires rise { Rises (key_cmp stage_schema) rows.now }
    requires row { IsTableRow owner.now table.now row.now }
    ensures decided { IfOk result (IsDecidedBy (stage_change owner.now table.now row.now) rows.now) }
    ensures once { IfOk result (IfNext (λ made. repeated_key stage_schema [] 1 made ≡ None)) }
{
    let there = has_table(rows, owner.as_str(), table.as_str())?;
    if there {
        let table = table_named(alloc, owner.as_str(), table.as_str())?;
        return Ok(Next::Refused(Refusal::TableStaged { table }));
    }
    Ok(Next::Rows(with_row(alloc, rows, row)?))
}

// What comes next, by what was found.
fn decided(
    alloc: Global,
    found: Found,
    owner: &Txt,
    table: &Txt,
    row: &Row,
) -> Result<Next, AllocError>
    requires rise { IfRows (Rises (key_cmp stage_schema)) found }
    requires row { IsTableRow owner.now table.now row.now }
    ensures decided { IfOk result (IsDecided (stage_change owner.now table.now row.now) found) }
    ensures once { IfOk result (IfNext (λ made. repeated_key stage_schema [] 1 made ≡ None)) }
{
    match found {
        Found::Foreign => Ok(Next::Refused(Refusal::ForeignRegistry)),
        Found::Rows(rows) => with_table(alloc, rows.as_slice(), owner, table, row),
    }
}

// What comes next, by the last rows of the staged tables, which are read once.
fn next_of<H: Host>(
    alloc: Global,
    store: &Store,
    host: &mut H,
    owner: &Txt,
    table: &Txt,
    row: &Row,
) -> Result<Next, StagingErr>
    requires usable { store.now.usable ≡ true }
    requires row { IsTableRow owner.now table.now row.now }
    ensures looked { Looked (H.state host.old) (H.state host.new) }
    ensures fetched { (H.state host.new).fetched ≤ (H.state host.old).fetched
        + bytes_in (set_in store.now.held.numbers stage_name) (last_vid (set_in store.now.held.numbers stage_name)) }
    ensures own { IfOk result (IfNext (λ rows. is_foreign_in stage_schema (set_in store.now.held.numbers stage_name) ≡ false)) }
    ensures once { IfOk result (IfNext (λ rows. repeated_key stage_schema [] 1 rows ≡ None)) }
    ensures next { IfOk result (IsNextBy stage_schema (stage_change owner.now table.now row.now)
        (set_in store.now.held.numbers stage_name) (H.state host.old)) }
    ensures why { IfErr result (IsEnd (λ page. (foreign_off stage_schema (set_in store.now.held.numbers stage_name) ≡ None)
        × IsLastDamaged (set_in store.now.held.numbers stage_name) (H.state host.new) page) (H.state host.old) (H.state host.new)) }
    ensures whole { (page : ℕ) → (H.state host.old).tells ≡ true
        → OnOk result (foreign_off stage_schema (set_in store.now.held.numbers stage_name) ≡ None
        → IsLastDamaged (set_in store.now.held.numbers stage_name) (H.state host.old) page → ⊥) }
    ensures world { (w : World) → IsAtWorld w store.now.held (H.state host.old)
        → MatchResult result (IsNextIn stage_schema (stage_change owner.now table.now row.now) (set_named w stage_name)) IsNoDamage }
{
    match read(alloc, store, host, Registry::Stage) {
        Ok(found) => match decided(alloc, found, owner, table, row) {
            Ok(next) => Ok(next),
            Err(_) => Err(StagingErr::Memory),
        },
        Err(off) => Err(off),
    }
}

// Whether the versions are there: 10, and per version from the left 12 and 13. The store looks at its numbers alone, so there is no
// other end of it than want of memory.
fn unlisted(
    alloc: Global,
    store: &Store,
    cvd: &Txt,
    vids: &[u64],
) -> Result<Option<Refusal>, StagingErr>
    ensures off { (s : State) → IfOk result (λ off. off ≡ refused_of cvd.now (scan_off store.now.held.numbers cvd.now vids.now)) }
    ensures memory { IfErr result (λ off. off ≡ StagingErr.Memory) }
{
    let name = cvd.copy(alloc)?;
    match store.may_scan(cvd.as_str(), vids) {
        Ok(()) => Ok(None),
        Err(off) => match refusal_in(off, name) {
            Ok(refusal) => Ok(Some(refusal)),
            Err(_) => Err(StagingErr::Memory),
        },
    }
}

// Whether the table may have this name, and so many versions: 63, 76, 77.
fn unfit(
    alloc: Global,
    store: &Store,
    vids: &[u64],
    table: &Txt,
) -> Result<Option<Refusal>, StagingErr>
    ensures off { IfOk result (λ off. off ≡ unfit_of vids.now table.now (set_in store.now.held.numbers stage_name)) }
    ensures memory { IfErr result (λ off. off ≡ StagingErr.Memory) }
{
    if !is_name(table.as_str()) {
        let name = table.copy(alloc)?;
        return Ok(Some(Refusal::BadName { name }));
    }
    match is_foreign(alloc, store, Registry::Stage) {
        Ok(true) => Ok(Some(Refusal::ForeignRegistry)),
        Ok(false) => {
            if vids.len() > MOST_LISTED {
                return Ok(Some(Refusal::TooManyListed));
            }
            Ok(None)
        }
        Err(_) => Err(StagingErr::Memory),
    }
}

// Why the numbers refuse the checkout. Nothing is read for it.
fn off_by_numbers(
    alloc: Global,
    store: &Store,
    cvd: &Txt,
    vids: &[u64],
    table: &Txt,
) -> Result<Option<Refusal>, StagingErr>
    ensures off { (s : State) → IfOk result (λ off. off ≡ stage_off store.now.held.numbers cvd.now vids.now table.now) }
    ensures memory { IfErr result (λ off. off ≡ StagingErr.Memory) }
{
    match unfit(alloc, store, vids, table) {
        Ok(Some(refusal)) => Ok(Some(refusal)),
        Ok(None) => unlisted(alloc, store, cvd, vids),
        Err(off) => Err(off),
    }
}

/// What a checkout of these versions as a user's staged table makes of the staged tables: the rows of their last version, with the
/// table's one more, which `ov_registry`'s `change` puts in their place; or a refusal.
///
/// Refusals in their order: `BadName` of the table's name, `ForeignRegistry`, `TooManyListed`, `NoCvd`, and per version from the left
/// `NoVersion` and `RepeatedVersion`, before anything is read; `TableStaged`. The last version of the staged tables is read once.
/// `Host`, `Memory` and `Damaged` end the command. Nothing is changed.
pub fn may_stage<H: Host>(
    alloc: Global,
    store: &Store,
    host: &mut H,
    owner: &Txt,
    cvd: &Txt,
    vids: &[u64],
    table: &Txt,
) -> Result<Next, StagingErr>
    requires usable { store.now.usable ≡ true }
    ensures looked { Looked (H.state host.old) (H.state host.new) }
    ensures fetched { (H.state host.new).fetched ≤ (H.state host.old).fetched
        + bytes_in (set_in store.now.held.numbers stage_name) (last_vid (set_in store.now.held.numbers stage_name)) }
    ensures unread { (refusal : RefusalValue) → stage_off store.now.held.numbers cvd.now vids.now table.now ≡ Some refusal
        → (H.state host.new ≡ H.state host.old) × IfOk result (λ next. next ≡ comes.Refused refusal) }
    ensures own { IfOk result (IfNext (λ rows. is_foreign_in stage_schema (set_in store.now.held.numbers stage_name) ≡ false)) }
    ensures once { IfOk result (IfNext (λ rows. repeated_key stage_schema [] 1 rows ≡ None)) }
    ensures next { IfOk result (IsTakenBy (stage_off store.now.held.numbers cvd.now vids.now table.now)
        (stage_change owner.now table.now (staged_row_in store.now.held.numbers owner.now cvd.now vids.now table.now))
        (set_in store.now.held.numbers stage_name) (H.state host.old)) }
    ensures why { IfErr result (IsEnd (λ page. (stage_off store.now.held.numbers cvd.now vids.now table.now ≡ None)
        × IsLastDamaged (set_in store.now.held.numbers stage_name) (H.state host.new) page) (H.state host.old) (H.state host.new)) }
    ensures whole { (page : ℕ) → (H.state host.old).tells ≡ true
        → OnOk result (stage_off store.now.held.numbers cvd.now vids.now table.now ≡ None
        → IsLastDamaged (set_in store.now.held.numbers stage_name) (H.state host.old) page → ⊥) }
    ensures world { (w : World) → IsAtWorld w store.now.held (H.state host.old)
        → MatchResult result (IsTakenIn w owner.now cvd.now vids.now table.now) IsNoDamage }
{
    match off_by_numbers(alloc, store, cvd, vids, table) {
        Ok(None) => match staged_row(alloc, store, owner, table, cvd, vids) {
            Ok(row) => next_of(alloc, store, host, owner, table, &row),
            Err(_) => Err(StagingErr::Memory),
        },
        Ok(Some(refusal)) => Ok(Next::Refused(refusal)),
        Err(off) => Err(off),
    }
}
