//! What a change that is asked for makes of the last rows.

ghost use Rattle.std.specs.Prelude.{◌≡◌, ◌≤◌, ◌+◌, ◌∷◌, ◌++◌, ℕ, [], true, false, not, None, Some, IfOk, IfErr, OnOk, MatchResult, is_some};
ghost use Rattle.ov_core.specs.AtWorld.{IsAtWorld};
ghost use Rattle.ov_fetch.specs.Extents.{Looked};
ghost use Rattle.ov_model.specs.Act.{repeated_key};
ghost use Rattle.ov_model.specs.Lists.{Rises};
ghost use Rattle.ov_model.specs.Registry.{stage_schema, table_in, user_row as user_row_of, users_schema};
ghost use Rattle.ov_model.specs.World.{World, set_named};
ghost use Rattle.ov_model.specs.declared.refusal.Refusal.{Refusal as RefusalValue};
ghost use Rattle.ov_registry.specs.Last.{IsLastDamaged, bytes_in, is_foreign_in, last_vid, name_of, schema_of};
ghost use Rattle.ov_store.specs.Scanning.{set_in};
ghost use Rattle.ov_value.specs.Rows.{key_cmp};
ghost use Rattle.ov_staging.specs.Changing.{IfNext, IsNextBy, IsNextIn};
ghost use Rattle.ov_staging.specs.Deciding.{IsDecided, IsDecidedBy, change_of, said_of as said_by, which_of as dataset_of};
ghost use Rattle.ov_staging.specs.Errors.{IsEnd, IsNoDamage};
ghost use Rattle.ov_staging.specs.Reading.{IfRows, foreign_off};
ghost use Rattle.ov_staging.specs.Tables.{table_change};
ghost use Rattle.ov_staging.specs.Users.{user_change};
ghost use Rattle.ov_staging.specs.declared.changing.Next.TheVariants as comes;

use crate::changing::Next;
use crate::errors::StagingErr;
use crate::names::table_named;
use crate::reading::{Found, read};
use ov_host::Host;
use ov_model::{Refusal, Reply};
use ov_registry::Registry;
use ov_store::Store;
use ov_users::{find, is_user, with_row, without_row};
use ov_value::{Row, Txt, Value};
use std::alloc::{AllocError, Global};

/// A change that is asked for.
#[derive(Drop)]
pub(crate) enum Asked {
    /// A user more.
    User { name: Txt },
    /// A staged table less.
    Unstage { owner: Txt, table: Txt },
}

/// The reply to it, where it is made.
pub(crate) fn said_of(asked: Asked) -> Reply
    ensures { result ≡ said_by asked }
{
    match asked {
        Asked::User { name } => Reply::User { name },
        Asked::Unstage { owner, table } => Reply::Unstaged { user: owner, table },
    }
}

// The row of a user.
fn user_row(alloc: Global, name: &str) -> Result<Row, AllocError>
    ensures { IfOk result (λ row. row ≡ user_row_of name.now) }
{
    let mut values = Vec::with_capacity(alloc, 1)?;
    values.push(Value::Text(Txt::new(alloc, name)?))?;
    Ok(Row::new(values))
}

// A user more, who isn't there.
fn with_user(alloc: Global, rows: &[Row], name: &str) -> Result<Next, AllocError>
    requires rise { Rises (key_cmp users_schema) rows.now }
    ensures decided { IfOk result (IsDecidedBy (user_change name.now) rows.now) }
    ensures once { IfOk result (IfNext (λ made. repeated_key users_schema [] 1 made ≡ None)) }
{
    if is_user(rows, name) {
        let name = Txt::new(alloc, name)?;
        return Ok(Next::Refused(Refusal::UserExists { name }));
    }
    let row = user_row(alloc, name)?;
    Ok(Next::Rows(with_row(alloc, rows, &row)?))
}

/// Whether the table is there. No version has as many rows as can't be counted.
pub(crate) fn has_table(rows: &[Row], owner: &str, table: &str) -> Result<bool, AllocError>
    ensures { IfOk result (λ there. there ≡ is_some (table_in rows.now owner.now table.now)) }
{
    if rows.len() > u32::MAX as usize {
        return Err(AllocError);
    }
    Ok(find(rows, owner, table).is_some())
}

// A staged table less, which is there.
fn without_table(alloc: Global, rows: &[Row], owner: &str, table: &str) -> Result<Next, AllocError>
    requires rise { Rises (key_cmp stage_schema) rows.now }
    ensures decided { IfOk result (IsDecidedBy (table_change owner.now table.now) rows.now) }
    ensures once { IfOk result (IfNext (λ made. repeated_key stage_schema [] 1 made ≡ None)) }
{
    let there = has_table(rows, owner, table)?;
    if !there {
        let table = table_named(alloc, owner, table)?;
        return Ok(Next::Refused(Refusal::NoTable { table }));
    }
    Ok(Next::Rows(without_row(alloc, rows, owner, table)?))
}

// What comes next, by these rows.
fn decided_by(alloc: Global, rows: &[Row], asked: &Asked) -> Result<Next, AllocError>
    requires rise { Rises (key_cmp (schema_of (dataset_of asked.now))) rows.now }
    ensures decided { IfOk result (IsDecidedBy (change_of asked.now) rows.now) }
    ensures once { IfOk result (IfNext (λ made. repeated_key (schema_of (dataset_of asked.now)) [] 1 made ≡ None)) }
{
    match asked {
        Asked::User { name } => with_user(alloc, rows, name.as_str()),
        Asked::Unstage { owner, table } => {
            without_table(alloc, rows, owner.as_str(), table.as_str())
        }
    }
}

// What comes next, by what was found.
fn decided(alloc: Global, found: Found, asked: &Asked) -> Result<Next, AllocError>
    requires rise { IfRows (Rises (key_cmp (schema_of (dataset_of asked.now)))) found }
    ensures decided { IfOk result (IsDecided (change_of asked.now) found) }
    ensures once { IfOk result (IfNext (λ made. repeated_key (schema_of (dataset_of asked.now)) [] 1 made ≡ None)) }
{
    match found {
        Found::Foreign => Ok(Next::Refused(Refusal::ForeignRegistry)),
        Found::Rows(rows) => decided_by(alloc, rows.as_slice(), asked),
    }
}

/// What comes next, by the last rows of the dataset, which are read once. Nothing is changed.
pub(crate) fn next_of<H: Host>(
    alloc: Global,
    store: &Store,
    host: &mut H,
    which: Registry,
    asked: &Asked,
) -> Result<Next, StagingErr>
    requires usable { store.now.usable ≡ true }
    requires which { which ≡ dataset_of asked.now }
    ensures looked { Looked (H.state host.old) (H.state host.new) }
    ensures fetched { (H.state host.new).fetched ≤ (H.state host.old).fetched
        + bytes_in (set_in store.now.held.numbers (name_of which)) (last_vid (set_in store.now.held.numbers (name_of which))) }
    ensures unread { (refusal : RefusalValue) → foreign_off (schema_of which) (set_in store.now.held.numbers (name_of which)) ≡ Some refusal
        → (H.state host.new ≡ H.state host.old) × IfOk result (λ next. next ≡ comes.Refused refusal) }
    ensures own { IfOk result (IfNext (λ rows. is_foreign_in (schema_of which) (set_in store.now.held.numbers (name_of which)) ≡ false)) }
    ensures once { IfOk result (IfNext (λ rows. repeated_key (schema_of which) [] 1 rows ≡ None)) }
    ensures next { IfOk result (IsNextBy (schema_of which) (change_of asked.now)
        (set_in store.now.held.numbers (name_of which)) (H.state host.old)) }
    ensures why { IfErr result (IsEnd (λ page. (foreign_off (schema_of which) (set_in store.now.held.numbers (name_of which)) ≡ None)
        × IsLastDamaged (set_in store.now.held.numbers (name_of which)) (H.state host.new) page) (H.state host.old) (H.state host.new)) }
    ensures whole { (page : ℕ) → (H.state host.old).tells ≡ true
        → OnOk result (foreign_off (schema_of which) (set_in store.now.held.numbers (name_of which)) ≡ None
        → IsLastDamaged (set_in store.now.held.numbers (name_of which)) (H.state host.old) page → ⊥) }
    ensures world { (w : World) → IsAtWorld w store.now.held (H.state host.old)
        → MatchResult result (IsNextIn (schema_of which) (change_of asked.now) (set_named w (name_of which))) IsNoDamage }
{
    match read(alloc, store, host, which) {
        Ok(found) => match decided(alloc, found, asked) {
            Ok(next) => Ok(next),
            Err(_) => Err(StagingErr::Memory),
        },
        Err(off) => Err(off),
    }
}
