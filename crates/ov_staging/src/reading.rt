//! The last rows of a dataset of the registry, where it isn't foreign.

ghost use Rattle.std.specs.Prelude.{◌≡◌, ◌≤◌, ◌+◌, ℕ, true, false, None, IfOk, IfErr, OnOk, MatchResult};
ghost use Rattle.ov_core.specs.AtWorld.{IsAtWorld};
ghost use Rattle.ov_fetch.specs.Extents.{Looked};
ghost use Rattle.ov_model.specs.Lists.{Rises};
ghost use Rattle.ov_model.specs.Registry.{last_rows as last_rows_of};
ghost use Rattle.ov_model.specs.World.{World, set_named};
ghost use Rattle.ov_registry.specs.Last.{AreLast, IsLastDamaged, bytes_in, is_foreign_in, last_vid, name_of, schema_of};
ghost use Rattle.ov_store.specs.Scanning.{set_in};
ghost use Rattle.ov_value.specs.Rows.{key_cmp};
ghost use Rattle.ov_staging.specs.Errors.{IsEnd, IsNoDamage};
ghost use Rattle.ov_staging.specs.Reading.{IfRows, IsFoundIn, is_foreign_found};

use crate::errors::{StagingErr, end};
use ov_host::Host;
use ov_registry::{Registry, is_foreign, last_rows};
use ov_store::Store;
use ov_value::Row;
use std::alloc::Global;

/// What was found of a dataset of the registry.
#[derive(Drop)]
pub(crate) enum Found {
    /// It is live with another schema.
    Foreign,
    /// The rows of its last version, in the order of their keys; none where it isn't there.
    Rows(Vec<Row>),
}

// The rows of a dataset that isn't foreign.
fn rows_of<H: Host>(
    alloc: Global,
    store: &Store,
    host: &mut H,
    which: Registry,
) -> Result<Vec<Row>, StagingErr>
    requires usable { store.now.usable ≡ true }
    requires own { is_foreign_in (schema_of which) (set_in store.now.held.numbers (name_of which)) ≡ false }
    ensures looked { Looked (H.state host.old) (H.state host.new) }
    ensures fetched { (H.state host.new).fetched ≤ (H.state host.old).fetched
        + bytes_in (set_in store.now.held.numbers (name_of which)) (last_vid (set_in store.now.held.numbers (name_of which))) }
    ensures rise { IfOk result (λ rows. Rises (key_cmp (schema_of which)) rows.items) }
    ensures last { IfOk result (λ rows. AreLast (set_in store.now.held.numbers (name_of which)) (H.state host.old) rows.items) }
    ensures why { IfErr result (IsEnd (IsLastDamaged (set_in store.now.held.numbers (name_of which)) (H.state host.new)) (H.state host.old) (H.state host.new)) }
    ensures whole { (page : ℕ) → (H.state host.old).tells ≡ true
        → OnOk result (IsLastDamaged (set_in store.now.held.numbers (name_of which)) (H.state host.old) page → ⊥) }
    ensures world { (w : World) → IsAtWorld w store.now.held (H.state host.old)
        → MatchResult result (λ rows. rows.items ≡ last_rows_of (set_named w (name_of which))) IsNoDamage }
{
    match last_rows(alloc, store, host, which) {
        Ok(rows) => Ok(rows),
        Err(off) => Err(end(off)),
    }
}

/// What stands in a dataset of the registry: that it is foreign, of which nothing is read, or its last rows.
pub(crate) fn read<H: Host>(
    alloc: Global,
    store: &Store,
    host: &mut H,
    which: Registry,
) -> Result<Found, StagingErr>
    requires usable { store.now.usable ≡ true }
    ensures looked { Looked (H.state host.old) (H.state host.new) }
    ensures fetched { (H.state host.new).fetched ≤ (H.state host.old).fetched
        + bytes_in (set_in store.now.held.numbers (name_of which)) (last_vid (set_in store.now.held.numbers (name_of which))) }
    ensures unread { is_foreign_in (schema_of which) (set_in store.now.held.numbers (name_of which)) ≡ true → H.state host.new ≡ H.state host.old }
    ensures own { IfOk result (λ f. is_foreign_found f ≡ is_foreign_in (schema_of which) (set_in store.now.held.numbers (name_of which))) }
    ensures rise { IfOk result (IfRows (Rises (key_cmp (schema_of which)))) }
    ensures last { IfOk result (IfRows (AreLast (set_in store.now.held.numbers (name_of which)) (H.state host.old))) }
    ensures why { IfErr result (IsEnd (λ page. (is_foreign_in (schema_of which) (set_in store.now.held.numbers (name_of which)) ≡ false)
        × IsLastDamaged (set_in store.now.held.numbers (name_of which)) (H.state host.new) page) (H.state host.old) (H.state host.new)) }
    ensures whole { (page : ℕ) → (H.state host.old).tells ≡ true
        → OnOk result (is_foreign_in (schema_of which) (set_in store.now.held.numbers (name_of which)) ≡ false
        → IsLastDamaged (set_in store.now.held.numbers (name_of which)) (H.state host.old) page → ⊥) }
    ensures world { (w : World) → IsAtWorld w store.now.held (H.state host.old)
        → MatchResult result (IsFoundIn (schema_of which) (set_named w (name_of which))) IsNoDamage }
{
    match is_foreign(alloc, store, which) {
        Ok(true) => Ok(Found::Foreign),
        Ok(false) => match rows_of(alloc, store, host, which) {
            Ok(rows) => Ok(Found::Rows(rows)),
            Err(off) => Err(off),
        },
        Err(_) => Err(StagingErr::Memory),
    }
}
