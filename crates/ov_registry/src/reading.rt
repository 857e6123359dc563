// The rows of the last version.

ghost use Rattle.std.specs.Prelude.{◌≡◌, ◌≤◌, ◌+◌, ℕ, [], ◌∷◌, true, false, None, Some, IfOk, IfErr, OnOk, MatchResult, length};
ghost use Rattle.std.specs.List.{All};
ghost use Rattle.ov_catalog.specs.Ready.{IsSet};
ghost use Rattle.ov_catalog.specs.Sets.{set_in as numbers_of};
ghost use Rattle.ov_core.specs.AtWorld.{IsAtWorld};
ghost use Rattle.ov_fetch.specs.Extents.{Looked};
ghost use Rattle.ov_fetch.specs.Scans.{InKeyOrder};
ghost use Rattle.ov_model.specs.Lists.{Rises};
ghost use Rattle.ov_model.specs.Records.{rows_at};
ghost use Rattle.ov_model.specs.Registry.{last_rows as last_rows_of};
ghost use Rattle.ov_model.specs.World.{Dataset, World, set_named};
ghost use Rattle.ov_read.specs.Agreement.{list_of};
ghost use Rattle.ov_read.specs.Sizes.{bytes_for};
ghost use Rattle.ov_store.specs.Committing.{Set};
ghost use Rattle.ov_store.specs.Scanning.{IsDamagedIn, IsUndamaged, IsUnscanned, scan_off, set_in};
ghost use Rattle.ov_value.specs.Rows.{key_cmp};
ghost use Rattle.ov_registry.specs.Last.{AreLast, IsLast, IsLastDamaged, IsLive, IsUnread, bytes_in, is_foreign_in, last_vid, name_of, schema_of};
ghost use Rattle.ov_registry.specs.Storable.{CanStore};

use crate::registry::Registry;
use crate::rows::{are_rising, copied_rows};
use ov_catalog::Cvd;
use ov_host::{Area, Host};
use ov_store::{Store, StoreErr};
use ov_value::Row;
use std::alloc::Global;

// The rows of a version of a live dataset.
fn rows_of_version<H: Host>(
    alloc: Global,
    store: &Store,
    host: &mut H,
    name: &str,
    vid: u64,
) -> Result<Vec<Row>, StoreErr>
    requires usable { store.now.usable ≡ true }
    requires live { IsLive store.now.held.numbers name.now }
    ensures looked { Looked (H.state host.old) (H.state host.new) }
    ensures fetched { (set : Set) → set_in store.now.held.numbers name.now ≡ Some set
        → (H.state host.new).fetched ≤ (H.state host.old).fetched + bytes_for set (vid ∷ []) }
    ensures allowed { OnOk result (scan_off store.now.held.numbers name.now (vid ∷ []) ≡ None) }
    ensures why { IfErr result (IsUnscanned (scan_off store.now.held.numbers name.now (vid ∷ [])) (set_in store.now.held.numbers name.now) (vid ∷ [])
        (H.state host.old) (H.state host.new)) }
    ensures ordered { (set : Set) → set_in store.now.held.numbers name.now ≡ Some set → IfOk result (λ rows. InKeyOrder set.schema rows.items) }
    ensures read { (set : Set) → set_in store.now.held.numbers name.now ≡ Some set → vid ≡ length set.versions → (H.state host.old).tells ≡ true
        → IfOk result (λ rows. IsLast set (H.state host.old) rows.items) }
    ensures whole { (page : ℕ) → (H.state host.old).tells ≡ true
        → OnOk result (IsDamagedIn (set_in store.now.held.numbers name.now) (vid ∷ []) (H.state host.old) page → ⊥) }
    ensures world { (w : World) (d : Dataset) → IsAtWorld w store.now.held (H.state host.old) → set_named w name.now ≡ Some d
        → MatchResult result (λ rows. rows.items ≡ rows_at d.cvd.versions vid) IsUndamaged }
{
    let vids = [vid];
    let scan = store.scan(host, name, &vids)?;
    let rows = copied_rows(alloc, &scan.records, scan.picks.as_slice()[0].as_slice())?;
    Ok(rows)
}

/// The number of a dataset's last version.
pub(crate) fn last_version(d: &Cvd) -> u64
    ensures { result ≡ length (numbers_of d.now).versions }
{
    d.versions.len() as u64
}

// The first page of the list of a dataset's last version.
fn list_page(d: &Cvd) -> u32
    requires { IsSet d.now }
    ensures { result ≡ (list_of (numbers_of d.now) (length (numbers_of d.now).versions)).page }
{
    d.versions[d.versions.len() - 1].list.page
}

// The rows of the last version of a live dataset.
fn rows_of_live<H: Host>(
    alloc: Global,
    store: &Store,
    host: &mut H,
    name: &str,
    d: &Cvd,
) -> Result<Vec<Row>, StoreErr>
    requires usable { store.now.usable ≡ true }
    requires named { set_in store.now.held.numbers name.now ≡ Some (numbers_of d.now) }
    requires sound { IsSet d.now }
    ensures looked { Looked (H.state host.old) (H.state host.new) }
    ensures fetched { (H.state host.new).fetched ≤ (H.state host.old).fetched + bytes_in (Some (numbers_of d.now)) (last_vid (Some (numbers_of d.now))) }
    ensures rise { IfOk result (λ rows. Rises (key_cmp d.now.schema) rows.items) }
    ensures last { IfOk result (λ rows. AreLast (Some (numbers_of d.now)) (H.state host.old) rows.items) }
    ensures stored { (H.state host.old).tells ≡ true → IfOk result (λ rows. All (CanStore d.now.schema) rows.items) }
    ensures why { IfErr result (IsUnread (Some (numbers_of d.now)) (H.state host.old) (H.state host.new)) }
    ensures whole { (page : ℕ) → (H.state host.old).tells ≡ true
        → OnOk result (IsLastDamaged (Some (numbers_of d.now)) (H.state host.old) page → ⊥) }
    ensures world { (w : World) (e : Dataset) → IsAtWorld w store.now.held (H.state host.old) → set_named w name.now ≡ Some e
        → MatchResult result (λ rows. rows.items ≡ last_rows_of (Some e)) IsUndamaged }
{
    let rows = rows_of_version(alloc, store, host, name, last_version(d))?;
    if are_rising(&d.schema, rows.as_slice()) {
        return Ok(rows);
    }
    Err(StoreErr::Damaged {
        area: Area::Pages,
        at: u64::from(list_page(d)),
    })
}

/// The rows of the last version of a dataset of the registry, in the order of their keys, no key twice: none where the dataset
/// isn't there.
///
/// `Damaged` where a scan of that version is damaged, or else where a key stands twice in it; then the page is the first one of the
/// version's list. `Host` and `Memory` are the only other errors. The list of the version is read once, and so is the partition
/// that serves it; nothing is changed. Where the host tells its bytes, a segment can have each of the rows.
pub fn last_rows<H: Host>(
    alloc: Global,
    store: &Store,
    host: &mut H,
    which: Registry,
) -> Result<Vec<Row>, StoreErr>
    requires usable { store.now.usable ≡ true }
    requires own { is_foreign_in (schema_of which) (set_in store.now.held.numbers (name_of which)) ≡ false }
    ensures looked { Looked (H.state host.old) (H.state host.new) }
    ensures fetched { let set = set_in store.now.held.numbers (name_of which)
        in (H.state host.new).fetched ≤ (H.state host.old).fetched + bytes_in set (last_vid set) }
    ensures rise { IfOk result (λ rows. Rises (key_cmp (schema_of which)) rows.items) }
    ensures last { IfOk result (λ rows. AreLast (set_in store.now.held.numbers (name_of which)) (H.state host.old) rows.items) }
    ensures stored { (H.state host.old).tells ≡ true → IfOk result (λ rows. All (CanStore (schema_of which)) rows.items) }
    ensures why { IfErr result (IsUnread (set_in store.now.held.numbers (name_of which)) (H.state host.old) (H.state host.new)) }
    ensures whole { (page : ℕ) → (H.state host.old).tells ≡ true
        → OnOk result (IsLastDamaged (set_in store.now.held.numbers (name_of which)) (H.state host.old) page → ⊥) }
    ensures world { (w : World) → IsAtWorld w store.now.held (H.state host.old)
        → MatchResult result (λ rows. rows.items ≡ last_rows_of (set_named w (name_of which))) IsUndamaged }
{
    let name = which.name();
    match store.catalog().cvd(name) {
        Some(d) => rows_of_live(alloc, store, host, name, d),
        None => Ok(Vec::new(alloc)),
    }
}
