// The rows of a version's parent, as they are read back.

ghost use Rattle.std.specs.Prelude.{◌≡◌, ◌≤◌, ◌+◌, ◌*◌, ℕ, [], ◌∷◌, true, None, Some, IfOk, IfErr, IsErrOf, MatchResult, List};
ghost use Rattle.ov_host.specs.Host.{Rose};
ghost use Rattle.ov_core.specs.AtWorld.{IsAtWorld};
ghost use Rattle.ov_fetch.specs.Extents.{Looked};
ghost use Rattle.ov_gen.specs.Versions.{IsGrown};
ghost use Rattle.ov_model.specs.Records.{rows_at};
ghost use Rattle.ov_model.specs.World.{Dataset, World, set_named};
ghost use Rattle.ov_read.specs.Agreement.{list_of};
ghost use Rattle.ov_read.specs.Sizes.{bytes_for};
ghost use Rattle.ov_store.specs.Committing.{Set};
ghost use Rattle.ov_store.specs.Scanning.{IsUndamaged, scan_off, set_in};
ghost use Rattle.ov_generate.specs.Making.{AreRowsRead, IsKnown, IsUnread};

use crate::rows::{are_grown, copied_rows};
use ov_host::{Area, Host};
use ov_store::{Store, StoreErr};
use ov_value::Row;
use std::alloc::Global;

// The first page of a version's list.
fn list_page(store: &Store, cvd: &str, vid: u32) -> u32
    requires known { IsKnown store.now.held.numbers cvd.now }
    requires there { scan_off store.now.held.numbers cvd.now (vid ∷ []) ≡ None }
    ensures { (set : Set) → set_in store.now.held.numbers cvd.now ≡ Some set → result ≡ (list_of set vid).page }
{
    match store.catalog().cvd(cvd) {
        Some(d) => d.versions[vid as usize - 1].list.page,
        None => unreachable!(),
    }
}

/// The rows of a version, as those that the next version can be made of.
///
/// `Damaged` where a scan of the version is, or else where its rows aren't those of a version that was generated before `vid`; then
/// the page is the first one of its list.
pub(crate) fn parent_rows<H: Host>(
    alloc: Global,
    store: &Store,
    host: &mut H,
    cvd: &str,
    parent: u32,
    count: u32,
    vid: u32,
) -> Result<Vec<Row>, StoreErr>
    requires usable { store.now.usable ≡ true }
    requires known { IsKnown store.now.held.numbers cvd.now }
    requires later { 1 ≤ vid }
    ensures looked { Looked (H.state host.old) (H.state host.new) }
    ensures fetched { (set : Set) → set_in store.now.held.numbers cvd.now ≡ Some set
        → (H.state host.new).fetched ≤ (H.state host.old).fetched + bytes_for set (parent ∷ []) }
    ensures grown { IfOk result (λ rows. IsGrown count vid rows.items) }
    ensures read { (set : Set) → set_in store.now.held.numbers cvd.now ≡ Some set → IfOk result (λ rows. AreRowsRead set parent (H.state host.old) rows.items) }
    ensures why { IfErr result (IsUnread store.now.held cvd.now parent count vid (H.state host.old) (H.state host.new)) }
    ensures world { (w : World) (d : Dataset) → IsAtWorld w store.now.held (H.state host.old) → set_named w cvd.now ≡ Some d
        → IsGrown count vid (rows_at d.cvd.versions parent) → MatchResult result (λ rows. rows.items ≡ rows_at d.cvd.versions parent) IsUndamaged }
{
    let vids = [u64::from(parent)];
    let scan = store.scan(host, cvd, &vids)?;
    let rows = copied_rows(alloc, &scan.records, scan.picks.as_slice()[0].as_slice())?;
    if are_grown(&rows, count, vid) {
        return Ok(rows);
    }
    Err(StoreErr::Damaged {
        area: Area::Pages,
        at: u64::from(list_page(store, cvd, parent)),
    })
}
