// The sides of a join: whether their versions are there, and their rows.

ghost use Rattle.std.specs.Prelude.{◌≡◌, ◌≤◌, ◌+◌, ℕ, [], ◌∷◌, true, None, Some, IfOk, IfErr, OnOk, length};
ghost use Rattle.ov_host.specs.Host.{State};
ghost use Rattle.ov_core.specs.AtWorld.{IsAtWorld};
ghost use Rattle.ov_fetch.specs.Extents.{Looked, page_bytes};
ghost use Rattle.ov_fetch.specs.Scans.{IsSound};
ghost use Rattle.ov_join.specs.Meeting.{rows_shown};
ghost use Rattle.ov_model.specs.Records.{rows_at as rows_of};
ghost use Rattle.ov_model.specs.World.{Dataset, World, set_named};
ghost use Rattle.ov_store.specs.Scanning.{IsDamagedIn, IsUndamaged, scan_off, set_in};
ghost use Rattle.ov_query.specs.Joining.{IsSideFound, IsVersionRead};
ghost use Rattle.ov_query.specs.Queries.{IsUnread, Set, bytes_in, one_read};

use ov_fetch::Scan;
use ov_host::Host;
use ov_model::{Refusal, Side};
use ov_store::{Store, StoreErr};
use ov_value::Schema;
use std::alloc::{AllocError, Global};
use std::slice;

/// What comes of a side before its rows are read.
#[derive(Drop)]
pub(crate) enum SideFound<'a> {
    /// Its version is there, of a dataset with this schema.
    There(&'a Schema),
    /// Its dataset or its version isn't there.
    Refused(Refusal),
}

/// The schema of a side's dataset, where it is there and has the version; or 10, or 12. Nothing is read for it.
pub(crate) fn found_side<'a>(
    alloc: Global,
    store: &'a Store,
    side: &Side,
) -> Result<SideFound<'a>, AllocError>
    ensures { IfOk result (IsSideFound side.now (set_in store.now.held.numbers side.now.cvd)) }
{
    let Some(d) = store.catalog().cvd(side.cvd.as_str()) else {
        return Ok(SideFound::Refused(Refusal::NoCvd {
            cvd: side.cvd.copy(alloc)?,
        }));
    };
    if side.vid == 0 || side.vid > d.versions.len() as u64 {
        return Ok(SideFound::Refused(Refusal::NoVersion { vid: side.vid }));
    }
    Ok(SideFound::There(&d.schema))
}

/// The rows of a side's version, which is there.
pub(crate) fn scan_side<H: Host>(store: &Store, host: &mut H, side: &Side) -> Result<Scan, StoreErr>
    requires usable { store.now.usable ≡ true }
    requires allowed { scan_off store.now.held.numbers side.now.cvd (side.now.vid ∷ []) ≡ None }
    ensures looked { Looked (H.state host.old) (H.state host.new) }
    ensures fetched { (H.state host.new).fetched ≤ (H.state host.old).fetched + bytes_in (set_in store.now.held.numbers side.now.cvd) (side.now.vid ∷ []) }
    ensures why { IfErr result (IsUnread None (one_read (set_in store.now.held.numbers side.now.cvd) (side.now.vid ∷ [])) (H.state host.old) (H.state host.new)) }
    ensures whole { (page : ℕ) → (H.state host.old).tells ≡ true
        → OnOk result (IsDamagedIn (set_in store.now.held.numbers side.now.cvd) (side.now.vid ∷ []) (H.state host.old) page → ⊥) }
    ensures once { IfOk result (λ scan. length scan.vids ≡ 1) }
    ensures sound { (set : Set) → set_in store.now.held.numbers side.now.cvd ≡ Some set → IfOk result (IsSound set.schema) }
    ensures read { (set : Set) → (H.state host.old).tells ≡ true → set_in store.now.held.numbers side.now.cvd ≡ Some set
        → IfOk result (λ scan. IsVersionRead set side.now.vid (page_bytes (H.state host.old)) (rows_shown scan)) }
    ensures world { (w : World) (d : Dataset) → IsAtWorld w store.now.held (H.state host.old) → set_named w side.now.cvd ≡ Some d
        → IfOk result (λ scan. rows_shown scan ≡ rows_of d.cvd.versions side.now.vid) }
    ensures undamaged { (w : World) → IsAtWorld w store.now.held (H.state host.old) → IfErr result IsUndamaged }
{
    store.scan(host, side.cvd.as_str(), slice::from_ref(&side.vid))
}
