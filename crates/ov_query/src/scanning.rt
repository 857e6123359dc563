// The versions that a source names: whether they are there, and their rows.

ghost use Rattle.std.specs.Prelude.{◌≡◌, ◌≤◌, ◌+◌, ℕ, [], true, None, Some, IfOk, IfErr, OnOk, length};
ghost use Rattle.ov_host.specs.Host.{State};
ghost use Rattle.ov_core.specs.AtWorld.{IsAtWorld};
ghost use Rattle.ov_fetch.specs.Extents.{Looked};
ghost use Rattle.ov_fetch.specs.Scans.{IsSound};
ghost use Rattle.ov_model.specs.Answers.{Related, pairs};
ghost use Rattle.ov_model.specs.Asking.{listed_refusal, name_read, source_lineages};
ghost use Rattle.ov_model.specs.World.{Dataset, World, set_named};
ghost use Rattle.ov_store.specs.Scanning.{IsDamagedIn, IsUndamaged, set_in};
ghost use Rattle.ov_store.specs.declared.errors.StoreErr.TheVariants as why;
ghost use Rattle.ov_terms.specs.Standing.{pairs_shown};
ghost use Rattle.ov_query.specs.Answering.{IsThere, version_refusal};
ghost use Rattle.ov_query.specs.Queries.{IsUnread, Set, bytes_read, one_read, vids_read};

use ov_fetch::Scan;
use ov_host::Host;
use ov_model::{Refusal, Src};
use ov_store::{Store, StoreErr};

// The refusal of a version, and any other error as it is.
fn refusal_by(off: StoreErr) -> Result<Refusal, StoreErr>
    ensures { result ≡ version_refusal off }
{
    match off {
        StoreErr::NoVersion { vid } => Ok(Refusal::NoVersion { vid }),
        StoreErr::RepeatedVersion { vid } => Ok(Refusal::RepeatedVersion { vid }),
        off => Err(off),
    }
}

/// The first refusal of the versions that a source lists of a dataset that is there: per version from the left 12, 13.
pub(crate) fn refused_version(store: &Store, source: &Src) -> Result<Option<Refusal>, StoreErr>
    ensures refused { (set : Set) → set_in store.now.held.numbers (name_read source.now) ≡ Some set
        → IfOk result (λ refusal. refusal ≡ listed_refusal (length set.versions) source.now) }
    ensures memory { (set : Set) → set_in store.now.held.numbers (name_read source.now) ≡ Some set
        → IfErr result (λ off. off ≡ why.Memory) }
{
    let Src::Listed { vids, cvd } = source else {
        return Ok(None);
    };
    match store.may_scan(cvd.as_str(), vids.as_slice()) {
        Ok(()) => Ok(None),
        Err(off) => Ok(Some(refusal_by(off)?)),
    }
}

/// The rows of the versions that a source names, which are there: it lists them, or has all of the dataset.
pub(crate) fn scan_of<H: Host>(store: &Store, host: &mut H, source: &Src) -> Result<Scan, StoreErr>
    requires usable { store.now.usable ≡ true }
    requires plain { source_lineages source.now ≡ [] }
    requires there { IsThere source.now (set_in store.now.held.numbers (name_read source.now)) }
    ensures looked { Looked (H.state host.old) (H.state host.new) }
    ensures fetched { let set = set_in store.now.held.numbers (name_read source.now)
        in (H.state host.new).fetched ≤ (H.state host.old).fetched + bytes_read None (one_read set (vids_read source.now set)) }
    ensures why { let set = set_in store.now.held.numbers (name_read source.now)
        in IfErr result (IsUnread None (one_read set (vids_read source.now set)) (H.state host.old) (H.state host.new)) }
    ensures whole { (page : ℕ) → (H.state host.old).tells ≡ true
        → let set = set_in store.now.held.numbers (name_read source.now)
        in OnOk result (IsDamagedIn set (vids_read source.now set) (H.state host.old) page → ⊥) }
    ensures sound { (set : Set) → set_in store.now.held.numbers (name_read source.now) ≡ Some set → IfOk result (IsSound set.schema) }
    ensures pairs { (w : World) (d : Dataset) (related : Related) → IsAtWorld w store.now.held (H.state host.old)
        → set_named w (name_read source.now) ≡ Some d → IfOk result (λ scan. pairs_shown scan ≡ pairs related d.cvd source.now) }
    ensures undamaged { (w : World) → IsAtWorld w store.now.held (H.state host.old) → IfErr result IsUndamaged }
{
    match source {
        Src::Listed { vids, cvd } => store.scan(host, cvd.as_str(), vids.as_slice()),
        Src::Whole { cvd } => store.scan_all(host, cvd.as_str()),
        Src::Lineage { .. } => unreachable!(),
    }
}
