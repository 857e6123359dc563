// What a store reads.

ghost use Rattle.std.specs.Prelude.{◌≡◌, ◌≤◌, ◌+◌, ℕ, true, [], None, Some, IfOk, IfErr, OnOk, MatchResult, length, map};
ghost use Rattle.std.specs.List.{AllZip};
ghost use Rattle.ov_host.specs.declared.area.Extent.{Extent as ExtentValue};
ghost use Rattle.ov_catalog.specs.Numbers.{SetNumbers};
ghost use Rattle.ov_fetch.specs.Extents.{Looked, page_bytes};
ghost use Rattle.ov_fetch.specs.Scans.{IsSound, rows_at};
ghost use Rattle.ov_model.specs.Records.{counted, rows_at as rows_of};
ghost use Rattle.ov_model.specs.World.{Dataset, World, set_named};
ghost use Rattle.ov_core.specs.AtWorld.{IsAtWorld};
ghost use Rattle.ov_read.specs.Damages.{IsDamage};
ghost use Rattle.ov_read.specs.Found.{HasRows, IsScanned};
ghost use Rattle.ov_read.specs.Sizes.{bytes_for};
ghost use Rattle.ov_store.specs.declared.errors.StoreErr.{StoreErr as StoreErrValue};
ghost use Rattle.ov_store.specs.declared.errors.StoreErr.TheVariants as refused;
ghost use Rattle.ov_store.specs.Scanning.{IsUndamaged, IsUnscanned, all_off, all_vids, scan_off, set_in, vids_in};

use crate::errors::StoreErr;
use crate::listing::{all_listed, listed};
use crate::store::Store;
use ov_fetch::Scan;
use ov_host::Host;
use ov_read::scan_versions;

impl Store {
    /// The rows of these versions of a dataset, each in the order of its keys: a record that versions of one partition share
    /// stands once.
    ///
    /// Refusals in their order: `NoCvd`, then per version from the left `NoVersion` and `RepeatedVersion`; before these nothing is
    /// read. Then `Damaged` exactly where a list or a segment that is read is damaged, with the first page of one such. A scan
    /// reads the list of each version once, and once each partition that serves one of them, and nothing else. A scan of no
    /// versions makes no call of the host, and nothing but memory can be wanting for it.
    pub fn scan<H: Host>(&self, host: &mut H, name: &str, vids: &[u64]) -> Result<Scan, StoreErr>
        requires usable { self.now.usable ≡ true }
        ensures looked { Looked (H.state host.old) (H.state host.new) }
        ensures allowed { OnOk result (scan_off self.now.held.numbers name.now vids.now ≡ None) }
        ensures why { IfErr result (IsUnscanned (scan_off self.now.held.numbers name.now vids.now) (set_in self.now.held.numbers name.now) vids.now (H.state host.old) (H.state host.new)) }
        ensures fetched { (s : SetNumbers ExtentValue ExtentValue) → set_in self.now.held.numbers name.now ≡ Some s
            → (H.state host.new).fetched ≤ (H.state host.old).fetched + bytes_for s vids.now }
        ensures unread { (off : StoreErrValue) → scan_off self.now.held.numbers name.now vids.now ≡ Some off → H.state host.new ≡ H.state host.old }
        ensures still { vids.now ≡ [] → H.state host.new ≡ H.state host.old }
        ensures idle { (s : SetNumbers ExtentValue ExtentValue) → set_in self.now.held.numbers name.now ≡ Some s → vids.now ≡ []
            → IfErr result (λ off. off ≡ refused.Memory) }
        ensures vids { IfOk result (λ scan. scan.vids ≡ vids.now) }
        ensures sound { (s : SetNumbers ExtentValue ExtentValue) → set_in self.now.held.numbers name.now ≡ Some s → IfOk result (IsSound s.schema) }
        ensures rows { (s : SetNumbers ExtentValue ExtentValue) → set_in self.now.held.numbers name.now ≡ Some s
            → IfOk result (λ scan. AllZip (HasRows s) vids.now scan.picks) }
        ensures scanned { (s : SetNumbers ExtentValue ExtentValue) → (H.state host.old).tells ≡ true → set_in self.now.held.numbers name.now ≡ Some s
            → IfOk result (λ scan. AllZip (IsScanned (page_bytes (H.state host.old)) s scan.records) vids.now scan.picks) }
        ensures undamaged { (s : SetNumbers ExtentValue ExtentValue) → (H.state host.old).tells ≡ true → set_in self.now.held.numbers name.now ≡ Some s
            → OnOk result ((page : ℕ) → IsDamage (page_bytes (H.state host.old)) s vids.now page → ⊥) }

        // At a World nothing is damaged, and the rows are those of the versions.
        ensures world { (w : World) (d : Dataset) → IsAtWorld w self.now.held (H.state host.old) → set_named w name.now ≡ Some d
            → MatchResult result (λ scan. map (rows_at scan.records) scan.picks ≡ map (rows_of d.cvd.versions) vids.now) IsUndamaged }
    {
        let Some(d) = self.core.catalog().cvd(name) else {
            return Err(StoreErr::NoCvd);
        };
        let vids = listed(self.alloc, d.versions.len(), vids)?;
        Ok(scan_versions(self.alloc, host, d, vids)?)
    }

    /// The rows of all versions of a dataset, ascending, each in the order of its keys, as [`Store::scan`] gives them: the list
    /// of each version is read once, and so is each partition.
    ///
    /// `NoCvd` before anything is read. Then `Damaged` exactly where a list or a segment of the dataset is damaged, with the
    /// first page of one such.
    pub fn scan_all<H: Host>(&self, host: &mut H, name: &str) -> Result<Scan, StoreErr>
        requires usable { self.now.usable ≡ true }
        ensures looked { Looked (H.state host.old) (H.state host.new) }
        ensures allowed { OnOk result (all_off (set_in self.now.held.numbers name.now) ≡ None) }
        ensures why { IfErr result (IsUnscanned (all_off (set_in self.now.held.numbers name.now)) (set_in self.now.held.numbers name.now)
            (all_vids (set_in self.now.held.numbers name.now)) (H.state host.old) (H.state host.new)) }
        ensures fetched { (s : SetNumbers ExtentValue ExtentValue) → set_in self.now.held.numbers name.now ≡ Some s
            → (H.state host.new).fetched ≤ (H.state host.old).fetched + bytes_for s (vids_in s) }
        ensures unread { (off : StoreErrValue) → all_off (set_in self.now.held.numbers name.now) ≡ Some off → H.state host.new ≡ H.state host.old }
        ensures vids { (s : SetNumbers ExtentValue ExtentValue) → set_in self.now.held.numbers name.now ≡ Some s
            → IfOk result (λ scan. scan.vids ≡ vids_in s) }
        ensures sound { (s : SetNumbers ExtentValue ExtentValue) → set_in self.now.held.numbers name.now ≡ Some s → IfOk result (IsSound s.schema) }
        ensures rows { (s : SetNumbers ExtentValue ExtentValue) → set_in self.now.held.numbers name.now ≡ Some s
            → IfOk result (λ scan. AllZip (HasRows s) (vids_in s) scan.picks) }
        ensures scanned { (s : SetNumbers ExtentValue ExtentValue) → (H.state host.old).tells ≡ true → set_in self.now.held.numbers name.now ≡ Some s
            → IfOk result (λ scan. AllZip (IsScanned (page_bytes (H.state host.old)) s scan.records) (vids_in s) scan.picks) }
        ensures undamaged { (s : SetNumbers ExtentValue ExtentValue) → (H.state host.old).tells ≡ true → set_in self.now.held.numbers name.now ≡ Some s
            → OnOk result ((page : ℕ) → IsDamage (page_bytes (H.state host.old)) s (vids_in s) page → ⊥) }

        // At a World nothing is damaged, and the rows are those of all versions.
        ensures world { (w : World) (d : Dataset) → IsAtWorld w self.now.held (H.state host.old) → set_named w name.now ≡ Some d
            → MatchResult result (λ scan. (scan.vids ≡ counted 1 (length d.cvd.versions))
            × (map (rows_at scan.records) scan.picks ≡ map (rows_of d.cvd.versions) (counted 1 (length d.cvd.versions)))) IsUndamaged }
    {
        let Some(d) = self.core.catalog().cvd(name) else {
            return Err(StoreErr::NoCvd);
        };
        let vids = all_listed(self.alloc, d.versions.len())?;
        Ok(scan_versions(self.alloc, host, d, vids)?)
    }
}
