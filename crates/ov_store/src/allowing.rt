// Which versions of a dataset may be read.

ghost use Rattle.std.specs.Prelude.{◌≡◌, None, IfErr, OnOk};
ghost use Rattle.ov_host.specs.Host.{State};
ghost use Rattle.ov_store.specs.Scanning.{IsUndamaged, IsUnscanned, scan_off, set_in};

use crate::errors::StoreErr;
use crate::listing::listed;
use crate::store::Store;

impl Store {
    /// Whether these versions of a dataset are there, and none is listed twice: `NoCvd`, then per version from the left
    /// `NoVersion` and `RepeatedVersion`. Nothing is read for it.
    pub fn may_scan(&self, name: &str, vids: &[u64]) -> Result<(), StoreErr>
        ensures allowed { OnOk result (scan_off self.now.held.numbers name.now vids.now ≡ None) }
        ensures why { (s : State) → IfErr result (IsUnscanned (scan_off self.now.held.numbers name.now vids.now) (set_in self.now.held.numbers name.now) vids.now s s) }
        ensures undamaged { IfErr result IsUndamaged }
    {
        let Some(d) = self.core.catalog().cvd(name) else {
            return Err(StoreErr::NoCvd);
        };
        let _listed = listed(self.alloc, d.versions.len(), vids)?;
        Ok(())
    }
}
