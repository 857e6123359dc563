// Rids are left for a commit's new records where `assign` finds that they are.

ghost use Rattle.std.specs.Prelude.{◌≡◌, ◌+◌, ◌≤◌, ◌^◌, ℕ, List};
ghost use Rattle.ov_event.specs.declared.event.Event as raw;
ghost use Rattle.ov_host.specs.declared.area.Extent.{Extent};
ghost use Rattle.ov_model.specs.Lists.{IsIn};
ghost use Rattle.ov_records.specs.Records.{WouldPass};
ghost use Rattle.ov_catalog.specs.Applying.{AllFollow, start_of};
ghost use Rattle.ov_catalog.specs.Numbers.{SetNumbers, nothing_yet};
ghost use Rattle.ov_catalog.specs.Raw.{numbers_in};

/// No dataset has more records than there are rids, whatever events applied. So where no new rid would pass the greatest one,
/// the dataset then has no more either.
pub fn rids_are_left()
    ensures records { (format : ℕ) (events : List raw.Event) (d : SetNumbers Extent Extent) → AllFollow (start_of format) events nothing_yet → IsIn (numbers_in events).sets d → d.records ≤ 2 ^ 31 }
    ensures room { (records fresh : ℕ) → records ≤ 2 ^ 31 → ¬ (WouldPass (records + 1) fresh) → records + fresh ≤ 2 ^ 31 }
{}
