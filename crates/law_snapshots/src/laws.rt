//! Laws of snapshots.

ghost use Rattle.std.specs.Prelude.{ℕ, ◌≡◌, List, None};
ghost use Rattle.ov_event.specs.declared.event.Event.{Event};
ghost use Rattle.ov_host.specs.declared.area.Extent.{Extent};
ghost use Rattle.ov_model.specs.Lists.{IsIn};
ghost use Rattle.ov_catalog.specs.Applying.{AllFollow, Stage, off_at, stage_after, start_of};
ghost use Rattle.ov_catalog.specs.Events.{applied};
ghost use Rattle.ov_catalog.specs.Numbers.{Numbers, SetNumbers, nothing_yet};
ghost use Rattle.ov_catalog.specs.Raw.{event_in, numbers_in};
ghost use Rattle.ov_catalog.specs.Snapshots.{IsSnapshot};
ghost use Rattle.law_snapshots.specs.Said.{snapshot_in};
ghost use Rattle.law_snapshots.specs.Whole.{AreWhole, IsBeside, IsWhole};

/// Wherever the events of a half lead, each dataset is as a Whole may say it: so it is before the first event, and with each
/// event that applies.
pub fn what_follows_is_whole()
    ensures start { AreWhole nothing_yet }
    ensures one { (stage : Stage) (e : Event) (n : Numbers Extent Extent) → AreWhole n → IsBeside stage.reach n → off_at stage e n ≡ None
        → AreWhole (applied (event_in e) n) × IsBeside (stage_after e stage).reach (applied (event_in e) n) }
    ensures all { (format : ℕ) (events : List Event) → AllFollow (start_of format) events nothing_yet → AreWhole (numbers_in events) }
    ensures each { (format : ℕ) (events : List Event) (d : SetNumbers Extent Extent) → AllFollow (start_of format) events nothing_yet
        → IsIn (numbers_in events).sets d → IsWhole d }
{}

/// Such numbers have one snapshot, with which a half may begin.
pub fn a_snapshot_follows()
    ensures there { (n : Numbers Extent Extent) → AreWhole n → IsSnapshot (snapshot_in n) n }
    ensures one { (events : List Event) (n : Numbers Extent Extent) → IsSnapshot events n → events ≡ snapshot_in n }
    ensures follows { (format : ℕ) (n : Numbers Extent Extent) → AreWhole n → AllFollow (start_of format) (snapshot_in n) nothing_yet }
{}
