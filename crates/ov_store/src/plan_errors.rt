// Why no plan began.

ghost use Rattle.std.specs.Prelude.{◌≡◌};
ghost use Rattle.ov_store.specs.Planning.{of_read};

use ov_fetch::FetchErr;
use ov_host::Area;

/// Why no plan began. After each of these but `Host` the store is as it was.
#[derive(Clone, Copy, PartialEq, Eq)]
pub enum PlanErr {
    /// The host failed. The store isn't usable, and is opened again.
    Host,
    /// There was no memory.
    Memory,
    /// What was read of the pages is off its grammar, or doesn't bear out the numbers of the events. The place is a page.
    Damaged { area: Area, at: u64 },
    /// 5: the journal has no room for the record.
    JournalFull,
    /// 10: no live dataset has the name.
    NoCvd,
    /// 17: the threshold p / q isn't one: 1 ≤ p ≤ q ≤ 1,000,000.
    BadThreshold,
    /// 18: a plan of the dataset runs.
    Migrating,
    /// 22: there are too few numbers left for the dataset's partitions.
    NoNumbers,
}

impl From<FetchErr> for PlanErr {
    ghost from_gives = { λ off made. made ≡ of_read off };

    fn from(error: FetchErr) -> PlanErr {
        match error {
            FetchErr::Host => PlanErr::Host,
            FetchErr::Memory => PlanErr::Memory,
            FetchErr::Damaged { page } => PlanErr::Damaged {
                area: Area::Pages,
                at: u64::from(page),
            },
        }
    }
}
