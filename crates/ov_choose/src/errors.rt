// Why nothing is chosen.

ghost use Rattle.std.specs.Prelude.{◌≡◌, true, Some, is_some};
ghost use Rattle.ov_choose.specs.Errors.{of_lists, of_plan};
ghost use Rattle.ov_choose.specs.declared.errors.ChooseErr.TheVariants as why;

use ov_host::Area;
use ov_store::{PlanErr, StoreErr};
use std::alloc::AllocError;

/// Why no plan began within a budget, or no advice is given. After each of these but `Host` the store is as it was.
#[derive(Clone, Copy, PartialEq, Eq)]
pub enum ChooseErr {
    /// The host failed. The store may not be usable, and is opened again.
    Host,
    /// There was no memory.
    Memory,
    /// What was read of the pages is off its grammar, or doesn't bear out the numbers of the events. The place is a page.
    Damaged { area: Area, at: u64 },
    /// 5: the journal has no room for the record of the plan.
    JournalFull,
    /// 10: no live dataset has the name.
    NoCvd,
    /// 17: the ratio a / b isn't one: 1 ≤ b ≤ a ≤ 1,000,000.
    BadThreshold,
    /// 18: a plan of the dataset runs.
    Migrating,
    /// 21: all thresholds store more than the budget, and one of them this; none stores less.
    NoThreshold { least: u64 },
    /// 22: there are too few numbers left for the dataset's partitions.
    NoNumbers,
}

impl From<AllocError> for ChooseErr {
    ghost from_gives = { λ _ made. made ≡ why.Memory };

    fn from(_error: AllocError) -> ChooseErr {
        ChooseErr::Memory
    }
}

// Why lists aren't read.
pub(crate) fn unread(off: StoreErr) -> ChooseErr
    requires { is_some (of_lists off) ≡ true }
    ensures { of_lists off ≡ Some result }
{
    match off {
        StoreErr::Host => ChooseErr::Host,
        StoreErr::Memory => ChooseErr::Memory,
        StoreErr::Damaged { area, at } => ChooseErr::Damaged { area, at },
        StoreErr::NoCvd => ChooseErr::NoCvd,
        _ => unreachable!(),
    }
}

// Why no plan began.
pub(crate) fn unbegun(off: PlanErr) -> ChooseErr
    ensures { result ≡ of_plan off }
{
    match off {
        PlanErr::Host => ChooseErr::Host,
        PlanErr::Memory => ChooseErr::Memory,
        PlanErr::Damaged { area, at } => ChooseErr::Damaged { area, at },
        PlanErr::JournalFull => ChooseErr::JournalFull,
        PlanErr::NoCvd => ChooseErr::NoCvd,
        PlanErr::BadThreshold => ChooseErr::BadThreshold,
        PlanErr::Migrating => ChooseErr::Migrating,
        PlanErr::NoNumbers => ChooseErr::NoNumbers,
    }
}
