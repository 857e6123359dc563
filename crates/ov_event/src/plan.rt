//! The targets of plans, and migrations, in bytes.

ghost use Rattle.std.specs.Prelude.{◌≡◌, ◌++◌, OnOk};
ghost use Rattle.ov_event.specs.Spelling.{target, raw_target, raw_plan, maybe_plan, IsTarget, IsRawTarget, IsRawPlan, IsMaybePlan};
ghost use Rattle.ov_event.specs.Fitting.{TargetFits, RawTargetFits, RawPlanFits, MaybePlanFits};
ghost use Rattle.ov_event.specs.Reading.{Gives};
ghost use Rattle.ov_event.specs.Records.{target_at, raw_target_at, raw_plan_at, maybe_plan_at};

use crate::event::PlanTarget;
use crate::field::Field;
use crate::stop::Stop;
use crate::whole::{RawPlan, RawTarget};
use ov_items::Items;
use std::alloc::{AllocError, Global};

impl Field for PlanTarget {
    ghost at = { target_at };

    ghost spelled = { target };

    ghost fits = { TargetFits };

    ghost is = { IsTarget };

    #[tactic(auto, unfolding(crate::specs::Records::target_at))]
    fn read(alloc: Global, bytes: &[u8]) -> Result<(PlanTarget, &[u8]), Stop> {
        let (size, rest) = u32::read(alloc, bytes)?;
        let (source, rest) = u32::read(alloc, rest)?;
        let (kept, rest) = Items::read(alloc, rest)?;
        let (kept_records, rest) = u32::read(alloc, rest)?;
        let target = PlanTarget {
            size,
            source,
            kept,
            kept_records,
        };
        Ok((target, rest))
    }

    #[tactic(auto, unfolding(crate::specs::Spelling::target))]
    fn write(&self, out: &mut Vec<u8>) -> Result<(), AllocError> {
        self.size.write(out)?;
        self.source.write(out)?;
        self.kept.write(out)?;
        self.kept_records.write(out)
    }
}

impl Field for RawTarget {
    ghost at = { raw_target_at };

    ghost spelled = { raw_target };

    ghost fits = { RawTargetFits };

    ghost is = { IsRawTarget };

    #[tactic(auto, unfolding(crate::specs::Records::raw_target_at))]
    fn read(alloc: Global, bytes: &[u8]) -> Result<(RawTarget, &[u8]), Stop> {
        let (versions, rest) = Items::read(alloc, bytes)?;
        let (size, rest) = u32::read(alloc, rest)?;
        let (source, rest) = u32::read(alloc, rest)?;
        let (kept, rest) = Items::read(alloc, rest)?;
        let (kept_records, rest) = u32::read(alloc, rest)?;
        let target = RawTarget {
            versions,
            size,
            source,
            kept,
            kept_records,
        };
        Ok((target, rest))
    }

    #[tactic(auto, unfolding(crate::specs::Spelling::raw_target))]
    fn write(&self, out: &mut Vec<u8>) -> Result<(), AllocError> {
        self.versions.write(out)?;
        self.size.write(out)?;
        self.source.write(out)?;
        self.kept.write(out)?;
        self.kept_records.write(out)
    }
}

impl Field for RawPlan {
    ghost at = { raw_plan_at };

    ghost spelled = { raw_plan };

    ghost fits = { RawPlanFits };

    ghost is = { IsRawPlan };

    #[tactic(auto, unfolding(crate::specs::Records::raw_plan_at))]
    fn read(alloc: Global, bytes: &[u8]) -> Result<(RawPlan, &[u8]), Stop> {
        let (at, rest) = u32::read(alloc, bytes)?;
        let (copied, rest) = u32::read(alloc, rest)?;
        let (targets, rest) = Items::read(alloc, rest)?;
        let (segments, rest) = Items::read(alloc, rest)?;
        let plan = RawPlan {
            at,
            copied,
            targets,
            segments,
        };
        Ok((plan, rest))
    }

    #[tactic(auto, unfolding(crate::specs::Spelling::raw_plan))]
    fn write(&self, out: &mut Vec<u8>) -> Result<(), AllocError> {
        self.at.write(out)?;
        self.copied.write(out)?;
        self.targets.write(out)?;
        self.segments.write(out)
    }
}

/// A migration behind a 1, or none behind a 0.
#[tactic(auto, unfolding(crate::specs::Records::maybe_plan_at))]
pub(crate) fn maybe_plan_of(alloc: Global, bytes: &[u8]) -> Result<(Option<RawPlan>, &[u8]), Stop>
    ensures { Gives (λ x. (x.0, x.1.now)) result (maybe_plan_at bytes.now) }
{
    match bytes {
        [0, rest @ ..] => Ok((None, rest)),
        [1, rest @ ..] => {
            let (plan, rest) = RawPlan::read(alloc, rest)?;
            Ok((Some(plan), rest))
        }
        _ => Err(Stop::Unspelled),
    }
}

#[tactic(auto, unfolding(crate::specs::Spelling::maybe_plan))]
pub(crate) fn write_maybe_plan(plan: &Option<RawPlan>, out: &mut Vec<u8>) -> Result<(), AllocError>
    requires { MaybePlanFits plan.now }
    ensures written { OnOk result (out.new.items ≡ out.old.items ++ maybe_plan plan.now) }
    ensures sound { OnOk result (IsMaybePlan plan.now) }
{
    match plan {
        None => 0u8.write(out),
        Some(plan) => {
            1u8.write(out)?;
            plan.write(out)
        }
    }
}
