//! Whether data is so small that each count of it fits the programs' numbers.

ghost use Rattle.std.specs.Prelude.{◌<◌, ◌≤◌, length, IfSome};
ghost use Rattle.std.specs.Bool.{OnTrue};
ghost use Rattle.ov_plain.specs.Small.{ServeFew};

use crate::dataset::{Part, Plan};

/// Whether each partition serves at most 65,535 versions.
pub fn serve_few(parts: &[Part]) -> bool
    ensures { OnTrue result (ServeFew parts.now) }
{
    match parts {
        [] => true,
        [part, rest @ ..] => part.versions.len() <= 65_535 && serve_few(rest),
    }
}

/// Whether a plan has at most 65,535 targets and isn't past them.
pub fn is_small_plan(plan: &Option<Plan>) -> bool
    ensures at { OnTrue result (IfSome plan.now (λ plan. plan.at < 65535)) }
    ensures targets { OnTrue result (IfSome plan.now (λ plan. length plan.targets ≤ 65535)) }
{
    match plan {
        None => true,
        Some(plan) => plan.at < 65_535 && plan.targets.len() <= 65_535,
    }
}
