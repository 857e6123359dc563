// The dataset whose turn it is.

ghost use Rattle.std.specs.Prelude.{◌≡◌, find, is_some, option_map, option_copied, IfSome};
ghost use Rattle.ov_catalog.specs.Ready.{IsSet};
ghost use Rattle.ov_catalog.specs.Sets.{set_in, sets_in};
ghost use Rattle.ov_core.specs.Held.{IsReplayed};
ghost use Rattle.law_steps.specs.Turns.{running};

use ov_catalog::{Catalog, Cvd};

/// The first dataset, in order of creation, that has a running plan. It walks the datasets twice at most.
pub(crate) fn running_of(catalog: &Catalog) -> Option<&Cvd>
    requires { IsReplayed catalog.now.numbers }
    ensures first { option_map set_in (option_copied result) ≡ running catalog.now.numbers }
    ensures sound { IfSome result (λ d. IsSet d.now) }
{
    match first_running(catalog.cvds()) {
        // No other dataset has its name, and what the catalog finds by a name is sound.
        Some(d) => catalog.cvd(d.name.as_str()),
        None => None,
    }
}

fn first_running(sets: &[Cvd]) -> Option<&Cvd>
    ensures { option_map set_in (option_copied result) ≡ find (λ s. is_some s.plan) (sets_in sets.now) }
{
    for d in sets {
        if d.plan.is_some() {
            return Some(d);
        }
    }
    None
}
