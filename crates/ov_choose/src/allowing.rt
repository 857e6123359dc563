// What the numbers refuse, before anything is read.

ghost use Rattle.std.specs.Prelude.{◌≡◌, ◌≤◌, ℕ, None, Some, IfOk, IfErr, MatchResult, OnOk};
ghost use Rattle.ov_host.specs.Host.{State};
ghost use Rattle.ov_core.specs.AtWorld.{IsAtWorld};
ghost use Rattle.ov_listing.specs.Listed.{cost as cost_in};
ghost use Rattle.ov_model.specs.World.{Dataset, World, cost as cost_of, set_named};
ghost use Rattle.ov_store.specs.Committing.{Set};
ghost use Rattle.ov_store.specs.Planning.{optimize_off};
ghost use Rattle.ov_store.specs.Scanning.{set_in};
ghost use Rattle.ov_choose.specs.Choices.{advise_off, within_off};
ghost use Rattle.ov_choose.specs.Worlds.{IsRefusedTo, MayBegin, within_refused};

use crate::errors::{ChooseErr, unbegun};
use ov_store::{Store, is_threshold};

/// Whether a plan within a budget may begin, as far as the numbers say: `NoCvd`, `Migrating`, `NoNumbers`, in this order.
pub(crate) fn may_choose(store: &Store, name: &str) -> Result<(), ChooseErr>
    ensures allowed { OnOk result (within_off (set_in store.now.held.numbers name.now) ≡ None) }
    ensures any { (p : ℕ) → 1 ≤ p → p ≤ 100 → OnOk result (optimize_off store.now.held.numbers name.now p 100 ≡ None) }
    ensures why { IfErr result (λ off. within_off (set_in store.now.held.numbers name.now) ≡ Some off) }
    ensures world { (w : World) (t : State) (budget : ℕ) → IsAtWorld w store.now.held t → MatchResult result
        (λ done. MayBegin w name.now) (IsRefusedTo name.now budget (within_refused w name.now budget)) }
{
    match store.may_optimize(name, 1, 100) {
        Ok(()) => Ok(()),
        Err(off) => Err(unbegun(off)),
    }
}

/// What checkouts of each version of a dataset read now, together, where the ratio a / b is one: `NoCvd`, `BadThreshold`.
pub(crate) fn present_cost(store: &Store, name: &str, a: u64, b: u64) -> Result<u64, ChooseErr>
    ensures allowed { OnOk result (advise_off a b (set_in store.now.held.numbers name.now) ≡ None) }
    ensures why { IfErr result (λ off. advise_off a b (set_in store.now.held.numbers name.now) ≡ Some off) }
    ensures cost { (s : Set) → set_in store.now.held.numbers name.now ≡ Some s → IfOk result (λ cost. cost ≡ cost_in s) }
    ensures world { (w : World) (d : Dataset) (t : State) → IsAtWorld w store.now.held t → set_named w name.now ≡ Some d
        → IfOk result (λ cost. cost ≡ cost_of d) }
{
    let Some(d) = store.catalog().cvd(name) else {
        return Err(ChooseErr::NoCvd);
    };
    if !is_threshold(b, a) {
        return Err(ChooseErr::BadThreshold);
    }
    Ok(d.layout.cost())
}
