// Whether a plan is worth it.

ghost use Rattle.std.specs.Prelude.{◌≡◌, ◌≤◌, ◌+◌, ℕ, true, None, Some, IfOk, IfErr, MatchResult, OnOk};
ghost use Rattle.ov_fetch.specs.Extents.{Looked, page_bytes};
ghost use Rattle.ov_core.specs.AtWorld.{IsAtWorld};
ghost use Rattle.ov_model.specs.World.{Dataset, World, set_named};
ghost use Rattle.ov_optimize.specs.Damages.{IsListDamage};
ghost use Rattle.ov_read.specs.Sizes.{list_bytes_for};
ghost use Rattle.ov_store.specs.Committing.{Set};
ghost use Rattle.ov_store.specs.Scanning.{set_in, vids_in};
ghost use Rattle.ov_choose.specs.Choices.{IsAdvice, IsUnpicked, advise_off};
ghost use Rattle.ov_choose.specs.Worlds.{IsAdviceOn, IsRefusedTo, advise_refused};
ghost use Rattle.ov_choose.specs.declared.errors.ChooseErr.{ChooseErr as ChooseErrValue};

use crate::allowing::present_cost;
use crate::errors::ChooseErr;
use crate::picking::{Picked, pick_of};
use ov_budget::is_worth;
use ov_host::Host;
use ov_store::Store;
use std::alloc::Global;

/// What an optimize within a budget would come to.
#[derive(Clone, Copy, PartialEq, Eq)]
pub struct Advice {
    /// What checkouts of each version read now: the sum over partitions of their versions times their records.
    pub cost: u64,
    /// The same when the plan is done that would begin.
    pub best: u64,
    /// Whether it is worth it: the cost is over a / b of the best one.
    pub worth: bool,
}

/// Whether an optimize within a budget is worth it: whether the present cost is over a / b of that of the best threshold that stores
/// at most so many records as the budget says, `b * cost > a * best` in whole numbers. Nothing is changed, and a plan may run.
///
/// Refusals in their order: `NoCvd`, `BadThreshold` where not 1 ≤ b ≤ a ≤ 1,000,000; before these nothing is read. Then `Damaged` where
/// a list of the dataset is damaged, and `NoThreshold`. It costs the pages of the lists of all versions, each read once, and a hundred
/// splits.
pub fn advise<H: Host>(
    alloc: Global,
    store: &Store,
    host: &mut H,
    name: &str,
    budget: u64,
    a: u64,
    b: u64,
) -> Result<Advice, ChooseErr>
    requires usable { store.now.usable ≡ true }
    ensures looked { Looked (H.state host.old) (H.state host.new) }
    ensures fetched { (s : Set) → set_in store.now.held.numbers name.now ≡ Some s
        → (H.state host.new).fetched ≤ (H.state host.old).fetched + list_bytes_for s (vids_in s) }
    ensures unread { (off : ChooseErrValue) → advise_off a b (set_in store.now.held.numbers name.now) ≡ Some off → H.state host.new ≡ H.state host.old }
    ensures allowed { OnOk result (advise_off a b (set_in store.now.held.numbers name.now) ≡ None) }
    ensures done { (s : Set) → set_in store.now.held.numbers name.now ≡ Some s → IfOk result (IsAdvice s budget a b (H.state host.old)) }
    ensures why { IfErr result (IsUnpicked (advise_off a b (set_in store.now.held.numbers name.now)) (set_in store.now.held.numbers name.now)
        budget (H.state host.old) (H.state host.new)) }
    ensures undamaged { (s : Set) → (H.state host.old).tells ≡ true → set_in store.now.held.numbers name.now ≡ Some s
        → OnOk result ((page : ℕ) → IsListDamage (page_bytes (H.state host.old)) s page → ⊥) }

    // At a World: what is told of the dataset, and what is refused.
    ensures shown { (w : World) (d : Dataset) → IsAtWorld w store.now.held (H.state host.old) → set_named w name.now ≡ Some d
        → IfOk result (IsAdviceOn d budget a b) }
    ensures refused { (w : World) → IsAtWorld w store.now.held (H.state host.old) → MatchResult result
        (λ advice. advise_refused w name.now budget a b ≡ None) (IsRefusedTo name.now budget (advise_refused w name.now budget a b)) }
{
    let cost = present_cost(store, name, a, b)?;
    let Picked { lines, p, .. } = pick_of(alloc, store, host, name, budget)?;
    let best = lines[p as usize - 1].cost;
    Ok(Advice {
        cost,
        best,
        worth: is_worth(cost, best, a, b),
    })
}
