// The line that is picked of a dataset's table.

ghost use Rattle.std.specs.Prelude.{◌≡◌, ◌≤◌, ◌+◌, ℕ, true, None, Some, map, length, IfOk, IfErr, MatchResult, OnOk};
ghost use Rattle.ov_budget.specs.Choices.{choice, least_of, line_in};
ghost use Rattle.ov_budget.specs.Offers.{numbered};
ghost use Rattle.ov_fetch.specs.Extents.{Looked};
ghost use Rattle.ov_core.specs.AtWorld.{IsAtWorld};
ghost use Rattle.ov_model.specs.Budget.{table as table_in};
ghost use Rattle.ov_model.specs.World.{Dataset, World, set_named};
ghost use Rattle.ov_read.specs.Sizes.{list_bytes_for};
ghost use Rattle.law_budget.specs.Told.{told};
ghost use Rattle.ov_optimize.specs.Planned.{IsSplitFor};
ghost use Rattle.ov_store.specs.Committing.{Set};
ghost use Rattle.ov_store.specs.Scanning.{set_in, vids_in};
ghost use Rattle.ov_store.specs.Thresholds.{AreListsOf};
ghost use Rattle.ov_choose.specs.Choices.{IsChoice, IsTableOf, IsUnpicked, IsUnread, there_off};
ghost use Rattle.ov_choose.specs.Worlds.{IsRefusedTo, IsWhole, best_of, over_budget};

use crate::errors::{ChooseErr, unread};
use ov_budget::{Line, Offer, Offers};
use ov_host::Host;
use ov_lyre::Split;
use ov_member::Members;
use ov_optimize::thresholds_within;
use ov_store::Store;
use std::alloc::Global;

/// The lists of all versions of a dataset, and what its thresholds offer for a budget.
#[derive(Drop)]
struct Table {
    lists: Vec<Members>,
    offers: Offers,
}

/// The lists, the table of the thresholds, and the number of the line that is picked, with its split.
#[derive(Drop)]
pub(crate) struct Picked {
    pub(crate) lists: Vec<Members>,
    pub(crate) lines: Vec<Line>,
    pub(crate) p: u32,
    pub(crate) split: Split,
}

// The table of a dataset for a budget, by the lists of all its versions, each of which is read once.
fn table_of<H: Host>(
    alloc: Global,
    store: &Store,
    host: &mut H,
    name: &str,
    budget: u64,
) -> Result<Table, ChooseErr>
    requires usable { store.now.usable ≡ true }
    ensures looked { Looked (H.state host.old) (H.state host.new) }
    ensures fetched { (s : Set) → set_in store.now.held.numbers name.now ≡ Some s
        → (H.state host.new).fetched ≤ (H.state host.old).fetched + list_bytes_for s (vids_in s) }
    ensures unread { set_in store.now.held.numbers name.now ≡ None → H.state host.new ≡ H.state host.old }
    ensures there { OnOk result (there_off (set_in store.now.held.numbers name.now) ≡ None) }
    ensures hundred { IfOk result (λ made. length made.offers.lines.items ≡ 100) }
    ensures table { (s : Set) → set_in store.now.held.numbers name.now ≡ Some s
        → IfOk result (λ made. IsTableOf s (H.state host.old) made.lists.items made.offers.lines.items) }
    ensures best { IfOk result (λ made. MatchResult made.offers.best (λ offer. choice budget made.offers.lines.items ≡ Some (numbered offer))
        (λ none. (choice budget made.offers.lines.items ≡ None) × (none.least ≡ least_of made.offers.lines.items))) }
    ensures split { (s : Set) → set_in store.now.held.numbers name.now ≡ Some s
        → IfOk result (λ made. IfOk made.offers.best (λ offer. IsSplitFor s offer.p 100 offer.split)) }
    ensures why { IfErr result (IsUnread (set_in store.now.held.numbers name.now) (H.state host.old) (H.state host.new)) }

    // At a World nothing is damaged, and the table is the dataset's.
    ensures world { (w : World) (d : Dataset) → IsAtWorld w store.now.held (H.state host.old) → set_named w name.now ≡ Some d
        → MatchResult result (λ made. map told made.offers.lines.items ≡ table_in d) IsWhole }
{
    let Some(d) = store.catalog().cvd(name) else {
        return Err(ChooseErr::NoCvd);
    };
    let lists = match store.lists(host, name) {
        Ok(lists) => lists,
        Err(off) => return Err(unread(off)),
    };
    let offers = thresholds_within(alloc, d, &lists, budget)?;
    Ok(Table { lists, offers })
}

/// The best line within the budget of a dataset's table: `NoCvd`; `Damaged` where a list is damaged; `NoThreshold`. The lists of all
/// versions are read, each once, and nothing else is.
pub(crate) fn pick_of<H: Host>(
    alloc: Global,
    store: &Store,
    host: &mut H,
    name: &str,
    budget: u64,
) -> Result<Picked, ChooseErr>
    requires usable { store.now.usable ≡ true }
    ensures looked { Looked (H.state host.old) (H.state host.new) }
    ensures fetched { (s : Set) → set_in store.now.held.numbers name.now ≡ Some s
        → (H.state host.new).fetched ≤ (H.state host.old).fetched + list_bytes_for s (vids_in s) }
    ensures unread { set_in store.now.held.numbers name.now ≡ None → H.state host.new ≡ H.state host.old }
    ensures there { OnOk result (there_off (set_in store.now.held.numbers name.now) ≡ None) }
    ensures among { IfOk result (λ picked. (1 ≤ picked.p) × (picked.p ≤ 100) × (length picked.lines.items ≡ 100)) }
    ensures listed { (s : Set) → set_in store.now.held.numbers name.now ≡ Some s
        → IfOk result (λ picked. AreListsOf s (H.state host.new) picked.lists.items) }
    ensures chosen { (s : Set) → set_in store.now.held.numbers name.now ≡ Some s
        → IfOk result (λ picked. IsChoice s budget (H.state host.old) picked.lines.items picked.p) }
    ensures split { (s : Set) → set_in store.now.held.numbers name.now ≡ Some s
        → IfOk result (λ picked. IsSplitFor s picked.p 100 picked.split) }
    ensures why { IfErr result (IsUnpicked (there_off (set_in store.now.held.numbers name.now)) (set_in store.now.held.numbers name.now)
        budget (H.state host.old) (H.state host.new)) }

    // At a World nothing is damaged, and it is picked of the dataset's table.
    ensures world { (w : World) (d : Dataset) → IsAtWorld w store.now.held (H.state host.old) → set_named w name.now ≡ Some d
        → MatchResult result
        (λ picked. (map told picked.lines.items ≡ table_in d) × (best_of budget d ≡ Some (picked.p, told (line_in picked.lines.items picked.p))))
        (IsRefusedTo name.now budget (over_budget budget d (best_of budget d))) }
{
    let Table { lists, offers } = table_of(alloc, store, host, name, budget)?;
    let Offers { lines, best } = offers;
    match best {
        Ok(Offer { p, split, .. }) => Ok(Picked {
            lists,
            lines,
            p,
            split,
        }),
        Err(none) => Err(ChooseErr::NoThreshold { least: none.least }),
    }
}
