//! The thresholds that a plan may begin at.

ghost use Rattle.std.specs.Prelude.{◌≡◌, ℕ, List, length, map, Some, None, IfOk, MatchResult};
ghost use Rattle.std.specs.List.{AllZip};
ghost use Rattle.ov_budget.specs.Choices.{choice, least_of};
ghost use Rattle.ov_budget.specs.Offers.{numbered};
ghost use Rattle.ov_budget.specs.Tables.{table as table_of};
ghost use Rattle.ov_graph.specs.Versions.{reduced};
ghost use Rattle.ov_model.specs.Budget as model;
ghost use Rattle.ov_model.specs.World.{Dataset, World};
ghost use Rattle.law_budget.specs.Told.{told};
ghost use Rattle.ov_catalog.specs.Events.{graph_of};
ghost use Rattle.ov_catalog.specs.Ready.{IsSet};
ghost use Rattle.ov_catalog.specs.Sets.{set_in};
ghost use Rattle.ov_read.specs.OfWorld.{IsSetOf};
ghost use Rattle.ov_optimize.specs.Planned.{IsSplitFor};
ghost use Rattle.ov_optimize.specs.Reading.{IsListAt, IsListOf, all_vids};

use crate::tree::tree_of;
use ov_budget::{Line, Offers, table, table_within};
use ov_catalog::Cvd;
use ov_member::Members;
use std::alloc::{AllocError, Global};

/// The table of a dataset's thresholds, from the lists of all its versions, as [`all_lists`](crate::all_lists) gives them: 100 lines,
/// of which line p, at index p - 1, is what the split of its versions at p / 100 comes to. Nothing is read. Time and memory are those
/// of `ov_budget`'s table, which makes a hundred splits.
pub fn thresholds(alloc: Global, d: &Cvd, lists: &[Members]) -> Result<Vec<Line>, AllocError>
    requires sound { IsSet d.now }
    requires lists { AllZip (IsListOf (set_in d.now)) (all_vids (set_in d.now)) lists.now }
    ensures hundred { IfOk result (λ lines. length lines.items ≡ 100) }
    ensures lines { IfOk result (λ lines. lines.items ≡ table_of (reduced (graph_of (set_in d.now).versions)) lists.now) }

    // Where the lists stand on pages that stand for a World, it is the table that the World's dataset has.
    ensures world { (w : World) (ds : Dataset) (area : List ℕ) → IsSetOf w ds area (set_in d.now)
        → AllZip (IsListAt area (set_in d.now)) (all_vids (set_in d.now)) lists.now
        → IfOk result (λ lines. map told lines.items ≡ model.table ds) }
{
    let tree = tree_of(alloc, &d.versions)?;
    table(alloc, &tree, lists)
}

/// The same table, with the threshold that a budget chooses and its split, which a plan takes over: nothing of it is made again.
pub fn thresholds_within(
    alloc: Global,
    d: &Cvd,
    lists: &[Members],
    budget: u64,
) -> Result<Offers, AllocError>
    requires sound { IsSet d.now }
    requires lists { AllZip (IsListOf (set_in d.now)) (all_vids (set_in d.now)) lists.now }
    ensures hundred { IfOk result (λ made. length made.lines.items ≡ 100) }
    ensures lines { IfOk result (λ made. made.lines.items ≡ table_of (reduced (graph_of (set_in d.now).versions)) lists.now) }
    ensures best { IfOk result (λ made. MatchResult made.best (λ offer. choice budget made.lines.items ≡ Some (numbered offer))
        (λ none. (choice budget made.lines.items ≡ None) × (none.least ≡ least_of made.lines.items))) }
    ensures split { IfOk result (λ made. IfOk made.best (λ offer. IsSplitFor (set_in d.now) offer.p 100 offer.split)) }
    ensures world { (w : World) (ds : Dataset) (area : List ℕ) → IsSetOf w ds area (set_in d.now)
        → AllZip (IsListAt area (set_in d.now)) (all_vids (set_in d.now)) lists.now
        → IfOk result (λ made. map told made.lines.items ≡ model.table ds) }
{
    let tree = tree_of(alloc, &d.versions)?;
    let found = table_within(alloc, &tree, lists, budget)?;
    Ok(found)
}
