// A plan within a budget.

ghost use Rattle.std.specs.Prelude.{◌≡◌, ◌≤◌, ◌+◌, ◌-◌, ◌^◌, min, ℕ, List, true, None, Some, IfOk, IfErr, MatchResult, OnOk};
ghost use Rattle.ov_host.specs.Stops.{Only};
ghost use Rattle.ov_fetch.specs.Extents.{Looked, page_bytes};
ghost use Rattle.ov_core.specs.AtWorld.{IsAtNext, IsAtWorld, IsEither};
ghost use Rattle.ov_core.specs.Held.{IsByJournal};
ghost use Rattle.ov_model.specs.Moves.{BeginPlan};
ghost use Rattle.ov_model.specs.World.{Dataset, World, set_named};
ghost use Rattle.ov_model.specs.declared.refusal.Refusal.{Refusal};
ghost use Rattle.ov_model.specs.declared.reply.BudgetLine.{BudgetLine as BudgetLineValue};
ghost use Rattle.ov_open.specs.Opening.{IsWorld};
ghost use Rattle.ov_optimize.specs.Damages.{HasBadPart, IsListDamage};
ghost use Rattle.ov_optimize.specs.Planned.{IsSplitFor};
ghost use Rattle.ov_read.specs.Sizes.{bytes_for, list_bytes_for};
ghost use Rattle.law_room.specs.Room.{Entry, IsWithin, Made};
ghost use Rattle.ov_store.specs.Committing.{Set};
ghost use Rattle.ov_store.specs.Kept.{MayCall};
ghost use Rattle.ov_store.specs.Planning.{optimize_off};
ghost use Rattle.ov_store.specs.Scanning.{set_in, vids_in};
ghost use Rattle.ov_store.specs.Thresholds.{AreListsOf};
ghost use Rattle.ov_store.specs.Worlds.{and_made};
ghost use Rattle.ov_choose.specs.Choices.{IsBegunWithin, IsNoThreshold, IsPicked, IsUnchosen, IsUnpicked, within_off};
ghost use Rattle.ov_choose.specs.Worlds.{IsPlanLackOf, IsRefusedTo, IsShownTo, IsToldOf, best_of, within_in, within_refused};
ghost use Rattle.ov_choose.specs.declared.errors.ChooseErr.{ChooseErr as ChooseErrValue};

use crate::allowing::may_choose;
use crate::errors::{ChooseErr, unbegun};
use crate::picking::{Picked, pick_of};
use crate::telling::told_lines;
use ov_host::Host;
use ov_lyre::Split;
use ov_member::Members;
use ov_model::{BudgetLine, Seq};
use ov_store::{Report, Store};
use std::alloc::Global;

/// A plan that began within a budget.
#[derive(Drop)]
pub struct Chosen {
    /// The table: line p, at index p - 1, is what the split at p / 100 comes to.
    pub lines: Seq<BudgetLine>,
    /// The threshold p / 100 of the plan, from 1 to 100.
    pub p: u32,
    /// What will stand when it is done.
    pub report: Report,
}

/// A threshold whose plan may begin, with the lists that it was chosen by, and its split.
#[derive(Drop)]
struct Choice {
    lists: Vec<Members>,
    lines: Seq<BudgetLine>,
    p: u32,
    split: Split,
}

// The threshold whose plan begins.
fn choose<H: Host>(
    alloc: Global,
    store: &Store,
    host: &mut H,
    name: &str,
    budget: u64,
) -> Result<Choice, ChooseErr>
    requires usable { store.now.usable ≡ true }
    ensures looked { Looked (H.state host.old) (H.state host.new) }
    ensures fetched { (s : Set) → set_in store.now.held.numbers name.now ≡ Some s
        → (H.state host.new).fetched ≤ (H.state host.old).fetched + list_bytes_for s (vids_in s) }
    ensures unread { (off : ChooseErrValue) → within_off (set_in store.now.held.numbers name.now) ≡ Some off → H.state host.new ≡ H.state host.old }
    ensures within { OnOk result (within_off (set_in store.now.held.numbers name.now) ≡ None) }
    ensures allowed { IfOk result (λ choice. optimize_off store.now.held.numbers name.now choice.p 100 ≡ None) }
    ensures listed { (s : Set) → set_in store.now.held.numbers name.now ≡ Some s
        → IfOk result (λ choice. AreListsOf s (H.state host.new) choice.lists.items) }
    ensures split { (s : Set) → set_in store.now.held.numbers name.now ≡ Some s
        → IfOk result (λ choice. IsSplitFor s choice.p 100 choice.split) }
    ensures chosen { (s : Set) → set_in store.now.held.numbers name.now ≡ Some s
        → IfOk result (λ choice. IsPicked s budget (H.state host.old) choice.lines choice.p) }
    ensures why { IfErr result (IsUnpicked (within_off (set_in store.now.held.numbers name.now)) (set_in store.now.held.numbers name.now)
        budget (H.state host.old) (H.state host.new)) }
    ensures world { (w : World) → IsAtWorld w store.now.held (H.state host.old) → MatchResult result
        (λ choice. IsShownTo w name.now budget choice.lines choice.p) (IsRefusedTo name.now budget (within_refused w name.now budget)) }
{
    may_choose(store, name)?;
    let Picked {
        lists,
        lines,
        p,
        split,
    } = pick_of(alloc, store, host, name, budget)?;
    let lines = told_lines(alloc, &lines)?;
    Ok(Choice {
        lists,
        lines,
        p,
        split,
    })
}

/// Begins the plan of a threshold p / 100, p from 1 to 100: of those that store at most so many records as the budget says the one
/// whose cost is least, ties to the least stored and then to the least p. The table of all hundred is told with it.
///
/// Refusals in their order: `NoCvd`, `Migrating`, `NoNumbers`; before these nothing is read. Then `Damaged` where a list of the
/// dataset is damaged, `NoThreshold`, `Damaged` where a segment is, and `JournalFull`. All memory is taken before the first write.
///
/// It costs the pages of the lists of all versions and, where a threshold is chosen, of the segments of all partitions, each read
/// once; a hundred splits; the write of its record; and two syncs.
pub fn optimize_within<H: Host>(
    alloc: Global,
    store: &mut Store,
    host: &mut H,
    name: &str,
    budget: u64,
) -> Result<Chosen, ChooseErr>
    requires call { MayCall store.old (H.state host.old) }

    // What is read, and the counts of the host.
    ensures told { (H.state host.new).tells ≡ (H.state host.old).tells }
    ensures kept { (H.state host.new).keeps ≡ (H.state host.old).keeps }
    ensures faults { (H.state host.old).faults ≤ (H.state host.new).faults }
    ensures counted { min (H.state host.old).fetched (2 ^ 64 - 1) ≤ (H.state host.new).fetched }
    ensures fetched { (s : Set) → set_in store.old.held.numbers name.now ≡ Some s
        → (H.state host.new).fetched ≤ (H.state host.old).fetched + bytes_for s (vids_in s) }
    ensures lists_alone { (s : Set) → set_in store.old.held.numbers name.now ≡ Some s → IfErr result (λ off. IsNoThreshold off
        → (H.state host.new).fetched ≤ (H.state host.old).fetched + list_bytes_for s (vids_in s)) }
    ensures unread { (off : ChooseErrValue) → within_off (set_in store.old.held.numbers name.now) ≡ Some off → H.state host.new ≡ H.state host.old }

    // Which plan began, or why none did, and what stays then.
    ensures allowed { OnOk result (within_off (set_in store.old.held.numbers name.now) ≡ None) }
    ensures done { (s : Set) → set_in store.old.held.numbers name.now ≡ Some s
        → IfOk result (IsBegunWithin s budget (H.state host.old) store.old.held store.new.held) }
    ensures why { IfErr result (IsUnchosen (set_in store.old.held.numbers name.now) budget store.old.held (H.state host.old) (H.state host.new)) }
    ensures undamaged { (s : Set) → (H.state host.old).tells ≡ true → set_in store.old.held.numbers name.now ≡ Some s
        → OnOk result ((page : ℕ) → (IsListDamage (page_bytes (H.state host.old)) s page → ⊥) × (HasBadPart (page_bytes (H.state host.old)) s page → ⊥)) }
    ensures stays { IfErr result (λ off. (off ≡ ChooseErr.Host → ⊥) → (store.new ≡ store.old) × Looked (H.state host.old) (H.state host.new)) }
    ensures usable { OnOk result (MayCall store.new (H.state host.new)) }
    ensures by_journal { IsByJournal store.old.held (H.state host.old) → OnOk result (IsByJournal store.new.held (H.state host.new)) }

    // Where the store is at a World: a stop at any moment, the plan that began, what is told of it, and why none began.
    ensures stops { (w : World) → IsAtWorld w store.old.held (H.state host.old)
        → Only (H.state host.old).tape (H.state host.new).tape (IsEither w (within_in name.now budget w) (H.state host.old).tape.disk.printed) }
    ensures moves { (w : World) → IsAtWorld w store.old.held (H.state host.old)
        → OnOk result (IsAtNext (within_in name.now budget w) store.new.held (H.state host.old) (H.state host.new)) }
    ensures shown { (w : World) (d : Dataset) → IsAtWorld w store.old.held (H.state host.old) → set_named w name.now ≡ Some d
        → IfOk result (IsToldOf d budget) }
    ensures refused { (w : World) → IsAtWorld w store.old.held (H.state host.old) → MatchResult result
        (λ chosen. within_refused w name.now budget ≡ None) (IsRefusedTo name.now budget (within_refused w name.now budget)) }
    ensures still { (w : World) (refusal : Refusal) → IsAtWorld w store.old.held (H.state host.old)
        → within_refused w name.now budget ≡ Some refusal
        → Only (H.state host.old).tape (H.state host.new).tape (IsWorld w (H.state host.old).tape.disk.printed) }
    ensures room { (w : World) (d : Dataset) (best : ℕ × BudgetLineValue) (entry : Entry) (past : List Made)
        → IsAtWorld w store.old.held (H.state host.old) → set_named w name.now ≡ Some d → best_of budget d ≡ Some best
        → IsWithin entry past store.old.held
        → MatchResult result (λ chosen. IsWithin entry (and_made past (BeginPlan d.cvd.number best.0 100) w) store.new.held)
        (IsPlanLackOf entry past (BeginPlan d.cvd.number best.0 100) w) }
{
    let Choice {
        lists,
        lines,
        p,
        split,
    } = choose(alloc, store, host, name, budget)?;
    match store.begin_plan(host, name, u64::from(p), 100, &lists, &split) {
        Ok(report) => Ok(Chosen { lines, p, report }),
        Err(off) => Err(unbegun(off)),
    }
}
