//! A plan that may begin.

ghost use Rattle.std.specs.Prelude.{◌≡◌, ◌≤◌, ◌+◌, ℕ, [], true, None, Some, map, IsTrue, IsErrOf, IfErr, IfOk, MatchResult};
ghost use Rattle.std.specs.List.{AllZip};
ghost use Rattle.ov_event.specs.declared.event.Event.TheVariants as says;
ghost use Rattle.ov_event.specs.Fields.{AreFew};
ghost use Rattle.ov_event.specs.Spelling.{IsEvent, IsTarget};
ghost use Rattle.ov_host.specs.declared.area.Extent.{Extent};
ghost use Rattle.ov_host.specs.Host.{Rose};
ghost use Rattle.ov_model.specs.Act.{is_threshold};
ghost use Rattle.ov_model.specs.World.{Dataset, World};
ghost use Rattle.ov_catalog.specs.Applying.{first_off, set_numbered};
ghost use Rattle.ov_catalog.specs.Events.{parts_at};
ghost use Rattle.ov_catalog.specs.Numbers.{Numbers};
ghost use Rattle.ov_catalog.specs.Raw.{event_in};
ghost use Rattle.ov_catalog.specs.Ready.{IsSet};
ghost use Rattle.ov_catalog.specs.Sets.{part_in, set_in};
ghost use Rattle.ov_catalog.specs.Shown.{plan_event};
ghost use Rattle.ov_catalog.specs.Stands.{asked_as};
ghost use Rattle.ov_fetch.specs.Extents.{Looked, page_bytes};
ghost use Rattle.ov_read.specs.OfWorld.{IsSetOf, IsSpared};
ghost use Rattle.ov_read.specs.Sizes.{bytes_for, segment_bytes_for};
ghost use Rattle.ov_core.specs.Brought.{IsBare, content};
ghost use Rattle.ov_optimize.specs.Damages.{RefusesParts, RefusesPlan};
ghost use Rattle.ov_optimize.specs.Planned.{IsMade, IsPlanned, IsReport, IsSplitFor, Says};
ghost use Rattle.ov_optimize.specs.Reading.{IsListAt, IsListOf, IsPartitionOf, all_vids};

use crate::listing::all_lists;
use crate::parting::all_partitions;
use crate::report::{Report, report_of};
use crate::tree::tree_of;
use ov_catalog::Cvd;
use ov_event::{Event, Items, PlanTarget};
use ov_fetch::FetchErr;
use ov_host::Host;
use ov_lyre::{Split, split};
use ov_member::Members;
use ov_targets::{Partition, targets_of};
use std::alloc::{AllocError, Global};

/// A plan that may begin: the event that says it, and what is told of it.
#[derive(Drop)]
pub struct Planned {
    pub event: Event,
    pub report: Report,
}

/// The event that begins a plan with these targets.
fn event_of(cvd: u32, p: u32, q: u32, targets: Vec<PlanTarget>) -> Event
    requires { AreFew 32 IsTarget targets.items }
    ensures event { IsEvent result }
    ensures is { result ≡ says.Plan cvd p q targets.items }
{
    Event::Plan {
        cvd,
        p,
        q,
        targets: Items::new(targets),
    }
}

/// The split of a dataset's versions at p / q.
fn split_of(alloc: Global, d: &Cvd, p: u32, q: u32) -> Result<Split, AllocError>
    requires sound { IsSet d.now }
    requires threshold { IsTrue (is_threshold p q) }
    ensures { IfOk result (IsSplitFor (set_in d.now) p q) }
{
    let tree = tree_of(alloc, &d.versions)?;
    let found = split(alloc, &tree, p, q)?;
    Ok(found)
}

/// The plan of a split at p / q, from the lists of all versions and from the partitions.
fn made_of(
    alloc: Global,
    d: &Cvd,
    lists: &[Members],
    partitions: Vec<Partition>,
    split: &Split,
    p: u32,
    q: u32,
) -> Result<Planned, AllocError>
    requires sound { IsSet d.now }
    requires idle { d.now.plan ≡ None }
    requires threshold { IsTrue (is_threshold p q) }
    requires numbers { d.now.layout.next ≤ 4294000000 }
    requires lists { AllZip (IsListOf (set_in d.now)) (all_vids (set_in d.now)) lists.now }
    requires parted { AllZip (IsPartitionOf d.now.records) (map part_in d.now.layout.parts) partitions.items }
    requires split { IsSplitFor (set_in d.now) p q split.now }
    ensures made { IfOk result (IsMade (set_in d.now) p q) }
    ensures event { IfOk result (λ made. IsEvent made.event) }
    ensures applies { IfOk result (λ made. (n : Numbers Extent Extent) → set_numbered d.now.number n ≡ Some (set_in d.now) → (format : ℕ) → first_off format made.event n ≡ None) }
    ensures says { IfOk result (λ made. Says lists.now partitions.items (set_in d.now) p q made.event) }
{
    let tree = tree_of(alloc, &d.versions)?;
    // A layout's partitions stand by their numbers, and each has versions.
    let _ = d.layout.parts();
    let targets = targets_of(alloc, lists, partitions, &split.parts)?;
    let report = report_of(&tree, split, &targets);
    let event = event_of(d.number, p, q, targets);
    Ok(Planned { event, report })
}

/// The plan of an optimize of a dataset at the threshold p / q, from 1 / 1000000 to 1, from the lists of all its versions, as
/// [`all_lists`] gives them, and from the split of its versions there, as
/// [`thresholds_within`](crate::thresholds_within) gives it: the event that begins it, and what will stand when it is done. Nothing is
/// changed, no list is read again, and no split is made.
///
/// The plan's targets have all versions, so each partition is emptied by one of them; of all partitions the rids of their segments
/// are read, each once. `Damaged` where one of these is short, off its grammar, or doesn't bear out the numbers of the catalog, with
/// the page that names it; `Memory`, and `Host` only where the host failed.
pub fn plan_with<H: Host>(
    alloc: Global,
    host: &mut H,
    d: &Cvd,
    lists: &[Members],
    split: &Split,
    p: u32,
    q: u32,
) -> Result<Planned, FetchErr>
    requires sound { IsSet d.now }
    requires idle { d.now.plan ≡ None }
    requires threshold { IsTrue (is_threshold p q) }
    requires numbers { d.now.layout.next ≤ 4294000000 }
    requires lists { AllZip (IsListOf (set_in d.now)) (all_vids (set_in d.now)) lists.now }
    requires split { IsSplitFor (set_in d.now) p q split.now }
    ensures looked { Looked (H.state host.old) (H.state host.new) }
    ensures cause { IsErrOf result FetchErr.Host → Rose (H.state host.old).faults (H.state host.new).faults }
    ensures fetched { (H.state host.new).fetched ≤ (H.state host.old).fetched + segment_bytes_for (set_in d.now) (all_vids (set_in d.now)) }

    // On every host the event may be written, and the report counts what it says.
    ensures bare { IfOk result (λ made. IsBare made.event) }
    ensures event { IfOk result (λ made. IsEvent made.event) }
    ensures applies { IfOk result (λ made. (n : Numbers Extent Extent) → set_numbered d.now.number n ≡ Some (set_in d.now) → (format : ℕ) → first_off format made.event n ≡ None) }
    ensures made { IfOk result (IsMade (set_in d.now) p q) }

    // Where the bytes are told, a partition is damaged; or the plan says what stands on the pages, if the lists stand there.
    ensures refuses { (H.state host.old).tells ≡ true → IfErr result (λ e. RefusesParts e (page_bytes (H.state host.old)) (set_in d.now)) }
    ensures says { (H.state host.old).tells ≡ true
        → AllZip (IsListAt (page_bytes (H.state host.old)) (set_in d.now)) (all_vids (set_in d.now)) lists.now
        → IfOk result (λ made. IsPlanned (page_bytes (H.state host.old)) (set_in d.now) p q made.event) }
{
    let partitions = all_partitions(alloc, host, d)?;
    let made = made_of(alloc, d, lists, partitions, split, p, q)?;
    Ok(made)
}

/// The plan of an optimize of a dataset at the threshold p / q, from 1 / 1000000 to 1: the event that begins it, and what will stand
/// when it is done. Nothing is changed.
///
/// Of all versions the lists are read, and then of all partitions the rids of their segments, each once. `Damaged` where one of these
/// is short, off its grammar, or doesn't bear out the numbers of the catalog, with the page that names it; `Memory`, and `Host` only
/// where the host failed.
///
/// Time goes by the bytes that are read, by the ranges of all lists and segments times the logarithm of their number, and by the
/// split of the tree; memory by the ranges.
pub fn plan_of<H: Host>(
    alloc: Global,
    host: &mut H,
    d: &Cvd,
    p: u32,
    q: u32,
) -> Result<Planned, FetchErr>
    requires sound { IsSet d.now }
    requires idle { d.now.plan ≡ None }
    requires threshold { IsTrue (is_threshold p q) }
    requires numbers { d.now.layout.next ≤ 4294000000 }
    ensures looked { Looked (H.state host.old) (H.state host.new) }
    ensures cause { IsErrOf result FetchErr.Host → Rose (H.state host.old).faults (H.state host.new).faults }
    ensures fetched { (H.state host.new).fetched ≤ (H.state host.old).fetched + bytes_for (set_in d.now) (all_vids (set_in d.now)) }

    // On every host the event may be written, and the report counts what it says.
    ensures bare { IfOk result (λ made. IsBare made.event) }
    ensures event { IfOk result (λ made. IsEvent made.event) }
    ensures applies { IfOk result (λ made. (n : Numbers Extent Extent) → set_numbered d.now.number n ≡ Some (set_in d.now) → (format : ℕ) → first_off format made.event n ≡ None) }
    ensures made { IfOk result (IsMade (set_in d.now) p q) }

    // Where the bytes are told, it says what stands on the pages, or they are damaged.
    ensures answer { (H.state host.old).tells ≡ true → MatchResult result
        (λ made. IsPlanned (page_bytes (H.state host.old)) (set_in d.now) p q made.event)
        (λ e. RefusesPlan e (page_bytes (H.state host.old)) (set_in d.now)) }

    // Where the pages stand for a World, it is the event that the World asks for, and the report is what an optimize tells there.
    ensures world { (H.state host.old).tells ≡ true → (w : World) (ds : Dataset)
        → IsSetOf w ds (page_bytes (H.state host.old)) (set_in d.now)
        → MatchResult result
        (λ made. (Some (content (event_in made.event) [] []) ≡ Some (asked_as (plan_event ds.cvd.number p q ds))) × IsReport ds p q made.report) IsSpared }
{
    let lists = all_lists(alloc, host, d)?;
    let split = split_of(alloc, d, p, q)?;
    let made = plan_with(alloc, host, d, &lists, &split, p, q)?;
    Ok(made)
}
