//! A commit, from the records of its parents.

ghost use Rattle.std.specs.Prelude.{◌≡◌, ◌⊎◌, ◌≤◌, ◌<◌, ◌+◌, ◌^◌, ℕ, Bool, List, true, None, Some, [], length, IfOk, OnOk, IfErr, MatchResult};
ghost use Rattle.std.specs.List.{All};
ghost use Rattle.ov_event.specs.Spelling.{IsEvent};
ghost use Rattle.ov_host.specs.declared.area.Extent.{Extent};
ghost use Rattle.ov_model.specs.World.{Dataset, World};
ghost use Rattle.ov_records.specs.Records.{InKeyOrder, RowsFit};
ghost use Rattle.ov_catalog.specs.Applying.{first_off, set_numbered};
ghost use Rattle.ov_catalog.specs.Numbers.{Numbers};
ghost use Rattle.ov_catalog.specs.Reached.{AreParents, AreRows};
ghost use Rattle.ov_catalog.specs.Ready.{IsSet};
ghost use Rattle.ov_catalog.specs.Sets.{set_in};
ghost use Rattle.ov_core.specs.Brought.{IsUnplaced};
ghost use Rattle.law_commits.specs.Agreeing.{ParentsAgree};
ghost use Rattle.law_commits.specs.Committing.{MayAdd};
ghost use Rattle.ov_version_bytes.specs.Next.{AreLast};
ghost use Rattle.ov_read.specs.Partitions.{AreHeld};
ghost use Rattle.ov_new_version.specs.Asked.{asked_in, fresh_of};
ghost use Rattle.ov_new_version.specs.Commits.{IsCommitOf, Refuses};
ghost use Rattle.ov_new_version.specs.OfWorld.{IsAnswered, IsAsked, IsSpared};

use crate::errors::CommitErr;
use crate::joining::held_at;
use crate::numbering::{made_for, place_of};
use crate::wanted::{Commit, Wanted};
use ov_catalog::Cvd;
use ov_version_bytes::{Next, next_version};
use std::alloc::Global;

/// What a dataset's next version brings, where the records of its parents were read and agree with the dataset's numbers.
/// Its event applies, in a store whose format takes the columns that it adds.
///
/// `TooManyRecords` comes where the dataset would have over 2^31 records, else `Damaged` where the version joins a partition that
/// doesn't agree, and else `TooLong` where the segment has 2^20 pages or more.
///
/// Nothing is read: what the partition holds that the version joins was read for the parents, of which it serves one. It
/// takes time by the records of the parents and the partition, and the rows.
pub fn commit_of(alloc: Global, d: &Cvd, wanted: Wanted) -> Result<Commit, CommitErr>
    requires set { IsSet d.now }
    requires most { d.now.records ≤ 2 ^ 31 }
    requires few { length d.now.versions.items < 65535 }
    requires named { AreParents (length d.now.versions.items) wanted.vids.now }
    requires message { length wanted.message.now ≤ 1024 }
    requires columns { wanted.added.now ≡ [] ⊎ AreLast wanted.added.now }
    requires rows { AreRows wanted.schema.now wanted.rows }
    requires order { All (InKeyOrder wanted.schema.now) wanted.parents.now }
    requires fit { All (RowsFit wanted.schema.now) wanted.parents.now }
    requires agree { ParentsAgree (set_in d.now) wanted.vids.now wanted.parents.now }
    requires held { length wanted.held.now ≡ length d.now.layout.parts }
    ensures unplaced { IfOk result (λ c. IsUnplaced c.brought) }
    ensures event { IfOk result (λ c. IsEvent c.brought.event) }
    ensures applies { (format : ℕ) → MayAdd format wanted.entry.added.now (set_in d.now) → IfOk result (λ c. (n : Numbers Extent Extent)
        → set_numbered d.now.number n ≡ Some (set_in d.now) → first_off format c.brought.event n ≡ None) }

    // Over any bytes out of which the rids of the partitions were read.
    ensures is { (told : Bool) (area : List ℕ) → AreHeld told area (set_in d.now) wanted.entry.vids.now wanted.entry.held.now → IfOk result (λ c.
        IsCommitOf (asked_in d.now wanted.entry) told area c.brought.event c.brought.list.items c.brought.segment.items) }
    ensures fresh { IfOk result (λ c. c.fresh ≡ fresh_of (asked_in d.now wanted.entry)) }
    ensures room { OnOk result (d.now.records + fresh_of (asked_in d.now wanted.entry) ≤ 2 ^ 31) }
    ensures refuses { (told : Bool) (area : List ℕ) → AreHeld told area (set_in d.now) wanted.entry.vids.now wanted.entry.held.now
        → IfErr result (λ why. Refuses why (asked_in d.now wanted.entry) told area) }

    // Where the pages stand for a World, nothing is damaged, and what is written is what the World asks for, as is what
    // would be too long.
    ensures world { (area : List ℕ) (w : World) (ds : Dataset) → AreHeld true area (set_in d.now) wanted.entry.vids.now wanted.entry.held.now
        → IsAsked (asked_in d.now wanted.entry) w ds area
        → MatchResult result
        (λ c. IsAnswered (asked_in d.now wanted.entry) w ds c.brought.event c.fresh c.brought.list.items c.brought.segment.items)
        (λ why. IsSpared why (asked_in d.now wanted.entry) w ds) }
{
    let Wanted {
        vids,
        parents,
        held,
        message,
        added,
        schema,
        rows,
    } = wanted;
    let made = made_for(alloc, d, schema, parents, &rows)?;
    let place = place_of(alloc, d, vids, made.weights.as_slice())?;
    let held = held_at(alloc, d, place, held)?;
    let fresh = made.fresh;
    let next = Next {
        cvd: d.number,
        vid: d.versions.len() as u32 + 1,
        message,
        added,
        parents: vids,
        rows: &rows,
        made,
        place,
        held: &held,
    };
    let brought = next_version(alloc, next)?;
    Ok(Commit { brought, fresh })
}
