//! What a move makes of a World: a dataset more, a change of one, a dataset less, an epoch more.

ghost use Rattle.std.specs.Prelude.{◌≡◌, ◌+◌, ◌++◌, ◌<◌, ◌≤◌, ◌^◌, [], ◌∷◌, length, filter, not, if◌then◌else◌, IfOk};
ghost use Rattle.ov_model.specs.Moves.{Init, Drop, Checkpoint, moved, change, changed, numbered};
ghost use Rattle.ov_plain_act.specs.Acts.{changed_by, move_of};
ghost use Rattle.ov_plain_act.specs.Small.{CanMove, HasPlace, HavePlace, IsSmallChange, IsSmallMove};

use crate::deed::Move;
use crate::world::World;
use ov_plain::{
    Copies, Dataset, Version, copied_more, flipped, new_set, planned, wide, with_version,
};
use ov_value::{Column, Row, Schema, Txt};
use sqlite_items::Items;
use std::alloc::{AllocError, Global};

/// A change of one dataset.
#[derive(Drop)]
pub enum Change {
    /// A version more, with columns added at the right.
    Version {
        added: Items<Column>,
        version: Version,
    },
    /// A plan begins, at the threshold p / q.
    Plan {
        p: u32,
        q: u32,
    },
    /// Its plan's target takes the next missing records.
    Copy,
    /// Its plan's target becomes a partition.
    Flip,
}

/// A dataset after a change.
fn changed_by(alloc: Global, how: &Change, set: Dataset) -> Result<Dataset, AllocError>
    requires how { IsSmallChange how.now }
    requires place { HasPlace set }
    ensures { IfOk result (λ after. after ≡ changed_by how.now set) }
{
    match how {
        Change::Version { added, version } => {
            let set = wide(alloc, added.as_slice(), &set)?;
            with_version(alloc, version.copied(alloc)?, set)
        }
        Change::Plan { p, q } => planned(alloc, *p, *q, set),
        Change::Copy => copied_more(alloc, set),
        Change::Flip => flipped(alloc, set),
    }
}

/// A dataset, after a change where it has the number.
fn changed_set(alloc: Global, cvd: u32, how: &Change, set: Dataset) -> Result<Dataset, AllocError>
    requires how { IsSmallChange how.now }
    requires place { HasPlace set }
    ensures { IfOk result (λ after. after ≡ (if numbered cvd set then changed_by how.now set else set)) }
{
    if set.cvd.number == cvd {
        changed_by(alloc, how, set)
    } else {
        Ok(set)
    }
}

/// These datasets, after a change of that of a number.
fn changed_sets(
    alloc: Global,
    cvd: u32,
    how: &Change,
    mut sets: Items<Dataset>,
) -> Result<Items<Dataset>, AllocError>
    requires how { IsSmallChange how.now }
    requires place { HavePlace sets }
    ensures { IfOk result (λ after. after ≡ change cvd (changed_by how.now) sets) }
{
    match sets.pop() {
        None => Ok(sets),
        Some(last) => {
            let mut found = changed_sets(alloc, cvd, how, sets)?;
            found.push(changed_set(alloc, cvd, how, last)?)?;
            Ok(found)
        }
    }
}

/// These datasets, and one more unless it has the number.
fn with_other(
    cvd: u32,
    set: Dataset,
    mut left: Items<Dataset>,
) -> Result<Items<Dataset>, AllocError>
    ensures { IfOk result (λ all. all ≡ left ++ filter (λ d. not (numbered cvd d)) (set ∷ [])) }
{
    if set.cvd.number != cvd {
        left.push(set)?;
        return Ok(left);
    }
    Ok(left)
}

/// These datasets without that of a number.
fn sets_without(cvd: u32, mut sets: Items<Dataset>) -> Result<Items<Dataset>, AllocError>
    ensures { IfOk result (λ left. left ≡ filter (λ d. not (numbered cvd d)) sets) }
{
    match sets.pop() {
        None => Ok(sets),
        Some(last) => {
            let left = sets_without(cvd, sets)?;
            let all = with_other(cvd, last, left)?;
            Ok(all)
        }
    }
}

/// The World with a dataset more.
fn with_init(
    alloc: Global,
    name: Txt,
    schema: Schema,
    rows: Items<Row>,
    world: World,
) -> Result<World, AllocError>
    requires { CanMove world }
    ensures { IfOk result (λ after. after ≡ moved (Init name schema rows) world) }
{
    let World {
        mut sets,
        next,
        epoch,
        records,
        format,
    } = world;
    sets.push(new_set(alloc, next, name, schema, rows)?)?;
    Ok(World {
        sets,
        next: next + 1,
        epoch,
        records: records + 1,
        format,
    })
}

/// The World after a change of a dataset.
fn with_change(alloc: Global, cvd: u32, how: &Change, world: World) -> Result<World, AllocError>
    requires how { IsSmallChange how.now }
    requires can { CanMove world }
    ensures { IfOk result (λ after. after ≡ changed cvd (changed_by how.now) world) }
{
    let World {
        sets,
        next,
        epoch,
        records,
        format,
    } = world;
    let sets = changed_sets(alloc, cvd, how, sets)?;
    Ok(World {
        sets,
        next,
        epoch,
        records: records + 1,
        format,
    })
}

/// The World without a dataset.
fn with_drop(cvd: u32, world: World) -> Result<World, AllocError>
    requires { CanMove world }
    ensures { IfOk result (λ after. after ≡ moved (Drop cvd) world) }
{
    let World {
        sets,
        next,
        epoch,
        records,
        format,
    } = world;
    let sets = sets_without(cvd, sets)?;
    Ok(World {
        sets,
        next,
        epoch,
        records: records + 1,
        format,
    })
}

/// The World in the next epoch, of a record for the numbers and one for each dataset.
fn with_checkpoint(world: World) -> World
    requires { CanMove world }
    ensures { result ≡ moved Checkpoint world }
{
    let records = world.sets.len() as u64 + 1;
    World {
        epoch: world.epoch + 1,
        records,
        format: 2,
        ..world
    }
}

/// What a move makes of a World.
pub fn plain_moved(alloc: Global, the_move: Move, world: World) -> Result<World, AllocError>
    requires small { IsSmallMove the_move }
    requires can { CanMove world }
    ensures { IfOk result (λ after. after ≡ moved (move_of the_move) world) }
{
    match the_move {
        Move::Init { name, schema, rows } => with_init(alloc, name, schema, rows, world),
        Move::Commit {
            cvd,
            added,
            version,
        } => with_change(alloc, cvd, &Change::Version { added, version }, world),
        Move::BeginPlan { cvd, p, q } => with_change(alloc, cvd, &Change::Plan { p, q }, world),
        Move::Copy { cvd } => with_change(alloc, cvd, &Change::Copy, world),
        Move::Flip { cvd } => with_change(alloc, cvd, &Change::Flip, world),
        Move::Drop { cvd } => with_drop(cvd, world),
        Move::Checkpoint => Ok(with_checkpoint(world)),
    }
}
