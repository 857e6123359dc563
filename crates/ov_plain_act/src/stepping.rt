//! Steps of running plans, and what `migrate` does: steps, and how many are left.
//!
//! A World between two steps that is too large for the next one is answered as want of memory.

ghost use Rattle.std.specs.Prelude.{◌≡◌, ◌∷◌, map, IfOk, IfSome};
ghost use Rattle.std.specs.Option.{option_map};
ghost use Rattle.ov_model.specs.Act.{migrate_by};
ghost use Rattle.ov_model.specs.Moves.{moved};
ghost use Rattle.ov_model.specs.Plans.{plan_steps};
ghost use Rattle.ov_model.specs.Steps.{step_of, first_step, next_step, next_steps, all_moved, steps_of_all};
ghost use Rattle.ov_plain_act.specs.Acts.{deed_of, move_of, session_of};
ghost use Rattle.ov_plain_act.specs.Small.{AreSmallMoves, IsSmallMove};

use crate::changes::plain_moved;
use crate::counts::{added, count_of, sum_of};
use crate::deed::{Deed, Move};
use crate::session::Session;
use crate::small::can_move;
use crate::world::World;
use ov_model::Reply;
use ov_plain::{Copies, Dataset, Plan, is_complete, is_small_plan, onto, plan_steps};
use sqlite_items::Items;
use std::alloc::{AllocError, Global};

/// The next step of this dataset's plan.
fn step_of(alloc: Global, set: &Dataset, plan: &Plan) -> Result<Move, AllocError>
    ensures is { IfOk result (λ step. move_of step ≡ step_of set.now plan.now) }
    ensures small { IfOk result (λ step. IsSmallMove step) }
{
    if set.cvd.versions.len() > 65_535 {
        return Err(AllocError);
    }
    let cvd = set.cvd.number;
    if is_complete(alloc, set, plan)? {
        Ok(Move::Flip { cvd })
    } else {
        Ok(Move::Copy { cvd })
    }
}

/// The next step of the first of these datasets that has a running plan.
pub fn first_step(alloc: Global, sets: &[Dataset]) -> Result<Option<Move>, AllocError>
    ensures is { IfOk result (λ step. option_map move_of step ≡ first_step sets.now) }
    ensures small { IfOk result (λ found. IfSome found (λ step. IsSmallMove step)) }
{
    match sets {
        [] => Ok(None),
        [set, rest @ ..] => match &set.plan {
            None => first_step(alloc, rest),
            Some(plan) => Ok(Some(step_of(alloc, set, plan)?)),
        },
    }
}

/// The World after a move.
pub fn after_move(alloc: Global, the_move: &Move, world: World) -> Result<World, AllocError>
    requires { IsSmallMove the_move.now }
    ensures { IfOk result (λ after. after ≡ moved (move_of the_move.now) world) }
{
    if !can_move(alloc, &world)? {
        return Err(AllocError);
    }
    plain_moved(alloc, the_move.copied(alloc)?, world)
}

/// Steps, and the World after them.
#[derive(Drop)]
pub struct Steps {
    pub moves: Items<Move>,
    pub world: World,
}

/// A step before others.
fn behind(alloc: Global, step: Move, later: Steps) -> Result<Steps, AllocError>
    requires step { IsSmallMove step }
    requires later { AreSmallMoves later.moves }
    ensures moves { IfOk result (λ all. map move_of all.moves ≡ move_of step ∷ map move_of later.moves) }
    ensures world { IfOk result (λ all. all.world ≡ later.world) }
    ensures small { IfOk result (λ all. AreSmallMoves all.moves) }
{
    let moves = onto(alloc, step, later.moves)?;
    Ok(Steps {
        moves,
        world: later.world,
    })
}

/// Up to so many steps of a World, until no plan runs.
fn next_steps(alloc: Global, count: u32, world: World) -> Result<Steps, AllocError>
    ensures moves { IfOk result (λ all. map move_of all.moves ≡ next_steps count world) }
    ensures world { IfOk result (λ all. all.world ≡ all_moved (next_steps count world) world) }
    ensures small { IfOk result (λ all. AreSmallMoves all.moves) }
{
    if count == 0 {
        return Ok(Steps {
            moves: Items::new(alloc),
            world,
        });
    }
    match first_step(alloc, world.sets.as_slice())? {
        None => Ok(Steps {
            moves: Items::new(alloc),
            world,
        }),
        Some(step) => {
            let after = after_move(alloc, &step, world)?;
            let later = next_steps(alloc, count - 1, after)?;
            let all = behind(alloc, step, later)?;
            Ok(all)
        }
    }
}

/// The steps that this dataset's plan has left.
fn steps_of_set(alloc: Global, set: &Dataset) -> Result<u64, AllocError>
    ensures { IfOk result (λ steps. steps ≡ plan_steps set.now) }
{
    if set.cvd.versions.len() > 65_535 || !is_small_plan(&set.plan) {
        return Err(AllocError);
    }
    sum_of(plan_steps(alloc, set)?)
}

/// The steps that the plans of these datasets have left.
fn steps_of_all(alloc: Global, sets: &[Dataset]) -> Result<u64, AllocError>
    ensures { IfOk result (λ steps. steps ≡ steps_of_all sets.now) }
{
    match sets {
        [] => Ok(0),
        [set, rest @ ..] => {
            let own = steps_of_set(alloc, set)?;
            let later = steps_of_all(alloc, rest)?;
            added(own, later)
        }
    }
}

/// What `migrate` does.
pub fn migrate_deed(
    alloc: Global,
    world: &World,
    session: &Session,
    count: u32,
) -> Result<Deed, AllocError>
    ensures is { IfOk result (λ deed. deed_of deed ≡ migrate_by world.now (session_of session.now) (next_steps count world.now)) }
    ensures small { IfOk result (λ deed. AreSmallMoves deed.moves) }
{
    let Steps {
        moves,
        world: after,
    } = next_steps(alloc, count, world.copied(alloc)?)?;
    let reply = Reply::Migrate {
        taken: count_of(moves.len())?,
        left: steps_of_all(alloc, after.sets.as_slice())?,
    };
    let session = session.copy(alloc)?;
    Ok(Deed {
        moves,
        reply,
        counts_steps: true,
        session,
    })
}
