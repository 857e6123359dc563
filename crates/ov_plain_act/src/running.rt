//! What comes of a command, where there is room for its moves and for the steps behind its reply: its moves and its reply, those
//! steps, and the World and the session then.

ghost use Rattle.std.specs.Prelude.{◌≡◌, ◌++◌, [], ◌∷◌, map, is_some, IfOk, IfSome};
ghost use Rattle.ov_model.specs.Course.{Makes, Says, after, and_steps, line_served};
ghost use Rattle.ov_model.specs.Line.{Asks};
ghost use Rattle.ov_model.specs.Moves.{moved};
ghost use Rattle.ov_plain_act.specs.Acts.{deed_of, is_plain, move_of, session_of};
ghost use Rattle.ov_plain_act.specs.Runs.{IsReady, item_of, made, run_of};
ghost use Rattle.ov_plain_act.specs.Small.{AreSmallMoves, IsSmallCommand, IsSmallMove};

use crate::acting::plain_deed;
use crate::deed::{Deed, Move};
use crate::session::Session;
use crate::stepping::{after_move, first_step};
use crate::world::World;
use ov_model::{Command, Reply};
use ov_plain::{Copies, onto};
use sqlite_items::Items;
use std::alloc::{AllocError, Global};

/// A move that takes place, or a reply.
#[derive(Drop)]
pub enum Item {
    Makes(Move),
    Says(Reply),
}

/// What was done and said, one thing after another, and the World and the session then.
#[derive(Drop)]
pub struct Run {
    pub items: Items<Item>,
    pub world: World,
    pub session: Session,
}

/// A reply alone.
fn replied(alloc: Global, reply: Reply, world: World, session: Session) -> Result<Run, AllocError>
    ensures { IfOk result (λ run. run_of run ≡ record { items = Says reply ∷ []; world = world; session = session_of session; left = [] }) }
{
    let items = onto(alloc, Item::Says(reply), Items::new(alloc))?;
    Ok(Run {
        items,
        world,
        session,
    })
}

/// A run behind these.
pub fn behind(mut items: Items<Item>, later: Run) -> Result<Run, AllocError>
    ensures { IfOk result (λ run. run_of run ≡ after (map item_of items) (run_of later)) }
{
    let Run {
        items: more,
        world,
        session,
    } = later;
    items.append(more)?;
    Ok(Run {
        items,
        world,
        session,
    })
}

/// A run behind a move.
fn before(alloc: Global, first: &Move, later: Run) -> Result<Run, AllocError>
    ensures { IfOk result (λ run. run_of run ≡ after (Makes (move_of first.now) ∷ []) (run_of later)) }
{
    let Run {
        items,
        world,
        session,
    } = later;
    let items = onto(alloc, Item::Makes(first.copied(alloc)?), items)?;
    Ok(Run {
        items,
        world,
        session,
    })
}

/// These moves and then a reply.
fn made(
    alloc: Global,
    moves: &[Move],
    reply: Reply,
    world: World,
    session: Session,
) -> Result<Run, AllocError>
    requires { AreSmallMoves moves.now }
    ensures { IfOk result (λ run. made (map move_of moves.now) world reply (session_of session) ≡ run_of run) }
{
    match moves {
        [] => replied(alloc, reply, world, session),
        [first, rest @ ..] => {
            let next = after_move(alloc, first, world)?;
            let later = made(alloc, rest, reply, next, session)?;
            let run = before(alloc, first, later)?;
            Ok(run)
        }
    }
}

/// What comes of a deed.
fn attempts(alloc: Global, deed: Deed, world: World) -> Result<Run, AllocError>
    requires { AreSmallMoves deed.moves }
    ensures { IfOk result (λ run. made (deed_of deed).moves world deed.reply (session_of deed.session) ≡ run_of run) }
{
    let Deed {
        moves,
        reply,
        counts_steps: _counts_steps,
        session,
    } = deed;
    let run = made(alloc, moves.as_slice(), reply, world, session)?;
    Ok(run)
}

/// A run, and then a step more.
fn with_step(alloc: Global, run: Run, step: Move) -> Result<Run, AllocError>
    requires { IsSmallMove step }
    ensures items { IfOk result (λ all. map item_of all.items ≡ map item_of run.items ++ Makes (move_of step) ∷ []) }
    ensures world { IfOk result (λ all. all.world ≡ moved (move_of step) run.world) }
    ensures session { IfOk result (λ all. all.session ≡ run.session) }
{
    let Run {
        mut items,
        world,
        session,
    } = run;
    let next = after_move(alloc, &step, world)?;
    items.push(Item::Makes(step))?;
    Ok(Run {
        items,
        world: next,
        session,
    })
}

/// A run, and then up to so many steps, until no plan runs.
#[tactic(auto, using(crate::proofs::Serving::none_taken, crate::proofs::Serving::none_runs, crate::proofs::Serving::steps_more))]
fn and_steps(alloc: Global, count: u32, run: Run) -> Result<Run, AllocError>
    ensures { IfOk result (λ all. and_steps count (run_of run) ≡ run_of all) }
{
    if count == 0 {
        return Ok(run);
    }
    match first_step(alloc, run.world.sets.as_slice())? {
        None => Ok(run),
        Some(step) => {
            let later = with_step(alloc, run, step)?;
            let all = and_steps(alloc, count - 1, later)?;
            Ok(all)
        }
    }
}

/// What comes of a command, with so many steps behind its reply; None where it isn't computed here.
pub fn plain_served(
    alloc: Global,
    steps: u32,
    world: World,
    session: &Session,
    command: &Command,
) -> Result<Option<Run>, AllocError>
    requires ready { IsReady world }
    requires command { IsSmallCommand command.now }
    ensures is { IfOk result (λ found. IfSome found (λ run. line_served steps world (session_of session.now) [] (Asks command.now) ≡ run_of run)) }
    ensures plain { IfOk result (λ found. is_some found ≡ is_plain command.now) }
{
    match plain_deed(alloc, &world, session, command)? {
        None => Ok(None),
        Some(deed) => {
            let run = attempts(alloc, deed, world)?;
            let all = and_steps(alloc, steps, run)?;
            Ok(Some(all))
        }
    }
}
