//! What a command does: its moves, its reply and the session after it.

ghost use Rattle.std.specs.Prelude.{◌≡◌, IfOk};
ghost use Rattle.ov_model.specs.Act.{tells, refuses, does};
ghost use Rattle.ov_model.specs.declared.refusal.Refusal.TheVariants.{NoCvd};
ghost use Rattle.ov_plain_act.specs.Acts.{deed_of, move_of, session_of};
ghost use Rattle.ov_plain_act.specs.declared.deed.Move.TheVariants.{Init};
ghost use Rattle.ov_plain_act.specs.Small.{AreSmallMoves, IsSmallMove};

use crate::session::Session;
use ov_model::{Refusal, Reply};
use ov_plain::{Copies, Version, onto};
use ov_value::{Column, Row, Schema, Txt};
use sqlite_items::Items;
use std::alloc::{AllocError, Global};

/// A move of a World.
#[derive(Drop)]
pub enum Move {
    /// A dataset with these rows as its version 1.
    Init {
        name: Txt,
        schema: Schema,
        rows: Items<Row>,
    },
    /// A version more of the dataset of this number, with columns added at the right.
    Commit {
        cvd: u32,
        added: Items<Column>,
        version: Version,
    },
    /// A plan of the dataset of this number begins, at the threshold p / q.
    BeginPlan {
        cvd: u32,
        p: u32,
        q: u32,
    },
    /// Its plan's target takes the next missing records.
    Copy {
        cvd: u32,
    },
    /// Its plan's target becomes a partition.
    Flip {
        cvd: u32,
    },
    /// The dataset of this number goes.
    Drop {
        cvd: u32,
    },
    /// The journal begins anew, in its next epoch.
    Checkpoint,
}

/// A copy of an Init.
fn copy_of_init(
    alloc: Global,
    name: &Txt,
    schema: &Schema,
    rows: &Items<Row>,
) -> Result<Move, AllocError>
    ensures { IfOk result (λ made. made ≡ Init name.now schema.now rows.now) }
{
    let name = name.copy(alloc)?;
    let schema = schema.copy(alloc)?;
    let rows = rows.copied(alloc)?;
    Ok(Move::Init { name, schema, rows })
}

impl Copies for Move {
    fn copied(&self, alloc: Global) -> Result<Move, AllocError> {
        match self {
            Move::Init { name, schema, rows } => copy_of_init(alloc, name, schema, rows),
            Move::Commit {
                cvd,
                added,
                version,
            } => Ok(Move::Commit {
                cvd: *cvd,
                added: added.copied(alloc)?,
                version: version.copied(alloc)?,
            }),
            Move::BeginPlan { cvd, p, q } => Ok(Move::BeginPlan {
                cvd: *cvd,
                p: *p,
                q: *q,
            }),
            Move::Copy { cvd } => Ok(Move::Copy { cvd: *cvd }),
            Move::Flip { cvd } => Ok(Move::Flip { cvd: *cvd }),
            Move::Drop { cvd } => Ok(Move::Drop { cvd: *cvd }),
            Move::Checkpoint => Ok(Move::Checkpoint),
        }
    }
}

/// The moves in their order, the reply once all of them took place, whether a refusal for room tells the steps taken and left,
/// and the session then.
#[derive(Drop)]
pub struct Deed {
    pub moves: Items<Move>,
    pub reply: Reply,
    pub counts_steps: bool,
    pub session: Session,
}

/// A reply, over this session.
pub fn tells_in(alloc: Global, session: Session, reply: Reply) -> Deed
    ensures is { deed_of result ≡ tells (session_of session) reply }
    ensures small { AreSmallMoves result.moves }
{
    Deed {
        moves: Items::new(alloc),
        reply,
        counts_steps: false,
        session,
    }
}

/// A reply.
pub fn tells(alloc: Global, session: &Session, reply: Reply) -> Result<Deed, AllocError>
    ensures is { IfOk result (λ deed. deed_of deed ≡ tells (session_of session.now) reply) }
    ensures small { IfOk result (λ deed. AreSmallMoves deed.moves) }
{
    Ok(tells_in(alloc, session.copy(alloc)?, reply))
}

/// A refusal.
pub fn refuses(alloc: Global, session: &Session, refusal: Refusal) -> Result<Deed, AllocError>
    ensures is { IfOk result (λ deed. deed_of deed ≡ refuses (session_of session.now) refusal) }
    ensures small { IfOk result (λ deed. AreSmallMoves deed.moves) }
{
    tells(alloc, session, Reply::Refused(refusal))
}

/// The refusal of a dataset that isn't there.
pub fn no_cvd(alloc: Global, session: &Session, name: &Txt) -> Result<Deed, AllocError>
    ensures is { IfOk result (λ deed. deed_of deed ≡ refuses (session_of session.now) (NoCvd name.now)) }
    ensures small { IfOk result (λ deed. AreSmallMoves deed.moves) }
{
    let cvd = name.copy(alloc)?;
    refuses(alloc, session, Refusal::NoCvd { cvd })
}

/// A move and a reply.
pub fn does(
    alloc: Global,
    session: &Session,
    the_move: Move,
    reply: Reply,
) -> Result<Deed, AllocError>
    requires { IsSmallMove the_move }
    ensures is { IfOk result (λ deed. deed_of deed ≡ does (session_of session.now) (move_of the_move) reply) }
    ensures small { IfOk result (λ deed. AreSmallMoves deed.moves) }
{
    let moves = onto(alloc, the_move, Items::new(alloc))?;
    let session = session.copy(alloc)?;
    Ok(Deed {
        moves,
        reply,
        counts_steps: false,
        session,
    })
}
