//! What comes of commands, one after another.

ghost use Rattle.std.specs.Prelude.{◌≡◌, ◌↔◌, IsTrue, is_some, IfOk, IfSome};
ghost use Rattle.ov_plain_act.specs.Acts.{session_of};
ghost use Rattle.ov_plain_act.specs.Runs.{IsPlainCourse, commanded, run_of};

use crate::running::{Run, behind, plain_served};
use crate::session::Session;
use crate::small::{is_ready, is_small_command};
use crate::world::World;
use ov_model::Command;
use sqlite_items::Items;
use std::alloc::{AllocError, Global};

/// What comes of these commands, with so many steps behind each reply, and with room for each move; None where an act isn't
/// computed here, a command lists too many versions, or the World that it meets is too large.
pub fn plain_course(
    alloc: Global,
    steps: u32,
    world: World,
    session: Session,
    commands: &[Command],
) -> Result<Option<Run>, AllocError>
    ensures is { IfOk result (λ found. IfSome found (λ run. commanded steps world (session_of session) commands.now ≡ run_of run)) }
    ensures plain { IfOk result (λ found. IsTrue (is_some found) ↔ IsPlainCourse steps world (session_of session) commands.now) }
{
    match commands {
        [] => Ok(Some(Run {
            items: Items::new(alloc),
            world,
            session,
        })),
        [command, rest @ ..] => {
            if !is_ready(alloc, &world)? {
                return Ok(None);
            }
            if !is_small_command(command) {
                return Ok(None);
            }
            match plain_served(alloc, steps, world, &session, command)? {
                None => Ok(None),
                Some(run) => {
                    let Run {
                        items,
                        world,
                        session,
                    } = run;
                    match plain_course(alloc, steps, world, session, rest)? {
                        None => Ok(None),
                        Some(later) => Ok(Some(behind(items, later)?)),
                    }
                }
            }
        }
    }
}
