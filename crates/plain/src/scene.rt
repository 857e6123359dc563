//! Where a script has come to, and what each line makes of it.

use crate::files::take_file;
use crate::refusal::reply_to;
use anyhow::{Result, bail};
use ov_cmd::read_line;
use ov_model::{Command, Reply};
use ov_plain_act::{Item, Run, Session, World, plain_course};
use ov_reply::{is_error, reply};
use ov_value::Txt;
use std::alloc::Global;
use std::slice;

/// How many steps are taken behind each reply.
const STEPS: u32 = 0;

/// The World and the session after some lines, and whether one of these was refused.
#[derive(Drop)]
pub struct Scene {
    world: World,
    session: Session,
    refused: bool,
}

impl Scene {
    /// The scene before the first line: no datasets, no files.
    pub fn new(alloc: Global) -> Result<Scene> {
        let user = Txt::new(alloc, "admin")?;
        Ok(Scene {
            world: World::empty(alloc),
            session: Session::new(alloc, user),
            refused: false,
        })
    }

    /// Whether a line was refused.
    pub fn has_refused(&self) -> bool {
        self.refused
    }

    /// The scene after a line, whose reply is printed. A comment has none.
    pub fn after_line(self, rt: HostRuntime, line: &[u8]) -> Result<Scene> {
        match read_line(rt.alloc(), line) {
            Ok(None) => Ok(self),
            Ok(Some(command)) => self.after_command(rt, &command),
            Err(off) => self.after_reply(rt, &reply_to(off)?),
        }
    }

    fn after_command(mut self, rt: HostRuntime, command: &Command) -> Result<Scene> {
        take_file(rt, command, &mut self.session)?;
        let Scene {
            world,
            session,
            refused,
        } = self;
        match plain_course(rt.alloc(), STEPS, world, session, slice::from_ref(command))? {
            None => bail!("a command that the plain programs leave out"),
            Some(run) => after_run(rt, refused, run),
        }
    }

    fn after_reply(mut self, rt: HostRuntime, answer: &Reply) -> Result<Scene> {
        rt.write_all(reply(rt.alloc(), answer)?.as_slice())?;
        self.refused = self.refused || is_error(answer);
        Ok(self)
    }
}

/// The scene after what came of a command, whose replies are printed.
fn after_run(rt: HostRuntime, refused: bool, run: Run) -> Result<Scene> {
    let Run {
        items,
        world,
        session,
    } = run;
    let mut scene = Scene {
        world,
        session,
        refused,
    };
    for item in items.as_slice() {
        if let Item::Says(answer) = item {
            scene = scene.after_reply(rt, answer)?;
        }
    }
    Ok(scene)
}
