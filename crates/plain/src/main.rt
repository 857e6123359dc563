//! The plain program: a script on standard input, and the replies that the definitions of `ov_model` give, on standard output.
//!
//! It keeps no store. Each line's command is computed over a World in memory by `plain_course`, whose contract is the
//! definition, so what it prints beside what the shipped program prints compares that program with the definitions. Files are
//! read from the folder in which it is started; files that checkouts write stay in memory.
#![tactic(auto)]

mod files;
mod refusal;
mod scene;

use anyhow::Result;
use scene::Scene;
use std::io::{BufRead, BufReader};
use std::process::ExitCode;

/// The exit status of a script of which a line was refused.
const REFUSED: u8 = 1;

fn main(rt: HostRuntime) -> Result<ExitCode> {
    let mut scene = Scene::new(rt.alloc())?;
    for line in BufReader::new(rt.alloc(), rt.reader())?.split(rt.alloc(), b'\n') {
        scene = scene.after_line(rt, line?.as_slice())?;
    }
    if scene.has_refused() {
        return Ok(ExitCode::from(REFUSED));
    }
    Ok(ExitCode::SUCCESS)
}
