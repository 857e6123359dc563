//! Whole runs over ends in memory: a stop within each call, and each call failing.
//!
//! A run takes a script and its files, and what is printed and what lies on the disk come out. The clause of `run_fresh` is
//! that of `run`, with its premises met: it shows that they can be.
#![tactic(auto)]

ghost use Rattle.std.specs.Prelude.{IfOk};
ghost use Rattle.ov_model.specs.World.{empty_world};
ghost use Rattle.ov_top.specs.Ending.{Plays};
ghost use Rattle.test_program.specs.Fresh.{ends_of, fresh_ends};

#[cfg(test)]
mod branches;
#[cfg(test)]
mod courses;
#[cfg(test)]
mod ends;
#[cfg(test)]
mod faults;
#[cfg(test)]
mod fresh;
#[cfg(test)]
mod stops;

use ov_memhost::{MemHost, MemSource, MemStage};
use ov_top::{Status, run};
use ov_value::Txt;
use std::alloc::{AllocError, Global};

/// A run that has ended.
#[derive(Drop)]
pub struct Trial {
    pub status: Status,
    pub host: MemHost,
    pub source: MemSource,
    pub stage: MemStage,
}

/// Runs a script on empty areas, over a stage of these files, with no steps of migration.
pub fn run_fresh(
    alloc: Global,
    script: Vec<u8>,
    files: Vec<(String, Vec<u8>)>,
) -> Result<Trial, AllocError>
    ensures { IfOk result (λ t. Plays t.status 0 empty_world (fresh_ends script.items files.items) (ends_of t)) }
{
    let mut words = Vec::new(alloc);
    words.push(Txt::new(alloc, "s")?)?;
    let mut host = MemHost::new(alloc, Vec::new(alloc), Vec::new(alloc), Vec::new(alloc));
    let mut source = MemSource::new(alloc, script, Vec::new(alloc));
    let mut stage = MemStage::new(alloc, files, Vec::new(alloc));
    let status = run(alloc, words.as_slice(), &mut host, &mut source, &mut stage);
    Ok(Trial {
        status,
        host,
        source,
        stage,
    })
}
