//! The program: a store on files, a script on standard input, replies on standard output.
//!
//! Here are the three real ends, which tell no contents, and how a run's status becomes an exit status and a line on
//! standard error. All else is below the call of `run`.
#![tactic(auto)]

ghost use Rattle.std.specs.Prelude.{◌≡◌};
ghost use Rattle.std.specs.Process.{exit_status};
ghost use Rattle.orpheus.specs.Exits.{exit_of};

mod count;
mod draft;
mod fault;
mod file_host;
mod folder_stage;
mod own_files;
mod reads;
mod stdin_source;

use fault::Fault;
use file_host::FileHost;
use folder_stage::FolderStage;
use ov_top::{Status, WordsErr, options, run};
use ov_value::Txt;
use std::alloc::AllocError;
use std::env;
use std::io::ErrorKind;
use std::process::ExitCode;
use stdin_source::StdinSource;

// The words after the program's name, or the status that they end the program with where they can't be read.
fn words(rt: HostRuntime) -> Result<Vec<Txt>, Status> {
    match env::args(&rt) {
        Ok(all) => all
            .skip(1)
            .map(Txt::from_string)
            .try_collect(rt.alloc())
            .map_err(|_: AllocError| Status::Memory),
        Err(e) if e.kind() == ErrorKind::OutOfMemory => Err(Status::Memory),
        Err(_) => Err(Status::Usage),
    }
}

// The name of the store's folder. It is empty where the words are refused: then no call of the host is made.
fn folder(rt: HostRuntime, words: &[Txt]) -> Result<Txt, Status> {
    match options(rt.alloc(), words) {
        Ok(options) => Ok(options.folder),
        Err(WordsErr::Usage) => Txt::new(rt.alloc(), "").map_err(|_| Status::Memory),
        Err(WordsErr::Memory) => Err(Status::Memory),
    }
}

fn start(rt: HostRuntime) -> Result<Status, Status> {
    let words = words(rt)?;
    let folder = folder(rt, &words)?;
    let beside = folder.copy(rt.alloc()).map_err(|_| Status::Memory)?;
    let mut host = FileHost::new(rt, folder);
    let mut source = StdinSource::new(rt);
    let mut stage = FolderStage::new(rt, beside);
    Ok(run(rt.alloc(), &words, &mut host, &mut source, &mut stage))
}

// Says on standard error what kept the run from reading its script to the end.
fn finish(rt: HostRuntime, status: Status) -> ExitCode
    ensures { exit_status result ≡ exit_of status }
{
    if let Some(fault) = Fault::of(status) {
        let _ = eprintln!(rt; "orpheus: {fault}");
    }
    ExitCode::from(fault::exit_status(status))
}

fn main(rt: HostRuntime) -> ExitCode {
    match start(rt) {
        Ok(status) | Err(status) => finish(rt, status),
    }
}
