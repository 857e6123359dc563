//! The files that commands name, taken into the session once.

use anyhow::Result;
use ov_model::{Command, Seq};
use ov_plain_act::{File, Session};
use ov_value::Txt;
use std::fs;
use std::io::ErrorKind;

/// The file that a command reads.
fn file_of(command: &Command) -> Option<&Txt> {
    match command {
        Command::Init { file, .. } | Command::Commit { file, .. } => Some(file),
        _ => None,
    }
}

/// The bytes of the file of a name; `None` where there is no such file.
fn bytes_of(rt: HostRuntime, name: &str) -> Result<Option<Vec<u8>>> {
    match fs::read(&rt, name) {
        Ok(bytes) => Ok(Some(bytes)),
        Err(e) if e.kind() == ErrorKind::NotFound => Ok(None),
        Err(e) => Err(e)?,
    }
}

/// Takes the file that a command reads into the session, where it is there and the session doesn't have it yet.
pub fn take_file(rt: HostRuntime, command: &Command, session: &mut Session) -> Result<()> {
    let Some(name) = file_of(command) else {
        return Ok(());
    };
    if session.find(name).is_some() {
        return Ok(());
    }
    if let Some(bytes) = bytes_of(rt, name.as_str())? {
        let name = name.copy(rt.alloc())?;
        let bytes = Seq::from_vec(bytes);
        session.files.push(File { name, bytes })?;
    }
    Ok(())
}
