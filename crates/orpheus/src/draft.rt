// A file while it is written. Its bytes go to a new file beside the named one, which takes the name when all are there; so
// until then the name leads to the old file.
ghost use Rattle.std.specs.Prelude.{◌≡◌};

use crate::own_files::{FileId, OwnFiles, standard_output};
use ov_value::Txt;
use std::fs::{File, Metadata, OpenOptions};
use std::io::{ErrorKind, Write};
use std::os::unix::fs::{MetadataExt, OpenOptionsExt, fchown};
use std::path::{Path, PathBuf};
use std::{fs, io, mem};

// New files are named `.orpheus-1` and so on: so many are tried, since a run that was killed leaves its own behind.
const MOST_NEW_FILES: u32 = 1000;

// Nobody else reads a new file before it has the old one's mode.
const OWNER_ALONE: u32 = 0o600;

const AS_CREATED: u32 = 0o666;

// What the bytes are written to.
#[derive(Drop)]
enum Place {
    /// The named file itself.
    Named,
    /// A new file, and the name that it is to take.
    Beside { new: PathBuf, name: Txt },
    /// Nothing: a write failed.
    Lost,
}

/// A file that is being written. What it wrote beside the named file is removed where it isn't finished.
pub struct Draft {
    rt: HostRuntime,
    file: File,
    place: Place,
}

impl Drop for Draft {
    fn drop(self) {
        let Draft {
            rt,
            file: _file,
            place,
        } = self;
        remove_new(rt, place);
    }
}

fn remove_new(rt: HostRuntime, place: Place) {
    if let Place::Beside { new, name: _name } = place {
        let _ = fs::remove_file(&rt, new);
    }
}

impl Draft {
    /// Begins to write a file under this name, unless the name leads to one of the store's own files, or to something that
    /// is neither a regular file nor where standard output goes nor the null device.
    pub fn begin(rt: HostRuntime, own: &OwnFiles, name: &str) -> io::Result<Draft> {
        match fs::metadata(&rt, name) {
            Ok(old) => {
                own.test(&old)?;
                Draft::over(rt, name, &old)
            }
            Err(e) if e.kind() != ErrorKind::NotFound => Err(e),
            Err(_) if is_link(rt, name) => Draft::in_place(rt, name),
            Err(_) => Draft::beside(rt, name, None),
        }
    }

    // A file of several names stays one, so what is written to it is written in place.
    fn over(rt: HostRuntime, name: &str, old: &Metadata) -> io::Result<Draft> {
        if is_output(rt, FileId::of(old)) {
            return Draft::in_place(rt, name);
        }
        if !old.is_file() {
            return Err(io::Error::from(ErrorKind::Unsupported));
        }
        if old.nlink() > 1 || is_link(rt, name) {
            return Draft::in_place(rt, name);
        }
        // Where the old file may not be written, it isn't replaced either.
        OpenOptions::new().write(true).open(&rt, name)?;
        Draft::beside(rt, name, Some(old))
    }

    fn in_place(rt: HostRuntime, name: &str) -> io::Result<Draft> {
        Ok(Draft {
            rt,
            file: fs::create(&rt, name)?,
            place: Place::Named,
        })
    }

    // Where the folder takes no new file, or the new one can't have the old one's owner and mode, the named file is
    // written in place.
    fn beside(rt: HostRuntime, name: &str, old: Option<&Metadata>) -> io::Result<Draft> {
        let takes = Txt::new(rt.alloc(), name)?;
        let (new, file) = match open_beside(rt, name, old.is_some()) {
            Ok(made) => made,
            Err(e) if is_closed(e.kind()) => return Draft::in_place(rt, name),
            Err(e) => return Err(e),
        };
        let made = Draft {
            rt,
            file,
            place: Place::Beside { new, name: takes },
        };
        match old {
            Some(old) if make_like(&made.file, old).is_err() => Draft::in_place(rt, name),
            _ => Ok(made),
        }
    }

    /// Writes on. After a failure nothing of the file is left, but where it was written in place.
    pub fn write(&mut self, bytes: &[u8]) -> io::Result<()> {
        let outcome = self.file.write_all(bytes);
        if outcome.is_err() {
            remove_new(self.rt, mem::replace(&mut self.place, Place::Lost));
        }
        outcome
    }

    /// Puts the file under its name.
    pub fn finish(mut self) -> io::Result<()> {
        match &self.place {
            Place::Named => return Ok(()),
            Place::Lost => return Err(io::Error::from(ErrorKind::WriteZero)),
            Place::Beside { new, name } => fs::rename(&self.rt, new, name.as_str())?,
        }
        self.place = Place::Named;
        Ok(())
    }
}

fn is_link(rt: HostRuntime, name: &str) -> bool {
    fs::symlink_metadata(&rt, name).is_ok_and(|found| found.is_symlink())
}

// Whether this is where standard output goes, or the null device.
fn is_output(rt: HostRuntime, file: FileId) -> bool {
    standard_output(rt) == Some(file)
        || fs::metadata(&rt, "/dev/null").is_ok_and(|null| FileId::of(&null) == file)
}

// Whether a folder that answers so takes no new file.
fn is_closed(kind: ErrorKind) -> bool {
    matches!(
        kind,
        ErrorKind::PermissionDenied | ErrorKind::ReadOnlyFilesystem
    )
}

fn open_beside(rt: HostRuntime, name: &str, has_old: bool) -> io::Result<(PathBuf, File)> {
    let mode = if has_old { OWNER_ALONE } else { AS_CREATED };
    for number in 1..=MOST_NEW_FILES {
        let text = format!(in rt.alloc(); ".orpheus-{number}")?;
        let path = Path::new(name).with_file_name(rt.alloc(), text.as_str())?;
        let made = OpenOptions::new()
            .write(true)
            .create_new(true)
            .mode(mode)
            .open(&rt, &path);
        match made {
            Ok(file) => return Ok((path, file)),
            Err(e) if e.kind() == ErrorKind::AlreadyExists => {}
            Err(e) => return Err(e),
        }
    }
    Err(io::Error::from(ErrorKind::AlreadyExists))
}

// Gives a new file the owner and the mode of the old one.
fn make_like(new: &File, old: &Metadata) -> io::Result<()> {
    let made = new.metadata()?;
    if made.uid() != old.uid() || made.gid() != old.gid() {
        fchown(new, Some(old.uid()), Some(old.gid()))?;
    }
    new.set_permissions(old.permissions())
}
