// The store's own two files, which no command may name.
ghost use Rattle.std.specs.Prelude.{◌≡◌, ◌↔◌, ◌⊎◌, IsTrue};

use crate::file_host::area_path;
use ov_host::Area;
use ov_value::Txt;
use std::fs::Metadata;
use std::io::ErrorKind;
use std::os::unix::fs::MetadataExt;
use std::{fs, io};

/// Which file it is, whatever name leads to it: the device that it is on, and its number there.
#[derive(Clone, Copy, PartialEq, Eq)]
pub struct FileId {
    device: u64,
    inode: u64,
}

impl FileId {
    pub fn of(found: &Metadata) -> FileId {
        FileId {
            device: found.dev(),
            inode: found.ino(),
        }
    }
}

// The files of both areas.
#[derive(Clone, Copy)]
struct Both {
    pages: FileId,
    journal: FileId,
}

impl Both {
    fn has(self, file: FileId) -> bool
        ensures { IsTrue result ↔ ((file ≡ self.pages) ⊎ (file ≡ self.journal)) }
    {
        file == self.pages || file == self.journal
    }
}

/// The files `pages` and `journal` of the store in a folder.
#[derive(Drop)]
pub struct OwnFiles {
    rt: HostRuntime,
    folder: Txt,
}

impl OwnFiles {
    pub fn new(rt: HostRuntime, folder: Txt) -> OwnFiles {
        OwnFiles { rt, folder }
    }

    fn id(&self, area: Area) -> io::Result<FileId> {
        let path = area_path(self.rt, self.folder.as_str(), area)?;
        Ok(FileId::of(&fs::metadata(&self.rt, path)?))
    }

    /// Fails where this is one of them, and where they aren't there to be compared.
    pub fn test(&self, found: &Metadata) -> io::Result<()> {
        let both = Both {
            pages: self.id(Area::Pages)?,
            journal: self.id(Area::Journal)?,
        };
        if both.has(FileId::of(found)) {
            return Err(io::Error::from(ErrorKind::ResourceBusy));
        }
        Ok(())
    }
}

/// Which file standard output goes to, where the system tells.
pub fn standard_output(rt: HostRuntime) -> Option<FileId> {
    match fs::metadata(&rt, "/dev/stdout") {
        Ok(found) => Some(FileId::of(&found)),
        Err(_) => None,
    }
}
