// The stage on files, in the folder in which the program was started.
ghost use Rattle.std.specs.Prelude.{◌≡◌, false, is_some};
ghost use Rattle.ov_host.specs.Stage.{silent_stage};

use crate::count::Count;
use crate::draft::Draft;
use crate::own_files::OwnFiles;
use crate::reads::read_some;
use ov_host::{Failed, Found, Stage};
use ov_value::Txt;
use std::fs::{File, Metadata};
use std::io::ErrorKind;
use std::{fs, io};

// Whether an error says that the name leads nowhere: it is absent, it goes through a file, it goes in a
// circle, it is too long, or it has a NUL byte.
fn leads_nowhere(kind: ErrorKind) -> bool {
    matches!(
        kind,
        ErrorKind::NotFound
            | ErrorKind::NotADirectory
            | ErrorKind::FilesystemLoop
            | ErrorKind::InvalidFilename
            | ErrorKind::InvalidInput
    )
}

fn look(rt: HostRuntime, name: &str) -> io::Result<Option<Metadata>> {
    match fs::metadata(&rt, name) {
        Ok(found) => Ok(Some(found)),
        Err(e) if leads_nowhere(e.kind()) => Ok(None),
        Err(e) => Err(e),
    }
}

// Opens the regular file of this name, where the name leads to one. Only a regular file is opened, since a folder opens
// and fails at its first read, and a pipe waits.
fn find_regular(rt: HostRuntime, own: &OwnFiles, name: &str) -> io::Result<Option<File>> {
    match look(rt, name)? {
        Some(found) if found.is_file() => {
            own.test(&found)?;
            Ok(Some(fs::open(&rt, name)?))
        }
        _ => Ok(None),
    }
}

/// A stage whose names are paths from the folder in which the program was started. It tells no files.
///
/// A name that leads to no regular file is missing. What fails in another way is a failure, and so is a name that leads to
/// one of the store's own files: nobody but the host reads and writes these. A file that is created isn't synced when it is
/// finished, since no reply promises that it is on the disk.
#[derive(Drop)]
pub struct FolderStage {
    rt: HostRuntime,
    own: OwnFiles,
    reading: Option<File>,
    writing: Option<Draft>,
    faults: Count,
    misses: Count,
}

impl FolderStage {
    /// The stage beside the store in the folder of this name, with all counts at 0. Nothing is touched yet.
    pub fn new(rt: HostRuntime, folder: Txt) -> FolderStage
        ensures { ⟦<FolderStage as Stage>⟧.staged result ≡ silent_stage false false 0 0 }
    {
        FolderStage {
            rt,
            own: OwnFiles::new(rt, folder),
            reading: None,
            writing: None,
            faults: Count::new(),
            misses: Count::new(),
        }
    }
}

impl Stage for FolderStage {
    ghost staged = { λ s. silent_stage (is_some s.reading) (is_some s.writing) s.faults s.misses };

    fn find(&mut self, name: &str) -> Result<Found, Failed> {
        self.reading = None;
        self.reading = self.faults.checked(find_regular(self.rt, &self.own, name))?;
        if self.reading.is_some() {
            return Ok(Found::Yes);
        }
        self.misses.add(1);
        Ok(Found::Missing)
    }

    fn read(&mut self, buf: &mut [u8]) -> Result<usize, Failed> {
        match &mut self.reading {
            Some(file) => self.faults.checked(read_some(file, buf)),
            None => unreachable!(),
        }
    }

    fn create(&mut self, name: &str) -> Result<(), Failed> {
        self.reading = None;
        self.writing = None;
        let begun = Draft::begin(self.rt, &self.own, name);
        self.writing = Some(self.faults.checked(begun)?);
        Ok(())
    }

    fn write(&mut self, bytes: &[u8]) -> Result<(), Failed> {
        match &mut self.writing {
            Some(draft) => self.faults.checked(draft.write(bytes)),
            None => unreachable!(),
        }
    }

    fn finish(&mut self) -> Result<(), Failed> {
        match self.writing.take() {
            Some(draft) => self.faults.checked(draft.finish()),
            None => unreachable!(),
        }
    }
}

#[cfg(test)]
mod tests {
    use super::*;
    use std::os::unix::fs::symlink;
    use std::test::Fail;

    // Names that lead to no regular file: nothing, a folder, a path through a file, a NUL byte, an empty name.
    const NOWHERE: [&str; 6] = [
        "stage_of_a_test/b.csv",
        "stage_of_a_test",
        "stage_of_a_test/a.csv/b.csv",
        "stage_of_a_test/a.csv\0",
        "stage_of_a_test/a.csv/",
        "",
    ];

    const FOLDER: &str = "stage_of_a_test";

    // A stage beside a store of two empty files.
    fn stage_in_folder(rt: HostRuntime) -> Result<FolderStage, Fail> {
        let _ = fs::remove_dir_all(&rt, FOLDER);
        fs::create_dir(&rt, FOLDER)?;
        for name in OWN {
            fs::write(&rt, name, "own")?;
        }
        Ok(FolderStage::new(rt, Txt::new(rt.alloc(), FOLDER)?))
    }

    // The store's own files, by several ways.
    const OWN: [&str; 2] = ["stage_of_a_test/pages", "stage_of_a_test/journal"];

    const WAYS: [&str; 5] = [
        "stage_of_a_test/pages",
        "stage_of_a_test/journal",
        "./stage_of_a_test/../stage_of_a_test/journal",
        "stage_of_a_test/hard",
        "stage_of_a_test/soft",
    ];

    #[test]
    fn a_file_is_written_and_found(rt: HostRuntime) -> Result<(), Fail> {
        let mut stage = stage_in_folder(rt)?;
        stage.create("stage_of_a_test/a.csv")?;
        stage.write(b"id,na")?;
        stage.write(b"me\n")?;
        stage.finish()?;
        assert_eq!(rt; stage.find("stage_of_a_test/a.csv")?, Found::Yes);
        let mut buf = [0; 6];
        assert_eq!(rt; stage.read(&mut buf)?, 6);
        assert_eq!(rt; buf, *b"id,nam");
        assert_eq!(rt; stage.read(&mut buf)?, 2);
        assert_eq!(rt; buf, *b"e\n,nam");
        assert_eq!(rt; stage.read(&mut buf)?, 0);
        for name in NOWHERE {
            assert_eq!(rt; stage.find(name)?, Found::Missing, "at {name:?}");
        }
        assert_eq!(rt;
            stage.find("x".repeat(rt.alloc(), 5000)?.as_str())?,
            Found::Missing
        );
        assert_eq!(rt; stage.create(FOLDER), Err(Failed));
        fs::remove_dir_all(&rt, FOLDER)?;
        Ok(())
    }

    #[test]
    fn the_old_file_stays_until_the_new_one_is_finished(rt: HostRuntime) -> Result<(), Fail> {
        let mut stage = stage_in_folder(rt)?;
        let (name, new) = ("stage_of_a_test/a.csv", "stage_of_a_test/.orpheus-1");
        fs::write(&rt, name, "old")?;
        stage.create(name)?;
        stage.write(b"new")?;
        assert_eq!(rt; fs::read_to_string(&rt, name)?.as_str(), "old");
        assert_eq!(rt; fs::read_to_string(&rt, new)?.as_str(), "new");
        stage.create(name)?;
        stage.write(b"newer")?;
        stage.finish()?;
        assert_eq!(rt; fs::read_to_string(&rt, name)?.as_str(), "newer");
        stage.create(name)?;
        drop(stage);
        assert!(rt; !fs::exists(&rt, new)?);
        assert_eq!(rt; fs::read_to_string(&rt, name)?.as_str(), "newer");
        fs::remove_dir_all(&rt, FOLDER)?;
        Ok(())
    }

    #[test]
    fn the_stores_own_files_are_left_alone(rt: HostRuntime) -> Result<(), Fail> {
        let mut stage = stage_in_folder(rt)?;
        fs::hard_link(&rt, "stage_of_a_test/journal", "stage_of_a_test/hard")?;
        symlink(&rt, "pages", "stage_of_a_test/soft")?;
        for name in WAYS {
            assert_eq!(rt; stage.find(name), Err(Failed), "at {name}");
            assert_eq!(rt; stage.create(name), Err(Failed), "at {name}");
        }
        for name in OWN {
            assert_eq!(rt; fs::read_to_string(&rt, name)?.as_str(), "own");
        }
        fs::remove_dir_all(&rt, FOLDER)?;
        Ok(())
    }
}
