// The host on files: a folder with a file for each area, and standard output.
ghost use Rattle.std.specs.Prelude.{[], ◌≡◌, ◌≤◌, IfOk, length};
ghost use Rattle.ov_host.specs.Host.{silent};
ghost use Rattle.orpheus.specs.Files.{name_of, IsNoStream};
ghost use Rattle.ov_host.specs.Disk.{settled_reads};

use crate::count::Count;
use crate::own_files::{FileId, standard_output};
use crate::reads::read_full_at;
use ov_host::{Area, Failed, Host};
use ov_value::Txt;
use std::fs::{File, OpenOptions};
use std::io::ErrorKind;
use std::os::fd::{AsRawFd, RawFd};
use std::os::unix::fs::FileExt;
use std::path::PathBuf;
use std::{fs, io};

// The number of standard error; standard input and output have 0 and 1.
const LAST_STANDARD_STREAM: RawFd = 2;

// A journal with fewer bytes isn't made yet: its header takes so many.
const MADE_BYTES: u64 = 39;

/// The name of an area's file in the folder of a store.
pub fn file_name(area: Area) -> &'static str
    ensures { result.now ≡ name_of area }
{
    match area {
        Area::Pages => "pages",
        Area::Journal => "journal",
    }
}

// The open files of the two areas.
#[derive(Drop)]
struct Areas {
    pages: File,
    journal: File,
    ghost pages_apart: { IsNoStream pages },
    ghost journal_apart: { IsNoStream journal },
}

// Makes the folder and its files where they are absent, and opens them. Their names are settled too, since without them a
// stop could lose a file whose bytes were synced. Two programs on one folder would write over each other, so the journal is
// locked as long as it is open, and a folder whose journal another open has locked isn't opened.
fn open_areas(rt: HostRuntime, folder: &str) -> io::Result<Areas> {
    let is_new = make_folder(rt, folder)?;
    let journal = open_area(rt, folder, Area::Journal)?;
    journal.try_lock()?;
    let areas = Areas {
        pages: open_area(rt, folder, Area::Pages)?,
        journal,
    };
    test_apart(rt, &areas)?;
    if areas.journal.metadata()?.len() < MADE_BYTES {
        settle_own_name(rt, folder, is_new)?;
    }
    settle_names(&open_folder(rt, folder)?)?;
    Ok(areas)
}

// Makes the folder, and says whether it wasn't there before.
fn make_folder(rt: HostRuntime, folder: &str) -> io::Result<bool> {
    match fs::create_dir(&rt, folder) {
        Ok(()) => Ok(true),
        Err(e) if e.kind() == ErrorKind::AlreadyExists => Ok(false),
        Err(e) => Err(e),
    }
}

// What is written to one area must not change the other, and what is printed neither.
fn test_apart(rt: HostRuntime, areas: &Areas) -> io::Result<()> {
    let pages = FileId::of(&areas.pages.metadata()?);
    let journal = FileId::of(&areas.journal.metadata()?);
    let output = standard_output(rt);
    if pages == journal || output == Some(pages) || output == Some(journal) {
        return Err(io::Error::from(ErrorKind::ResourceBusy));
    }
    Ok(())
}

fn open_folder(rt: HostRuntime, folder: &str) -> io::Result<File> {
    fs::open(&rt, folder)
}

// From here on a stop leaves the names that the folder has.
fn settle_names(folder: &File) -> io::Result<()> {
    folder.sync_all()
}

// The way to the folder that has this one's name, also where this one is named by a link, or by a name that ends in dots.
fn folder_above(rt: HostRuntime, folder: &str) -> io::Result<PathBuf> {
    let mut path = PathBuf::from_str(rt.alloc(), folder)?;
    path.push("..")?;
    Ok(path)
}

// From here on a stop leaves the folder under its name. A run before this one may have made the folder and been stopped,
// so it is done until the journal is made; whoever made the folder and lets nobody look above it has to see to its name.
fn settle_own_name(rt: HostRuntime, folder: &str, is_new: bool) -> io::Result<()> {
    match open_folder(rt, folder_above(rt, folder)?.as_str()) {
        Ok(above) => settle_names(&above),
        Err(_) if !is_new => Ok(()),
        Err(e) => Err(e),
    }
}

/// The way to an area's file in the folder of a store.
pub fn area_path(rt: HostRuntime, folder: &str, area: Area) -> io::Result<PathBuf> {
    let mut path = PathBuf::from_str(rt.alloc(), folder)?;
    path.push(file_name(area))?;
    Ok(path)
}

// Where a standard stream is closed, a file that is opened takes its number, and what is printed would be written into
// the file. So such a file is refused.
fn open_area(rt: HostRuntime, folder: &str, area: Area) -> io::Result<File>
    ensures { IfOk result IsNoStream }
{
    let path = area_path(rt, folder, area)?;
    let file = OpenOptions::new()
        .read(true)
        .write(true)
        .create(true)
        .open(&rt, path)?;
    if file.as_raw_fd() <= LAST_STANDARD_STREAM {
        return Err(io::Error::from(ErrorKind::BrokenPipe));
    }
    if !file.metadata()?.is_file() {
        return Err(io::Error::from(ErrorKind::Unsupported));
    }
    Ok(file)
}

// The folder of a store, whose files are opened where they are first needed.
#[derive(Drop)]
struct Folder {
    rt: HostRuntime,
    name: Txt,
    areas: Option<Areas>,
}

impl Folder {
    fn open(&mut self) -> io::Result<&Areas> {
        if self.areas.is_none() {
            self.areas = Some(open_areas(self.rt, self.name.as_str())?);
        }
        match &self.areas {
            Some(areas) => Ok(areas),
            None => unreachable!(),
        }
    }

    fn file(&mut self, area: Area) -> io::Result<&File> {
        let areas = self.open()?;
        match area {
            Area::Pages => Ok(&areas.pages),
            Area::Journal => Ok(&areas.journal),
        }
    }

    fn len(&mut self, area: Area) -> io::Result<u64> {
        Ok(self.file(area)?.metadata()?.len())
    }

    fn read(&mut self, area: Area, at: u64, buf: &mut [u8]) -> io::Result<usize>
        ensures { IfOk result (λ n. n ≤ length buf.old) }
    {
        read_full_at(self.file(area)?, at, buf)
    }

    fn write(&mut self, area: Area, at: u64, bytes: &[u8]) -> io::Result<()> {
        self.file(area)?.write_all_at(bytes, at)
    }

    fn sync(&mut self, area: Area) -> io::Result<()> {
        self.file(area)?.sync_data()
    }

    fn print(&mut self, bytes: &[u8]) -> io::Result<()> {
        self.open()?;
        self.rt.write_all(bytes)
    }
}

/// A host that keeps its areas in the files `pages` and `journal` of a folder, and prints to standard output. It tells no
/// bytes. Its first call makes the folder and the files where they are absent, opens them, and takes an exclusive advisory
/// lock on the journal, which lasts as long as the host; what fails there is that call's failure, also that another open of
/// the journal holds the lock.
#[derive(Drop)]
pub struct FileHost {
    folder: Folder,
    faults: Count,
    fetched: Count,
}

impl FileHost {
    /// The host on the folder of this name, with all counts at 0. Nothing is touched yet.
    pub fn new(rt: HostRuntime, folder: Txt) -> FileHost
        ensures { ⟦<FileHost as Host>⟧.state result ≡ silent 0 0 }
    {
        FileHost {
            folder: Folder {
                rt,
                name: folder,
                areas: None,
            },
            faults: Count::new(),
            fetched: Count::new(),
        }
    }
}

impl Host for FileHost {
    ghost state = { λ h. silent h.faults h.fetched };

    ghost reads = { λ h. settled_reads [] [] [] };

    fn len(&mut self, area: Area) -> Result<u64, Failed> {
        self.faults.checked(self.folder.len(area))
    }

    fn read(&mut self, area: Area, at: u64, buf: &mut [u8]) -> Result<usize, Failed> {
        let n = self.faults.checked(self.folder.read(area, at, buf))?;
        if area == Area::Pages {
            self.fetched.add(n as u64);
        }
        Ok(n)
    }

    fn write(&mut self, area: Area, at: u64, bytes: &[u8]) -> Result<(), Failed> {
        self.faults.checked(self.folder.write(area, at, bytes))
    }

    fn sync(&mut self, area: Area) -> Result<(), Failed> {
        self.faults.checked(self.folder.sync(area))
    }

    fn print(&mut self, bytes: &[u8]) -> Result<(), Failed> {
        self.faults.checked(self.folder.print(bytes))
    }
}

#[cfg(test)]
mod tests {
    use super::*;
    use std::test::Fail;

    const FOLDER: &str = "store_of_a_test";

    // What is written from which place on.
    const WRITES: [(Area, u64, &[u8]); 4] = [
        (Area::Journal, 0, b"head"),
        (Area::Journal, 4, b""),
        (Area::Journal, 3, b"dline"),
        (Area::Pages, 2, b"page"),
    ];

    // What a buffer of eight bytes then takes from which place on.
    const READS: [(Area, u64, &[u8]); 5] = [
        (Area::Pages, 0, b"\0\0page"),
        (Area::Journal, 0, b"headline"),
        (Area::Journal, 5, b"ine"),
        (Area::Journal, 8, b""),
        (Area::Journal, 900, b""),
    ];

    #[test]
    fn a_folder_keeps_its_areas(rt: HostRuntime) -> Result<(), Fail> {
        let _ = fs::remove_dir_all(&rt, FOLDER);
        let mut host = FileHost::new(rt, Txt::new(rt.alloc(), FOLDER)?);
        assert!(rt;
            !fs::exists(&rt, FOLDER)?,
            "nothing is touched before the first call"
        );
        for (area, at, bytes) in WRITES {
            host.write(area, at, bytes)?;
            host.sync(area)?;
        }
        drop(host);
        let mut host = FileHost::new(rt, Txt::new(rt.alloc(), FOLDER)?);
        assert_eq!(rt; host.len(Area::Journal)?, 8);
        for (area, at, bytes) in READS {
            let mut buf = [0; 8];
            let n = host.read(area, at, &mut buf)?;
            assert_eq!(rt; &buf[..n], bytes, "from {at} on");
        }
        host.print(b"")?;
        assert_eq!(rt;
            host.write(Area::Journal, u64::MAX, b"x"),
            Err(Failed),
            "no file is so long"
        );
        fs::remove_dir_all(&rt, FOLDER)?;
        Ok(())
    }

    #[test]
    fn a_folder_has_one_host_at_a_time(rt: HostRuntime) -> Result<(), Fail> {
        let folder = "store_of_two_hosts";
        let _ = fs::remove_dir_all(&rt, folder);
        let mut first = FileHost::new(rt, Txt::new(rt.alloc(), folder)?);
        first.write(Area::Journal, 0, b"head")?;
        let mut second = FileHost::new(rt, Txt::new(rt.alloc(), folder)?);
        assert_eq!(rt; second.write(Area::Journal, 0, b"tail"), Err(Failed));
        drop(first);
        let mut bytes = [0; 4];
        second.read(Area::Journal, 0, &mut bytes)?;
        assert_eq!(rt; &bytes, b"head");
        fs::remove_dir_all(&rt, folder)?;
        Ok(())
    }

    // A folder, and the way to the one that has its name.
    const ABOVE: [(&str, &str); 4] = [("s", "s/.."), ("s/", "s/.."), ("..", "../.."), ("/", "/..")];

    #[test]
    fn a_folder_has_its_name_in_the_one_above(rt: HostRuntime) -> Result<(), Fail> {
        for (folder, above) in ABOVE {
            assert_eq!(rt; folder_above(rt, folder)?.as_str(), above);
        }
        Ok(())
    }

    #[test]
    fn one_file_is_no_store(rt: HostRuntime) -> Result<(), Fail> {
        let folder = "store_of_one_file";
        let _ = fs::remove_dir_all(&rt, folder);
        fs::create_dir(&rt, folder)?;
        fs::write(&rt, "store_of_one_file/journal", "")?;
        fs::hard_link(&rt, "store_of_one_file/journal", "store_of_one_file/pages")?;
        let mut host = FileHost::new(rt, Txt::new(rt.alloc(), folder)?);
        assert_eq!(rt; host.len(Area::Pages), Err(Failed));
        fs::remove_dir_all(&rt, folder)?;
        Ok(())
    }

    #[test]
    fn a_folder_that_cannot_be_made_is_a_failure(rt: HostRuntime) -> Result<(), Fail> {
        let mut host = FileHost::new(rt, Txt::new(rt.alloc(), "no/folder/is/here")?);
        assert_eq!(rt; host.print(b"nothing"), Err(Failed));
        assert_eq!(rt; host.len(Area::Pages), Err(Failed));
        Ok(())
    }
}
