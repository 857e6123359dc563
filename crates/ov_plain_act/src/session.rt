//! What goes from line to line beside the World: the files, and the name of the user.

ghost use Rattle.std.specs.Prelude.{◌≡◌, [], IfOk};
ghost use Rattle.std.specs.Option.{option_copied};
ghost use Rattle.ov_model.specs.Act.{put};
ghost use Rattle.ov_plain_act.specs.Acts.{files_of, session_of};

use ov_plain::{Copies, onto};
use ov_value::Txt;
use sqlite_items::Items;
use std::alloc::{AllocError, Global};

/// A file by its name.
#[derive(Drop)]
pub struct File {
    pub name: Txt,
    pub bytes: Items<u8>,
}

/// The files, of which the first one of a name counts, and the name of the user.
#[derive(Drop)]
pub struct Session {
    pub files: Items<File>,
    pub user: Txt,
}

impl Copies for File {
    fn copied(&self, alloc: Global) -> Result<File, AllocError> {
        let name = self.name.copy(alloc)?;
        let bytes = Items::from_slice(alloc, self.bytes.as_slice())?;
        Ok(File { name, bytes })
    }
}

/// What the first of these files that has the name has.
fn find_in<'a>(files: &'a [File], name: &Txt) -> Option<&'a [u8]>
    ensures { option_copied result ≡ files_of files.now name.now }
{
    match files {
        [] => None,
        [file, rest @ ..] => {
            if name == &file.name {
                Some(file.bytes.as_slice())
            } else {
                find_in(rest, name)
            }
        }
    }
}

impl Session {
    /// A session of no files.
    pub fn new(alloc: Global, user: Txt) -> Session
        ensures { result ≡ record { files = []; user = user } }
    {
        Session {
            files: Items::new(alloc),
            user,
        }
    }

    /// A copy of it.
    pub fn copy(&self, alloc: Global) -> Result<Session, AllocError>
        ensures { IfOk result (λ made. made ≡ self.now) }
    {
        let files = self.files.copied(alloc)?;
        let user = self.user.copy(alloc)?;
        Ok(Session { files, user })
    }

    /// What the file of a name has; `None` where there is no such file.
    pub fn find(&self, name: &Txt) -> Option<&[u8]>
        ensures { option_copied result ≡ (session_of self.now).files name.now }
    {
        find_in(self.files.as_slice(), name)
    }

    /// A copy in which a file has these bytes.
    pub fn with_file(
        &self,
        alloc: Global,
        name: &Txt,
        bytes: Items<u8>,
    ) -> Result<Session, AllocError>
        ensures { IfOk result (λ made. session_of made ≡ record (session_of self.now) { files = put (session_of self.now).files name.now bytes }) }
    {
        let name = name.copy(alloc)?;
        let Session { files, user } = self.copy(alloc)?;
        let files = onto(alloc, File { name, bytes }, files)?;
        Ok(Session { files, user })
    }

    /// A copy of it, of this user.
    pub fn with_user(&self, alloc: Global, name: &Txt) -> Result<Session, AllocError>
        ensures { IfOk result (λ made. session_of made ≡ record (session_of self.now) { user = name.now }) }
    {
        let files = self.files.copied(alloc)?;
        let user = name.copy(alloc)?;
        Ok(Session { files, user })
    }
}
