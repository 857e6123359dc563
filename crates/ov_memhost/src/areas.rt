// The bytes of the two areas.
ghost use Rattle.std.specs.Prelude.{◌≡◌, length, IfOk, OnOk, OnErr};
ghost use Rattle.ov_host.specs.Tape.{overwritten};

use ov_host::Area;
use std::alloc::{AllocError, Global};

/// Puts bytes over what is there from a place on, and past the end. A place past the end counts as the end.
pub fn overwrite(bytes: &mut Vec<u8>, at: u64, new: &[u8]) -> Result<(), AllocError>
    ensures ok { OnOk result (bytes.new.items ≡ overwritten bytes.old.items at new.now) }
    ensures err { OnErr result (bytes.new.items ≡ bytes.old.items) }
{
    let len = bytes.len();
    let from = at.min(len as u64) as usize;
    let over = new.len().min(len - from);
    bytes.extend_from_slice(&new[over..])?;
    bytes[from..from + over].copy_from_slice(&new[..over]);
    Ok(())
}

/// What both areas read.
#[derive(Drop)]
pub struct Areas {
    pub pages: Vec<u8>,
    pub journal: Vec<u8>,
}

impl Areas {
    ghost use Rattle.ov_memhost.specs.Done.{contents, bytes_in, with_bytes};

    pub fn new(pages: Vec<u8>, journal: Vec<u8>) -> Areas
        ensures { contents result ≡ record { pages = pages.items; journal = journal.items } }
    {
        Areas { pages, journal }
    }

    pub fn bytes(&self, area: Area) -> &[u8]
        ensures { result.now ≡ bytes_in area (contents self.now) }
    {
        match area {
            Area::Pages => self.pages.as_slice(),
            Area::Journal => self.journal.as_slice(),
        }
    }

    pub fn copy(&self, alloc: Global) -> Result<Areas, AllocError>
        ensures { IfOk result (λ a. contents a ≡ contents self.now) }
    {
        Ok(Areas {
            pages: Vec::from_slice(alloc, self.pages.as_slice())?,
            journal: Vec::from_slice(alloc, self.journal.as_slice())?,
        })
    }

    /// Puts bytes over an area's bytes, and past its end.
    pub fn overwrite(&mut self, area: Area, at: u64, new: &[u8]) -> Result<(), AllocError>
        ensures ok { OnOk result (contents self.new
            ≡ with_bytes area (overwritten (bytes_in area (contents self.old)) at new.now) (contents self.old)) }
        ensures err { OnErr result (contents self.new ≡ contents self.old) }
    {
        match area {
            Area::Pages => overwrite(&mut self.pages, at, new),
            Area::Journal => overwrite(&mut self.journal, at, new),
        }
    }
}
