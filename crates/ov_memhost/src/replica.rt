// A disk that is played again, up to a stop.
ghost use Rattle.std.specs.Prelude.{◌≡◌, OnOk};
ghost use Rattle.ov_host.specs.Tape.{done};
ghost use Rattle.ov_memhost.specs.Done.{call_of, kept_in};
ghost use Rattle.ov_memhost.specs.Stopped.{begun, stopped};

use crate::history::{Did, Past};
use crate::pending::Pending;
use ov_host::Area;
use std::alloc::AllocError;

/// Both areas with what is pending in them, and the bytes printed.
#[derive(Drop)]
pub struct Replica {
    pub pages: Pending,
    pub journal: Pending,
    pub printed: Vec<u8>,
}

impl Replica {
    ghost use Rattle.ov_memhost.specs.Replica.{disk_of};

    // Does a call again.
    fn redo(&mut self, did: &Did) -> Result<(), AllocError>
        ensures { OnOk result (disk_of self.new ≡ done (call_of did.now) (disk_of self.old)) }
    {
        match did {
            Did::Wrote(write) => match write.area {
                Area::Pages => self.pages.write(write.at, write.bytes.as_slice())?,
                Area::Journal => self.journal.write(write.at, write.bytes.as_slice())?,
            },
            Did::Synced(Area::Pages) => self.pages.settle(),
            Did::Synced(Area::Journal) => self.journal.settle(),
            Did::Printed(bytes) => self.printed.extend_from_slice(bytes.as_slice())?,
        }
        Ok(())
    }

    // Begins a call. A print prints so many of its bytes, or all where it has fewer.
    fn begin(&mut self, did: &Did, cut: u8) -> Result<(), AllocError>
        ensures { OnOk result (disk_of self.new ≡ begun cut (call_of did.now) (disk_of self.old)) }
    {
        match did {
            Did::Wrote(write) => match write.area {
                Area::Pages => self.pages.mark(write.at, write.bytes.len() as u64)?,
                Area::Journal => self.journal.mark(write.at, write.bytes.len() as u64)?,
            },
            Did::Synced(_) => {}
            Did::Printed(bytes) => {
                let cut = bytes.len().min(cut as usize);
                self.printed.extend_from_slice(&bytes.as_slice()[..cut])?;
            }
        }
        Ok(())
    }

    /// Plays the calls below a number again, and begins the one of this number, where it is kept.
    pub fn stop(&mut self, past: &[Past], call: u64, cut: u8) -> Result<(), AllocError>
        ensures { OnOk result (disk_of self.new ≡ stopped (kept_in past.now) call cut (disk_of self.old)) }
    {
        for one in past {
            if one.number >= call {
                if one.number == call {
                    self.begin(&one.did, cut)?;
                }
                return Ok(());
            }
            self.redo(&one.did)?;
        }
        Ok(())
    }
}
