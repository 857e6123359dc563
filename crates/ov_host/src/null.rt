// Ends that tell nothing: what is written to them is gone, there is nothing to read, and they may fail at every call.
ghost use Rattle.std.specs.Prelude.{◌≡◌, ◌≤◌, [], true, false, IsErr};
ghost use Rattle.ov_host.specs.Host.{silent, Rose};
ghost use Rattle.ov_host.specs.Disk.{settled_reads};
ghost use Rattle.ov_host.specs.Source.{silent_script};
ghost use Rattle.ov_host.specs.Stage.{silent_stage};

use crate::{Area, Failed, Found, Host, Source, Stage};

// How often an end failed, and whether it does.
#[derive(Drop)]
struct Faults {
    fails: bool,
    count: u64,
}

impl Faults {
    fn new(fails: bool) -> Faults {
        Faults { fails, count: 0 }
    }

    // Fails where the end does, and counts it.
    fn call(&mut self) -> Result<(), Failed>
        ensures later { self.old.count ≤ self.new.count }
        ensures cause { IsErr result → Rose self.old.count self.new.count }
    {
        if self.fails {
            self.count = self.count.saturating_add(1);
            return Err(Failed);
        }
        Ok(())
    }
}

/// A host whose areas stay empty and whose output goes nowhere.
#[derive(Drop)]
pub struct NullHost {
    faults: Faults,
}

impl NullHost {
    /// A host of which every call fails, or none.
    pub fn new(fails: bool) -> NullHost {
        NullHost {
            faults: Faults::new(fails),
        }
    }
}

impl Host for NullHost {
    ghost state = { λ h. silent h.faults.count 0 };

    ghost reads = { λ h. settled_reads [] [] [] };

    fn len(&mut self, _area: Area) -> Result<u64, Failed> {
        self.faults.call()?;
        Ok(0)
    }

    fn read(&mut self, _area: Area, _at: u64, _buf: &mut [u8]) -> Result<usize, Failed> {
        self.faults.call()?;
        Ok(0)
    }

    fn write(&mut self, _area: Area, _at: u64, _bytes: &[u8]) -> Result<(), Failed> {
        self.faults.call()?;
        Ok(())
    }

    fn sync(&mut self, _area: Area) -> Result<(), Failed> {
        self.faults.call()?;
        Ok(())
    }

    fn print(&mut self, _bytes: &[u8]) -> Result<(), Failed> {
        self.faults.call()?;
        Ok(())
    }
}

/// A source that is at its end.
#[derive(Drop)]
pub struct NullSource {
    faults: Faults,
}

impl NullSource {
    /// A source of which every call fails, or none.
    pub fn new(fails: bool) -> NullSource {
        NullSource {
            faults: Faults::new(fails),
        }
    }
}

impl Source for NullSource {
    ghost script = { λ s. silent_script s.faults.count };

    fn read(&mut self, _buf: &mut [u8]) -> Result<usize, Failed> {
        self.faults.call()?;
        Ok(0)
    }
}

/// A stage on which each file is found and is empty, and what is written is gone.
#[derive(Drop)]
pub struct NullStage {
    faults: Faults,
    reading: bool,
    writing: bool,
}

impl NullStage {
    /// A stage of which every call fails, or none.
    pub fn new(fails: bool) -> NullStage {
        NullStage {
            faults: Faults::new(fails),
            reading: false,
            writing: false,
        }
    }
}

impl Stage for NullStage {
    ghost staged = { λ s. silent_stage s.reading s.writing s.faults.count 0 };

    fn find(&mut self, _name: &str) -> Result<Found, Failed> {
        self.reading = false;
        self.faults.call()?;
        self.reading = true;
        Ok(Found::Yes)
    }

    fn read(&mut self, _buf: &mut [u8]) -> Result<usize, Failed> {
        self.faults.call()?;
        Ok(0)
    }

    fn create(&mut self, _name: &str) -> Result<(), Failed> {
        self.reading = false;
        self.writing = false;
        self.faults.call()?;
        self.writing = true;
        Ok(())
    }

    fn write(&mut self, _bytes: &[u8]) -> Result<(), Failed> {
        self.faults.call()?;
        Ok(())
    }

    fn finish(&mut self) -> Result<(), Failed> {
        self.writing = false;
        self.faults.call()?;
        Ok(())
    }
}
