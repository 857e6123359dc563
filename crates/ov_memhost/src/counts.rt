// The counts of an end in memory, and its list of calls that fail.
ghost use Rattle.std.specs.Prelude.{◌≡◌, ◌≤◌, true, false, not};

use ov_host::Failed;

/// The numbers of the calls that fail, counted from 0, and how many calls, faults and faults for want of memory there
/// were. Each count stays at 2^64 - 1 once it is there.
#[derive(Drop)]
pub struct Counts {
    fail: Vec<u64>,
    calls: u64,
    faults: u64,
    starved: u64,
}

impl Counts {
    ghost use Rattle.ov_memhost.specs.Counts.{AnsweredAlways, next, is_listed};

    /// No calls yet, and this list.
    pub fn new(fail: Vec<u64>) -> Counts
        ensures { result ≡ record { fail = fail; calls = 0; faults = 0; starved = 0 } }
    {
        Counts {
            fail,
            calls: 0,
            faults: 0,
            starved: 0,
        }
    }

    /// How many calls there were.
    pub fn calls(&self) -> u64
        ensures { result ≡ self.now.calls }
    {
        self.calls
    }

    /// How many calls failed for want of memory.
    pub fn starved(&self) -> u64
        ensures { result ≡ self.now.starved }
    {
        self.starved
    }

    /// Counts a call, and answers whether it is to fail: whether its number is listed. That is a fault.
    pub fn enter(&mut self) -> bool
        ensures { AnsweredAlways (not result) self.old self.new }
    {
        let listed = self.fail.contains(&self.calls);
        self.calls = self.calls.saturating_add(1);
        if listed {
            self.faults = self.faults.saturating_add(1);
        }
        listed
    }

    /// Counts that the call found no memory.
    pub fn starve(&mut self) -> Failed
        ensures counted { self.new ≡ record self.old { faults = next self.old.faults; starved = next self.old.starved } }
        ensures later { self.old.faults ≤ self.new.faults }
    {
        self.faults = self.faults.saturating_add(1);
        self.starved = self.starved.saturating_add(1);
        Failed
    }
}
