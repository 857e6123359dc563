// A host in memory.
ghost use Rattle.std.specs.Prelude.{◌≡◌, ◌≤◌, true, [], take, drop, length, is_ok, IfOk, OnOk, OnErr, vec_len};
ghost use Rattle.ov_host.specs.Host.{given};
ghost use Rattle.ov_memhost.specs.Kept.{Agrees, is_numbered, tape_by};
ghost use Rattle.ov_memhost.specs.Done.{contents, kept_in};

use crate::areas::Areas;
use crate::counts::Counts;
use crate::give::give;
use crate::history::{Did, History, Write};
use ov_host::{Area, Failed, Host};
use std::alloc::{AllocError, Global};

/// A host in memory, which tells its bytes. A call fails exactly where its number is listed or it found no memory, and then
/// has done nothing; `len` and `read` take no memory.
///
/// It keeps the areas as they were before the first call that changed something, and each call that changed something, so
/// that `crash_at` can play them again.
#[derive(Drop)]
pub struct MemHost {
    pub(crate) alloc: Global,
    counts: Counts,
    pub(crate) history: History,
    pub(crate) areas: Areas,
    pub(crate) printed: Vec<u8>,
    // how many of the printed bytes were there when the host was made
    pub(crate) before: usize,
    fetched: u64,
    ghost had: { before ≤ vec_len printed },
    ghost agrees: { Agrees (tape_by (kept_in history.past.items) (contents history.first) (contents areas) (take before printed.items))
        (contents areas) printed.items },
    ghost numbered: { is_numbered 0 (kept_in history.past.items) counts.calls ≡ true },
}

impl MemHost {
    ghost use Rattle.ov_host.specs.Host.{bytes_of};
    ghost use Rattle.ov_host.specs.Tape.{Writes, Syncs, Prints};
    ghost use Rattle.ov_memhost.specs.Counts.{next};
    ghost use Rattle.ov_memhost.specs.Host.{state_of, new_state, kept_by, Does, Idle};

    /// A host of these bytes, with nothing pending and nothing printed, of which the calls with these numbers fail,
    /// counted from 0. Takes no memory.
    pub fn new(alloc: Global, pages: Vec<u8>, journal: Vec<u8>, fail: Vec<u64>) -> MemHost
        ensures state { state_of result ≡ new_state (record { pages = pages.items; journal = journal.items }) [] }
        ensures kept { kept_by result ≡ [] }
        ensures counts { result.counts ≡ record { fail = fail; calls = 0; faults = 0; starved = 0 } }
    {
        MemHost::settled(alloc, Areas::new(pages, journal), Vec::new(alloc), fail)
    }

    /// A host of these bytes, with nothing pending and this printed.
    pub(crate) fn settled(alloc: Global, areas: Areas, printed: Vec<u8>, fail: Vec<u64>) -> MemHost
        ensures state { state_of result ≡ new_state (contents areas) printed.items }
        ensures kept { kept_by result ≡ [] }
        ensures counts { result.counts ≡ record { fail = fail; calls = 0; faults = 0; starved = 0 } }
    {
        MemHost {
            alloc,
            counts: Counts::new(fail),
            history: History::new(alloc),
            areas,
            before: printed.len(),
            printed,
            fetched: 0,
        }
    }

    /// The bytes printed.
    pub fn printed(&self) -> &[u8]
        ensures { result.now ≡ (state_of self.now).tape.disk.printed }
    {
        self.printed.as_slice()
    }

    /// What an area reads.
    pub fn bytes(&self, area: Area) -> &[u8]
        ensures { result.now ≡ bytes_of area (state_of self.now) }
    {
        self.areas.bytes(area)
    }

    /// How many calls there were.
    pub fn calls(&self) -> u64
        ensures { result ≡ self.now.counts.calls }
    {
        self.counts.calls()
    }

    /// How many calls failed for want of memory.
    pub fn starved(&self) -> u64
        ensures { result ≡ self.now.counts.starved }
    {
        self.counts.starved()
    }

    // A write, as the call of this number.
    fn put(&mut self, number: u64, area: Area, at: u64, bytes: &[u8]) -> Result<(), AllocError>
        requires numbered { is_numbered 0 (kept_by self.old) number ≡ true }
        requires counted { next number ≤ self.old.counts.calls }
        ensures ok { OnOk result (Does (Writes area at bytes.now) number self.old self.new) }
        ensures err { OnErr result (Idle self.old self.new) }
        ensures counts { self.new.counts ≡ self.old.counts }
        ensures fetched { self.new.fetched ≡ self.old.fetched }
    {
        let write = Write::new(self.alloc, area, at, bytes)?;
        self.history.make_room(self.alloc, &self.areas)?;
        self.areas.overwrite(area, at, bytes)?;
        self.history.keep(number, Did::Wrote(write));
        Ok(())
    }

    // A sync, as the call of this number.
    fn settle(&mut self, number: u64, area: Area) -> Result<(), AllocError>
        requires numbered { is_numbered 0 (kept_by self.old) number ≡ true }
        requires counted { next number ≤ self.old.counts.calls }
        ensures ok { OnOk result (Does (Syncs area) number self.old self.new) }
        ensures err { OnErr result (Idle self.old self.new) }
        ensures counts { self.new.counts ≡ self.old.counts }
        ensures fetched { self.new.fetched ≡ self.old.fetched }
    {
        self.history.make_room(self.alloc, &self.areas)?;
        self.history.keep(number, Did::Synced(area));
        Ok(())
    }

    // A print, as the call of this number.
    fn say(&mut self, number: u64, bytes: &[u8]) -> Result<(), AllocError>
        requires numbered { is_numbered 0 (kept_by self.old) number ≡ true }
        requires counted { next number ≤ self.old.counts.calls }
        ensures ok { OnOk result (Does (Prints bytes.now) number self.old self.new) }
        ensures err { OnErr result (Idle self.old self.new) }
        ensures counts { self.new.counts ≡ self.old.counts }
        ensures fetched { self.new.fetched ≡ self.old.fetched }
    {
        let copy = Vec::from_slice(self.alloc, bytes)?;
        self.history.make_room(self.alloc, &self.areas)?;
        self.printed.extend_from_slice(bytes)?;
        self.history.keep(number, Did::Printed(copy));
        Ok(())
    }
}

#[tactic(auto, using(crate::proofs::Numbers::numbered_later))]
impl Host for MemHost {
    ghost use Rattle.ov_host.specs.Host.{Calls, bytes_of, fetched_by, gave, Reads};
    ghost use Rattle.ov_host.specs.Tape.{Looks, Writes, Syncs, Prints};
    ghost use Rattle.ov_memhost.specs.Counts.{Answered, AnsweredAlways};
    ghost use Rattle.ov_memhost.specs.Host.{state_of, reads_of, Does, Idle};

    ghost state = { state_of };

    ghost reads = { reads_of };

    fn len(&mut self, area: Area) -> Result<u64, Failed>
        ensures call { Calls Looks (is_ok result) (state_of self.old) (state_of self.new) }
        ensures fetched { (state_of self.new).fetched ≡ (state_of self.old).fetched }
        ensures len { IfOk result (λ n. (state_of self.old).tells ≡ true → n ≡ length (bytes_of area (state_of self.old))) }
        ensures counts { AnsweredAlways (is_ok result) self.old.counts self.new.counts }
        ensures idle { Idle self.old self.new }
    {
        if self.counts.enter() {
            return Err(Failed);
        }
        Ok(self.areas.bytes(area).len() as u64)
    }

    fn read(&mut self, area: Area, at: u64, buf: &mut [u8]) -> Result<usize, Failed>
        requires { length buf.old ≤ 65536 }
        ensures call { Calls Looks (is_ok result) (state_of self.old) (state_of self.new) }
        ensures fetched { (state_of self.new).fetched ≡ fetched_by area (is_ok result) (gave result) (state_of self.old).fetched }
        ensures within { IfOk result (λ n. n ≤ length buf.old) }
        ensures bytes { IfOk result (λ n. (state_of self.old).tells ≡ true → Reads area at n (state_of self.old) buf.old buf.new) }
        ensures counts { AnsweredAlways (is_ok result) self.old.counts self.new.counts }
        ensures idle { Idle self.old self.new }
        ensures nothing { OnErr result (buf.new ≡ buf.old) }
    {
        if self.counts.enter() {
            return Err(Failed);
        }
        let count = read_at(self.areas.bytes(area), at, buf);
        if area == Area::Pages {
            self.fetched = self.fetched.saturating_add(count as u64);
        }
        Ok(count)
    }

    fn write(&mut self, area: Area, at: u64, bytes: &[u8]) -> Result<(), Failed>
        requires { (state_of self.old).tells ≡ true → at ≤ length (bytes_of area (state_of self.old)) }
        ensures call { Calls (Writes area at bytes.now) (is_ok result) (state_of self.old) (state_of self.new) }
        ensures fetched { (state_of self.new).fetched ≡ (state_of self.old).fetched }
        ensures counts { Answered (is_ok result) self.old.counts self.new.counts }
        ensures does { OnOk result (Does (Writes area at bytes.now) self.old.counts.calls self.old self.new) }
        ensures nothing { OnErr result (Idle self.old self.new) }
    {
        let number = self.counts.calls();
        if self.counts.enter() {
            return Err(Failed);
        }
        match self.put(number, area, at, bytes) {
            Ok(()) => Ok(()),
            Err(AllocError) => Err(self.counts.starve()),
        }
    }

    fn sync(&mut self, area: Area) -> Result<(), Failed>
        ensures call { Calls (Syncs area) (is_ok result) (state_of self.old) (state_of self.new) }
        ensures fetched { (state_of self.new).fetched ≡ (state_of self.old).fetched }
        ensures counts { Answered (is_ok result) self.old.counts self.new.counts }
        ensures does { OnOk result (Does (Syncs area) self.old.counts.calls self.old self.new) }
        ensures nothing { OnErr result (Idle self.old self.new) }
    {
        let number = self.counts.calls();
        if self.counts.enter() {
            return Err(Failed);
        }
        match self.settle(number, area) {
            Ok(()) => Ok(()),
            Err(AllocError) => Err(self.counts.starve()),
        }
    }

    fn print(&mut self, bytes: &[u8]) -> Result<(), Failed>
        ensures call { Calls (Prints bytes.now) (is_ok result) (state_of self.old) (state_of self.new) }
        ensures fetched { (state_of self.new).fetched ≡ (state_of self.old).fetched }
        ensures counts { Answered (is_ok result) self.old.counts self.new.counts }
        ensures does { OnOk result (Does (Prints bytes.now) self.old.counts.calls self.old self.new) }
        ensures nothing { OnErr result (Idle self.old self.new) }
    {
        let number = self.counts.calls();
        if self.counts.enter() {
            return Err(Failed);
        }
        match self.say(number, bytes) {
            Ok(()) => Ok(()),
            Err(AllocError) => Err(self.counts.starve()),
        }
    }
}

// Copies what stands from a place on, up to the end of the buffer or of the bytes, and answers how many bytes that were.
fn read_at(bytes: &[u8], at: u64, buf: &mut [u8]) -> usize
    ensures count { result ≡ given bytes.now at (length buf.old) }
    ensures bytes { take result buf.new ≡ take result (drop at bytes.now) }
{
    let from = at.min(bytes.len() as u64) as usize;
    give(&bytes[from..], buf)
}
