// A stage in memory.
ghost use Rattle.std.specs.Prelude.{◌≡◌, ◌<◌, ◌≤◌, ◌≢◌, true, false, [], length, is_ok, IfOk, OnOk, OnErr, MatchOption, Some, None};
ghost use Rattle.ov_host.specs.Source.{Gives};
ghost use Rattle.ov_memhost.specs.Stage.{left_in};

use crate::counts::Counts;
use crate::give::give;
use crate::named::{Named, bytes_of, find, place_of, put};
use ov_host::{Failed, Found, Stage};
use std::alloc::{AllocError, Global};

// The file that was found last, and how many of its bytes were read.
#[derive(Drop)]
struct Reading {
    place: usize,
    read: usize,
}

// A file that was created and not finished yet.
#[derive(Drop)]
struct Draft {
    name: String,
    bytes: Vec<u8>,
}

/// A stage in memory, which tells its files. A call fails exactly where its number is listed or it found no memory, and
/// then changes no file.
#[derive(Drop)]
pub struct MemStage {
    alloc: Global,
    counts: Counts,
    files: Vec<Named>,
    misses: u64,
    reading: Option<Reading>,
    writing: Option<Draft>,
}

impl MemStage {
    ghost use Rattle.std.specs.FinMap.{get};
    ghost use Rattle.ov_memhost.specs.Named.{files_of};
    ghost use Rattle.ov_memhost.specs.Stage.{staged_of, new_staged};

    /// A stage of these files, of which the calls with these numbers fail, counted from 0. Of equal names the first
    /// counts. Takes no memory.
    pub fn new(alloc: Global, files: Vec<(String, Vec<u8>)>, fail: Vec<u64>) -> MemStage
        ensures staged { staged_of result ≡ new_staged (files_of files.items) }
        ensures counts { result.counts ≡ record { fail = fail; calls = 0; faults = 0; starved = 0 } }
    {
        MemStage {
            alloc,
            counts: Counts::new(fail),
            files,
            misses: 0,
            reading: None,
            writing: None,
        }
    }

    /// The bytes of a file that is there.
    pub fn file(&self, name: &str) -> Option<&[u8]>
        ensures { MatchOption result (get (staged_of self.entry.now).files name.now ≡ None)
            (λ bytes. get (staged_of self.entry.now).files name.now ≡ Some bytes.now) }
    {
        find(self.files.as_slice(), name)
    }

    /// How many calls failed for want of memory.
    pub fn starved(&self) -> u64
        ensures { result ≡ self.now.counts.starved }
    {
        self.counts.starved()
    }
}

impl Stage for MemStage {
    ghost use Rattle.ov_host.specs.Stage.{Attends, KeepsWriting, OthersStay, was_found, Finds, Starts, Appends, Finishes};
    ghost use Rattle.ov_memhost.specs.Counts.{Answered, AnsweredAlways};
    ghost use Rattle.ov_memhost.specs.Stage.{staged_of, missed, FilesStay, AllStays};

    ghost staged = { staged_of };

    fn find(&mut self, name: &str) -> Result<Found, Failed>
        ensures call { Attends (is_ok result) (staged_of self.old) (staged_of self.new) }
        ensures files { (staged_of self.new).files ≡ (staged_of self.old).files }
        ensures writing { KeepsWriting (staged_of self.old) (staged_of self.new) }
        ensures reading { (staged_of self.new).reading ≡ was_found result }
        ensures found { Finds name.now result (staged_of self.old) (staged_of self.new) }
        ensures counts { AnsweredAlways (is_ok result) self.old.counts self.new.counts }
        ensures misses { (staged_of self.new).misses ≡ missed result (staged_of self.old).misses }
    {
        self.reading = None;
        if self.counts.enter() {
            return Err(Failed);
        }
        match place_of(self.files.as_slice(), name) {
            Some(place) => {
                self.reading = Some(Reading { place, read: 0 });
                Ok(Found::Yes)
            }
            None => {
                self.misses = self.misses.saturating_add(1);
                Ok(Found::Missing)
            }
        }
    }

    fn read(&mut self, buf: &mut [u8]) -> Result<usize, Failed>
        requires some { 0 < length buf.old }
        requires found { (staged_of self.old).reading ≡ true }
        ensures call { Attends (is_ok result) (staged_of self.old) (staged_of self.new) }
        ensures files { (staged_of self.new).files ≡ (staged_of self.old).files }
        ensures writing { KeepsWriting (staged_of self.old) (staged_of self.new) }
        ensures reading { (staged_of self.new).reading ≡ true }
        ensures within { IfOk result (λ n. n ≤ length buf.old) }
        ensures bytes { IfOk result (λ n. (staged_of self.old).tells ≡ true
            → Gives n (staged_of self.old).left (staged_of self.new).left buf.new) }
        ensures failed { OnErr result ((staged_of self.old).tells ≡ true → (staged_of self.new).left ≡ (staged_of self.old).left) }
        ensures counts { AnsweredAlways (is_ok result) self.old.counts self.new.counts }
        ensures nothing { OnErr result (AllStays (staged_of self.old) (staged_of self.new) × (buf.new ≡ buf.old)) }
        ensures misses { (staged_of self.new).misses ≡ (staged_of self.old).misses }
    {
        if self.counts.enter() {
            return Err(Failed);
        }
        match &mut self.reading {
            Some(reading) => Ok(read_on(self.files.as_slice(), reading, buf)),
            None => unreachable!(),
        }
    }

    fn create(&mut self, name: &str) -> Result<(), Failed>
        ensures call { Attends (is_ok result) (staged_of self.old) (staged_of self.new) }
        ensures reading { (staged_of self.new).reading ≡ false }
        ensures writing { (staged_of self.new).writing ≡ is_ok result }
        ensures started { OnOk result ((staged_of self.old).tells ≡ true → Starts name.now (staged_of self.old) (staged_of self.new)) }
        ensures failed { OnErr result ((staged_of self.old).tells ≡ true → OthersStay name.now (staged_of self.old) (staged_of self.new)) }
        ensures counts { Answered (is_ok result) self.old.counts self.new.counts }
        ensures stay { FilesStay (staged_of self.old) (staged_of self.new) }
    {
        self.reading = None;
        self.writing = None;
        if self.counts.enter() {
            return Err(Failed);
        }
        match String::from_str(self.alloc, name) {
            Ok(name) => {
                self.writing = Some(Draft {
                    name,
                    bytes: Vec::new(self.alloc),
                });
                Ok(())
            }
            Err(AllocError) => Err(self.counts.starve()),
        }
    }

    fn write(&mut self, bytes: &[u8]) -> Result<(), Failed>
        requires { (staged_of self.old).writing ≡ true }
        ensures call { Attends (is_ok result) (staged_of self.old) (staged_of self.new) }
        ensures reading { (staged_of self.new).reading ≡ (staged_of self.old).reading }
        ensures writing { (staged_of self.new).writing ≡ true }
        ensures appended { OnOk result ((staged_of self.old).tells ≡ true → Appends bytes.now (staged_of self.old) (staged_of self.new)) }
        ensures failed { OnErr result ((staged_of self.old).tells ≡ true
            → OthersStay (staged_of self.old).name (staged_of self.old) (staged_of self.new)) }
        ensures counts { Answered (is_ok result) self.old.counts self.new.counts }
        ensures nothing { OnErr result (AllStays (staged_of self.old) (staged_of self.new)) }
        ensures stay { FilesStay (staged_of self.old) (staged_of self.new) }
        ensures left { (staged_of self.new).left ≡ (staged_of self.old).left }
    {
        if self.counts.enter() {
            return Err(Failed);
        }
        match &mut self.writing {
            Some(draft) => match draft.bytes.extend_from_slice(bytes) {
                Ok(()) => Ok(()),
                Err(AllocError) => Err(self.counts.starve()),
            },
            None => unreachable!(),
        }
    }

    fn finish(&mut self) -> Result<(), Failed>
        requires { (staged_of self.old).writing ≡ true }
        ensures call { Attends (is_ok result) (staged_of self.old) (staged_of self.new) }
        ensures reading { (staged_of self.new).reading ≡ (staged_of self.old).reading }
        ensures writing { (staged_of self.new).writing ≡ false }
        ensures finished { OnOk result ((staged_of self.old).tells ≡ true → Finishes (staged_of self.old) (staged_of self.new)) }
        ensures failed { OnErr result ((staged_of self.old).tells ≡ true
            → OthersStay (staged_of self.old).name (staged_of self.old) (staged_of self.new)) }
        ensures counts { Answered (is_ok result) self.old.counts self.new.counts }
        ensures nothing { OnErr result (FilesStay (staged_of self.old) (staged_of self.new)) }
        ensures misses { (staged_of self.new).misses ≡ (staged_of self.old).misses }
    {
        match self.writing.take() {
            Some(draft) => {
                if self.counts.enter() {
                    return Err(Failed);
                }
                match put(&mut self.files, draft.name, draft.bytes) {
                    Ok(()) => Ok(()),
                    Err(AllocError) => Err(self.counts.starve()),
                }
            }
            None => unreachable!(),
        }
    }
}

// Goes on in a file.
fn read_on(files: &[Named], reading: &mut Reading, buf: &mut [u8]) -> usize
    ensures bytes { 0 < length buf.old → Gives result (left_in files.now (Some reading.old)) (left_in files.now (Some reading.new)) buf.new }
    ensures within { result ≤ length buf.old }
{
    let bytes = bytes_of(files, reading.place);
    let from = reading.read.min(bytes.len());
    let count = give(&bytes[from..], buf);
    reading.read = from + count;
    count
}
