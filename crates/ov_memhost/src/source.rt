// A source in memory.
ghost use Rattle.std.specs.Prelude.{◌≡◌, ◌<◌, ◌≤◌, true, [], length, is_ok, IfOk, OnErr, vec_len};

use crate::counts::Counts;
use crate::give::give;
use ov_host::{Failed, Source};
use std::alloc::Global;

/// A script in memory, which tells its bytes. `read` takes no memory, and fails exactly where its number is listed.
#[derive(Drop)]
pub struct MemSource {
    counts: Counts,
    bytes: Vec<u8>,
    // how many of the bytes were read
    read: usize,
    ghost within: { read ≤ vec_len bytes },
}

impl MemSource {
    ghost use Rattle.ov_memhost.specs.Source.{script_of};

    /// A source of these bytes, of which the calls with these numbers fail, counted from 0. Takes no memory.
    pub fn new(_alloc: Global, bytes: Vec<u8>, fail: Vec<u64>) -> MemSource
        ensures script { script_of result ≡ record { tells = true; left = bytes.items; faults = 0 } }
        ensures counts { result.counts ≡ record { fail = fail; calls = 0; faults = 0; starved = 0 } }
    {
        MemSource {
            counts: Counts::new(fail),
            bytes,
            read: 0,
        }
    }

    /// How many calls failed for want of memory: none, since no call takes any.
    pub fn starved(&self) -> u64
        ensures { result ≡ self.now.counts.starved }
    {
        self.counts.starved()
    }
}

impl Source for MemSource {
    ghost use Rattle.ov_host.specs.Source.{Asks, Gives};
    ghost use Rattle.ov_memhost.specs.Source.{script_of};
    ghost use Rattle.ov_memhost.specs.Counts.{AnsweredAlways};

    ghost script = { script_of };

    fn read(&mut self, buf: &mut [u8]) -> Result<usize, Failed>
        requires { 0 < length buf.old }
        ensures call { Asks (is_ok result) (script_of self.old) (script_of self.new) }
        ensures within { IfOk result (λ n. n ≤ length buf.old) }
        ensures bytes { IfOk result (λ n. (script_of self.old).tells ≡ true
            → Gives n (script_of self.old).left (script_of self.new).left buf.new) }
        ensures counts { AnsweredAlways (is_ok result) self.old.counts self.new.counts }
        ensures nothing { OnErr result (((script_of self.new).left ≡ (script_of self.old).left) × (buf.new ≡ buf.old)) }
    {
        if self.counts.enter() {
            return Err(Failed);
        }
        let left = &self.bytes.as_slice()[self.read..];
        let count = give(left, buf);
        self.read += count;
        Ok(count)
    }
}
