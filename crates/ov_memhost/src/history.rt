// What a host in memory did since it was made.
ghost use Rattle.std.specs.Prelude.{◌≡◌, ◌+◌, ◌<◌, ◌^◌, [], ◌∷◌, ◌++◌, IfOk, OnOk, vec_len, vec_capacity};
ghost use Rattle.ov_host.specs.Tape.{Writes};

use crate::areas::Areas;
use ov_host::Area;
use std::alloc::{AllocError, Global};

/// A write that was done.
#[derive(Drop)]
pub struct Write {
    pub area: Area,
    pub at: u64,
    pub bytes: Vec<u8>,
    ghost fits: { at + vec_len bytes < 2 ^ 64 },
}

impl Write {
    pub fn new(alloc: Global, area: Area, at: u64, bytes: &[u8]) -> Result<Write, AllocError>
        ensures { IfOk result (λ w. Writes w.area w.at w.bytes.items ≡ Writes area at bytes.now) }
    {
        // an area that ends past 2^64 - 1 has no room in memory
        if bytes.len() as u64 > u64::MAX - at {
            return Err(AllocError);
        }
        let bytes = Vec::from_slice(alloc, bytes)?;
        Ok(Write { area, at, bytes })
    }
}

/// What a call changed.
#[derive(Drop)]
pub enum Did {
    Wrote(Write),
    Synced(Area),
    Printed(Vec<u8>),
}

/// A call that changed something, and its number among all calls, counted from 0.
#[derive(Drop)]
pub struct Past {
    pub number: u64,
    pub did: Did,
}

/// The calls that changed something, in order, and the areas before the first of them.
#[derive(Drop)]
pub struct History {
    first: Areas,
    past: Vec<Past>,
}

impl History {
    ghost use Rattle.ov_memhost.specs.Kept.{Kept, at_start};
    ghost use Rattle.ov_memhost.specs.Done.{contents, kept_in, call_of};

    /// Nothing was done yet.
    pub fn new(alloc: Global) -> History
        ensures { result.past.items ≡ [] }
    {
        History {
            first: Areas::new(Vec::new(alloc), Vec::new(alloc)),
            past: Vec::new(alloc),
        }
    }

    /// Takes the memory for one call more. The areas are copied before the first call that changes something.
    pub fn make_room(&mut self, alloc: Global, now: &Areas) -> Result<(), AllocError>
        ensures same { self.new.past.items ≡ self.old.past.items }
        ensures start { at_start (kept_in self.old.past.items) (contents self.new.first) (contents now.now)
            ≡ at_start (kept_in self.old.past.items) (contents self.old.first) (contents now.now) }
        ensures first { OnOk result (contents self.new.first
            ≡ at_start (kept_in self.old.past.items) (contents self.old.first) (contents now.now)) }
        ensures room { OnOk result (vec_len self.new.past < vec_capacity self.new.past) }
    {
        self.past.reserve(1)?;
        if self.past.is_empty() {
            self.first = now.copy(alloc)?;
        }
        Ok(())
    }

    /// The areas at the start; `now` is what they read now.
    pub fn start(&self, alloc: Global, now: &Areas) -> Result<Areas, AllocError>
        ensures { IfOk result (λ start. contents start
            ≡ at_start (kept_in self.now.past.items) (contents self.now.first) (contents now.now)) }
    {
        if self.past.is_empty() {
            return now.copy(alloc);
        }
        self.first.copy(alloc)
    }

    /// The calls that changed something, in order.
    pub fn past(&self) -> &[Past]
        ensures { result.now ≡ self.now.past.items }
    {
        self.past.as_slice()
    }

    /// Keeps a call. There is room.
    pub fn keep(&mut self, number: u64, did: Did)
        requires { vec_len self.old.past < vec_capacity self.old.past }
        ensures kept { kept_in self.new.past.items
            ≡ kept_in self.old.past.items ++ record { number = number; call = call_of did } ∷ [] }
        ensures first { self.new.first ≡ self.old.first }
    {
        self.past.push_reserved(Past { number, did });
    }
}
