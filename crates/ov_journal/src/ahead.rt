// Bytes of the journal, read ahead of its records: many records to a read.
ghost use Rattle.std.specs.Prelude.{◌≡◌, ◌≤◌, ◌-◌, List, ℕ, true, length, min, IfErr, IfOk, IsErrOf, OnOk};
ghost use Rattle.ov_host.specs.Host.{Rose, bytes_of};
ghost use Rattle.ov_journal.specs.Ahead.{IsOf, behind};
ghost use Rattle.ov_journal.specs.Reading.{Looked, IsOutside};

use crate::errors::JournalErr;
use ov_host::{Area, Host};
use std::alloc::{AllocError, Global};
use std::marker::Model;

// The most bytes that are read at once.
pub const PIECE_BYTES: usize = 65_536;

// Bytes of the journal from a place on: the first of a piece.
#[derive(Drop)]
pub struct Ahead {
    from: u64,
    held: usize,
    piece: Vec<u8>,
}

impl Model for Ahead {
    ghost use Rattle.std.specs.Prelude.{◌≡◌, ◌≤◌, take, vec_len};
    ghost use Rattle.ov_journal.specs.Ahead.{Ahead as Held};

    ghost Value = { Held };

    ghost view = { λ a. record { from = a.from; bytes = take a.held a.piece.items } };

    ghost invariant = { λ a. (vec_len a.piece ≡ 65536) × (a.held ≤ 65536) };
}

impl Ahead {
    // No byte is read yet.
    pub fn new(alloc: Global) -> Result<Ahead, AllocError>
        ensures { (all : List ℕ) → IfOk result (IsOf all) }
    {
        Ok(Ahead {
            from: 0,
            held: 0,
            piece: vec![in alloc; 0u8; PIECE_BYTES]?,
        })
    }

    // Those from a place on.
    pub fn behind(&self, at: u64) -> &[u8]
        ensures { result.now ≡ behind self.now at }
    {
        if at < self.from || at - self.from > self.held as u64 {
            return &[];
        }
        let (_, held) = self.piece[..self.held].split_at((at - self.from) as usize);
        held
    }

    // Reads on from this place, where fewer bytes than so many are there from it on.
    pub fn reach<H: Host>(&mut self, host: &mut H, at: u64, count: usize) -> Result<(), JournalErr>
        requires small { count ≤ 65536 }
        requires known { (H.state host.old).tells ≡ true → IsOf (bytes_of Area.Journal (H.state host.old)) self.old }
        ensures looked { Looked (H.state host.old) (H.state host.new) }
        ensures cause { IsErrOf result JournalErr.Host → Rose (H.state host.old).faults (H.state host.new).faults }
        ensures kind { IfErr result (λ e. IsOutside e) }
        ensures known { (H.state host.old).tells ≡ true → OnOk result (IsOf (bytes_of Area.Journal (H.state host.old)) self.new) }
        ensures reached { (H.state host.old).tells ≡ true
            → OnOk result (min count (length (bytes_of Area.Journal (H.state host.old)) - at) ≤ length (behind self.new at)) }
    {
        if self.behind(at).len() < count {
            self.held = 0;
            self.from = at;
            self.held = host.read(Area::Journal, at, &mut self.piece)?;
        }
        Ok(())
    }
}
