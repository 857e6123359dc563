// An area with what is pending in it, and the bytes that a stop leaves of it.
ghost use Rattle.std.specs.Prelude.{◌≡◌, ◌+◌, ◌<◌, ◌≤◌, ◌^◌, ◌%◌, ◌⊎◌, ℕ, true, false, length, IfOk, OnOk, vec_len, slice_index, slice_index_or, if◌then◌else◌, [], ◌∷◌, ◌++◌};
ghost use Rattle.ov_host.specs.Tape.{overwritten, marked};
ghost use Rattle.ov_host.specs.Disk.{settled};

use crate::areas::overwrite;
use std::alloc::{AllocError, Global};

/// What an area reads, its length at the last sync, its greatest length since, and the ranges written since, in order:
/// each from its first place up to its end, which is left out.
#[derive(Drop)]
pub struct Pending {
    bytes: Vec<u8>,
    synced: u64,
    greatest: u64,
    written: Vec<(u64, u64)>,
    ghost low: { synced ≤ vec_len bytes },
    ghost high: { vec_len bytes ≤ greatest },
}

/// The bytes that a stop leaves of an area, and the place in `pick` of the next byte to take.
#[derive(Drop)]
pub struct Left {
    pub bytes: Vec<u8>,
    pub next: usize,
}

impl Pending {
    ghost use Rattle.ov_memhost.specs.Pending.{stored_of};
    ghost use Rattle.ov_memhost.specs.Picked.{IsPicked, is_doubtful, doubts_below};

    /// An area in which nothing is pending.
    pub fn new(alloc: Global, bytes: Vec<u8>) -> Pending
        ensures { stored_of result ≡ settled bytes.items }
    {
        let len = bytes.len() as u64;
        Pending {
            bytes,
            synced: len,
            greatest: len,
            written: Vec::new(alloc),
        }
    }

    /// Writes over what is there, and past the end.
    pub fn write(&mut self, at: u64, bytes: &[u8]) -> Result<(), AllocError>
        requires { at + length bytes.now < 2 ^ 64 }
        ensures { OnOk result (stored_of self.new
            ≡ marked at (length bytes.now) (overwritten (stored_of self.old).bytes at bytes.now) (stored_of self.old)) }
    {
        let end = at + bytes.len() as u64;
        self.written.push((at, end))?;
        overwrite(&mut self.bytes, at, bytes)?;
        self.greatest = self.greatest.max(end);
        Ok(())
    }

    /// A write of so many bytes has begun: its range counts as written, whatever it reads.
    pub fn mark(&mut self, at: u64, count: u64) -> Result<(), AllocError>
        requires { at + count < 2 ^ 64 }
        ensures { OnOk result (stored_of self.new ≡ marked at count (stored_of self.old).bytes (stored_of self.old)) }
    {
        let end = at + count;
        self.written.push((at, end))?;
        self.greatest = self.greatest.max(end);
        Ok(())
    }

    /// A sync: nothing is pending any more.
    pub fn settle(&mut self)
        ensures { stored_of self.new ≡ settled (stored_of self.old).bytes }
    {
        self.synced = self.bytes.len() as u64;
        self.greatest = self.synced;
        self.written.clear();
    }

    // Of each place below a length, whether a stop may leave its byte as anything.
    fn doubtful(&self, alloc: Global, len: usize) -> Result<Vec<bool>, AllocError>
        ensures len { IfOk result (λ flags. vec_len flags ≡ len) }
        ensures flags { IfOk result (λ flags. (p : ℕ) → p < len → slice_index_or flags.items p false ≡ is_doubtful (stored_of self.now) p) }
    {
        let mut flags = vec![in alloc; false; len]?;
        self.raise_doubtful(flags.as_mut_slice());
        Ok(flags)
    }

    // Raises the flag of each place whose byte a stop may leave as anything. No flag is raised yet.
    fn raise_doubtful(&self, flags: &mut [bool])
        requires { (p : ℕ) → p < length flags.old → slice_index_or flags.old p false ≡ false }
        ensures { (p : ℕ) → p < length flags.old → slice_index_or flags.new p false ≡ is_doubtful (stored_of self.now) p }
    {
        raise(flags, self.synced, flags.len() as u64);
        for (from, end) in &self.written {
            raise(flags, *from, *end);
        }
    }

    /// The bytes that a stop leaves. The length that is asked for is brought into its range. Each doubtful byte is the next
    /// of `pick`, which begins again at its end; the first one to take stands at `next`.
    pub fn left(
        &self,
        alloc: Global,
        asked: u64,
        pick: &[u8],
        next: usize,
    ) -> Result<Left, AllocError>
        requires { next < length pick.now }
        ensures picked { IfOk result (λ left. IsPicked (stored_of self.now) asked next pick.now left.bytes.items) }
        ensures next { IfOk result (λ left. left.next
            ≡ (next + doubts_below (stored_of self.now) (length left.bytes.items)) % length pick.now) }
    {
        let len = asked.min(self.greatest).max(self.synced) as usize;
        let doubtful = self.doubtful(alloc, len)?;
        let mut left = Left {
            bytes: Vec::with_capacity(alloc, len)?,
            next,
        };
        for (place, doubt) in doubtful.as_slice().iter().enumerate() {
            self.add(&mut left, place, *doubt, pick)?;
        }
        Ok(left)
    }

    // Adds the byte of a place: the next one of `pick` where it is doubtful, and else what reads.
    fn add(&self, left: &mut Left, place: usize, doubt: bool, pick: &[u8]) -> Result<(), AllocError>
        requires next { left.old.next < length pick.now }
        requires there { doubt ≡ false → place < vec_len self.now.bytes }
        ensures bytes { OnOk result (left.new.bytes.items ≡ left.old.bytes.items
            ++ (if doubt then slice_index pick.now left.old.next else slice_index self.now.bytes.items place) ∷ []) }
        ensures next { OnOk result (left.new.next
            ≡ (if doubt then (left.old.next + 1) % length pick.now else left.old.next)) }
    {
        if doubt {
            left.bytes.push(pick[left.next])?;
            left.next = (left.next + 1) % pick.len();
        } else {
            left.bytes.push(self.bytes[place])?;
        }
        Ok(())
    }
}

// Raises the flags of a range, as far as there are flags.
fn raise(flags: &mut [bool], from: u64, end: u64)
    ensures within { (p : ℕ) → from ≤ p → p < end → p < length flags.old → slice_index_or flags.new p false ≡ true }
    ensures others { (p : ℕ) → (p < from) ⊎ (end ≤ p) → slice_index_or flags.new p false ≡ slice_index_or flags.old p false }
{
    let last = end.min(flags.len() as u64) as usize;
    let first = from.min(last as u64) as usize;
    for place in first..last {
        flags[place] = true;
    }
}
