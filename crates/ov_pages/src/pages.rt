//! Which pages are reserved.

ghost use Rattle.std.specs.Prelude.{◌≡◌, ◌↔◌, ℕ, ◌+◌, ◌-◌, ◌*◌, ◌/◌, ◌%◌, ◌<◌, ◌≤◌, true, length, is_ok, IfOk, IfErr, OnOk, OnErr, Err, if◌then◌else◌, ◌==◌, List, take, drop};
ghost use Rattle.ov_host.specs.Extent.{pages_of};
ghost use Rattle.ov_host.specs.Disk.{Disk};
ghost use Rattle.ov_host.specs.Stops.{Only};
ghost use Rattle.ov_host.specs.Host.{Calls, bytes_of};
ghost use Rattle.ov_host.specs.Tape.{Writes, overwritten};
ghost use Rattle.ov_pages.specs.Sets.{IsLowestRun, IsRefused, IsReservedRun, IsWithRun, IsWithoutRun, IsHighest};
ghost use Rattle.ov_pages.specs.Live.{AreReserved};
ghost use Rattle.ov_pages.specs.Answers.{IsCause};
ghost use Rattle.ov_pages.specs.Writes.{Grows, StaysOff, AreFree};

use crate::edges::{lowest_run, turn_run};
use crate::errors::{PageErr, PagesErr};
use crate::live::{edges_of, first_too_high, sorted_runs};
use ov_host::{Area, Extent, Failed, Host, RUN_LIMIT};
use std::alloc::Global;
use std::marker::Model;

/// The bytes of a page.
const PAGE_BYTES: u64 = ov_host::PAGE_BYTES as u64;

/// Which pages below 2^22 are reserved. It is kept as the runs of successive reserved pages, so that its size
/// and the time of each call go by the number of runs. Contracts see the reserved pages, ascending, and the
/// room: how many extents can still be freed. Each extent that is reserved makes room to free one, so freeing
/// takes no memory.
#[derive(Drop)]
pub struct Pages {
    edges: Vec<u32>,
    room: usize,
}

impl Model for Pages {
    ghost use Rattle.std.specs.Prelude.{◌+◌, ◌*◌, ◌≤◌, length, vec_capacity};
    ghost use Rattle.ov_pages.specs.Sets.{Reserved};
    ghost use Rattle.ov_pages.specs.Edges.{AreEdges, pages_between};

    ghost Value = { Reserved };

    ghost view = { λ p. record { pages = pages_between p.edges.items; room = p.room } };

    ghost invariant = { λ p. AreEdges p.edges.items × (length p.edges.items + 2 * p.room ≤ vec_capacity p.edges) };
}

impl Pages {
    /// The pages of these extents, reserved, with room to free each extent that covers a page. `TooHigh` with
    /// the first page of the first extent that passes page 2^22, else `Overlap` with the least page that two
    /// of them cover.
    pub fn of(alloc: Global, live: &[Extent]) -> Result<Pages, PagesErr>
        ensures reserved { IfOk result (AreReserved live.now) }
        ensures cause { IfErr result (IsCause live.now) }
    {
        if let Some(page) = first_too_high(live) {
            return Err(PagesErr::TooHigh { page });
        }
        let runs = sorted_runs(alloc, live)?;
        let edges = edges_of(alloc, &runs)?;
        Ok(Pages {
            edges,
            room: runs.len(),
        })
    }

    /// Reserves the lowest free run of `n` pages, and answers its first page. `Full` where no run of so many
    /// pages is free, or `n` is 2^20 or more.
    pub fn reserve(&mut self, n: u32) -> Result<u32, PageErr>
        requires { 1 ≤ n }
        ensures lowest { IfOk result (IsLowestRun self.old.pages n) }
        ensures at_most { IfOk result (λ first. (end : ℕ) → IsHighest self.old.pages end → first ≤ end) }
        ensures grown { IfOk result (λ first. IsWithRun self.old.pages self.new.pages first n) }
        ensures room { OnOk result (self.new.room ≡ self.old.room + 1) }
        ensures full { (result ≡ Err PageErr.Full) ↔ IsRefused self.old.pages n }
        ensures unchanged { OnErr result (self.new ≡ self.old) }
    {
        if n >= RUN_LIMIT {
            return Err(PageErr::Full);
        }
        let Some(first) = lowest_run(&self.edges, n) else {
            return Err(PageErr::Full);
        };
        self.edges.reserve(2 * self.room + 4)?;
        turn_run(&mut self.edges, first, first + n);
        self.room += 1;
        Ok(first)
    }

    /// Gives an extent's pages back.
    pub fn free(&mut self, extent: Extent)
        requires reserved { IsReservedRun self.old.pages (pages_of extent) extent.page }
        requires room { 0 < pages_of extent → 0 < self.old.room }
        ensures gone { IsWithoutRun self.old.pages self.new.pages extent.page (pages_of extent) }
        ensures room { self.new.room ≡ (if pages_of extent == 0 then self.old.room else self.old.room - 1) }
    {
        let pages = extent.pages();
        if pages > 0 {
            turn_run(&mut self.edges, extent.page, extent.page + pages);
            self.room -= 1;
        }
    }

    /// One past the highest reserved page, 0 where none is.
    pub fn highest(&self) -> u32
        ensures { IsHighest self.now.pages result }
    {
        self.edges.last().copied().unwrap_or(0)
    }

    /// Writes a whole number of reserved pages, from this page on, by one write. At `Ok` the page area holds
    /// these bytes there; at `Failed` any bytes may be there.
    pub fn put<H: Host>(&self, host: &mut H, page: u32, bytes: &[u8]) -> Result<(), Failed>
        requires whole { length bytes.now % 4096 ≡ 0 }
        requires reserved { IsReservedRun self.now.pages (length bytes.now / 4096) page }
        requires there { (H.state host.old).tells ≡ true → 4096 * page ≤ length (bytes_of Area.Pages (H.state host.old)) }
        ensures call { Calls (Writes Area.Pages (4096 * page) bytes.now) (is_ok result) (H.state host.old) (H.state host.new) }
        ensures fetched { (H.state host.new).fetched ≡ (H.state host.old).fetched }
        ensures written { OnOk result ((H.state host.old).tells ≡ true → bytes_of Area.Pages (H.state host.new) ≡ overwritten (bytes_of Area.Pages (H.state host.old)) (4096 * page) bytes.now) }
        ensures reads_back { OnOk result ((H.state host.old).tells ≡ true → take (length bytes.now) (drop (4096 * page) (bytes_of Area.Pages (H.state host.new))) ≡ bytes.now) }

        // Writes to free pages compose: from a disk with nothing pending in its page area, each keeps to the same
        // free ranges, and so does what a stop leaves.
        ensures stops { (H.state host.old).tells ≡ true → (free : List (ℕ × ℕ)) (d : Disk) → Grows free d (H.state host.old).tape.disk → AreFree free (4096 * page) (length bytes.now) → Only (H.state host.old).tape (H.state host.new).tape (StaysOff free d) }
        ensures grows { OnOk result ((H.state host.old).tells ≡ true → (free : List (ℕ × ℕ)) (d : Disk) → Grows free d (H.state host.old).tape.disk → AreFree free (4096 * page) (length bytes.now) → Grows free d (H.state host.new).tape.disk) }
    {
        host.write(Area::Pages, u64::from(page) * PAGE_BYTES, bytes)
    }
}
