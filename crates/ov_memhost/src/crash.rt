// The host that a stop leaves.
ghost use Rattle.std.specs.Prelude.{◌≡◌, ℕ, ◌<◌, ◌≤◌, ◌-◌, ◌^◌, length, IfOk, slice_index};

use crate::areas::Areas;
use crate::host::MemHost;
use crate::pending::Pending;
use crate::replica::Replica;
use std::alloc::AllocError;

impl MemHost {
    ghost use Rattle.ov_host.specs.Tape.{left_since};
    ghost use Rattle.ov_memhost.specs.Host.{state_of, kept_by, start_of, image_of, IsNew};
    ghost use Rattle.ov_memhost.specs.Picked.{IsNamed};
    ghost use Rattle.ov_memhost.specs.Replica.{disk_of};
    ghost use Rattle.ov_memhost.specs.Stopped.{stopped, StopIn, moments_before};

    /// The host that a stop within the call of this number leaves, or a stop after the last call where the number is that
    /// of the calls.
    ///
    /// Each length is brought into the range of those that the stop may leave. The doubtful bytes, ascending and those of
    /// the pages first, are the bytes of `pick`, which begins again at its end. A print that is stopped has printed the
    /// first `pick[0]` of its bytes, or all where it has fewer. The new host has nothing pending, an empty list of failing
    /// calls, and has seen no calls.
    pub fn crash_at(
        &self,
        call: u64,
        pages: u64,
        journal: u64,
        pick: &[u8],
    ) -> Result<MemHost, AllocError>
        requires call { call ≤ self.now.counts.calls }
        requires some { 0 < length pick.now }
        ensures named { IfOk result (λ host. IsNamed (stopped (kept_by self.now) call (slice_index pick.now 0) (start_of self.now))
            pages journal pick.now (image_of host)) }
        ensures last { call ≡ self.now.counts.calls → call < 2 ^ 64 - 1
            → IfOk result (λ host. IsNamed (state_of self.now).tape.disk pages journal pick.now (image_of host)) }
        ensures stop { IfOk result (λ host. StopIn (kept_by self.now) call (start_of self.now) (image_of host)) }
        ensures left { IfOk result (λ host. (moment : ℕ) → moment ≤ moments_before (kept_by self.now) call
            → left_since (state_of self.now).tape moment (image_of host)) }
        ensures fresh { IfOk result (λ host. IsNew (image_of host) host) }
    {
        let alloc = self.alloc;
        let mut disk = self.start()?;
        disk.stop(self.history.past(), call, pick[0])?;
        let pages = disk.pages.left(alloc, pages, pick, 0)?;
        let journal = disk.journal.left(alloc, journal, pick, pages.next)?;
        let areas = Areas::new(pages.bytes, journal.bytes);
        Ok(MemHost::settled(alloc, areas, disk.printed, Vec::new(alloc)))
    }

    // The disk when the host was made.
    fn start(&self) -> Result<Replica, AllocError>
        ensures { IfOk result (λ disk. disk_of disk ≡ start_of self.now) }
    {
        let areas = self.history.start(self.alloc, &self.areas)?;
        Ok(Replica {
            pages: Pending::new(self.alloc, areas.pages),
            journal: Pending::new(self.alloc, areas.journal),
            printed: Vec::from_slice(self.alloc, &self.printed.as_slice()[..self.before])?,
        })
    }
}
