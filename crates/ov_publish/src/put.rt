// Writes to the page area.
ghost use Rattle.std.specs.Prelude.{◌≡◌, ◌<◌, ◌≤◌, ◌+◌, ◌-◌, ◌*◌, ◌^◌, true, [], ◌∷◌, length, is_ok, IsErr, OnOk};
ghost use Rattle.ov_host.specs.Disk.{with_area, settled};
ghost use Rattle.ov_host.specs.Host.{Calls, Rose, bytes_of};
ghost use Rattle.ov_host.specs.Stops.{Only};
ghost use Rattle.ov_host.specs.Tape.{Writes, overwritten};
ghost use Rattle.ov_journal.specs.Held.{Passes};
ghost use Rattle.ov_publish.specs.Pages.{padded, filled, range_of, whole_pages, with_run, zeros};
ghost use Rattle.ov_publish.specs.Puts.{Puts, PagesAtRest, StaysOff};
ghost use Rattle.ov_publish.specs.Steps.{with_runs, ranges_of};

use crate::run::Run;
use ov_host::{Area, Failed, Host};

const PAGE: usize = ov_host::PAGE_BYTES as usize;

// Writes zeros, at most a page of them.
fn write_zeros<H: Host>(host: &mut H, at: u64, count: usize) -> Result<(), Failed>
    requires few { count ≤ 4096 }
    requires within { (H.state host.old).tells ≡ true → at ≤ length (bytes_of Area.Pages (H.state host.old)) }
    ensures call { Calls (Writes Area.Pages at (zeros count)) (is_ok result) (H.state host.old) (H.state host.new) }
    ensures fetched { (H.state host.new).fetched ≡ (H.state host.old).fetched }
{
    let zeros = [0u8; PAGE];
    host.write(Area::Pages, at, &zeros[..count])
}

// Fills the area up to a place by zeros, where it ends before it.
fn fill_up_to<H: Host>(host: &mut H, at: u64) -> Result<(), Failed>
    ensures puts { Puts [] (H.state host.old) (H.state host.new) }
    ensures cause { IsErr result → Rose (H.state host.old).faults (H.state host.new).faults }
    ensures pages { (H.state host.old).tells ≡ true → OnOk result (bytes_of Area.Pages (H.state host.new)
        ≡ filled at (bytes_of Area.Pages (H.state host.old))) }
{
    let mut end = host.len(Area::Pages)?;
    while end < at {
        let count = (at - end).min(PAGE as u64);
        write_zeros(host, end, count as usize)?;
        end += count;
    }
    Ok(())
}

// Writes bytes, and zeros behind them up to the end of the page.
fn write_padded<H: Host>(host: &mut H, at: u64, bytes: &[u8]) -> Result<(), Failed>
    requires within { (H.state host.old).tells ≡ true → at ≤ length (bytes_of Area.Pages (H.state host.old)) }
    requires size { length bytes.now < 2 ^ 32 }
    requires low { at < 2 ^ 44 }
    ensures puts { Puts ((at, at + whole_pages (length bytes.now)) ∷ []) (H.state host.old) (H.state host.new) }
    ensures cause { IsErr result → Rose (H.state host.old).faults (H.state host.new).faults }
    ensures pages { (H.state host.old).tells ≡ true → OnOk result (bytes_of Area.Pages (H.state host.new)
        ≡ overwritten (bytes_of Area.Pages (H.state host.old)) at (padded bytes.now)) }
{
    let size = bytes.len();
    host.write(Area::Pages, at, bytes)?;
    write_zeros(host, at + size as u64, size.div_ceil(PAGE) * PAGE - size)?;
    Ok(())
}

// Writes one run.
fn put<H: Host>(host: &mut H, run: Run) -> Result<(), Failed>
    requires { length run.bytes.now < 2 ^ 32 }
    ensures puts { Puts (range_of run.entry.page run.entry.bytes.now ∷ []) (H.state host.old) (H.state host.new) }
    ensures cause { IsErr result → Rose (H.state host.old).faults (H.state host.new).faults }
    ensures pages { (H.state host.old).tells ≡ true → OnOk result (bytes_of Area.Pages (H.state host.new)
        ≡ with_run run.entry.page run.entry.bytes.now (bytes_of Area.Pages (H.state host.old))) }
{
    if run.bytes.is_empty() {
        return Ok(());
    }
    let at = u64::from(run.page) * PAGE as u64;
    fill_up_to(host, at)?;
    write_padded(host, at, run.bytes)
}

// Writes both runs, and settles the page area.
pub fn put_both<H: Host>(host: &mut H, list: Run, segment: Run) -> Result<(), Failed>
    requires list { length list.bytes.now < 2 ^ 32 }
    requires segment { length segment.bytes.now < 2 ^ 32 }
    ensures passes { Passes (H.state host.old) (H.state host.new) }
    ensures cause { IsErr result → Rose (H.state host.old).faults (H.state host.new).faults }
    ensures stops { PagesAtRest (H.state host.old) → Only (H.state host.old).tape (H.state host.new).tape
        (StaysOff (ranges_of list.entry segment.entry) (H.state host.old).tape.disk) }
    ensures done { (H.state host.old).tells ≡ true → OnOk result ((H.state host.new).tape.disk
        ≡ with_area Area.Pages (settled (with_runs list.entry segment.entry (bytes_of Area.Pages (H.state host.old)))) (H.state host.old).tape.disk) }
{
    put(host, list)?;
    put(host, segment)?;
    host.sync(Area::Pages)
}
