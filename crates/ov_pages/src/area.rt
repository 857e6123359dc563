//! Bytes of extents, as the host has them.

ghost use Rattle.std.specs.Prelude.{◌≡◌, ℕ, ◌≤◌, true, length, is_ok, IfOk};
ghost use Rattle.ov_host.specs.Host.{Calls, fetched_by, gave};
ghost use Rattle.ov_host.specs.Tape.{Looks};
ghost use Rattle.ov_pages.specs.Area.{Fetches, room_at};

use ov_host::{Area, Extent, Failed, Host};

/// Reads bytes of an extent from `from` on by one read, up to the end of the extent, of the buffer or of the
/// page area, and answers how many it got.
pub fn get<H: Host>(
    host: &mut H,
    extent: Extent,
    from: u32,
    buf: &mut [u8],
) -> Result<usize, Failed>
    requires within { from ≤ extent.bytes }
    requires buffer { length buf.old ≤ 65536 }
    ensures call { Calls Looks (is_ok result) (H.state host.old) (H.state host.new) }
    ensures fetched { (H.state host.new).fetched ≡ fetched_by Area.Pages (is_ok result) (gave result) (H.state host.old).fetched }
    ensures at_most { IfOk result (λ n. n ≤ room_at extent from (length buf.old)) }
    ensures bytes { IfOk result (λ n. (H.state host.old).tells ≡ true → Fetches extent from n (H.state host.old) buf.old buf.new) }
{
    let left = (extent.bytes - from) as usize;
    let room = buf.len().min(left);
    let at = u64::from(extent.page) * 4096 + u64::from(from);
    host.read(Area::Pages, at, &mut buf[..room])
}
