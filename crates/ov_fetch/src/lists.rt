//! Lists of rids, from their extents.

ghost use Rattle.std.specs.Prelude.{◌≡◌, ◌+◌, ◌≤◌, true, length, vec_len, IfOk, IsErrOf, MatchResult};
ghost use Rattle.ov_host.specs.Host.{Rose};
ghost use Rattle.ov_member.specs.Rids.{AreRids};
ghost use Rattle.ov_fetch.specs.Extents.{Looked, page_bytes, extent_bytes, IsWhole, IsList, RefusesList, RefusesExtent};

use crate::errors::FetchErr;
use ov_host::{Extent, Host};
use ov_member::{Members, read_list};
use ov_pages::get;
use std::alloc::{AllocError, Global};

/// The most bytes that are read at once.
pub(crate) const PIECE_BYTES: usize = 65_536;

/// The rids of a list. `Damaged` with the list's first page exactly where the list is short, as the page area ends
/// before it, or its bytes are no list.
pub fn list_of<H: Host>(alloc: Global, host: &mut H, list: Extent) -> Result<Members, FetchErr>
    ensures looked { Looked (H.state host.old) (H.state host.new) }
    ensures cause { IsErrOf result FetchErr.Host → Rose (H.state host.old).faults (H.state host.new).faults }
    ensures fetched { (H.state host.new).fetched ≤ (H.state host.old).fetched + list.bytes }
    ensures set { IfOk result AreRids }
    ensures answer { (H.state host.old).tells ≡ true → MatchResult result
        (IsList (page_bytes (H.state host.old)) list)
        (λ e. RefusesList e (page_bytes (H.state host.old)) list) }
{
    let bytes = read_extent(alloc, host, list)?;
    match read_list(alloc, bytes.as_slice())? {
        Some(members) => Ok(members),
        None => Err(FetchErr::Damaged { page: list.page }),
    }
}

// All bytes of an extent.
fn read_extent<H: Host>(alloc: Global, host: &mut H, extent: Extent) -> Result<Vec<u8>, FetchErr>
    ensures looked { Looked (H.state host.old) (H.state host.new) }
    ensures cause { IsErrOf result FetchErr.Host → Rose (H.state host.old).faults (H.state host.new).faults }
    ensures fetched { (H.state host.new).fetched ≤ (H.state host.old).fetched + extent.bytes }
    ensures answer { (H.state host.old).tells ≡ true → MatchResult result
        (λ bytes. IsWhole (page_bytes (H.state host.old)) extent
        × (bytes.items ≡ extent_bytes (page_bytes (H.state host.old)) extent))
        (λ e. RefusesExtent e (page_bytes (H.state host.old)) extent) }
{
    let mut bytes = Vec::new(alloc);
    let mut piece = room(alloc, PIECE_BYTES.min(extent.bytes as usize))?;
    while bytes.len() < extent.bytes as usize {
        let got = get(host, extent, bytes.len() as u32, &mut piece)?;
        if got == 0 {
            return Err(FetchErr::Damaged { page: extent.page });
        }
        bytes.extend_from_slice(&piece[..got])?;
    }
    Ok(bytes)
}

/// So many bytes, to read into.
pub(crate) fn room(alloc: Global, size: usize) -> Result<Vec<u8>, AllocError>
    requires { size ≤ 65536 }
    ensures { IfOk result (λ piece. vec_len piece ≡ size) }
{
    vec![in alloc; 0u8; size]
}
