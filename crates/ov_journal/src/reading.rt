// Reading the records of a half, one after the other.
ghost use Rattle.std.specs.Prelude.{◌≡◌, ◌<◌, ◌≤◌, ◌+◌, ◌^◌, List, ℕ, true, length, take, drop, vec_len, Option, Some, None, Result, IfOk, IfSome, IfErr, IsErrOf, MatchOption, OnOk};
ghost use Rattle.ov_host.specs.Host.{Rose, bytes_of};
ghost use Rattle.ov_journal.specs.Ahead.{IsOf};
ghost use Rattle.ov_journal.specs.Reading.{Looked, IsOutside, RecordIs, RecordsAre};

use crate::ahead::{Ahead, PIECE_BYTES};
use crate::errors::JournalErr;
use crate::header::{OPEN, number_at};
use crate::payloads::{Payload, Payloads};
use ov_host::{Area, Host};
use std::alloc::{AllocError, Global};

// The bytes before a record's payload: its gate, and the payload's length.
pub const FRONT_BYTES: u64 = 5;

// So many bytes, to read into.
fn room(alloc: Global, size: usize) -> Result<Vec<u8>, AllocError>
    requires { size ≤ 65536 }
    ensures { IfOk result (λ buffer. vec_len buffer ≡ size) }
{
    vec![in alloc; 0u8; size]
}

// So many bytes of the journal from a place on, by pieces. `None` where the host gave fewer.
fn read_bytes<H: Host>(
    alloc: Global,
    host: &mut H,
    at: u64,
    count: usize,
) -> Result<Option<Vec<u8>>, JournalErr>
    requires { at + count < 2 ^ 28 }
    ensures looked { Looked (H.state host.old) (H.state host.new) }
    ensures cause { IsErrOf result JournalErr.Host → Rose (H.state host.old).faults (H.state host.new).faults }
    ensures kind { IfErr result (λ e. IsOutside e) }
    ensures size { IfOk result (λ read. IfSome read (λ bytes. vec_len bytes ≡ count)) }
    ensures bytes { (H.state host.old).tells ≡ true → at + count ≤ length (bytes_of Area.Journal (H.state host.old))
        → IfOk result (λ read. MatchOption read ⊥ (λ bytes. bytes.items ≡ take count (drop at (bytes_of Area.Journal (H.state host.old))))) }
{
    let mut bytes = Vec::with_capacity(alloc, count)?;
    let mut piece = room(alloc, count.min(PIECE_BYTES))?;
    while bytes.len() < count {
        // The last piece may be shorter.
        piece.truncate(count - bytes.len());
        let given = host.read(Area::Journal, at + bytes.len() as u64, &mut piece)?;
        if given < piece.len() {
            return Ok(None);
        }
        bytes.extend_from_slice(&piece)?;
    }
    Ok(Some(bytes))
}

// So many bytes of the journal from a place on, out of those that were read ahead where they are not more than a piece. `None`
// where the host gave fewer.
fn read_payload<H: Host>(
    alloc: Global,
    host: &mut H,
    ahead: &mut Ahead,
    at: u64,
    count: usize,
) -> Result<Option<Vec<u8>>, JournalErr>
    requires small { at + count < 2 ^ 28 }
    requires known { (H.state host.old).tells ≡ true → IsOf (bytes_of Area.Journal (H.state host.old)) ahead.old }
    ensures looked { Looked (H.state host.old) (H.state host.new) }
    ensures cause { IsErrOf result JournalErr.Host → Rose (H.state host.old).faults (H.state host.new).faults }
    ensures kind { IfErr result (λ e. IsOutside e) }
    ensures size { IfOk result (λ read. IfSome read (λ bytes. vec_len bytes ≡ count)) }
    ensures known { (H.state host.old).tells ≡ true → OnOk result (IsOf (bytes_of Area.Journal (H.state host.old)) ahead.new) }
    ensures bytes { (H.state host.old).tells ≡ true → at + count ≤ length (bytes_of Area.Journal (H.state host.old))
        → IfOk result (λ read. MatchOption read ⊥ (λ bytes. bytes.items ≡ take count (drop at (bytes_of Area.Journal (H.state host.old))))) }
{
    if count > PIECE_BYTES {
        return read_bytes(alloc, host, at, count);
    }
    ahead.reach(host, at, count)?;
    let held = ahead.behind(at);
    if held.len() < count {
        return Ok(None);
    }
    let mut bytes = Vec::with_capacity(alloc, count)?;
    bytes.extend_from_slice(&held[..count])?;
    Ok(Some(bytes))
}

// The payload of the record whose gate is at this place, or `None` where that gate is closed. The journal ends at `end`.
fn read_record<H: Host>(
    alloc: Global,
    host: &mut H,
    ahead: &mut Ahead,
    at: u64,
    end: u64,
) -> Result<Option<Payload>, JournalErr>
    requires before { at < end }
    requires small { end ≤ 2 ^ 28 }
    requires known { (H.state host.old).tells ≡ true → IsOf (bytes_of Area.Journal (H.state host.old)) ahead.old }
    ensures looked { Looked (H.state host.old) (H.state host.new) }
    ensures cause { IsErrOf result JournalErr.Host → Rose (H.state host.old).faults (H.state host.new).faults }
    ensures within { IfOk result (λ read. IfSome read (λ payload. at + 5 + length payload < end)) }
    ensures known { (H.state host.old).tells ≡ true → OnOk result (IsOf (bytes_of Area.Journal (H.state host.old)) ahead.new) }
    ensures bytes { (H.state host.old).tells ≡ true → end ≤ length (bytes_of Area.Journal (H.state host.old))
        → RecordIs at end (drop at (bytes_of Area.Journal (H.state host.old))) result }
{
    ahead.reach(host, at, FRONT_BYTES as usize)?;
    let front = ahead.behind(at);
    if front.is_empty() || front[0] != OPEN {
        return Ok(None);
    }
    // Where the host gives fewer bytes than it said there are, the record passes what can be read.
    if end - at <= FRONT_BYTES || front.len() < FRONT_BYTES as usize {
        return Err(JournalErr::Damaged { at });
    }
    let count = number_at(front, 1);
    if end - at - FRONT_BYTES <= u64::from(count) {
        return Err(JournalErr::Damaged { at });
    }
    match read_payload(alloc, host, ahead, at + FRONT_BYTES, count as usize)? {
        Some(bytes) => Ok(Some(Payload::new(bytes))),
        None => Err(JournalErr::Damaged { at }),
    }
}

// The payloads of the records from a place on, up to the first closed gate, and the place of that gate. The journal ends
// at `end`.
pub fn read_records<H: Host>(
    alloc: Global,
    host: &mut H,
    start: u64,
    end: u64,
) -> Result<(u64, Payloads), JournalErr>
    requires before { start < end }
    requires small { end ≤ 2 ^ 28 }
    ensures looked { Looked (H.state host.old) (H.state host.new) }
    ensures cause { IsErrOf result JournalErr.Host → Rose (H.state host.old).faults (H.state host.new).faults }
    ensures from { IfOk result (λ read. start ≤ read.0) }
    ensures within { IfOk result (λ read. read.0 < end) }
    ensures bytes { (H.state host.old).tells ≡ true → end ≤ length (bytes_of Area.Journal (H.state host.old))
        → RecordsAre start end (bytes_of Area.Journal (H.state host.old)) result }
{
    let mut payloads = Vec::new(alloc);
    let mut ahead = Ahead::new(alloc)?;
    let mut at = start;
    while let Some(payload) = read_record(alloc, host, &mut ahead, at, end)? {
        at += FRONT_BYTES + payload.as_slice().len() as u64;
        payloads.push(payload)?;
    }
    Ok((at, Payloads::new(payloads)))
}
