// Opening a journal.
ghost use Rattle.std.specs.Prelude.{◌≡◌, ◌≢◌, ◌<◌, ◌≤◌, ◌⊎◌, [], true, false, length, take, IsErr, IfOk, OnOk, IsErrOf, MatchResult, slice_index};
ghost use Rattle.ov_host.specs.Disk.{MayLeave};
ghost use Rattle.ov_host.specs.Host.{Rose, bytes_of};
ghost use Rattle.ov_host.specs.Stops.{Only};
ghost use Rattle.ov_journal.specs.Journal.{IsUnmade, MayBeMade};
ghost use Rattle.ov_journal.specs.Held.{Passes, AtRest, IsAt, IsUnmadeOrNew};
ghost use Rattle.ov_journal.specs.Opened.{Loads, IsBegun, NotBegun, IsSettled, ArePagesSettled, HasStood, IsMade, Refuses, IsLeftByOpen};
ghost use Rattle.ov_journal.specs.Reading.{Looked};

use crate::errors::JournalErr;
use crate::header::{HEADER_BYTES, OPEN, live_of};
use crate::journal::{JOURNAL_BYTES, Journal};
use crate::making::make;
use crate::payloads::Payloads;
use crate::reading::read_records;
use ov_host::{Area, Failed, Host};
use std::alloc::Global;

// The bytes of a header, and the first record's gate behind it.
const LEAST_BYTES: u64 = 39;

// Syncs both areas.
fn settle<H: Host>(host: &mut H) -> Result<(), Failed>
    ensures passes { Passes (H.state host.old) (H.state host.new) }
    ensures cause { IsErr result → Rose (H.state host.old).faults (H.state host.new).faults }
    ensures stops { (H.state host.old).tells ≡ true → Only (H.state host.old).tape (H.state host.new).tape
        (MayLeave (H.state host.old).tape.disk) }
    ensures settled { (H.state host.old).tells ≡ true → OnOk result (IsSettled (H.state host.old).tape.disk (H.state host.new).tape.disk) }
{
    host.sync(Area::Pages)?;
    host.sync(Area::Journal)?;
    Ok(())
}

// Whether a journal of this size in bytes, with this first byte, is unmade.
fn is_unmade(size: u64, first: u8) -> bool
    ensures unmade { result ≡ true → (size < 39) ⊎ ((size ≡ 39) × (first ≢ 165)) }
    ensures made { result ≡ false → (39 < size) ⊎ ((size ≡ 39) × (first ≡ 165)) }
{
    size < LEAST_BYTES || (size == LEAST_BYTES && first != OPEN)
}

// The size of the journal's area in bytes, and its first 39 bytes, where there are as many.
fn look<H: Host>(host: &mut H) -> Result<(u64, [u8; LEAST_BYTES as usize]), Failed>
    ensures looked { Looked (H.state host.old) (H.state host.new) }
    ensures cause { IsErr result → Rose (H.state host.old).faults (H.state host.new).faults }
    ensures size { (H.state host.old).tells ≡ true → IfOk result (λ seen. seen.0 ≡ length (bytes_of Area.Journal (H.state host.old))) }
    ensures head { (H.state host.old).tells ≡ true → 39 ≤ length (bytes_of Area.Journal (H.state host.old))
        → IfOk result (λ seen. seen.1 ≡ take 39 (bytes_of Area.Journal (H.state host.old))) }
{
    let size = host.len(Area::Journal)?;
    let mut head = [0u8; LEAST_BYTES as usize];
    host.read(Area::Journal, 0, &mut head)?;
    Ok((size, head))
}

// Reads a journal that isn't unmade, of this size in bytes, by its header.
fn load<H: Host>(
    alloc: Global,
    host: &mut H,
    head: &[u8],
    size: u64,
) -> Result<(Journal, Payloads), JournalErr>
    requires header { length head.now ≡ 38 }
    requires there { (H.state host.old).tells ≡ true → head.now ≡ take 38 (bytes_of Area.Journal (H.state host.old)) }
    requires sized { (H.state host.old).tells ≡ true → size ≡ length (bytes_of Area.Journal (H.state host.old)) }
    requires made { (H.state host.old).tells ≡ true → MayBeMade (bytes_of Area.Journal (H.state host.old)) }
    ensures looked { Looked (H.state host.old) (H.state host.new) }
    ensures cause { IsErrOf result JournalErr.Host → Rose (H.state host.old).faults (H.state host.new).faults }
    ensures answer { (H.state host.old).tells ≡ true → Loads result (bytes_of Area.Journal (H.state host.old)) }
{
    let live = live_of(head)?;
    let end = size.min(JOURNAL_BYTES);
    let start = u64::from(live.start);
    if live.start < HEADER_BYTES as u32 || end <= start {
        return Err(JournalErr::Damaged {
            at: live.side.place() as u64,
        });
    }
    let (gate, payloads) = read_records(alloc, host, start, end)?;
    Ok((Journal::at(gate, live), payloads))
}

// Makes a journal where it is unmade, of this size in bytes, and the page area is empty.
fn begin<H: Host>(alloc: Global, host: &mut H, size: u64) -> Result<(Journal, Payloads), JournalErr>
    requires { (H.state host.old).tells ≡ true → (size ≡ length (bytes_of Area.Journal (H.state host.old)))
        × IsUnmade (bytes_of Area.Journal (H.state host.old)) }
    ensures passes { Passes (H.state host.old) (H.state host.new) }
    ensures cause { IsErrOf result JournalErr.Host → Rose (H.state host.old).faults (H.state host.new).faults }
    ensures stops { AtRest (H.state host.old) → Only (H.state host.old).tape (H.state host.new).tape
        (IsUnmadeOrNew (H.state host.old).tape.disk) }
    ensures answer { AtRest (H.state host.old) → MatchResult result
        (λ read. IsBegun (H.state host.old) (H.state host.new) read.0 read.1)
        (λ e. NotBegun e (H.state host.old) (H.state host.new)) }
{
    if host.len(Area::Pages)? != 0 {
        return Err(JournalErr::NotAStore);
    }
    let journal = make(host, size)?;
    Ok((journal, Payloads::new(Vec::new(alloc))))
}

impl Journal {
    /// Opens the journal of a host, and gives the payloads of its records. Both areas are synced first.
    ///
    /// Where no journal was made yet and the page area is empty, one is made: its header without records. A stop before that
    /// header's gate is open leaves the journal unmade. All other refusals are over the bytes as they read, in this order:
    /// `NotAStore`, `Format` for the live slot's number, `Damaged` at the live slot whose start is out of range, and `Damaged`
    /// at the first record that passes the journal's end. At any of them nothing but the syncs was done.
    pub fn open<H: Host>(alloc: Global, host: &mut H) -> Result<(Journal, Payloads), JournalErr>
        ensures passes { Passes (H.state host.old) (H.state host.new) }
        ensures cause { IsErrOf result JournalErr.Host → Rose (H.state host.old).faults (H.state host.new).faults }
        ensures stops { (H.state host.old).tells ≡ true → Only (H.state host.old).tape (H.state host.new).tape
            (IsLeftByOpen (H.state host.old).tape.disk) }
        ensures answer { (H.state host.old).tells ≡ true → MatchResult result
            (λ read. HasStood (H.state host.old).tape.disk (H.state host.new).tape.disk read.0 read.1
            ⊎ IsMade (H.state host.old).tape.disk read.0 read.1)
            (λ e. Refuses e (H.state host.old).tape.disk (H.state host.new).tape.disk) }
        ensures done { (H.state host.old).tells ≡ true → IfOk result (λ read. IsAt read.1 read.0 (H.state host.new)) }
        ensures settled { (H.state host.old).tells ≡ true → OnOk result (ArePagesSettled (H.state host.old).tape.disk (H.state host.new).tape.disk) }
        ensures room { (H.state host.old).tells ≡ true → IfOk result (λ read.
            read.0.end < length (bytes_of Area.Journal (H.state host.new))) }
    {
        settle(host)?;
        let (size, head) = look(host)?;
        if is_unmade(size, head[0]) {
            return begin(alloc, host, size);
        }
        let (header, _) = head.split_at(HEADER_BYTES);
        load(alloc, host, header, size)
    }
}
