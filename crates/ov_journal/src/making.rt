// A new journal.
ghost use Rattle.std.specs.Prelude.{◌≡◌, ◌<◌, ◌≤◌, [], true, length, IsErr, IfOk, OnOk};
ghost use Rattle.ov_host.specs.Host.{State, Rose, bytes_of};
ghost use Rattle.ov_host.specs.Stops.{Only};
ghost use Rattle.ov_journal.specs.Journal.{IsUnmade};
ghost use Rattle.ov_journal.specs.Held.{Passes, AtRest, IsAt, IsUnmadeOrNew, IsClosed, SameButJournal};
ghost use Rattle.ov_journal.specs.Opened.{new_numbers};

use crate::header::{Live, OPEN, Side};
use crate::journal::Journal;
use crate::writing::write_synced;
use ov_host::{Area, Failed, Host};

// What stands behind the header's gate of a new journal: the text, slot 0 (open, epoch 1, start 38, format number 2),
// slot 1, and the first record's gate.
const BEHIND_GATE: [u8; 38] = [
    b'o', b'r', b'p', b'h', b'e', b'u', b's', b'-', b'c', b'v', b'd', 0xA5, 0, 0, 0, 1, 0, 0, 0,
    38, 0, 0, 0, 2, 0, 0, 0, 0, 0, 0, 0, 0, 0, 0, 0, 0, 0, 0,
];

// Writes a closed gate where there are too few bytes for a header.
fn close<H: Host>(host: &mut H, size: u64) -> Result<(), Failed>
    requires { (H.state host.old).tells ≡ true → (size ≡ length (bytes_of Area.Journal (H.state host.old)))
        × IsUnmade (bytes_of Area.Journal (H.state host.old)) }
    ensures passes { Passes (H.state host.old) (H.state host.new) }
    ensures cause { IsErr result → Rose (H.state host.old).faults (H.state host.new).faults }
    ensures room { (H.state host.old).tells ≡ true → OnOk result (1 ≤ length (bytes_of Area.Journal (H.state host.new))) }
    ensures stops { AtRest (H.state host.old) → Only (H.state host.old).tape (H.state host.new).tape
        (IsUnmadeOrNew (H.state host.old).tape.disk) }
    ensures done { AtRest (H.state host.old) → OnOk result (IsClosed (H.state host.new)) }
    ensures same { AtRest (H.state host.old) → OnOk result (SameButJournal (H.state host.old).tape.disk (H.state host.new).tape.disk) }
{
    if size < 39 {
        write_synced(host, 0, &[0])?;
    }
    Ok(())
}

/// Makes the header of a journal that is unmade, of this size in bytes.
///
/// Its gate is opened last, once all that stands behind it is settled: until then the journal is unmade at any stop.
pub fn make<H: Host>(host: &mut H, size: u64) -> Result<Journal, Failed>
    requires { (H.state host.old).tells ≡ true → (size ≡ length (bytes_of Area.Journal (H.state host.old)))
        × IsUnmade (bytes_of Area.Journal (H.state host.old)) }
    ensures passes { Passes (H.state host.old) (H.state host.new) }
    ensures cause { IsErr result → Rose (H.state host.old).faults (H.state host.new).faults }
    ensures stops { AtRest (H.state host.old) → Only (H.state host.old).tape (H.state host.new).tape
        (IsUnmadeOrNew (H.state host.old).tape.disk) }
    ensures done { AtRest (H.state host.old) → OnOk result (IsAt [] new_numbers (H.state host.new)) }
    ensures numbers { IfOk result (λ journal. journal ≡ new_numbers) }
    ensures same { AtRest (H.state host.old) → OnOk result (SameButJournal (H.state host.old).tape.disk (H.state host.new).tape.disk) }
{
    close(host, size)?;
    write_synced(host, 1, &BEHIND_GATE)?;
    write_synced(host, 0, &[OPEN])?;
    let live = Live {
        side: Side::First,
        epoch: 1,
        start: 38,
        format: 2,
        spare_open: false,
    };
    Ok(Journal::at(38, live))
}
