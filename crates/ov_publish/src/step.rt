// A record that names runs, and the runs before it.
ghost use Rattle.std.specs.Prelude.{◌≡◌, ◌<◌, ◌+◌, ◌++◌, ◌↔◌, ◌^◌, ℕ, List, [], ◌∷◌, true, length, OnOk, IsErrOf};
ghost use Rattle.ov_host.specs.Host.{Rose, bytes_of};
ghost use Rattle.ov_host.specs.Stops.{Only};
ghost use Rattle.ov_journal.specs.Held.{Passes, IsAt, kept_by};
ghost use Rattle.ov_journal.specs.Journal.{and_one};
ghost use Rattle.ov_publish.specs.Steps.{IsAdded, IsFree, IsStored, with_runs, ranges_of};

use crate::put::put_both;
use crate::run::Run;
use ov_host::{Area, Host};
use ov_journal::{AppendErr, Framed, Journal};

/// Writes the list's run and the segment's, settles them, and appends the record that names them.
///
/// `JournalFull` where the record doesn't fit; then nothing is written. At `Host` a stop leaves the old records with all
/// live ranges as they were, or the old ones and this one with both runs, and the journal isn't used again.
pub fn add<H: Host>(
    journal: &mut Journal,
    host: &mut H,
    list: Run,
    segment: Run,
    framed: &Framed,
) -> Result<(), AppendErr>
    requires end { (H.state host.old).tells ≡ true → journal.old.end < length (bytes_of Area.Journal (H.state host.old)) }
    requires list { length list.bytes.now < 2 ^ 32 }
    requires segment { length segment.bytes.now < 2 ^ 32 }
    ensures passes { Passes (H.state host.old) (H.state host.new) }
    ensures full { IsErrOf result AppendErr.JournalFull ↔ (2 ^ 28 < journal.old.end + 6 + length framed.now) }
    ensures cause { IsErrOf result AppendErr.Host → Rose (H.state host.old).faults (H.state host.new).faults }
    ensures stops { (payloads : List (List ℕ)) (live : List (ℕ × ℕ)) → IsAt payloads journal.old (H.state host.old)
        → IsFree live (ranges_of list.entry segment.entry) (H.state host.old).tape.disk
        → Only (H.state host.old).tape (H.state host.new).tape
        (IsStored (kept_by journal.old payloads) (and_one (kept_by journal.old payloads) framed.now) live
        (bytes_of Area.Pages (H.state host.old)) (with_runs list.entry segment.entry (bytes_of Area.Pages (H.state host.old)))
        (H.state host.old).tape.disk.printed) }
    ensures done { (payloads : List (List ℕ)) → IsAt payloads journal.old (H.state host.old)
        → OnOk result (IsAdded (payloads ++ framed.now ∷ []) (with_runs list.entry segment.entry (bytes_of Area.Pages (H.state host.old)))
        (H.state host.old).tape.disk.printed journal.new (H.state host.new)) }
    ensures room { (H.state host.old).tells ≡ true → OnOk result (journal.new.end < length (bytes_of Area.Journal (H.state host.new))) }
    ensures format { journal.new.format ≡ journal.old.format }
    ensures full_same { IsErrOf result AppendErr.JournalFull → journal.new ≡ journal.old }
    ensures full_untouched { IsErrOf result AppendErr.JournalFull → H.state host.new ≡ H.state host.old }
{
    if !journal.fits(framed) {
        return Err(AppendErr::JournalFull);
    }
    // The record may count only once the runs that it names are settled.
    put_both(host, list, segment)?;
    journal.append(host, framed)?;
    Ok(())
}
