// A record that names no run.
ghost use Rattle.std.specs.Prelude.{◌≡◌, ◌<◌, ◌+◌, ◌++◌, ◌↔◌, ◌^◌, ℕ, List, [], ◌∷◌, true, length, OnOk, IsErrOf};
ghost use Rattle.ov_host.specs.Host.{Rose, bytes_of};
ghost use Rattle.ov_host.specs.Stops.{Only};
ghost use Rattle.ov_journal.specs.Held.{Passes, IsAt, kept_by};
ghost use Rattle.ov_journal.specs.Journal.{and_one};
ghost use Rattle.ov_publish.specs.Puts.{PagesAtRest};
ghost use Rattle.ov_publish.specs.Steps.{IsAdded, IsFree, IsStored};

use ov_host::{Area, Host};
use ov_journal::{AppendErr, Framed, Journal};

/// Appends a record that names no run.
///
/// `JournalFull` where it doesn't fit; then nothing is written. At `Host` a stop leaves the old records or the old ones and
/// this one, over the same pages, and the journal isn't used again.
pub fn add_bare<H: Host>(
    journal: &mut Journal,
    host: &mut H,
    framed: &Framed,
) -> Result<(), AppendErr>
    requires { (H.state host.old).tells ≡ true → journal.old.end < length (bytes_of Area.Journal (H.state host.old)) }
    ensures passes { Passes (H.state host.old) (H.state host.new) }
    ensures full { IsErrOf result AppendErr.JournalFull ↔ (2 ^ 28 < journal.old.end + 6 + length framed.now) }
    ensures cause { IsErrOf result AppendErr.Host → Rose (H.state host.old).faults (H.state host.new).faults }
    ensures stops { (payloads : List (List ℕ)) (live : List (ℕ × ℕ)) → IsAt payloads journal.old (H.state host.old)
        → IsFree live [] (H.state host.old).tape.disk
        → Only (H.state host.old).tape (H.state host.new).tape
        (IsStored (kept_by journal.old payloads) (and_one (kept_by journal.old payloads) framed.now) live
        (bytes_of Area.Pages (H.state host.old)) (bytes_of Area.Pages (H.state host.old)) (H.state host.old).tape.disk.printed) }
    ensures done { (payloads : List (List ℕ)) → IsAt payloads journal.old (H.state host.old) → PagesAtRest (H.state host.old)
        → OnOk result (IsAdded (payloads ++ framed.now ∷ []) (bytes_of Area.Pages (H.state host.old))
        (H.state host.old).tape.disk.printed journal.new (H.state host.new)) }
    ensures record { (payloads : List (List ℕ)) → IsAt payloads journal.old (H.state host.old)
        → OnOk result (IsAt (payloads ++ framed.now ∷ []) journal.new (H.state host.new)) }
    ensures room { (H.state host.old).tells ≡ true → OnOk result (journal.new.end < length (bytes_of Area.Journal (H.state host.new))) }
    ensures format { journal.new.format ≡ journal.old.format }
    ensures full_same { IsErrOf result AppendErr.JournalFull → journal.new ≡ journal.old }
    ensures full_untouched { IsErrOf result AppendErr.JournalFull → H.state host.new ≡ H.state host.old }
{
    journal.append(host, framed)?;
    Ok(())
}
