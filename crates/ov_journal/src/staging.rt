// Writes at two places of the journal's area.
ghost use Rattle.std.specs.Prelude.{◌≡◌, ◌≤◌, true, length, IsErr, OnOk};
ghost use Rattle.ov_host.specs.Disk.{settled, with_area};
ghost use Rattle.ov_host.specs.Host.{Rose, bytes_of};
ghost use Rattle.ov_host.specs.Stops.{Only};
ghost use Rattle.ov_host.specs.Tape.{overwritten};
ghost use Rattle.ov_journal.specs.Held.{Passes, AtRest, IsOff, two_ranges};

use ov_host::{Area, Failed, Host};

// Two writes and one sync of the journal.
pub fn write_both_synced<H: Host>(
    host: &mut H,
    at: u64,
    bytes: &[u8],
    place: u64,
    fields: &[u8],
) -> Result<(), Failed>
    requires first { (H.state host.old).tells ≡ true → at ≤ length (bytes_of Area.Journal (H.state host.old)) }
    requires second { (H.state host.old).tells ≡ true → place ≤ length (bytes_of Area.Journal (H.state host.old)) }
    ensures passes { Passes (H.state host.old) (H.state host.new) }
    ensures cause { IsErr result → Rose (H.state host.old).faults (H.state host.new).faults }
    ensures bytes { (H.state host.old).tells ≡ true → OnOk result (bytes_of Area.Journal (H.state host.new)
        ≡ overwritten (overwritten (bytes_of Area.Journal (H.state host.old)) at bytes.now) place fields.now) }
    ensures stops { AtRest (H.state host.old) → Only (H.state host.old).tape (H.state host.new).tape
        (IsOff (two_ranges at (length bytes.now) place (length fields.now)) (H.state host.old).tape.disk) }
    ensures done { (H.state host.old).tells ≡ true → OnOk result ((H.state host.new).tape.disk
        ≡ with_area Area.Journal (settled (overwritten (overwritten (bytes_of Area.Journal (H.state host.old)) at bytes.now) place fields.now))
        (H.state host.old).tape.disk) }
{
    host.write(Area::Journal, at, bytes)?;
    host.write(Area::Journal, place, fields)?;
    host.sync(Area::Journal)?;
    Ok(())
}
