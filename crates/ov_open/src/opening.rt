// Opening a store.

ghost use Rattle.std.specs.Prelude.{◌≡◌, true, IsErrOf, MatchResult, OnOk, IfOk};
ghost use Rattle.ov_host.specs.Disk.{AllSettled, as_read};
ghost use Rattle.ov_host.specs.Host.{Rose};
ghost use Rattle.ov_host.specs.Stops.{Only};
ghost use Rattle.ov_journal.specs.Held.{Passes};
ghost use Rattle.ov_journal.specs.Opened.{IsLeftByOpen};
ghost use Rattle.ov_model.specs.World.{World};
ghost use Rattle.law_image.specs.Images.{StandsAs};
ghost use Rattle.ov_core.specs.AtWorld.{IsAtWorld};
ghost use Rattle.ov_core.specs.Held.{IsBeside};
ghost use Rattle.ov_open.specs.Opening.{IsOpened, IsOutside, IsWorld};
ghost use Rattle.ov_open.specs.Refusing.{Refuses};

use crate::building::core_of;
use crate::errors::OpenErr;
use ov_core::Core;
use ov_host::{Area, Host, PAGE_BYTES};
use ov_journal::Journal;
use std::alloc::Global;

/// Opens the store that a host keeps, or makes an empty one where there is none yet. No page is read.
///
/// Both areas are synced, and the journal's header is made where none was and the page area is empty. All else is decided by
/// the bytes as they read, in this order: `NotAStore`, `Format`, `Damaged` in the journal, `Damaged` in the pages. After these
/// the bytes are as they were. Where the bytes stand for a World, the core is at it.
///
/// In time linear in the journal and the live extents, but for the searches of each event by halves and the sorting of the
/// extents.
pub fn open<H: Host>(alloc: Global, host: &mut H) -> Result<Core, OpenErr>
    ensures passes { Passes (H.state host.old) (H.state host.new) }
    ensures cause { IsErrOf result OpenErr.Host → Rose (H.state host.old).faults (H.state host.new).faults }
    ensures answer { (H.state host.old).tells ≡ true → MatchResult result
        (λ core. IsOpened (H.state host.old).tape.disk core (H.state host.new))
        (λ why. Refuses why (H.state host.old).tape.disk (H.state host.new).tape.disk) }
    ensures world { (w : World) → (H.state host.old).tells ≡ true → StandsAs w (as_read (H.state host.old).tape.disk)
        → MatchResult result (λ core. IsAtWorld w core (H.state host.new)) IsOutside }
    ensures left { (H.state host.old).tells ≡ true → Only (H.state host.old).tape (H.state host.new).tape
        (IsLeftByOpen (H.state host.old).tape.disk) }
    ensures stops { (w : World) → (H.state host.old).tells ≡ true → AllSettled (H.state host.old).tape.disk
        → StandsAs w (as_read (H.state host.old).tape.disk)
        → Only (H.state host.old).tape (H.state host.new).tape (IsWorld w (H.state host.old).tape.disk.printed) }
    ensures beside { (H.state host.old).tells ≡ true → IfOk result (λ core. IsBeside core (H.state host.new)) }
{
    let (journal, payloads) = Journal::open(alloc, host)?;
    let there = host.len(Area::Pages)? / PAGE_BYTES as u64;
    core_of(alloc, journal, payloads.as_slice(), there)
}
