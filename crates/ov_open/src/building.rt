// A core, from a journal and its payloads.

ghost use Rattle.std.specs.Prelude.{◌≡◌, None, MatchResult};
ghost use Rattle.ov_pages.specs.Live.{AreReserved, too_high_page};
ghost use Rattle.ov_core.specs.Held.{IsReplay};
ghost use Rattle.ov_open.specs.Building.{AreThere, IsBuilt, NotBuilt, NotReplayed, NotReserved, gate_within};

use crate::errors::OpenErr;
use crate::extents::live;
use crate::missing::first_missing;
use crate::replaying::{ReplayErr, replay};
use ov_catalog::Catalog;
use ov_core::Core;
use ov_host::{Area, Extent};
use ov_journal::{Journal, Payload};
use ov_pages::Pages;
use std::alloc::Global;

// The bytes of a record beside its payload: its gate, and the payload's length.
const FRONT_BYTES: u64 = ov_journal::FRONT_BYTES;

/// The core of a journal with these payloads, beside so many whole pages.
pub fn core_of(
    alloc: Global,
    journal: Journal,
    payloads: &[Payload],
    there: u64,
) -> Result<Core, OpenErr>
    ensures { MatchResult result (IsBuilt journal payloads.now there) (λ why. NotBuilt why journal payloads.now there) }
{
    let catalog = catalog_of(alloc, &journal, payloads)?;
    let extents = live(alloc, &catalog)?;
    let pages = reserved(alloc, &extents, there)?;
    Ok(Core::of(journal, catalog, pages))
}

// The catalog of these payloads, which are the journal's.
fn catalog_of(alloc: Global, journal: &Journal, payloads: &[Payload]) -> Result<Catalog, OpenErr>
    ensures { MatchResult result (λ catalog. IsReplay journal.now.format payloads.now catalog.numbers) (λ why. NotReplayed why journal.now.format journal.now.start payloads.now) }
{
    match replay(alloc, journal.format(), payloads) {
        Ok(catalog) => Ok(catalog),
        Err(ReplayErr::Memory) => Err(OpenErr::Memory),
        Err(ReplayErr::Damaged { nth }) => Err(OpenErr::Damaged {
            area: Area::Journal,
            at: gate_behind(journal.start(), &payloads[..nth]),
        }),
    }
}

// The place of the gate behind these payloads' records, the first of which begins at this place.
fn gate_behind(start: u32, before: &[Payload]) -> u64
    ensures { result ≡ gate_within start before.now }
{
    let mut at = u64::from(start);
    for payload in before {
        at = at
            .saturating_add(FRONT_BYTES)
            .saturating_add(payload.as_slice().len() as u64);
    }
    at
}

// The pages of the live extents, reserved. Of the pages there are only the first so many.
fn reserved(alloc: Global, extents: &[Extent], there: u64) -> Result<Pages, OpenErr>
    requires { too_high_page extents.now ≡ None }
    ensures { MatchResult result (λ pages. AreReserved extents.now pages × AreThere extents.now there) (λ why. NotReserved why extents.now there) }
{
    let pages = Pages::of(alloc, extents)?;
    match first_missing(extents, there) {
        Some(at) => Err(OpenErr::Damaged {
            area: Area::Pages,
            at,
        }),
        None => Ok(pages),
    }
}
