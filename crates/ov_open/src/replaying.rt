//! The payloads of a journal, one after another.

ghost use Rattle.std.specs.Prelude.{◌≡◌, MatchResult};
ghost use Rattle.ov_core.specs.Held.{IsReplay};
ghost use Rattle.ov_open.specs.Replaying.{IsTaken, IsLeft, RefusesPayloads};

use ov_catalog::{ApplyErr, Catalog};
use ov_event::read_event;
use ov_journal::Payload;
use std::alloc::{AllocError, Global};

/// Why payloads give no catalog.
#[derive(Clone, Copy, PartialEq, Eq)]
pub enum ReplayErr {
    /// The payload at this place, counted from 0, spells no event, or one that can't follow those before it.
    Damaged { nth: usize },
    /// Memory was wanting.
    Memory,
}

impl From<AllocError> for ReplayErr {
    ghost use Rattle.std.specs.Prelude.{◌≡◌};
    ghost use Rattle.ov_open.specs.declared.replaying.ReplayErr.TheVariants as why;

    ghost from_gives = { λ _ made. made ≡ why.Memory };

    fn from(_error: AllocError) -> ReplayErr {
        ReplayErr::Memory
    }
}

/// The catalog that the payloads of a journal of this format say. `Damaged` exactly at the first payload that spells no event, or an event that
/// doesn't follow those before it, unless memory is wanting.
///
/// In time linear in the payloads, but for the searches of each event by halves.
pub fn replay(alloc: Global, format: u32, payloads: &[Payload]) -> Result<Catalog, ReplayErr>
    ensures { MatchResult result (λ catalog. IsReplay format payloads.now catalog.numbers) (RefusesPayloads format payloads.now) }
{
    let mut catalog = Catalog::new(alloc);
    for (nth, payload) in payloads.iter().enumerate() {
        take_in(alloc, format, &mut catalog, payload.as_slice(), nth)?;
    }
    Ok(catalog)
}

// The payload at this place, behind those before it.
fn take_in(
    alloc: Global,
    format: u32,
    catalog: &mut Catalog,
    payload: &[u8],
    nth: usize,
) -> Result<(), ReplayErr>
    ensures { MatchResult result
        (λ done. IsTaken payload.now format catalog.old.reach catalog.old.numbers catalog.new.numbers catalog.new.reach)
        (IsLeft payload.now nth (record { format = format; reach = catalog.old.reach }) catalog.old.numbers) }
{
    let Some(event) = read_event(alloc, payload)? else {
        return Err(ReplayErr::Damaged { nth });
    };
    match catalog.apply(format, event) {
        Ok(()) => Ok(()),
        Err(ApplyErr::Memory) => Err(ReplayErr::Memory),
        Err(ApplyErr::NotNext { .. }) => Err(ReplayErr::Damaged { nth }),
    }
}
