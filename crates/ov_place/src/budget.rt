// The rule.
ghost use Rattle.std.specs.Prelude.{◌≡◌};
ghost use Rattle.ov_place.specs.Placement.{is_budgeted as is_budgeted_by, placed};

use crate::place_facts::{Place, PlaceFacts};

// Products of a u32 and a u64 pass 64 bits.
fn is_budgeted(facts: &PlaceFacts) -> bool
    ensures { result ≡ is_budgeted_by facts.now.threshold facts.now.weight facts.now.records facts.now.stored }
{
    match facts.threshold {
        None => false,
        Some((p, q)) => {
            q as u128 * facts.weight as u128 <= p as u128 * facts.records as u128
                && (facts.stored as u128) < 2 * facts.records as u128
        }
    }
}

/// Where a new version goes: to a partition of its own where its tree parent waits to be moved by a plan, or where there is a
/// threshold p/q, it shares at most `p * records / q` records with its tree parent, and fewer than twice the distinct records
/// are stored; else to its tree parent's partition. Takes no memory.
pub fn place(facts: &PlaceFacts) -> Place
    ensures { result ≡ placed facts.now }
{
    if facts.unmoved || is_budgeted(facts) {
        Place::Own
    } else {
        Place::Join(facts.parent)
    }
}
