//! Online placement, and the choice of the tree parent.

ghost use Rattle.std.specs.Prelude.{◌≡◌};
ghost use Rattle.ov_graph.specs.Versions.{heaviest};
ghost use Rattle.ov_place.specs.Placement.{is_budgeted, placed};

use ov_place::{Place, PlaceFacts};

/// The parent with the greatest weight, ties to the one listed first, and its weight; zeros where there is none.
pub fn heaviest(edges: &[(u32, u32)]) -> (u32, u32)
    ensures { result ≡ heaviest edges.now }
{
    match edges {
        [] => (0, 0),
        [edge, rest @ ..] => {
            let later = heaviest(rest);
            if edge.1 < later.1 { later } else { *edge }
        }
    }
}

/// Whether a version shares few records with its tree parent, `q * w <= p * R`, and the storage is within its budget,
/// `S < 2 * R`.
fn is_budgeted(threshold: Option<(u32, u32)>, weight: u32, records: u64, stored: u64) -> bool
    ensures { result ≡ is_budgeted threshold weight records stored }
{
    match threshold {
        None => false,
        Some((p, q)) => {
            q as u128 * weight as u128 <= p as u128 * records as u128
                && (stored as u128) < 2 * records as u128
        }
    }
}

/// Where a new version goes.
pub fn plain_place(facts: &PlaceFacts) -> Place
    ensures { result ≡ placed facts.now }
{
    if facts.unmoved || is_budgeted(facts.threshold, facts.weight, facts.records, facts.stored) {
        Place::Own
    } else {
        Place::Join(facts.parent)
    }
}
