//! An order of all that is seen, of one kind or not.

ghost use Rattle.std.specs.Prelude.{◌≡◌};
ghost use Rattle.ov_terms.specs.Seeing.{cell_of};
ghost use Rattle.ov_qrun.specs.Ranking.{rank, ranked};

use ov_terms::{Seen, cmp_seen};
use ov_value::CellRef;
use std::cmp::Ordering;

// Where those of unlike kinds stand.
fn rank(seen: Seen<'_>) -> u8
    ensures { result ≡ rank (cell_of seen.entry) }
{
    match seen {
        Seen::Cell(CellRef::Null) | Seen::Nothing => 0,
        Seen::Cell(CellRef::Flag(_)) => 1,
        Seen::Cell(CellRef::Int(_)) | Seen::Sum(_) => 2,
        Seen::Cell(CellRef::Text(_)) => 3,
    }
}

/// By kind, and within a kind as the definitions say: NULL and nothing are one value below all others.
pub fn cmp_ranked(a: Seen<'_>, b: Seen<'_>) -> Ordering
    ensures { result ≡ ranked (cell_of a.entry) (cell_of b.entry) }
{
    match (a, b) {
        (Seen::Cell(CellRef::Int(x)), Seen::Cell(CellRef::Int(y))) => x.cmp(&y),
        _ => rank(a).cmp(&rank(b)).then(cmp_seen(a, b)),
    }
}
