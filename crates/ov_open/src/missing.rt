// Pages of extents that aren't there.

ghost use Rattle.std.specs.Prelude.{◌≡◌, [], ◌∷◌};
ghost use Rattle.ov_open.specs.Building.{FirstIs, lesser as lesser_of};

use ov_host::Extent;

/// The least page of these extents beyond the first so many pages.
pub fn first_missing(extents: &[Extent], there: u64) -> Option<u64>
    ensures { FirstIs result extents.now there }
{
    let mut missing = None;
    for extent in extents {
        missing = lesser(missing, first_of(*extent, there));
    }
    missing
}

// The same of one extent.
fn first_of(extent: Extent, there: u64) -> Option<u64>
    ensures { FirstIs result (extent ∷ []) there }
{
    let first = u64::from(extent.page);
    let past = first + u64::from(extent.pages());
    let page = first.max(there);
    if page < past { Some(page) } else { None }
}

fn lesser(a: Option<u64>, b: Option<u64>) -> Option<u64>
    ensures { result ≡ lesser_of a b }
{
    match (a, b) {
        (Some(a), Some(b)) => Some(a.min(b)),
        (None, b) => b,
        (a, None) => a,
    }
}
