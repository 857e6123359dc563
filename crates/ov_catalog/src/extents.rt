//! Extents of an event.

ghost use Rattle.std.specs.Prelude.{◌≡◌};
ghost use Rattle.ov_catalog.specs.Applying.{is_extent as is_extent_by, is_list as is_list_by, is_same as is_same_by, is_segment as is_segment_by};

use ov_host::Extent;

/// The page area has so many pages at most, 2^22.
const MOST_PAGES: u64 = ov_host::PAGES as u64;

/// Whether an extent is one: it passes no page of the area, and an empty one has page 0.
pub fn is_extent(extent: Extent) -> bool
    ensures { result ≡ is_extent_by extent }
{
    u64::from(extent.page) + u64::from(extent.pages()) <= MOST_PAGES
        && (extent.bytes != 0 || extent.page == 0)
}

/// Both or none.
pub fn is_same(a: bool, b: bool) -> bool
    ensures { result ≡ is_same_by a b }
{
    if a { b } else { !b }
}

/// Whether it may be the list of so many rows.
pub fn is_list(rows: u32, list: Extent) -> bool
    ensures { result ≡ is_list_by rows list }
{
    list.bytes % 8 == 0
        && u64::from(list.bytes) <= 8 * u64::from(rows)
        && is_same(list.bytes == 0, rows == 0)
        && is_extent(list)
}

/// Whether it may be the segment of so many records.
pub fn is_segment(records: u32, segment: Extent) -> bool
    ensures { result ≡ is_segment_by records segment }
{
    is_same(segment.bytes == 0, records == 0) && is_extent(segment)
}
