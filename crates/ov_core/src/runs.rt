// The pages of a change's runs.
ghost use Rattle.std.specs.Prelude.{◌≡◌, ◌<◌, ◌^◌, ◌∷◌, ◌++◌, List, length, IfOk, IfErr, OnErr};
ghost use Rattle.ov_host.specs.declared.area.Extent.{Extent as ExtentValue};
ghost use Rattle.ov_pages.specs.Live.{AreReserved};
ghost use Rattle.ov_core.specs.Brought.{extent_at};
ghost use Rattle.ov_core.specs.Rooms.{ArePlaced, IsRun, IsWhyNoRun, IsWhyNoRuns};

use crate::errors::ChangeErr;
use ov_host::{Extent, PAGE_BYTES};
use ov_pages::{PageErr, Pages};

/// Where the runs of a change go.
#[derive(Clone, Copy)]
pub struct Placing {
    pub list: Extent,
    pub segment: Extent,
}

// Reserves the lowest free run for these bytes, and answers their extent. Bytes that are none have none.
fn reserve_run(pages: &mut Pages, bytes: &[u8]) -> Result<Extent, ChangeErr>
    requires { length bytes.now < 2 ^ 32 }
    ensures run { (live : List ExtentValue) → AreReserved live pages.old → IfOk result (IsRun live bytes.now) }
    ensures reserved { (live : List ExtentValue) → AreReserved live pages.old → IfOk result (λ e. AreReserved (e ∷ live) pages.new) }
    ensures extent { IfOk result (λ e. e ≡ extent_at e.page bytes.now) }
    ensures why { (live : List ExtentValue) → AreReserved live pages.old → IfErr result (IsWhyNoRun live bytes.now) }
    ensures same { OnErr result (pages.new ≡ pages.old) }
{
    let size = bytes.len() as u32;
    if size == 0 {
        return Ok(Extent { page: 0, bytes: 0 });
    }
    let count = size.div_ceil(PAGE_BYTES);
    match pages.reserve(count) {
        Ok(page) => Ok(Extent { page, bytes: size }),
        Err(PageErr::Full) => Err(ChangeErr::Full { pages: count }),
        Err(PageErr::Memory) => Err(ChangeErr::Memory),
    }
}

// Gives the pages of one extent back.
fn free_run(pages: &mut Pages, extent: Extent)
    requires { (live : List ExtentValue) × AreReserved (extent ∷ live) pages.old }
    ensures { (live : List ExtentValue) → AreReserved (extent ∷ live) pages.old → AreReserved live pages.new }
{
    pages.free(extent);
}

/// Reserves the runs of both: the list's first, and then the segment's, which is off it. Where one finds none, no page is
/// reserved.
pub fn reserve_runs(pages: &mut Pages, list: &[u8], segment: &[u8]) -> Result<Placing, ChangeErr>
    requires list { length list.now < 2 ^ 32 }
    requires segment { length segment.now < 2 ^ 32 }
    requires live { (live : List ExtentValue) × AreReserved live pages.old }
    ensures placed { (live : List ExtentValue) → AreReserved live pages.old
        → IfOk result (λ at. ArePlaced live list.now segment.now at.list at.segment) }
    ensures reserved { (live : List ExtentValue) → AreReserved live pages.old
        → IfOk result (λ at. AreReserved (at.segment ∷ at.list ∷ live) pages.new) }
    ensures list_is { IfOk result (λ at. at.list ≡ extent_at at.list.page list.now) }
    ensures segment_is { IfOk result (λ at. at.segment ≡ extent_at at.segment.page segment.now) }
    ensures why { (live : List ExtentValue) → AreReserved live pages.old → IfErr result (IsWhyNoRuns live list.now segment.now) }
    ensures same { (live : List ExtentValue) → AreReserved live pages.old → OnErr result (AreReserved live pages.new) }
{
    let first = reserve_run(pages, list)?;
    match reserve_run(pages, segment) {
        Ok(second) => Ok(Placing {
            list: first,
            segment: second,
        }),
        Err(why) => {
            free_run(pages, first);
            Err(why)
        }
    }
}

/// Gives the pages of both runs back.
pub fn free_runs(pages: &mut Pages, at: Placing)
    requires { (live : List ExtentValue) × AreReserved (at.segment ∷ at.list ∷ live) pages.old }
    ensures { (live : List ExtentValue) → AreReserved (at.segment ∷ at.list ∷ live) pages.old → AreReserved live pages.new }
{
    free_run(pages, at.segment);
    free_run(pages, at.list);
}

/// Gives the pages of these extents back.
pub fn free_all(pages: &mut Pages, extents: &[Extent])
    requires { (live : List ExtentValue) × AreReserved (extents.now ++ live) pages.old }
    ensures { (live : List ExtentValue) → AreReserved (extents.now ++ live) pages.old → AreReserved live pages.new }
{
    for extent in extents {
        free_run(pages, *extent);
    }
}
