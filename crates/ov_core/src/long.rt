// Runs that are too long.
ghost use Rattle.std.specs.Prelude.{◌≡◌, ◌≤◌, ◌<◌, ◌^◌, ℕ, List};
ghost use Rattle.ov_catalog.specs.Extents.{live};
ghost use Rattle.ov_core.specs.Rooms.{IsWhyNoRuns, pages_for};

use crate::errors::ChangeErr;
use crate::parts::Core;
use ov_host::{Extent, PAGE_BYTES};
use ov_pages::PageErr;

impl Core {
    /// Why a change isn't made whose segment has 2^20 pages or more, which no run has. The list's run is asked for first: where
    /// it finds none, `Full` names its pages, and else those of the segment.
    pub fn refuse_long(&mut self, list_pages: u32, segment_pages: u32) -> ChangeErr
        requires list { list_pages < 2 ^ 20 }
        requires segment { 2 ^ 20 ≤ segment_pages }
        ensures why { (list segment : List ℕ) → pages_for list ≡ list_pages → pages_for segment ≡ segment_pages
            → IsWhyNoRuns (live self.old.numbers) list segment result }
        ensures same { self.new ≡ self.old }
    {
        if list_pages == 0 {
            return ChangeErr::Full {
                pages: segment_pages,
            };
        }
        match self.pages.reserve(list_pages) {
            Ok(page) => {
                self.pages.free(Extent {
                    page,
                    bytes: list_pages * PAGE_BYTES,
                });
                ChangeErr::Full {
                    pages: segment_pages,
                }
            }
            Err(PageErr::Full) => ChangeErr::Full { pages: list_pages },
            Err(PageErr::Memory) => ChangeErr::Memory,
        }
    }
}
