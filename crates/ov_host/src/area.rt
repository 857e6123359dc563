// The two areas, places in them, and the answers of the ends.
ghost use Rattle.std.specs.Prelude.{◌≡◌};
ghost use Rattle.ov_host.specs.Extent.{pages_of};

/// The bytes of one page.
pub const PAGE_BYTES: u32 = 4096;

/// How many pages the page area has at most.
pub const PAGES: u32 = 4_194_304;

/// A run of consecutive pages has fewer than these.
pub const RUN_LIMIT: u32 = 1_048_576;

/// One of the two areas of a host.
#[derive(Clone, Copy, Debug, PartialEq, Eq)]
pub enum Area {
    Pages,
    Journal,
}

/// A call of an end failed. The end's count of faults rose in that call.
#[derive(Clone, Copy, Debug, PartialEq, Eq)]
pub struct Failed;

/// A place in the page area: its first page, and its number of bytes. An extent of no bytes has page 0 and covers no page.
#[derive(Clone, Copy, Debug, PartialEq, Eq)]
pub struct Extent {
    pub page: u32,
    pub bytes: u32,
}

impl Extent {
    /// How many pages of 4,096 bytes the extent covers, from its page on.
    pub fn pages(&self) -> u32
        ensures { result ≡ pages_of self.now }
    {
        self.bytes.div_ceil(PAGE_BYTES)
    }
}

/// Whether a stage has a file of the name that was looked for.
#[derive(Clone, Copy, Debug, PartialEq, Eq)]
pub enum Found {
    Yes,
    Missing,
}
