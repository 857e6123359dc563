// A run of pages.

/// Bytes for whole pages, from a page on. The last page is filled up by zeros; of no bytes nothing is written.
#[derive(Clone, Copy)]
pub struct Run<'a> {
    pub page: u32,
    pub bytes: &'a [u8],
}
