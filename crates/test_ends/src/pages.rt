//! The page file: worked examples, and scripts against a plain list of pages.

ghost use Rattle.std.specs.Prelude.{◌≡◌, ◌<◌, ◌≤◌, vec_len, OnOk};
ghost use Rattle.ov_pages.specs.Live.{AreReserved};

use ov_host::Extent;
use ov_pages::{PageErr, Pages, PagesErr};
use std::alloc::{AllocError, Global};
use std::test::Fail;

fn extent(page: u32, bytes: u32) -> Extent
    ensures page { result.page ≡ page }
    ensures bytes { result.bytes ≡ bytes }
{
    Extent { page, bytes }
}

/// Reserves `n` pages for one live extent more, and answers its first page.
fn take(pages: &mut Pages, live: &mut Vec<Extent>, n: u32) -> Result<Option<u32>, AllocError>
    requires some { 1 ≤ n }
    requires few { n < 1024 }
    requires kept { AreReserved live.old.items pages.old }
    ensures kept { OnOk result (AreReserved live.new.items pages.new) }
{
    match pages.reserve(n) {
        Err(_) => Ok(None),
        Ok(page) => {
            live.push(Extent {
                page,
                bytes: n * 4096,
            })?;
            Ok(Some(page))
        }
    }
}

/// Frees one of the live extents.
fn give(pages: &mut Pages, live: &mut Vec<Extent>, i: usize) -> Extent
    requires there { i < vec_len live.old }
    requires kept { AreReserved live.old.items pages.old }
    ensures kept { AreReserved live.new.items pages.new }
{
    let extent = live.remove(i);
    pages.free(extent);
    extent
}

// Extents, of a page and so many bytes each.
fn extents(alloc: Global, places: &[(u32, u32)]) -> Result<Vec<Extent>, AllocError> {
    let mut live = Vec::new(alloc);
    for (page, bytes) in places {
        live.push(extent(*page, *bytes))?;
    }
    Ok(live)
}

const FULL: [(u32, u32); 4] = [
    (0, 4_294_967_295),
    (1_048_576, 4_294_967_295),
    (2_097_152, 4_294_967_295),
    (3_145_728, 4_294_967_295),
];

#[test]
fn a_full_page_file(rt: HostRuntime) -> Result<(), Fail> {
    let mut live = extents(rt.alloc(), &FULL)?;
    let mut pages = Pages::of(rt.alloc(), &live).ok().ok_or("pages")?;
    assert!(rt; pages.highest() == 4_194_304);
    assert!(rt; live.len() == 4);
    assert!(rt; give(&mut pages, &mut live, 1).page == 1_048_576);
    assert!(rt; pages.reserve(1) == Ok(1_048_576));
    assert!(rt; pages.reserve(1_048_575) == Ok(1_048_577));
    assert!(rt; pages.reserve(1) == Err(PageErr::Full));
    Ok(())
}

// Which pages two extents have in common is told by `scripts/damage`. One past the greatest page comes before these.
const REFUSED: [(&[(u32, u32)], u32); 2] = [
    (
        &[(9, 1), (9, 1), (4_194_303, 4097), (4_194_304, 1)],
        4_194_303,
    ),
    (&[(4_294_967_295, 4_294_967_295)], 4_294_967_295),
];

#[test]
fn an_extent_may_be_too_high(rt: HostRuntime) -> Result<(), Fail> {
    for (places, page) in REFUSED {
        let live = extents(rt.alloc(), places)?;
        assert!(rt; Pages::of(rt.alloc(), &live).err() == Some(PagesErr::TooHigh { page }));
    }
    Ok(())
}

const THREE: [(u32, u32); 3] = [(2, 4096), (5, 4096), (6, 8192)];

// Numbers of pages, and the first page of the lowest run beside these.
const RUNS: [(u32, u32); 4] = [(1, 0), (2, 0), (3, 8), (1_048_575, 8)];

#[test]
fn the_lowest_run(rt: HostRuntime) -> Result<(), Fail> {
    let live = extents(rt.alloc(), &THREE)?;
    for (n, first) in RUNS {
        let mut pages = Pages::of(rt.alloc(), &live).ok().ok_or("pages")?;
        assert!(rt; 1 <= n && pages.reserve(n) == Ok(first));
    }
    let mut pages = Pages::of(rt.alloc(), &live).ok().ok_or("pages")?;
    assert!(rt; pages.reserve(1_048_576) == Err(PageErr::Full));
    for first in [0, 1, 3, 4, 8, 9] {
        assert!(rt; pages.reserve(1) == Ok(first));
    }
    assert!(rt; pages.highest() == 10);
    Ok(())
}

fn none_held(alloc: Global) -> Result<Vec<bool>, AllocError> {
    let mut held = Vec::new(alloc);
    for _ in 0..16_384u32 {
        held.push(false)?;
    }
    Ok(held)
}

fn mark(held: &mut Vec<bool>, first: u32, n: u32, value: bool) {
    for page in first..first.saturating_add(n) {
        if let Some(here) = held.get_mut(page as usize) {
            *here = value;
        }
    }
}

/// The first page of the lowest run of `n` pages that aren't held, found page by page.
fn lowest(held: &[bool], n: u32) -> u32 {
    let mut first = 0u32;
    let mut free = 0u32;
    for page in 0..16_384u32 {
        if held.get(page as usize) == Some(&true) {
            first = page + 1;
            free = 0;
        } else {
            free = free.saturating_add(1);
            if free == n {
                return first;
            }
        }
    }
    first
}

#[test]
fn scripts(rt: HostRuntime) -> Result<(), Fail> {
    let mut pages = Pages::of(rt.alloc(), &[]).ok().ok_or("pages")?;
    let mut live = Vec::new(rt.alloc());
    let mut held = none_held(rt.alloc())?;
    let mut pick = 1u32;
    for _ in 0..4_000u32 {
        pick = pick.wrapping_mul(1_664_525).wrapping_add(1_013_904_223);
        let at = (pick >> 8) as usize;
        if live.is_empty() || at % 7 < 4 {
            let n = (pick >> 20) % 9 + 1;
            let first = lowest(&held, n);
            assert!(rt; take(&mut pages, &mut live, n)? == Some(first));
            mark(&mut held, first, n, true);
        } else {
            let i = at % live.len();
            let freed = give(&mut pages, &mut live, i);
            mark(&mut held, freed.page, freed.pages(), false);
        }
    }
    let last = held
        .iter()
        .rposition(|page| *page)
        .map_or(0, |page| page + 1);
    assert!(rt; pages.highest() as usize == last);
    Ok(())
}

/// It runs in a small part of a second, and would run for minutes in the square of the number of extents.
#[test]
fn many_extents(rt: HostRuntime) -> Result<(), Fail> {
    let mut live = Vec::new(rt.alloc());
    for i in 0..100_000u32 {
        live.push(extent(i.wrapping_mul(7_919) % 100_000 * 2, 1))?;
    }
    let mut pages = Pages::of(rt.alloc(), &live).ok().ok_or("pages")?;
    assert!(rt; pages.highest() == 199_999);
    for first in [1, 3, 5] {
        assert!(rt; pages.reserve(1) == Ok(first));
    }
    assert!(rt; pages.reserve(2) == Ok(199_999));
    Ok(())
}
