//! The pages of live extents.

ghost use Rattle.std.specs.Prelude.{◌≡◌, ℕ, ◌+◌, ◌*◌, ◌<◌, ◌≤◌, None, length, All, IfOk, IfErr, vec_capacity};
ghost use Rattle.std.specs.List.Sorted.{IsNonDecreasingBy};
ghost use Rattle.ov_pages.specs.Live.{too_high_page};
ghost use Rattle.ov_pages.specs.Runs.{IsRun, AreRunsOf, AreEdgesOf};
ghost use Rattle.ov_pages.specs.Answers.{IsCauseIn};

use crate::edges::turn_run;
use crate::errors::PagesErr;
use ov_host::{Extent, PAGES};
use std::alloc::{AllocError, Global};

/// A run of pages, up to `past`, which is left out.
#[derive(Clone, Copy)]
pub struct Run {
    pub first: u32,
    pub past: u32,
}

/// The first page of the first extent that passes page 2^22.
pub fn first_too_high(live: &[Extent]) -> Option<u32>
    ensures { result ≡ too_high_page live.now }
{
    for extent in live {
        if u64::from(extent.page) + u64::from(extent.pages()) > u64::from(PAGES) {
            return Some(extent.page);
        }
    }
    None
}

/// The runs of those extents that cover a page.
fn runs_of(alloc: Global, live: &[Extent]) -> Result<Vec<Run>, AllocError>
    requires { too_high_page live.now ≡ None }
    ensures { IfOk result (λ runs. AreRunsOf live.now runs.items) }
{
    let mut runs = Vec::with_capacity(alloc, live.len())?;
    for extent in live {
        let pages = extent.pages();
        if pages > 0 {
            runs.push(Run {
                first: extent.page,
                past: extent.page + pages,
            })?;
        }
    }
    Ok(runs)
}

/// The runs of those extents that cover a page, by their first pages.
pub fn sorted_runs(alloc: Global, live: &[Extent]) -> Result<Vec<Run>, AllocError>
    requires { too_high_page live.now ≡ None }
    ensures runs { IfOk result (λ runs. AreRunsOf live.now runs.items) }
    ensures sorted { IfOk result (λ runs. IsNonDecreasingBy (λ r. r.first) runs.items) }
{
    let mut runs = runs_of(alloc, live)?;
    runs.sort_unstable_by_key(|run| run.first);
    Ok(runs)
}

/// The edges of the pages of these runs, with room to free each run. `Overlap` where runs have a page twice.
pub fn edges_of(alloc: Global, runs: &[Run]) -> Result<Vec<u32>, PagesErr>
    requires runs { All IsRun runs.now }
    requires sorted { IsNonDecreasingBy (λ r. r.first) runs.now }
    ensures edges { IfOk result (λ edges. AreEdgesOf runs.now edges.items) }
    ensures room { IfOk result (λ edges. length edges.items + 2 * length runs.now ≤ vec_capacity edges) }
    ensures cause { IfErr result (IsCauseIn runs.now) }
{
    let mut edges = Vec::with_capacity(alloc, 4 * runs.len())?;
    let mut past = 0;
    for run in runs {
        if run.first < past {
            return Err(PagesErr::Overlap { page: run.first });
        }
        turn_run(&mut edges, run.first, run.past);
        past = run.past;
    }
    Ok(edges)
}
