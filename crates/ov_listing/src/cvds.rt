//! The datasets of a catalog.

ghost use Rattle.std.specs.Prelude.{◌≡◌, IfOk};
ghost use Rattle.ov_catalog.specs.Sets.{set_in};
ghost use Rattle.ov_listing.specs.Listed.{set_line, shown_cvds};

use crate::count::count_of;
use ov_catalog::{Catalog, Cvd};
use ov_model::{CvdLine, Seq};
use std::alloc::{AllocError, Global};

/// A line for each dataset, in order of creation: its name, and how many versions and distinct records it has.
pub fn cvd_lines(alloc: Global, catalog: &Catalog) -> Result<Seq<CvdLine>, AllocError>
    ensures { IfOk result (λ lines. lines ≡ shown_cvds catalog.now.numbers) }
{
    let mut lines = Vec::new(alloc);
    let sets = catalog.cvds();
    for d in sets {
        lines.push(line_of(alloc, d)?)?;
    }
    Ok(Seq::from_vec(lines))
}

// The line of a dataset.
fn line_of(alloc: Global, d: &Cvd) -> Result<CvdLine, AllocError>
    ensures { IfOk result (λ line. line ≡ set_line (set_in d.now)) }
{
    Ok(CvdLine {
        name: d.name.copy(alloc)?,
        versions: count_of(d.versions.len())?,
        records: d.records,
    })
}
