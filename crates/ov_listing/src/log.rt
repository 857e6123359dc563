//! The versions of a dataset.

ghost use Rattle.std.specs.Prelude.{◌≡◌, IfOk, map};
ghost use Rattle.ov_catalog.specs.Sets.{set_in, version_in};
ghost use Rattle.ov_listing.specs.Listed.{shown_log, version_line};

use crate::count::count_of;
use ov_catalog::{Cvd, Version};
use ov_model::{LogLine, Seq};
use std::alloc::{AllocError, Global};

/// A line for each version, by number: its rows, those that no parent gave it, its parents in the order in which they were
/// listed, and its message.
pub fn log_lines(alloc: Global, d: &Cvd) -> Result<Seq<LogLine>, AllocError>
    ensures { IfOk result (λ lines. lines ≡ shown_log (set_in d.now)) }
{
    let mut lines = Vec::new(alloc);
    let versions = d.versions.as_slice();
    for version in versions {
        let vid = count_of(lines.len() + 1)?;
        lines.push(line_of(alloc, vid, version)?)?;
    }
    Ok(Seq::from_vec(lines))
}

// The line of the version with this number.
fn line_of(alloc: Global, vid: u32, version: &Version) -> Result<LogLine, AllocError>
    ensures { IfOk result (λ line. line ≡ version_line vid (version_in version.now)) }
{
    Ok(LogLine {
        vid,
        rows: version.rows,
        fresh: version.fresh,
        parents: parents_of(alloc, version.parents.as_slice())?,
        message: version.message.copy(alloc)?,
    })
}

// The parents without the weights of their edges.
fn parents_of(alloc: Global, parents: &[(u32, u32)]) -> Result<Seq<u32>, AllocError>
    ensures { IfOk result (λ vids. vids ≡ map (λ p. p.0) parents.now) }
{
    let mut vids = Vec::new(alloc);
    for parent in parents {
        vids.push(parent.0)?;
    }
    Ok(Seq::from_vec(vids))
}
