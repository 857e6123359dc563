//! Marks at the indices of versions.

ghost use Rattle.std.specs.Prelude.{◌≡◌, ◌==◌, ◌||◌, ◌+◌, ◌≤◌, ℕ, IfOk, false, length, slice_index_or};
ghost use Rattle.std.specs.List.{list_any};
ghost use Rattle.ov_graph.specs.Entries.{marked_vids};
ghost use Rattle.ov_lineage.specs.Bare.{AreWithin};

use std::alloc::{AllocError, Global};

/// Marks these versions too.
pub fn mark(marks: &mut [bool], vids: &[u32])
    requires { AreWithin (length marks.old) vids.now }
    ensures { (k : ℕ) → slice_index_or marks.new k false ≡ (slice_index_or marks.old k false || list_any (λ vid. vid == k + 1) vids.now) }
{
    for vid in vids {
        marks[*vid as usize - 1] = true;
    }
}

/// The vids at whose indices there is a mark, ascending.
pub fn marked(alloc: Global, marks: &[bool]) -> Result<Vec<u32>, AllocError>
    requires { length marks.now ≤ 65535 }
    ensures { IfOk result (λ vids. vids.items ≡ marked_vids marks.now) }
{
    let mut vids = Vec::new(alloc);
    for index in 0..marks.len() {
        if marks[index] {
            vids.push(index as u32 + 1)?;
        }
    }
    Ok(vids)
}
