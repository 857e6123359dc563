//! Ancestors and descendants, as marks at the indices of versions.

ghost use Rattle.std.specs.Prelude.{◌≡◌, ℕ, ◌+◌, ◌-◌, ◌<◌, ◌≤◌, ◌||◌, false, length, slice_index_or, IfOk};
ghost use Rattle.std.specs.List.{list_any};
ghost use Rattle.ov_graph.specs.Versions.{names, IsAncestor, IsGraph};
ghost use Rattle.ov_graph.specs.Entries.{versions_of, AreBelow, AreMarks, marked_vids};

use crate::graph::Entry;
use std::alloc::{AllocError, Global};

/// Marks these parents too.
fn mark_parents(marks: &mut [bool], parents: &[(u32, u32)])
    requires { AreBelow parents.now (length marks.old) }
    ensures { (k : ℕ) → slice_index_or marks.new k false ≡ (slice_index_or marks.old k false || names parents.now (k + 1)) }
{
    for parent in parents {
        marks[parent.0 as usize - 1] = true;
    }
}

/// Whether one of these parents is marked.
fn has_marked(marks: &[bool], parents: &[(u32, u32)]) -> bool
    requires { AreBelow parents.now (length marks.now) }
    ensures { result ≡ list_any (λ edge. slice_index_or marks.now (edge.0 - 1) false) parents.now }
{
    for parent in parents {
        if marks[parent.0 as usize - 1] {
            return true;
        }
    }
    false
}

/// Marks at the ancestors of a version. In the time of all edges.
pub fn ancestor_marks(alloc: Global, entries: &[Entry], vid: u32) -> Result<Vec<bool>, AllocError>
    requires graph { IsGraph (versions_of entries.now) }
    requires from_one { 1 ≤ vid }
    requires is_there { vid ≤ length entries.now }
    ensures { IfOk result (λ marks. AreMarks marks.items (length entries.now) (λ other. IsAncestor (versions_of entries.now) other vid)) }
{
    let mut marks = vec![in alloc; false; entries.len()]?;
    let own = vid as usize - 1;
    marks[own] = true;
    let mut at = own + 1;
    while 0 < at {
        at -= 1;
        if marks[at] {
            mark_parents(&mut marks, &entries[at].parents);
        }
    }
    marks[own] = false;
    Ok(marks)
}

/// Marks at the descendants of a version. In the time of all edges.
pub fn descendant_marks(alloc: Global, entries: &[Entry], vid: u32) -> Result<Vec<bool>, AllocError>
    requires graph { IsGraph (versions_of entries.now) }
    requires from_one { 1 ≤ vid }
    requires is_there { vid ≤ length entries.now }
    ensures { IfOk result (λ marks. AreMarks marks.items (length entries.now) (λ other. IsAncestor (versions_of entries.now) vid other)) }
{
    let mut marks = vec![in alloc; false; entries.len()]?;
    let own = vid as usize - 1;
    marks[own] = true;
    for at in own + 1..entries.len() {
        marks[at] = has_marked(&marks, &entries[at].parents);
    }
    marks[own] = false;
    Ok(marks)
}

/// The vids at whose indices there is a mark, ascending.
pub fn marked_vids(alloc: Global, marks: &[bool]) -> Result<Vec<u32>, AllocError>
    requires { length marks.now ≤ 65535 }
    ensures { IfOk result (λ vids. vids.items ≡ marked_vids marks.now) }
{
    let mut vids = Vec::new(alloc);
    for index in 0..marks.len() {
        if marks[index] {
            vids.push(index as u32 + 1)?;
        }
    }
    Ok(vids)
}
