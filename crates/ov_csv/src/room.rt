//! Room for bytes behind a text.

ghost use Rattle.std.specs.Prelude.{◌≡◌, ◌+◌, ◌≤◌, IfOk, OnOk, vec_len, vec_capacity};

use std::alloc::AllocError;
use std::mem;

/// Makes room for so many bytes more. A text is moved to other memory out of line and by value: no call is passed its address,
/// so it stays in registers while fields are put behind it. What a rare call needs stands in a function of its own.
#[inline(always)]
pub(crate) fn make_room(text: &mut Vec<u8>, more: usize) -> Result<(), AllocError>
    ensures items { OnOk result (text.new.items ≡ text.old.items) }
    ensures len { OnOk result (vec_len text.new ≡ vec_len text.old) }
    ensures room { OnOk result (vec_len text.new + more ≤ vec_capacity text.new) }
{
    if text.capacity() - text.len() < more {
        return move_text(text, more);
    }
    Ok(())
}

#[inline(always)]
fn move_text(text: &mut Vec<u8>, more: usize) -> Result<(), AllocError>
    ensures items { OnOk result (text.new.items ≡ text.old.items) }
    ensures len { OnOk result (vec_len text.new ≡ vec_len text.old) }
    ensures room { OnOk result (vec_len text.new + more ≤ vec_capacity text.new) }
{
    *text = with_room(take_text(text), more)?;
    Ok(())
}

/// Takes a text out, and leaves the empty one.
#[inline(always)]
pub(crate) fn take_text(text: &mut Vec<u8>) -> Vec<u8>
    ensures items { result.items ≡ text.old.items }
    ensures len { vec_len result ≡ vec_len text.old }
{
    let none = Vec::new(*text.allocator());
    mem::replace(text, none)
}

#[inline(never)]
fn with_room(text: Vec<u8>, more: usize) -> Result<Vec<u8>, AllocError>
    ensures items { IfOk result (λ made. made.items ≡ text.items) }
    ensures len { IfOk result (λ made. vec_len made ≡ vec_len text) }
    ensures room { IfOk result (λ made. vec_len made + more ≤ vec_capacity made) }
{
    let mut made = text;
    made.reserve(more)?;
    Ok(made)
}
