//! Whether bytes spell a row, without memory.

ghost use Rattle.std.specs.Prelude.{◌≡◌, ◌≤◌, ℕ, List, length, IfSome, IfNone};
ghost use Rattle.ov_value.specs.declared.value.Value.{Value as RowValue};
ghost use Rattle.ov_value.specs.declared.column.Kind.TheVariants as kind;
ghost use Rattle.ov_value.specs.Spelling.{kept};
ghost use Rattle.ov_value.specs.Reading.{Begins};
ghost use Rattle.ov_value.specs.Decoding.{front_value, front_rest, decoded, CanRead};

use crate::column::{Column, Kind};
use crate::utf8::is_text;

/// What stands behind a value of the kind, or `None` where none stands in front.
#[inline(always)]
pub(crate) fn behind(kind: Kind, bytes: &[u8]) -> Option<&[u8]>
    ensures rest { IfSome result (λ rest. rest.now ≡ front_rest kind bytes.now) }
    ensures found { IfSome result (λ rest. Begins kind bytes.now (front_value kind bytes.now) rest.now) }
    ensures none { IfNone result ((value : RowValue) (rest : List ℕ) → Begins kind bytes.now value rest → ⊥) }
{
    match kind {
        Kind::Int => behind_int(bytes),
        Kind::Text => behind_text(bytes),
        Kind::Flag => behind_flag(bytes),
    }
}

fn behind_int(bytes: &[u8]) -> Option<&[u8]>
    ensures rest { IfSome result (λ rest. rest.now ≡ front_rest kind.Int bytes.now) }
    ensures found { IfSome result (λ rest. Begins kind.Int bytes.now (front_value kind.Int bytes.now) rest.now) }
    ensures none { IfNone result ((value : RowValue) (rest : List ℕ) → Begins kind.Int bytes.now value rest → ⊥) }
{
    if bytes.len() < 8 {
        return None;
    }
    Some(&bytes[8..])
}

fn behind_text(bytes: &[u8]) -> Option<&[u8]>
    ensures rest { IfSome result (λ rest. rest.now ≡ front_rest kind.Text bytes.now) }
    ensures found { IfSome result (λ rest. Begins kind.Text bytes.now (front_value kind.Text bytes.now) rest.now) }
    ensures none { IfNone result ((value : RowValue) (rest : List ℕ) → Begins kind.Text bytes.now value rest → ⊥) }
{
    if bytes.len() < 4 {
        return None;
    }
    let (front, rest) = bytes.split_at(4);
    let len = u32::from_be_bytes([front[0], front[1], front[2], front[3]]) as usize;
    if rest.len() < len {
        return None;
    }
    let (text, rest) = rest.split_at(len);
    if is_text(text) { Some(rest) } else { None }
}

fn behind_flag(bytes: &[u8]) -> Option<&[u8]>
    ensures rest { IfSome result (λ rest. rest.now ≡ front_rest kind.Flag bytes.now) }
    ensures found { IfSome result (λ rest. Begins kind.Flag bytes.now (front_value kind.Flag bytes.now) rest.now) }
    ensures none { IfNone result ((value : RowValue) (rest : List ℕ) → Begins kind.Flag bytes.now value rest → ⊥) }
{
    if bytes.is_empty() || bytes[0] > 1 {
        return None;
    }
    Some(&bytes[1..])
}

/// How many values are kept of those that the bytes spell with these marks, or `None` where they spell none. Marks are
/// of values that are kept, so a value is NULL where it is marked or behind those.
pub(crate) fn walk(columns: &[Column], nulls: u64, bytes: &[u8]) -> Option<usize>
    ensures found { IfSome result (λ n. CanRead columns.now nulls bytes.now) }
    ensures kept { IfSome result (λ n. n ≡ length (kept (decoded columns.now nulls bytes.now))) }
    ensures none { IfNone result (CanRead columns.now nulls bytes.now → ⊥) }
{
    let mut passed = 0;
    let mut marks = nulls;
    let mut rest = bytes;
    while passed < columns.len() && !rest.is_empty() {
        let kind = columns[passed].kind;
        if marks % 2 == 0 {
            rest = behind(kind, rest)?;
        }
        marks /= 2;
        passed += 1;
    }
    if rest.is_empty() && marks == 0 {
        Some(passed)
    } else {
        None
    }
}
