//! From bytes to values, one a column.

ghost use Rattle.std.specs.Prelude.{◌≡◌, ℕ, List, IfOk, IfSome, IfNone, IsSomeAnd, false};
ghost use Rattle.std.specs.List.{AllByRecursion, flat_map, list_any};
ghost use Rattle.ov_value.specs.declared.value.Value.{Value as RowValue};
ghost use Rattle.ov_value.specs.declared.column.Kind.TheVariants as kind;
ghost use Rattle.ov_value.specs.Rows.{HasKinds, is_null};
ghost use Rattle.ov_value.specs.Spelling.{value_bytes, kept};
ghost use Rattle.ov_value.specs.Reading.{Begins, Steps, Lies, HasSpelling, Finds};

use crate::column::{Column, Kind};
use crate::txt::Txt;
use crate::value::Value;
use std::alloc::{AllocError, Global};
use std::str;

/// The values of the columns, NULL where the bit is set or the bytes have ended, and the others from the
/// bytes, which end with them.
pub(crate) fn read_values(
    alloc: Global,
    columns: &[Column],
    nulls: u64,
    bytes: &[u8],
) -> Result<Option<Vec<Value>>, AllocError>
    ensures found { IfOk result (λ read. IfSome read (λ values. Finds columns.now nulls bytes.now values.items)) }
    ensures only { (row : List RowValue) → Lies columns.now nulls bytes.now row
        → IfOk result (λ read. IsSomeAnd read (λ values. values.items ≡ row)) }
{
    let mut values = Vec::with_capacity(alloc, columns.len())?;
    let mut marks = nulls;
    let mut rest = bytes;
    for column in columns {
        match next_value(alloc, column.kind, marks % 2 == 1, rest)? {
            None => return Ok(None),
            Some((value, after)) => {
                values.push(value)?;
                rest = after;
            }
        }
        marks /= 2;
    }
    Ok(if rest.is_empty() { Some(values) } else { None })
}

fn next_value(
    alloc: Global,
    kind: Kind,
    null: bool,
    bytes: &[u8],
) -> Result<Option<(Value, &[u8])>, AllocError>
    ensures found { IfOk result (λ read. IfSome read (λ x. Steps kind null bytes.now x.0 x.1.now)) }
    ensures none { IfOk result (λ read. IfNone read
        ((value : RowValue) (rest : List ℕ) → Steps kind null bytes.now value rest → ⊥)) }
{
    if null || bytes.is_empty() {
        return Ok(Some((Value::Null, bytes)));
    }
    match kind {
        Kind::Int => Ok(read_int(bytes)),
        Kind::Text => read_text(alloc, bytes),
        Kind::Flag => Ok(read_flag(bytes)),
    }
}

fn read_int(bytes: &[u8]) -> Option<(Value, &[u8])>
    ensures found { IfSome result (λ x. Begins kind.Int bytes.now x.0 x.1.now) }
    ensures none { IfNone result ((value : RowValue) (rest : List ℕ) → Begins kind.Int bytes.now value rest → ⊥) }
{
    if bytes.len() < 8 {
        return None;
    }
    let (front, rest) = bytes.split_at(8);
    let number = u64::from_be_bytes([
        front[0], front[1], front[2], front[3], front[4], front[5], front[6], front[7],
    ]);
    Some((Value::Int(number.cast_signed()), rest))
}

fn read_flag(bytes: &[u8]) -> Option<(Value, &[u8])>
    ensures found { IfSome result (λ x. Begins kind.Flag bytes.now x.0 x.1.now) }
    ensures none { IfNone result ((value : RowValue) (rest : List ℕ) → Begins kind.Flag bytes.now value rest → ⊥) }
{
    match bytes {
        [0, rest @ ..] => Some((Value::Flag(false), rest)),
        [1, rest @ ..] => Some((Value::Flag(true), rest)),
        _ => None,
    }
}

fn read_text(alloc: Global, bytes: &[u8]) -> Result<Option<(Value, &[u8])>, AllocError>
    ensures found { IfOk result (λ read. IfSome read (λ x. Begins kind.Text bytes.now x.0 x.1.now)) }
    ensures none { IfOk result (λ read. IfNone read
        ((value : RowValue) (rest : List ℕ) → Begins kind.Text bytes.now value rest → ⊥)) }
{
    if bytes.len() < 4 {
        return Ok(None);
    }
    let (front, rest) = bytes.split_at(4);
    let len = u32::from_be_bytes([front[0], front[1], front[2], front[3]]) as usize;
    if rest.len() < len {
        return Ok(None);
    }
    let (text, rest) = rest.split_at(len);
    match str::from_utf8(text) {
        Err(_) => Ok(None),
        Ok(text) => Ok(Some((Value::Text(Txt::new(alloc, text)?), rest))),
    }
}
