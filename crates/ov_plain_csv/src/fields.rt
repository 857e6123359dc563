//! The value that a field spells in a column.

ghost use Rattle.std.specs.Prelude.{◌≡◌, ◌∷◌, IfOk};
ghost use Rattle.ov_model.specs.Csv.{field_value, int_value, flag_value, text_value, is_null_mark};

use ov_value::{Kind, Txt, Value};
use std::alloc::{AllocError, Global};

/// The value that a field spells in a column of a kind, or `None` where it spells none.
pub fn field_value(alloc: Global, kind: Kind, field: &Txt) -> Result<Option<Value>, AllocError>
    ensures { IfOk result (λ read. read ≡ field_value kind field.now) }
{
    match kind {
        Kind::Int => Ok(int_value(field.as_str())),
        Kind::Text => Ok(Some(text_value(alloc, field.as_str())?)),
        Kind::Flag => Ok(flag_value(field.as_bytes())),
    }
}

/// An optional sign and digits, from -2^63 to 2^63 - 1; nothing at all is NULL.
fn int_value(field: &str) -> Option<Value>
    ensures { result ≡ int_value field.now }
{
    if field.is_empty() {
        return Some(Value::Null);
    }
    match field.parse::<i64>() {
        Ok(number) => Some(Value::Int(number)),
        Err(_) => None,
    }
}

/// One of four words; nothing at all is NULL.
fn flag_value(field: &[u8]) -> Option<Value>
    ensures { result ≡ flag_value field.now }
{
    match field {
        b"" => Some(Value::Null),
        b"true" | b"t" => Some(Value::Flag(true)),
        b"false" | b"f" => Some(Value::Flag(false)),
        _ => None,
    }
}

/// The text itself, but a backslash goes in front of what is a mark of NULL, and the mark alone is NULL.
fn text_value(alloc: Global, field: &str) -> Result<Value, AllocError>
    ensures { IfOk result (λ read. read ≡ text_value field.now) }
{
    match field.strip_prefix('\\') {
        Some(rest) => marked_value(alloc, field, rest),
        None => Ok(Value::Text(Txt::new(alloc, field)?)),
    }
}

/// The value of a text that is a backslash and the rest.
fn marked_value(alloc: Global, field: &str, rest: &str) -> Result<Value, AllocError>
    requires { field.now ≡ 92 ∷ rest.now }
    ensures { IfOk result (λ read. read ≡ text_value field.now) }
{
    if !is_null_mark(rest.as_bytes()) {
        return Ok(Value::Text(Txt::new(alloc, field)?));
    }
    if rest.len() == 1 {
        return Ok(Value::Null);
    }
    Ok(Value::Text(Txt::new(alloc, rest)?))
}

/// Whether these are backslashes, or none, and then one `N` and nothing else.
pub fn is_null_mark(bytes: &[u8]) -> bool
    ensures { result ≡ is_null_mark bytes.now }
{
    match bytes {
        [] => false,
        [last] => *last == b'N',
        [first, rest @ ..] => *first == b'\\' && is_null_mark(rest),
    }
}
