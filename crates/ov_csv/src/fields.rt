//! The value that a field spells in a column.

ghost use Rattle.std.specs.Prelude.{◌≡◌, ◌==◌, ◌∷◌, Some, None, IfSome};
ghost use Rattle.std.specs.List.{list_all};
ghost use Rattle.std.specs.Option.{MatchOption};
ghost use Rattle.ov_value.specs.Cells.{value_of};
ghost use Rattle.ov_value.specs.declared.value.Value.TheVariants as CellValue;
ghost use Rattle.ov_model.specs.Csv.{field_value, int_value, flag_value, text_value, is_null_mark as is_null_mark_of};

use ov_value::{CellRef, Kind};

/// The value that the text spells in a column of the kind, or `None` where it spells none. A text stays where it lies.
pub(crate) fn read_field(kind: Kind, text: &str) -> Option<CellRef<'_>>
    ensures { MatchOption result (field_value kind text.now ≡ None) (λ cell. field_value kind text.now ≡ Some (value_of cell)) }
{
    match kind {
        Kind::Int => read_int(text),
        Kind::Text => Some(read_text(text)),
        Kind::Flag => read_flag(text),
    }
}

fn read_int(text: &str) -> Option<CellRef<'_>>
    ensures { MatchOption result (int_value text.now ≡ None) (λ cell. int_value text.now ≡ Some (value_of cell)) }
{
    if text.is_empty() {
        return Some(CellRef::Null);
    }
    if let Some(number) = read_digits(text.as_bytes()) {
        return Some(CellRef::Int(number));
    }
    match text.parse::<i64>() {
        Ok(number) => Some(CellRef::Int(number)),
        Err(_) => None,
    }
}

// The number of up to 18 digits, as most are written, in a third of the steps of `parse`; `None` of any other text.
fn read_digits(digits: &[u8]) -> Option<i64>
    ensures { IfSome result (λ number. int_value digits.now ≡ Some (CellValue.Int number)) }
{
    if digits.is_empty() || digits.len() > 18 {
        return None;
    }
    let mut number = 0u64;
    for digit in digits {
        let value = digit.wrapping_sub(b'0');
        if value > 9 {
            return None;
        }
        number = 10 * number + u64::from(value);
    }
    Some(number as i64)
}

fn read_flag(text: &str) -> Option<CellRef<'_>>
    ensures { MatchOption result (flag_value text.now ≡ None) (λ cell. flag_value text.now ≡ Some (value_of cell)) }
{
    match text.as_bytes() {
        b"" => Some(CellRef::Null),
        b"true" | b"t" => Some(CellRef::Flag(true)),
        b"false" | b"f" => Some(CellRef::Flag(false)),
        _ => None,
    }
}

fn read_text(text: &str) -> CellRef<'_>
    ensures { value_of result ≡ text_value text.now }
{
    match text.strip_prefix('\\') {
        Some(rest) => read_escaped(text, rest),
        None => CellRef::Text(text),
    }
}

// Of a text that is a backslash and the rest.
fn read_escaped<'a>(text: &'a str, rest: &'a str) -> CellRef<'a>
    requires { text.now ≡ 92 ∷ rest.now }
    ensures { value_of result ≡ text_value text.now }
{
    if !is_null_mark(rest.as_bytes()) {
        return CellRef::Text(text);
    }
    if rest.len() == 1 {
        return CellRef::Null;
    }
    CellRef::Text(rest)
}

/// Whether the bytes are any number of backslashes and then one `N`.
pub(crate) fn is_null_mark(bytes: &[u8]) -> bool
    ensures { result ≡ is_null_mark_of bytes.now }
{
    match bytes.split_last() {
        Some((last, front)) => *last == b'N' && are_backslashes(front),
        None => false,
    }
}

fn are_backslashes(bytes: &[u8]) -> bool
    ensures { result ≡ list_all (λ b. b == 92) bytes.now }
{
    bytes.iter().all(|b| *b == b'\\')
}
