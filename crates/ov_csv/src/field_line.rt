//! A line of CSV, field by field, as the `csv` crate writes it by default.

ghost use Rattle.std.specs.Prelude.{◌≡◌, ◌==◌, ◌++◌, ◌∷◌, ◌+◌, ◌<◌, ◌≤◌, [], if◌then◌else◌, true, false, not, length, take, IfOk, IfSome, IfNone, IsTrue, IsFalse, OnOk, vec_len, vec_capacity};
ghost use Rattle.std.specs.List.{list_any};
ghost use Rattle.csv.specs.Writing.{default_writer, field_text, quoted, needs_byte, needs_quotes, next_sep};

use crate::room::{make_room, take_text};
use std::alloc::AllocError;

/// Adds what stands before the field at this place of a line.
pub(crate) fn push_separator(text: &mut Vec<u8>, place: usize) -> Result<(), AllocError>
    ensures { OnOk result (text.new.items ≡ text.old.items ++ next_sep default_writer place) }
{
    if place == 0 {
        return Ok(());
    }
    text.push(b',')?;
    Ok(())
}

/// The same where there is room for a byte.
#[inline(always)]
pub(crate) fn put_separator(text: &mut Vec<u8>, place: usize)
    requires room { vec_len text.old < vec_capacity text.old }
    ensures items { text.new.items ≡ text.old.items ++ next_sep default_writer place }
    ensures len { vec_len text.new ≤ vec_len text.old + 1 }
    ensures capacity { vec_capacity text.new ≡ vec_capacity text.old }
{
    if place != 0 {
        text.push_reserved(b',');
    }
}

/// Adds what stands before the field at this place of a line and the field: between quotes where one of its bytes calls for
/// them. Room is made once; the bytes are put there as they are looked at, and taken back where one calls for quotes.
#[inline(always)]
pub(crate) fn push_field(text: &mut Vec<u8>, place: usize, field: &[u8]) -> Result<(), AllocError>
    ensures { OnOk result (text.new.items ≡ text.old.items ++ (next_sep default_writer place ++ field_text default_writer field.now)) }
{
    make_room(text, field.len() + 1)?;
    put_separator(text, place);
    let start = text.len();
    if put_plain(text, field) {
        return Ok(());
    }
    requote(text, start, field)
}

// Puts the field between quotes in place of what stands from the start on.
#[inline(always)]
fn requote(text: &mut Vec<u8>, start: usize, field: &[u8]) -> Result<(), AllocError>
    ensures { OnOk result (text.new.items ≡ take start text.old.items ++ quoted default_writer field.now) }
{
    *text = with_quoted(take_text(text), start, field)?;
    Ok(())
}

// Puts the bytes of a field, or some of them where one calls for quotes, and tells whether none does.
#[inline(always)]
fn put_plain(text: &mut Vec<u8>, field: &[u8]) -> bool
    requires room { vec_len text.old + length field.now ≤ vec_capacity text.old }
    ensures plain { IsTrue result → text.new.items ≡ text.old.items ++ field.now }
    ensures answer { result ≡ not (needs_quotes default_writer field.now) }
    ensures stays { take (length text.old.items) text.new.items ≡ text.old.items }
{
    match put_eights(text, field) {
        Some(rest) => put_rest(text, rest),
        None => false,
    }
}

// Puts eight bytes of a field after eight, which are looked at without a branch between them, and gives the others; `None`
// where a byte calls for quotes.
#[inline(always)]
fn put_eights<'a>(text: &mut Vec<u8>, field: &'a [u8]) -> Option<&'a [u8]>
    requires room { vec_len text.old + length field.now ≤ vec_capacity text.old }
    ensures put { IfSome result (λ rest. text.new.items ++ rest.now ≡ text.old.items ++ field.now) }
    ensures others { IfSome result (λ rest. needs_quotes default_writer field.now ≡ needs_quotes default_writer rest.now) }
    ensures room { IfSome result (λ rest. vec_len text.new + length rest.now ≤ vec_capacity text.new) }
    ensures none { IfNone result (needs_quotes default_writer field.now ≡ true) }
    ensures stays { take (length text.old.items) text.new.items ≡ text.old.items }
{
    let mut rest = field;
    while let [a, b, c, d, e, f, g, h, more @ ..] = rest {
        let (a, b, c, d, e, f, g, h) = (*a, *b, *c, *d, *e, *f, *g, *h);
        if any_low(a, b, c, d, e, f, g, h) && any_marks(a, b, c, d, e, f, g, h) {
            return None;
        }
        put_eight(text, a, b, c, d, e, f, g, h);
        rest = more;
    }
    Some(rest)
}

#[inline(always)]
fn put_eight(text: &mut Vec<u8>, a: u8, b: u8, c: u8, d: u8, e: u8, f: u8, g: u8, h: u8)
    requires room { vec_len text.old + 8 ≤ vec_capacity text.old }
    ensures items { text.new.items ≡ text.old.items ++ a ∷ b ∷ c ∷ d ∷ e ∷ f ∷ g ∷ h ∷ [] }
    ensures len { vec_len text.new ≡ vec_len text.old + 8 }
    ensures capacity { vec_capacity text.new ≡ vec_capacity text.old }
{
    text.push_reserved(a);
    text.push_reserved(b);
    text.push_reserved(c);
    text.push_reserved(d);
    text.push_reserved(e);
    text.push_reserved(f);
    text.push_reserved(g);
    text.push_reserved(h);
}

// Puts bytes up to the first that calls for quotes, and tells whether none does.
#[inline(always)]
fn put_rest(text: &mut Vec<u8>, field: &[u8]) -> bool
    requires room { vec_len text.old + length field.now ≤ vec_capacity text.old }
    ensures plain { IsTrue result → text.new.items ≡ text.old.items ++ field.now }
    ensures answer { result ≡ not (needs_quotes default_writer field.now) }
    ensures stays { take (length text.old.items) text.new.items ≡ text.old.items }
{
    for byte in field {
        if marks_alone(*byte) {
            return false;
        }
        text.push_reserved(*byte);
    }
    true
}

/// Adds what ends a line that begins at this place: a line without a byte gets two quotes, so that it isn't read as none.
#[inline(always)]
pub(crate) fn end_line(text: &mut Vec<u8>, start: usize) -> Result<(), AllocError>
    ensures { OnOk result (text.new.items ≡ text.old.items ++ ((if length text.old.items == start then 34 ∷ 34 ∷ [] else []) ++ 10 ∷ [])) }
{
    make_room(text, 3)?;
    if text.len() == start {
        text.push_reserved(b'"');
        text.push_reserved(b'"');
    }
    text.push_reserved(b'\n');
    Ok(())
}

#[inline(never)]
fn with_quoted(text: Vec<u8>, start: usize, field: &[u8]) -> Result<Vec<u8>, AllocError>
    ensures { IfOk result (λ made. made.items ≡ take start text.items ++ quoted default_writer field.now) }
{
    let mut made = text;
    made.truncate(start);
    push_quoted(&mut made, field)?;
    Ok(made)
}

fn push_quoted(text: &mut Vec<u8>, field: &[u8]) -> Result<(), AllocError>
    ensures { OnOk result (text.new.items ≡ text.old.items ++ quoted default_writer field.now) }
{
    text.push(b'"')?;
    for byte in field {
        if *byte == b'"' {
            text.push(b'"')?;
        }
        text.push(*byte)?;
    }
    text.push(b'"')?;
    Ok(())
}

// No byte above the comma calls for quotes.
fn any_low(a: u8, b: u8, c: u8, d: u8, e: u8, f: u8, g: u8, h: u8) -> bool
    ensures { IsFalse result → list_any (needs_byte default_writer) (a ∷ b ∷ c ∷ d ∷ e ∷ f ∷ g ∷ h ∷ []) ≡ false }
{
    (a <= b',')
        | ((b <= b',')
            | ((c <= b',')
                | ((d <= b',') | ((e <= b',') | ((f <= b',') | ((g <= b',') | (h <= b',')))))))
}

fn any_marks(a: u8, b: u8, c: u8, d: u8, e: u8, f: u8, g: u8, h: u8) -> bool
    ensures { result ≡ list_any (needs_byte default_writer) (a ∷ b ∷ c ∷ d ∷ e ∷ f ∷ g ∷ h ∷ []) }
{
    marks(a)
        | (marks(b) | (marks(c) | (marks(d) | (marks(e) | (marks(f) | (marks(g) | marks(h)))))))
}

// Whether the byte calls for quotes.
fn marks(byte: u8) -> bool
    ensures { result ≡ needs_byte default_writer byte }
{
    (byte == b',') | (byte == b'"') | (byte == b'\r') | (byte == b'\n')
}

// The same of a byte that is looked at by itself: most stand above the comma, and need one test.
fn marks_alone(byte: u8) -> bool
    ensures { result ≡ needs_byte default_writer byte }
{
    byte <= b',' && marks(byte)
}
