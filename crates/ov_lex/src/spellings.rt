//! Which token bytes begin with.

ghost use Rattle.std.specs.Prelude.{◌≡◌, ◌↔◌, ◌+◌, ◌<◌, ◌≤◌, length, IsTrue, MatchOption, FitsSigned, slice_index, Option, Some, None};
ghost use Rattle.std.specs.Int.{w64};
ghost use Rattle.std.specs.Char.{is_ascii_digit};
ghost use Rattle.std.specs.List.{prefix_len, position_or_len};
ghost use Rattle.ov_lex.specs.declared.token.TokenKind.TheVariants as kinds;
ghost use Rattle.ov_lex.specs.Spellings.{begins_word as begins, continues_word as continues, is_short_sign as is_short, is_long_sign as is_long, is_double_quote as is_double, IsNumber, number_of, IsSpelling, IsInRange, Begins, BeginsNone};
ghost use Rattle.ov_lex.specs.Scans.{IsLongest, HasNone, kind_by as kind_of_first};
ghost use Rattle.ov_lex.specs.Scans.{closing};

use crate::token::TokenKind;
use std::str;

/// The kind of the token that the bytes begin with, and the length of its spelling.
pub(crate) fn first_of(bytes: &[u8]) -> Option<(TokenKind, usize)>
    requires { 0 < length bytes.now }
    ensures { MatchOption result (BeginsNone bytes.now) (λ found. Begins bytes.now found.0 found.1) }
{
    let kind = kind_by(bytes[0]);
    let len = longest(kind, bytes)?;
    if fits(kind, &bytes[..len]) {
        Some((kind, len))
    } else {
        None
    }
}

fn kind_by(first: u8) -> TokenKind
    ensures { result ≡ kind_of_first first }
{
    match first {
        b'"' => TokenKind::Quoted,
        b'\'' => TokenKind::Text,
        b'-' => TokenKind::Number,
        _ if begins_word(first) => TokenKind::Word,
        _ if first.is_ascii_digit() => TokenKind::Number,
        _ => TokenKind::Sign,
    }
}

/// How many bytes the longest front of this kind has.
fn longest(kind: TokenKind, bytes: &[u8]) -> Option<usize>
    ensures { MatchOption result (HasNone kind bytes.now) (IsLongest kind bytes.now) }
{
    match kind {
        TokenKind::Word => word_len(bytes),
        TokenKind::Quoted => quoted_len(bytes),
        TokenKind::Number => number_len(bytes),
        TokenKind::Text => text_len(bytes),
        TokenKind::Sign => sign_len(bytes),
    }
}

fn begins_word(b: u8) -> bool
    ensures { result ≡ begins b }
{
    b.is_ascii_alphabetic() || b == b'_'
}

fn continues_word(b: u8) -> bool
    ensures { result ≡ continues b }
{
    b.is_ascii_alphanumeric() || b == b'_'
}

/// How many bytes at the front may continue a word.
fn more_of_word(bytes: &[u8]) -> usize
    ensures { result ≡ prefix_len continues bytes.now }
{
    let mut n = 0;
    while n < bytes.len() && continues_word(bytes[n]) {
        n += 1;
    }
    n
}

/// How many digits stand at the front.
fn digits(bytes: &[u8]) -> usize
    ensures { result ≡ prefix_len is_ascii_digit bytes.now }
{
    let mut n = 0;
    while n < bytes.len() && bytes[n].is_ascii_digit() {
        n += 1;
    }
    n
}

fn some_digits(bytes: &[u8]) -> Option<usize>
    ensures { MatchOption result (prefix_len is_ascii_digit bytes.now ≡ 0) (λ n. (n ≡ prefix_len is_ascii_digit bytes.now) × (0 < n)) }
{
    let len = digits(bytes);
    if len == 0 { None } else { Some(len) }
}

/// How many bytes stand before the first double quote.
fn unquoted(bytes: &[u8]) -> usize
    ensures { result ≡ position_or_len is_double bytes.now }
{
    let mut n = 0;
    while n < bytes.len() && bytes[n] != b'"' {
        n += 1;
    }
    n
}

fn word_len(bytes: &[u8]) -> Option<usize>
    ensures { MatchOption result (HasNone kinds.Word bytes.now) (IsLongest kinds.Word bytes.now) }
{
    match bytes {
        [] => None,
        [first, rest @ ..] => {
            if begins_word(*first) {
                Some(1 + more_of_word(rest))
            } else {
                None
            }
        }
    }
}

fn quoted_len(bytes: &[u8]) -> Option<usize>
    ensures { MatchOption result (HasNone kinds.Quoted bytes.now) (IsLongest kinds.Quoted bytes.now) }
{
    match bytes {
        [] => None,
        [first, rest @ ..] => {
            let len = unquoted(rest);
            if *first == b'"' && 0 < len && len < rest.len() {
                Some(len + 2)
            } else {
                None
            }
        }
    }
}

fn number_len(bytes: &[u8]) -> Option<usize>
    ensures { MatchOption result (HasNone kinds.Number bytes.now) (IsLongest kinds.Number bytes.now) }
{
    match bytes {
        [] => None,
        [first, rest @ ..] => {
            if *first == b'-' {
                Some(1 + some_digits(rest)?)
            } else {
                some_digits(bytes)
            }
        }
    }
}

/// Whether a spelling is no number that is out of range.
fn fits(kind: TokenKind, spelling: &[u8]) -> bool
    requires { IsSpelling kind spelling.now }
    ensures { IsTrue result ↔ IsInRange kind spelling.now }
{
    match kind {
        TokenKind::Number => is_in_range(spelling),
        _ => true,
    }
}

/// Whether a number is from -2^63 to 2^63 - 1.
fn is_in_range(number: &[u8]) -> bool
    requires { IsNumber number.now }
    ensures { IsTrue result ↔ FitsSigned w64 (number_of number.now) }
{
    match str::from_utf8(number) {
        Ok(text) => text.parse::<i64>().is_ok(),
        Err(_) => false,
    }
}

fn text_len(bytes: &[u8]) -> Option<usize>
    ensures { MatchOption result (HasNone kinds.Text bytes.now) (IsLongest kinds.Text bytes.now) }
{
    match bytes {
        [] => None,
        [first, rest @ ..] => {
            if *first != b'\'' {
                return None;
            }
            Some(1 + closing_len(rest)?)
        }
    }
}

/// How many bytes there are up to the last single quote that may close a text, that one included. A quote that another one
/// follows may close it too: where no later one does, the text ends there.
fn closing_len(bytes: &[u8]) -> Option<usize>
    ensures { result ≡ closing bytes.now }
{
    let mut last = None;
    let mut at = 0;
    while at < bytes.len() {
        if bytes[at] != b'\'' {
            at += 1;
        } else if at + 1 < bytes.len() && bytes[at + 1] == b'\'' {
            last = Some(at + 1);
            at += 2;
        } else {
            return Some(at + 1);
        }
    }
    last
}

fn is_short_sign(b: u8) -> bool
    ensures { result ≡ is_short b }
{
    b"*,();.=<>".contains(&b)
}

fn is_long_sign(b: u8, c: u8) -> bool
    ensures { result ≡ is_long b c }
{
    (b == b'<' && c == b'>')
        || (b == b'!' && c == b'=')
        || (b == b'<' && c == b'=')
        || (b == b'>' && c == b'=')
}

fn sign_len(bytes: &[u8]) -> Option<usize>
    ensures { MatchOption result (HasNone kinds.Sign bytes.now) (IsLongest kinds.Sign bytes.now) }
{
    match bytes {
        [] => None,
        [b] => if is_short_sign(*b) { Some(1) } else { None },
        [b, c, ..] => {
            if is_long_sign(*b, *c) {
                Some(2)
            } else if is_short_sign(*b) {
                Some(1)
            } else {
                None
            }
        }
    }
}
