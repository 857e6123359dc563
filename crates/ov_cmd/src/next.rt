//! The next word of a text.

ghost use Rattle.std.specs.Prelude.{◌≡◌, ◌≢◌, ◌≤◌, ℕ, List, length, ◌==◌, ◌||◌, if◌then◌else◌, IfOk, OnOk, IsUtf8, [], ◌∷◌, ◌++◌, true, false};
ghost use Rattle.std.specs.List.{position_or_len};
ghost use Rattle.ov_model.specs.Words.{is_blank as is_blank_of, is_no_blank, without_blanks as without_blanks_of, plain as plain_of, quoted as quoted_of, next_word as next_word_of};
ghost use Rattle.ov_cmd.specs.Following.{next_of, IsCut};

use crate::word::Word;
use ov_value::Txt;
use std::alloc::{AllocError, Global};

/// No word, a word and the text behind it, or a quote that isn't closed.
#[derive(Drop)]
pub(crate) enum Next<'a> {
    NoWord,
    Word { word: Word<'a>, behind: &'a str },
    Unclosed,
}

fn is_blank(b: u8) -> bool
    ensures { result ≡ is_blank_of b }
{
    matches!(b, b' ' | b'\t' | b'\r')
}

/// How many blanks stand in front.
pub(crate) fn blanks(text: &[u8]) -> usize
    ensures is { result ≡ position_or_len is_no_blank text.now }
    ensures within { result ≤ length text.now }
{
    for (i, b) in text.iter().enumerate() {
        if !is_blank(*b) {
            return i;
        }
    }
    text.len()
}

/// How many bytes stand before the first blank.
fn word_len(text: &[u8]) -> usize
    ensures { result ≡ position_or_len is_blank_of text.now }
{
    for (i, b) in text.iter().enumerate() {
        if is_blank(*b) {
            return i;
        }
    }
    text.len()
}

/// The text from the first byte on that is no blank.
pub(crate) fn without_blanks(text: &str) -> &str
    ensures { result.now ≡ without_blanks_of text.now }
{
    let start = blanks(text.as_bytes());
    &text[start..]
}

fn plain(text: &str) -> Next<'_>
    ensures is { next_of result ≡ plain_of text.now }
    ensures cut { IsCut result }
{
    let end = word_len(text.as_bytes());
    Next::Word {
        word: Word::slice(&text[..end]),
        behind: &text[end..],
    }
}

/// A byte behind a backslash, which goes where a quote or a backslash stands behind it.
fn push_escaped(b: u8, word: &mut Vec<u8>) -> Result<(), AllocError>
    ensures { OnOk result (word.new.items ≡ word.old.items ++ (if b == 34 || b == 92 then b ∷ [] else 92 ∷ b ∷ [])) }
{
    if b != b'"' && b != b'\\' {
        word.push(b'\\')?;
    }
    word.push(b)?;
    Ok(())
}

/// Whether a byte closes the word.
fn closes(b: u8, escaped: bool) -> bool
    ensures yes { result ≡ true → (escaped ≡ false) × (b ≡ 34) }
    ensures no { result ≡ false → escaped ≡ false → b ≢ 34 }
{
    !escaped && b == b'"'
}

/// Takes a byte that doesn't close the word, and answers whether the next one stands behind a backslash.
fn taken(b: u8, escaped: bool, word: &mut Vec<u8>) -> Result<bool, AllocError>
    requires { escaped ≡ false → b ≢ 34 }
    ensures { IfOk result (λ later. (rest : List ℕ) → quoted_of escaped word.old.items (b ∷ rest) ≡ quoted_of later word.new.items rest) }
{
    if escaped {
        push_escaped(b, word)?;
        return Ok(false);
    }
    if b == b'\\' {
        return Ok(true);
    }
    word.push(b)?;
    Ok(false)
}

/// A quoted word, behind its first quote.
fn quoted<'a>(alloc: Global, text: &'a str) -> Result<Next<'a>, AllocError>
    ensures is { IfOk result (λ next. next_of next ≡ quoted_of false [] text.now) }
    ensures cut { IfOk result IsCut }
{
    let mut word = Vec::new(alloc);
    let mut escaped = false;
    for (i, b) in text.as_bytes().iter().enumerate() {
        if closes(*b, escaped) {
            let behind = &text[i + 1..];
            let word = Word::own(text_of(word)?);
            return Ok(Next::Word { word, behind });
        }
        escaped = taken(*b, escaped, &mut word)?;
    }
    Ok(Next::Unclosed)
}

fn text_of(bytes: Vec<u8>) -> Result<Txt, AllocError>
    requires { IsUtf8 bytes.items }
    ensures { IfOk result (λ text. text ≡ bytes.items) }
{
    Txt::from_string(String::from_utf8(bytes).unwrap())
}

/// The first word and the text behind it.
pub(crate) fn next_word<'a>(alloc: Global, text: &'a str) -> Result<Next<'a>, AllocError>
    ensures is { IfOk result (λ next. next_of next ≡ next_word_of text.now) }
    ensures cut { IfOk result IsCut }
{
    let text = without_blanks(text);
    match text.as_bytes() {
        [] => Ok(Next::NoWord),
        [first, ..] => {
            if *first == b'"' {
                quoted(alloc, &text[1..])
            } else {
                Ok(plain(text))
            }
        }
    }
}
