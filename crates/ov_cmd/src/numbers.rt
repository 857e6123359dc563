//! Numbers, lists of versions and ratios.

ghost use Rattle.std.specs.Prelude.{◌≡◌, ◌==◌, ◌<◌, IfOk};
ghost use Rattle.std.specs.List.{list_all, slice_split};
ghost use Rattle.std.specs.Char.{is_ascii_digit};
ghost use Rattle.ov_model.specs.Values.{all_some, number_of as number_in_text, vids_of as vids_in_text, ratio_of as ratio_in_text, two_of as two_in};

use crate::split::pieces;
use ov_model::Seq;
use std::alloc::{AllocError, Global};

fn has_digits_alone(bytes: &[u8]) -> bool
    ensures { result ≡ list_all is_ascii_digit bytes.now }
{
    bytes.iter().all(|b| b.is_ascii_digit())
}

/// A number of one digit to 18.
pub(crate) fn number_of(word: &str) -> Option<u64>
    ensures { result ≡ number_in_text word.now }
{
    if word.is_empty() || word.len() > 18 || !has_digits_alone(word.as_bytes()) {
        return None;
    }
    word.parse::<u64>().ok()
}

fn numbers_of(alloc: Global, items: &[&str]) -> Result<Option<Seq<u64>>, AllocError>
    ensures { IfOk result (λ numbers. numbers ≡ all_some (λ x. number_in_text x.now) items.now) }
{
    let mut numbers = Vec::with_capacity(alloc, items.len())?;
    for item in items {
        match number_of(item) {
            Some(number) => numbers.push(number)?,
            None => return Ok(None),
        }
    }
    Ok(Some(Seq::from_vec(numbers)))
}

/// The numbers between the places of an ASCII character, where each piece is one.
fn numbers_between(alloc: Global, word: &str, at: char) -> Result<Option<Seq<u64>>, AllocError>
    requires { at < 128 }
    ensures { IfOk result (λ numbers. numbers ≡ all_some number_in_text (slice_split (λ b. b == at) word.now)) }
{
    let items = pieces(alloc, word, at)?;
    let numbers = numbers_of(alloc, items.as_slice())?;
    Ok(numbers)
}

/// Numbers of one digit to 18 joined by commas; `None` of any other text.
pub fn vids_of(alloc: Global, word: &str) -> Result<Option<Seq<u64>>, AllocError>
    ensures { IfOk result (λ vids. vids ≡ vids_in_text word.now) }
{
    numbers_between(alloc, word, ',')
}

fn two_of(numbers: &[u64]) -> Option<(u64, u64)>
    ensures { result ≡ two_in numbers.now }
{
    match numbers {
        [over, under] => Some((*over, *under)),
        _ => None,
    }
}

/// Two numbers joined by `/`.
pub(crate) fn ratio_of(alloc: Global, word: &str) -> Result<Option<(u64, u64)>, AllocError>
    ensures { IfOk result (λ ratio. ratio ≡ ratio_in_text word.now) }
{
    match numbers_between(alloc, word, '/')? {
        Some(numbers) => Ok(two_of(numbers.as_slice())),
        None => Ok(None),
    }
}
