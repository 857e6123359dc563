//! All words of a text.

ghost use Rattle.std.specs.Prelude.{◌≡◌, IfOk};
ghost use Rattle.std.specs.Option.{option_map};
ghost use Rattle.ov_model.specs.Words.{words_of as words_in_text};

use crate::next::{Next, next_word};
use crate::word::Word;
use std::alloc::{AllocError, Global};

/// The words of a text; None where a quote isn't closed.
pub(crate) fn words_of<'a>(
    alloc: Global,
    text: &'a str,
) -> Result<Option<Vec<Word<'a>>>, AllocError>
    ensures { IfOk result (λ words. option_map (λ v. v.items) words ≡ words_in_text text.now) }
{
    let mut words = Vec::new(alloc);
    let mut rest = text;
    // Each word takes a byte at least.
    for _ in 0..text.len() + 1 {
        match next_word(alloc, rest)? {
            Next::NoWord => return Ok(Some(words)),
            Next::Word { word, behind } => {
                words.push(word)?;
                rest = behind;
            }
            Next::Unclosed => return Ok(None),
        }
    }
    Ok(Some(words))
}
