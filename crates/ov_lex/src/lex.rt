//! From a text to its tokens.

ghost use Rattle.std.specs.Prelude.{◌≡◌, ◌<◌, ◌≤◌, ◌^◌, length, false, slice_index, MatchResult};
ghost use Rattle.ov_lex.specs.Texts.{is_blank as is_a_blank, Blank, AreTokens, Refuses};

use crate::spellings::first_of;
use crate::token::{LexErr, Token};
use std::alloc::Global;

/// The tokens of a text of less than 2^32 bytes, in order. At each place the longest token counts; spaces, tabs and carriage
/// returns separate, and nothing else does. `BadByte` has the first place where no token begins, in time linear in the text.
pub fn tokens(alloc: Global, text: &str) -> Result<Vec<Token>, LexErr>
    requires { length text.now < 2 ^ 32 }
    ensures { MatchResult result (λ found. AreTokens text.now found.items) (Refuses text.now) }
{
    let bytes = text.as_bytes();
    let mut found = Vec::new(alloc);
    let mut at = past_blanks(bytes, 0);
    while at < bytes.len() {
        let Some((kind, len)) = first_of(&bytes[at..]) else {
            return Err(LexErr::BadByte { at: at as u32 });
        };
        let end = at + len;
        found.push(Token {
            kind,
            at: at as u32,
            end: end as u32,
        })?;
        at = past_blanks(bytes, end);
    }
    Ok(found)
}

fn is_blank(b: u8) -> bool
    ensures { result ≡ is_a_blank b }
{
    b == b' ' || b == b'\t' || b == b'\r'
}

/// The first place from `from` on that is no blank, or the end.
fn past_blanks(bytes: &[u8], from: usize) -> usize
    requires { from ≤ length bytes.now }
    ensures blank { Blank bytes.now from result }
    ensures stops { result < length bytes.now → is_a_blank (slice_index bytes.now result) ≡ false }
{
    let mut at = from;
    while at < bytes.len() && is_blank(bytes[at]) {
        at += 1;
    }
    at
}
