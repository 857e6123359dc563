//! A text of few bytes, in place.

ghost use Rattle.std.specs.Prelude.{◌≡◌, ◌<◌, length, take};
ghost use Rattle.std.specs.Option.{MatchOption};
ghost use Rattle.std.specs.Prelude.{IsUtf8};

use std::marker::Model;
use std::str;

/// The greatest number of bytes that stand in place. With it a `Value` takes 24 bytes.
const MOST: usize = 14;

/// A text of at most 14 bytes, without memory of its own. Contracts see its bytes.
#[derive(Drop)]
pub(crate) struct Short {
    len: u8,
    bytes: [u8; 14],
}

impl Model for Short {
    ghost use Rattle.std.specs.Prelude.{◌≡◌, ◌≤◌, List, ℕ, IsUtf8, length, take};

    ghost Value = { List ℕ };

    ghost view = { λ s. take s.len s.bytes };

    ghost invariant = { λ s. (s.len ≤ 14) × (length s.bytes ≡ 14) × ∥ IsUtf8 (take s.len s.bytes) ∥₁ };
}

impl Short {
    /// The text, or `None` where it is longer than 14 bytes.
    pub(crate) fn new(text: &str) -> Option<Short>
        ensures { MatchOption result (14 < length text.now) (λ made. made ≡ text.now) }
    {
        let text = text.as_bytes();
        if text.len() > MOST {
            return None;
        }
        let mut bytes = [0; 14];
        bytes[..text.len()].copy_from_slice(text);
        Some(Short {
            len: text.len() as u8,
            bytes,
        })
    }

    /// The text.
    pub(crate) fn as_str(&self) -> &str
        ensures text { result.now ≡ self.now }
        ensures utf8 { IsUtf8 result.now }
    {
        // SAFETY: the bytes in front are those of a text.
        unsafe { str::from_utf8_unchecked(&self.bytes[..self.len as usize]) }
    }
}
