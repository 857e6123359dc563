//! A word of a line.

ghost use Rattle.std.specs.Prelude.{◌≡◌, IsUtf8};

use ov_value::Txt;
use std::marker::Model;

// A slice of the line, or a text of its own where the word stood in quotes.
#[derive(Drop)]
pub(crate) enum Kept<'a> {
    Slice(&'a str),
    Own(Txt),
}

/// A word. Contracts see its text.
#[derive(Drop)]
pub(crate) struct Word<'a> {
    kept: Kept<'a>,
}

impl<'a> Model for Word<'a> {
    ghost use Rattle.std.specs.Prelude.{List, ℕ};

    ghost Value = { List ℕ };

    ghost use Rattle.ov_cmd.specs.Kept.{kept_text};

    ghost view = { λ w. kept_text w.kept };
}

impl<'a> Word<'a> {
    /// A word that is a slice of its line.
    pub(crate) fn slice(text: &'a str) -> Word<'a>
        ensures { result ≡ text.now }
    {
        Word {
            kept: Kept::Slice(text),
        }
    }

    /// A word with a text of its own.
    pub(crate) fn own(text: Txt) -> Word<'a>
        ensures { result ≡ text }
    {
        Word {
            kept: Kept::Own(text),
        }
    }

    /// Its text.
    pub(crate) fn as_str(&self) -> &str
        ensures { result.now ≡ self.now }
    {
        match &self.kept {
            Kept::Slice(text) => text,
            Kept::Own(text) => text.as_str(),
        }
    }
}
