//! A token and its place.

ghost use Rattle.std.specs.Prelude.{◌≡◌};
ghost use Rattle.ov_lex.specs.declared.token.LexErr.TheVariants.{Memory};

use std::alloc::{AllocError, AllocFailed};

/// What a token is.
#[derive(Clone, Copy, PartialEq, Eq)]
pub enum TokenKind {
    /// A letter or an underscore, then letters, digits and underscores, all ASCII: a keyword or a name.
    Word,
    /// A name between double quotes, at least one byte, none of them a double quote.
    Quoted,
    /// Digits, behind a minus sign or not, from -2^63 to 2^63 - 1.
    Number,
    /// A text between single quotes, where two stand for one.
    Text,
    /// One of `*` `,` `(` `)` `;` `.` `=` `<>` `!=` `<` `<=` `>` `>=`.
    Sign,
}

/// A token of a text: its kind, and its spelling, which is the text's bytes from `at` up to `end`, `end` left out.
#[derive(Clone, Copy, PartialEq, Eq)]
pub struct Token {
    pub kind: TokenKind,
    /// Its first byte, counted from 0.
    pub at: u32,
    /// One past its last byte.
    pub end: u32,
}

/// Why a text has no tokens.
#[derive(Debug, Drop)]
pub enum LexErr {
    /// No token begins at this byte, counted from 0, and it is the first such one.
    BadByte { at: u32 },
    /// Memory was wanting.
    Memory,
}

impl From<AllocError> for LexErr {
    ghost from_gives = { λ _ e. e ≡ Memory };

    fn from(_e: AllocError) -> LexErr {
        LexErr::Memory
    }
}

impl<T: Drop> From<AllocFailed<T>> for LexErr {
    ghost from_gives = { λ _ e. e ≡ Memory };

    fn from(_e: AllocFailed<T>) -> LexErr {
        LexErr::Memory
    }
}
