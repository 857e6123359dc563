//! The tokens of a query's text: words, quoted names, numbers, texts and signs.
//!
//! At each place the longest token counts, and spaces, tabs and carriage returns separate. The definitions stand in `specs/`:
//! what a token looks like in `Spellings`, the tokens of a whole text in `Texts`.
#![tactic(auto)]

mod laws;
mod lex;
mod spellings;
mod token;

pub use laws::{every_text_is_read, one_list_of_tokens, tokens_or_a_bad_byte};
pub use lex::tokens;
pub use token::{LexErr, Token, TokenKind};
