//! Laws about the tokens of a text. Each is the contract of a function that does nothing.

ghost use Rattle.std.specs.Prelude.{◌≡◌, ℕ, List, MatchResult};
ghost use Rattle.ov_lex.specs.declared.token.Token.{Token as AToken};
ghost use Rattle.ov_lex.specs.Lexing.{tokens_of};
ghost use Rattle.ov_lex.specs.Texts.{AreTokens, IsBad};

/// A text has one list of tokens at most, and one bad byte.
pub fn one_list_of_tokens()
    ensures tokens { (text : List ℕ) (xs ys : List AToken) → AreTokens text xs → AreTokens text ys → xs ≡ ys }
    ensures bad { (text : List ℕ) (i j : ℕ) → IsBad text i → IsBad text j → i ≡ j }
{}

/// A text that has a bad byte has no tokens.
pub fn tokens_or_a_bad_byte()
    ensures { (text : List ℕ) (xs : List AToken) (at : ℕ) → AreTokens text xs → IsBad text at → ⊥ }
{}

/// A text has the tokens that `tokens_of` computes, or its first bad byte is at the place that it gives.
pub fn every_text_is_read()
    ensures { (text : List ℕ) → MatchResult (tokens_of text) (AreTokens text) (IsBad text) }
{}
