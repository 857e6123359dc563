//! From the tokens of a text to its query or join.

ghost use Rattle.std.specs.Prelude.{◌≡◌, MatchResult};
ghost use Rattle.ov_lex.specs.Texts.{AreTokens};
ghost use Rattle.ov_model.specs.Grammar.{Spells};
ghost use Rattle.ov_model.specs.JoinGrammar.{TokensSpellJoin};
ghost use Rattle.ov_parse.specs.declared.parsing.ParseErr.TheVariants.{Memory};
ghost use Rattle.ov_parse.specs.Refusing.{Refuses, RefusesJoin};

use crate::join::join;
use crate::query::query;
use crate::say::symbols;
use crate::stop::Stop;
use ov_lex::Token;
use ov_model::{JoinQuery, Query};
use std::alloc::{AllocError, Global};

/// Why tokens give no query, or no join.
#[derive(Drop)]
pub enum ParseErr {
    /// No query spells them; of `parse_join`, no join.
    NotAQuery,
    /// Memory was wanting.
    Memory,
}

impl From<AllocError> for ParseErr {
    ghost from_gives = { λ _ e. e ≡ Memory };

    fn from(_e: AllocError) -> ParseErr {
        ParseErr::Memory
    }
}

/// The query that the tokens of a text spell, in time linear in the text. NOT and parentheses may stand 100 deep in one
/// another; everything else is read without recursion.
pub fn parse(alloc: Global, text: &str, tokens: &[Token]) -> Result<Query, ParseErr>
    requires { AreTokens text.now tokens.now }
    ensures { MatchResult result (Spells text.now tokens.now) (Refuses text.now tokens.now) }
{
    let said = symbols(alloc, text, tokens)?;
    match query(alloc, said.as_slice()) {
        Ok(query) => Ok(query),
        Err(Stop::Unspelled) => Err(ParseErr::NotAQuery),
        Err(Stop::Memory) => Err(ParseErr::Memory),
    }
}

/// The join that the tokens of a text spell, as [`parse`] does. No tokens spell both a query and a join.
pub fn parse_join(alloc: Global, text: &str, tokens: &[Token]) -> Result<JoinQuery, ParseErr>
    requires { AreTokens text.now tokens.now }
    ensures { MatchResult result (TokensSpellJoin text.now tokens.now) (RefusesJoin text.now tokens.now) }
{
    let said = symbols(alloc, text, tokens)?;
    match join(alloc, said.as_slice()) {
        Ok(join) => Ok(join),
        Err(Stop::Unspelled) => Err(ParseErr::NotAQuery),
        Err(Stop::Memory) => Err(ParseErr::Memory),
    }
}
