// What a text comes to.

ghost use Rattle.std.specs.Prelude.{◌≡◌, ◌≤◌, List, IfOk, length};
ghost use Rattle.ov_lex.specs.Texts.{AreTokens};
ghost use Rattle.ov_lex.specs.declared.token.Token.{Token as TokenValue};
ghost use Rattle.ov_model.specs.Grammar.{Spells};
ghost use Rattle.ov_model.specs.QueryTexts.{asked_of};
ghost use Rattle.ov_model.specs.declared.query.Query.{Query as QueryValue};
ghost use Rattle.ov_query.specs.Asking.{IsReadOf};

use ov_lex::{LexErr, Token, tokens};
use ov_model::{JoinQuery, Query};
use ov_parse::{ParseErr, parse, parse_join};
use std::alloc::{AllocError, Global};

/// What the text of a run comes to.
#[derive(Drop)]
pub enum Read {
    /// This query.
    Query(Query),
    /// This join.
    Join(JoinQuery),
    /// No token begins at this byte.
    BadByte { at: u32 },
    /// Its tokens spell neither a query nor a join.
    NoQuery,
}

#[tactic(auto, using(crate::proofs::Asked::is_bad, crate::proofs::Asked::is_query))]
/// What a text comes to, in time linear in the text.
pub fn read_text(alloc: Global, text: &str) -> Result<Read, AllocError>
    requires { length text.now ≤ 65536 }
    ensures { IfOk result (IsReadOf (asked_of text.now)) }
{
    let held = match tokens(alloc, text) {
        Ok(held) => held,
        Err(LexErr::BadByte { at }) => return Ok(Read::BadByte { at }),
        Err(LexErr::Memory) => return Err(AllocError),
    };
    let found = held.as_slice();
    match parse(alloc, text, found) {
        Ok(query) => Ok(Read::Query(query)),
        Err(ParseErr::NotAQuery) => read_join(alloc, text, found),
        Err(ParseErr::Memory) => Err(AllocError),
    }
}

#[tactic(auto, using(crate::proofs::Asked::is_join))]
// What tokens come to that spell no query.
fn read_join(alloc: Global, text: &str, found: &[Token]) -> Result<Read, AllocError>
    requires tokens { AreTokens text.now found.now }
    requires none { (query : QueryValue) → Spells text.now found.now query → ⊥ }
    ensures { IfOk result (IsReadOf (asked_of text.now)) }
{
    match parse_join(alloc, text, found) {
        Ok(join) => Ok(Read::Join(join)),
        Err(ParseErr::NotAQuery) => Ok(Read::NoQuery),
        Err(ParseErr::Memory) => Err(AllocError),
    }
}
