//! What the tokens of a text say.

ghost use Rattle.std.specs.Prelude.{◌≡◌, ℕ, List, [], ◌∷◌, ◌++◌, IfOk};
ghost use Rattle.std.specs.List.{All, flat_map};
ghost use Rattle.ov_lex.specs.Spellings.{IsSpelling, IsInRange, escaped};
ghost use Rattle.ov_lex.specs.declared.token.TokenKind.TheVariants as kinds;
ghost use Rattle.ov_lex.specs.Texts.{Stands, spelling_of};
ghost use Rattle.ov_model.specs.Grammar.{AllSay, Says, SpellingSays};
ghost use Rattle.ov_parse.specs.Unquoting.{Between, IsEscaped};

use crate::keywords::{keyword, sign};
use ov_lex::{Token, TokenKind};
use ov_model::Symbol;
use ov_value::Txt;
use std::alloc::{AllocError, Global};

/// What each token says.
pub(crate) fn symbols(
    alloc: Global,
    text: &str,
    tokens: &[Token],
) -> Result<Vec<Symbol>, AllocError>
    requires { All (Stands text.now) tokens.now }
    ensures { IfOk result (λ said. AllSay text.now tokens.now said.items) }
{
    let mut said = Vec::new(alloc);
    for token in tokens {
        said.push(symbol(alloc, text, token)?)?;
    }
    Ok(said)
}

fn symbol(alloc: Global, text: &str, token: &Token) -> Result<Symbol, AllocError>
    requires { Stands text.now token.now }
    ensures { IfOk result (Says text.now token.now) }
{
    said_by(alloc, token.kind, spelling(text, token))
}

/// The bytes of a token: each begins and ends with an ASCII byte, so no character is cut.
fn spelling<'a>(text: &'a str, token: &Token) -> &'a str
    requires { Stands text.now token.now }
    ensures value { result.now ≡ spelling_of text.now token.now }
    ensures spelled { IsSpelling token.now.kind result.now }
    ensures in_range { IsInRange token.now.kind result.now }
{
    let (front, _) = text.split_at(token.end as usize);
    let (_, spelled) = front.split_at(token.at as usize);
    spelled
}

fn said_by(alloc: Global, kind: TokenKind, spelling: &str) -> Result<Symbol, AllocError>
    requires spelled { IsSpelling kind spelling.now }
    requires in_range { IsInRange kind spelling.now }
    ensures { IfOk result (SpellingSays kind spelling.now) }
{
    match kind {
        TokenKind::Word => match keyword(spelling) {
            Some(word) => Ok(Symbol::Fixed(word)),
            None => Ok(Symbol::Name(Txt::new(alloc, spelling)?)),
        },
        TokenKind::Quoted => Ok(Symbol::Name(Txt::new(alloc, inside(spelling))?)),
        TokenKind::Number => Ok(number(spelling)),
        TokenKind::Text => Ok(Symbol::Text(unescaped(alloc, inside(spelling))?)),
        TokenKind::Sign => Ok(Symbol::Fixed(sign(spelling).unwrap())),
    }
}

/// A number and whether it has a minus sign.
fn number(spelling: &str) -> Symbol
    requires spelled { IsSpelling kinds.Number spelling.now }
    requires in_range { IsInRange kinds.Number spelling.now }
    ensures { SpellingSays kinds.Number spelling.now result }
{
    let minus = spelling.as_bytes()[0] == b'-';
    let value = spelling.parse::<i64>().unwrap();
    Symbol::Number { value, minus }
}

/// What stands between the quotes.
fn inside(spelling: &str) -> &str
    requires { Between spelling.now }
    ensures { (quote : ℕ) (inner : List ℕ) → spelling.now ≡ quote ∷ (inner ++ quote ∷ []) → result.now ≡ inner }
{
    let (front, _) = spelling.split_at(spelling.len() - 1);
    let (_, inner) = front.split_at(1);
    inner
}

/// The text that is spelled so between its quotes: two quotes stand for one.
fn unescaped(alloc: Global, inner: &str) -> Result<Txt, AllocError>
    requires { IsEscaped inner.now }
    ensures { IfOk result (λ text. inner.now ≡ flat_map escaped text) }
{
    let mut text = String::new(alloc);
    let mut rest = inner;
    let mut at = 0;
    while at < rest.len() {
        if rest.as_bytes()[at] == b'\'' {
            let (before, after) = rest.split_at(at + 1);
            text.push_str(before)?;
            let (_, behind) = after.split_at(1);
            rest = behind;
            at = 0;
        } else {
            at += 1;
        }
    }
    text.push_str(rest)?;
    Txt::from_string(text)
}
