//! The kinds and the spans of tokens, from the table of tokens read by a person. Where a text has none, scripts show.

use ov_lex::*;
use std::alloc::Global;
use std::test::Fail;

fn letter(kind: TokenKind) -> u8 {
    match kind {
        TokenKind::Word => b'w',
        TokenKind::Quoted => b'q',
        TokenKind::Number => b'n',
        TokenKind::Text => b't',
        TokenKind::Sign => b's',
    }
}

// Of each token of a text the letter of its kind and its spelling, with a bar behind it.
fn shown(alloc: Global, text: &str) -> Result<Vec<u8>, Fail> {
    if text.len() > 65_536 {
        return Err("a long text")?;
    }
    let found = tokens(alloc, text)?;
    let mut all = Vec::new(alloc);
    for token in &found {
        let spelled = text.as_bytes().get(token.at as usize..token.end as usize);
        all.push(letter(token.kind))?;
        all.extend_from_slice(spelled.unwrap_or(b"#"))?;
        all.push(b'|')?;
    }
    Ok(all)
}

const TEXTS: [(&str, &str); 19] = [
    ("", ""),
    (" \t\r", ""),
    ("SELECT * FROM CVD people", "wSELECT|s*|wFROM|wCVD|wpeople|"),
    ("vid,COUNT(*)", "wvid|s,|wCOUNT|s(|s*|s)|"),
    ("score>15", "wscore|s>|n15|"),
    ("a<=b", "wa|s<=|wb|"),
    ("a<>b!=c>=d", "wa|s<>|wb|s!=|wc|s>=|wd|"),
    ("d<e>f=g", "wd|s<|we|s>|wf|s=|wg|"),
    ("<<=>>=", "s<|s<=|s>|s>=|"),
    ("1-2", "n1|n-2|"),
    ("1a", "n1|wa|"),
    ("a1_b _c", "wa1_b|w_c|"),
    ("-9223372036854775808", "n-9223372036854775808|"),
    ("9223372036854775807", "n9223372036854775807|"),
    ("00009223372036854775807", "n00009223372036854775807|"),
    ("'it''s'''", "t'it''s'''|"),
    ("''", "t''|"),
    ("\"group\"\"by\"", "q\"group\"|q\"by\"|"),
    ("LEFT.x;'é'", "wLEFT|s.|wx|s;|t'é'|"),
];

#[test]
fn texts_and_their_tokens(rt: HostRuntime) -> Result<(), Fail> {
    for (text, wanted) in TEXTS {
        assert!(rt; shown(rt.alloc(), text)?.as_slice() == wanted.as_bytes());
    }
    Ok(())
}

// The first byte at which no token begins, of a text that has one.
fn first_bad(alloc: Global, text: &str) -> Option<u32> {
    if text.len() > 65_536 {
        return None;
    }
    match tokens(alloc, text) {
        Err(LexErr::BadByte { at }) => Some(at),
        _ => None,
    }
}

// No line of a script has a line feed.
#[test]
fn a_line_feed_begins_no_token(rt: HostRuntime) {
    assert!(rt; first_bad(rt.alloc(), "a\nb") == Some(1));
}
